// The pin walker.
ghost use Rattle.std.specs.Prelude.{◌≡◌};
ghost use Rattle.strip.specs.Refusals.{outcome};
ghost use Rattle.strip.specs.Calls.{walker_step, walker_after};

use super::refusals::Refusal;
use super::strip::Strip;
use tree::Found;

// What a step says, the time at the next position with the nodes opened, or none at the end; and the next position after it.
#[derive(Clone, Copy, Debug, PartialEq, Eq)]
pub struct Moved {
    pub step: Result<Option<Found>, Refusal>,
    pub next: usize,
}

// The strip that is walked, and the next position, which may be set to any number.
#[derive(Clone, Copy, Debug, PartialEq, Eq)]
pub struct Walker<'a> {
    pub strip: &'a [u8],
    pub next: usize,
}

impl<'a> Walker<'a> {
    // A walker at the start of a strip.
    pub fn new(strip: &'a [u8]) -> Walker<'a>
        ensures { result ≡ record { strip = strip.entry; next = 0 } }
    {
        Walker { strip, next: 0 }
    }

    // Says the time at the next position and moves on. End and refusals do not move it.
    pub fn step(&mut self) -> Result<Option<Found>, Refusal>
        ensures result_value { outcome result ≡ walker_step self.old }
        ensures self_after { self.new ≡ walker_after self.old }
    {
        let moved = Strip::step(self.strip, self.next);
        self.next = moved.next;
        moved.step
    }
}
