// The strip type, with the calls. No call requires anything.
ghost use Rattle.std.specs.Prelude.{◌≡◌, ℕ, length};
ghost use Rattle.tree.specs.Shape.{height, root_place, ranked};
ghost use Rattle.strip.specs.Refusals.{outcome};
ghost use Rattle.strip.specs.Calls.{pack_of, pack_output, access_of, access_in, search_of, search_in, up_to_of, sweep_of, sweep_output, check_of, unpack_of, unpack_output, repeat_of, step_in, moved_by, step_of, next_of};

use super::lists::first_lower;
use super::open::Open;
use super::opening::opening_of;
use super::packing::Tune;
use super::refusals::Refusal;
use super::walker::Moved;
use tree::{Found, GREATEST};

#[derive(Clone, Copy, Debug, PartialEq, Eq)]
pub struct Strip {}

impl Open<'_> {
    // An access.
    fn access(&self, i: usize) -> Result<Found, Refusal>
        ensures { outcome result ≡ access_in self.now.tree.bytes.now i self.now.tree.levels }
    {
        if i >= self.tree.levels.pins {
            return Err(Refusal::Position);
        }
        Ok(self.tree.access(i)?)
    }

    // A step of a pin walker.
    fn step(&self, next: usize) -> Moved
        ensures step_value { outcome result.step ≡ step_in self.now.tree.bytes.now next self.now.tree.levels }
        ensures next_value { result.next ≡ moved_by (step_in self.now.tree.bytes.now next self.now.tree.levels) next }
    {
        if next >= self.tree.levels.pins {
            return Moved {
                step: Ok(None),
                next,
            };
        }
        match self.access(next) {
            Ok(found) => Moved {
                step: Ok(Some(found)),
                next: next + 1,
            },
            Err(r) => Moved { step: Err(r), next },
        }
    }

    // A search.
    fn search(&self, target: u32) -> Result<Found, Refusal>
        ensures { outcome result ≡ search_in self.now.tree.bytes.now target self.now.tree.levels }
    {
        Ok(self.tree.search(target)?)
    }
}

impl Strip {
    // The greatest pin count and the greatest height.
    pub const MAX_PINS: usize = 65535;

    pub const MAX_HEIGHT: usize = 16;

    // The most pins of a list that is short: it is worked on in arrays of this length.
    pub(crate) const SHORT_PINS: usize = 1023;

    // The entries that encoding works in for so many pins, and for the most: half as many, rounded up.
    pub(crate) const SHORT_WORK: usize = Strip::SHORT_PINS / 2 + 1;

    pub(crate) const MAX_WORK: usize = Strip::MAX_PINS / 2 + 1;

    // A sweep of so many targets or more has marks.
    pub(crate) const MARKED_TARGETS: usize = 64;

    // Its marks: for each of 16 levels and 32 layers two. A value has more layers only by chunks of zeros on top.
    pub(crate) const MARKS: usize = 1024;

    // The height of n pins.
    pub fn height(n: usize) -> usize
        ensures { result ≡ height n }
    {
        tree::height(n)
    }

    // The root's place in a list of n, counted from 1; 0 for an empty list.
    pub fn root_place(n: usize) -> usize
        ensures { result ≡ root_place n }
    {
        tree::root_place(n)
    }

    // The position of node v in a list of n, or none where v is no node.
    pub fn rank(n: usize, v: usize) -> Option<usize>
        ensures { result ≡ ranked n v }
    {
        tree::rank(n, v)
    }

    // Writes the image of a list to the front of the output, and gives its length in bytes.
    pub fn pack(out: &mut [u8], times: &[u32]) -> Result<usize, Refusal>
        ensures result_value { outcome result ≡ pack_of times.now (length out.old) }
        ensures out_after { out.new ≡ pack_output times.now out.old }
    {
        let n = times.len();
        if n == 0 {
            return Err(Refusal::Empty);
        }
        if n > Strip::MAX_PINS {
            return Err(Refusal::TooMany);
        }
        let lower = first_lower(times);
        if lower < n {
            return Err(Refusal::ListFalls(lower));
        }
        Tune { times }.pack(out, Strip::SHORT_PINS)
    }

    // The time at position i, with the nodes opened.
    pub fn access(s: &[u8], i: usize) -> Result<Found, Refusal>
        ensures { outcome result ≡ access_of s.now i }
    {
        let strip = opening_of(s)?;
        strip.access(i)
    }

    // The number of strikes before the target, on an accepted strip, with the nodes opened.
    pub fn search(s: &[u8], target: u32) -> Result<Found, Refusal>
        ensures { outcome result ≡ search_of s.now target }
    {
        let strip = opening_of(s)?;
        strip.search(target)
    }

    // The number of strikes at or before time t, on an accepted strip, with the nodes opened.
    pub fn up_to(s: &[u8], t: u32) -> Result<Found, Refusal>
        ensures { outcome result ≡ up_to_of s.now t }
    {
        let strip = opening_of(s)?;
        if t == GREATEST {
            return Ok(Found {
                value: strip.tree.levels.pins,
                nodes: 0,
            });
        }
        strip.search(t + 1)
    }

    // Looks targets up, none less than the one before, in one walk, and writes the position of each. Gives the nodes opened in all.
    pub fn sweep(answers: &mut [u32], s: &[u8], targets: &[u32]) -> Result<usize, Refusal>
        ensures result_value { outcome result ≡ sweep_of s.now targets.now (length answers.old) }
        ensures answers_after { answers.new ≡ sweep_output s.now targets.now answers.old }
    {
        let strip = opening_of(s)?;
        strip.sweep(answers, targets)
    }

    // The pin count of a strip that some list packs to; any other is refused.
    pub fn check(s: &[u8]) -> Result<usize, Refusal>
        ensures { outcome result ≡ check_of s.now }
    {
        let strip = opening_of(s)?;
        strip.check()
    }

    // Writes the list that packs to the strip to the front of the output, and gives the pin count.
    pub fn unpack(out: &mut [u32], s: &[u8]) -> Result<usize, Refusal>
        ensures result_value { outcome result ≡ unpack_of s.now (length out.old) }
        ensures out_after { out.new ≡ unpack_output s.now out.old }
    {
        let strip = opening_of(s)?;
        strip.unpack(out)
    }

    // The first position whose time is less than r milliseconds after the one before, or none.
    pub fn repeat(s: &[u8], r: u32) -> Result<Option<usize>, Refusal>
        ensures { outcome result ≡ repeat_of s.now r }
    {
        let strip = opening_of(s)?;
        strip.repeat(r)
    }

    // A step of a pin walker at the next position, and the position after it.
    pub fn step(s: &[u8], next: usize) -> Moved
        ensures step_value { outcome result.step ≡ step_of s.now next }
        ensures next_value { result.next ≡ next_of s.now next }
    {
        match opening_of(s) {
            Ok(strip) => strip.step(next),
            Err(r) => Moved { step: Err(r), next },
        }
    }
}
