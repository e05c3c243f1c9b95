// The code with fewest bits.
ghost use Rattle.std.specs.Prelude.{◌≡◌, ℕ, ◌+◌, ◌*◌, ◌^◌, ◌<◌, ◌≤◌, List, length, slice_index};
ghost use Rattle.codes.specs.Choice.{widest, offer, better, best_chunked, chosen};
ghost use Rattle.codes.specs.Measure.{Measured};

use super::measuring::measure;

// A code with its size in bits.
#[derive(Clone, Copy, Debug, PartialEq, Eq)]
pub struct Choice {
    pub code: u8,
    pub size: usize,
}

impl Choice {
    // The other one where it has fewer bits.
    fn better(self, other: Choice) -> Choice
        ensures { result ≡ better self other }
    {
        if other.size < self.size { other } else { self }
    }
}

// How many values there are, and how many of them have more than t bits, for t from 0 to 32.
#[derive(Drop)]
struct Widths {
    count: usize,
    over: [usize; 33],
    ghost few: { count < 2 ^ 32 },
    ghost parts: { (t : ℕ) → slice_index over t ≤ count },
}

impl Widths {
    // The least width that holds every value: none has more bits.
    fn widest(&self) -> usize
        ensures { (result ≤ 32) × ((vs : List ℕ) → Measured vs self.now.over → result ≡ widest vs) }
    {
        self.over.iter().position(|n| *n == 0).unwrap_or(32)
    }

    // The fixed code of the least width.
    fn fixed(&self) -> Choice
        ensures { (vs : List ℕ) → Measured vs self.now.over → length vs ≡ self.now.count → result ≡ offer (widest vs) vs }
    {
        let w = self.widest();
        Choice {
            code: w as u8,
            size: self.count * w,
        }
    }

    // The chunked code with `b` bits in a chunk: the first layer has all values, the layer from bit `s` of each on those that have more than
    // `s` bits.
    fn chunked(&self, b: usize) -> Choice
        requires { (1 ≤ b) × (b ≤ 8) }
        ensures { (vs : List ℕ) → Measured vs self.now.over → length vs ≡ self.now.count → result ≡ offer (64 + b) vs }
    {
        let mut chunks = self.count;
        for s in (b..32).step_by(b) {
            chunks += self.over[s];
        }
        Choice {
            code: 64 + b as u8,
            size: chunks * (b + 1),
        }
    }

    // The chunked code with fewest bits, on a tie the one with the smaller b.
    fn best_chunked(&self) -> Choice
        ensures { (vs : List ℕ) → Measured vs self.now.over → length vs ≡ self.now.count → result ≡ best_chunked 7 vs }
    {
        let mut best = self.chunked(1);
        for b in 2..9 {
            best = best.better(self.chunked(b));
        }
        best
    }
}

// The code with fewest bits before padding, on a tie the fixed one.
pub fn choose(values: &[u32]) -> Choice
    requires { length values.now < 2 ^ 32 }
    ensures { result ≡ chosen values.now }
{
    let widths = Widths {
        count: values.len(),
        over: measure(values),
    };
    widths.fixed().better(widths.best_chunked())
}
