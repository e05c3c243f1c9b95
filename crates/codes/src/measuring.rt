// How many bits the values have.
ghost use Rattle.std.specs.Prelude.{◌≡◌, ℕ, ◌+◌, ◌^◌, ◌<◌, ◌≤◌, List, [], ◌∷◌, length, slice_index};
ghost use Rattle.codes.specs.Measure.{tally, counted, Tallied, Measured};

// How many values have each number of zero bits above their highest one bit: the sum of four arrays, since counts in one array wait for each
// other where they are of one entry.
#[derive(Drop)]
struct Counts {
    first: [u32; 33],
    second: [u32; 33],
    third: [u32; 33],
    fourth: [u32; 33],
}

impl Counts {
    // How many values have more than t bits, for t from 0 to 32: one with t bits has 32 - t zero bits above them.
    fn sums(&self) -> [usize; 33]
        requires { (z : ℕ) → counted self.now z < 2 ^ 32 }
        ensures { (vs : List ℕ) → Tallied vs self.now → Measured vs result }
    {
        let mut over = [0usize; 33];
        for t in (0..32).rev() {
            let z = 31 - t;
            let here = self.first[z] + self.second[z] + (self.third[z] + self.fourth[z]);
            over[t] = over[t + 1] + here as usize;
        }
        over
    }
}

// One value more with as many zero bits above its highest one bit.
fn count(counts: &mut [u32; 33], v: u32)
    requires { (z : ℕ) → slice_index counts.old z + 1 < 2 ^ 32 }
    ensures { (z : ℕ) → slice_index counts.new z ≡ slice_index counts.old z + tally z (v ∷ []) }
{
    counts[v.leading_zeros() as usize] += 1;
}

// How many of the values have each number of zero bits above their highest one bit.
fn tally(values: &[u32]) -> [u32; 33]
    requires { length values.now < 2 ^ 32 }
    ensures { (z : ℕ) → slice_index result z ≡ tally z values.now }
{
    let mut counts = [0u32; 33];
    for &v in values {
        count(&mut counts, v);
    }
    counts
}

// Of each four values one is counted in each array. The values over a whole number of fours, at the end, are counted first.
pub(crate) fn measure(values: &[u32]) -> [usize; 33]
    requires { length values.now < 2 ^ 32 }
    ensures { Measured values.now result }
{
    let (fours, rest) = values.as_chunks::<4>();
    let mut counts = Counts {
        first: tally(rest),
        second: [0; 33],
        third: [0; 33],
        fourth: [0; 33],
    };
    for [a, b, c, d] in fours {
        count(&mut counts.first, *a);
        count(&mut counts.second, *b);
        count(&mut counts.third, *c);
        count(&mut counts.fourth, *d);
    }
    counts.sums()
}
