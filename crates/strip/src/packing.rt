// Packing: the plan of an image, then the image where there is room for it. Values and the array to work in are borrowed; so that the values are
// fewer than 2^16, and that there is room to work in, is asked by each function.
ghost use Rattle.std.specs.Prelude.{◌≡◌, ◌+◌, ◌*◌, ◌^◌, ◌<◌, ◌≤◌, T, length};
ghost use Rattle.tree.specs.Lists.{ordered};
ghost use Rattle.strip.specs.Image.{planned, strip_of};
ghost use Rattle.strip.specs.Calls.{room_for, written};
ghost use Rattle.strip.specs.Layout.{max_pins};
ghost use Rattle.strip.specs.Refusals.{outcome};
ghost use Rattle.strip.specs.Written.{pack_in, pack_over};

use super::layout::no_levels;
use super::refusals::Refusal;
use super::strip::Strip;
use super::writing::put_strip;
use tree::Levels;

// A list that packs where it has a time: ordered, and no longer than the longest.
#[derive(Clone, Copy)]
pub(crate) struct Tune<'a> {
    pub(crate) times: &'a [u32],
    ghost in_order: { T (ordered times.now) },
    ghost few: { length times.now ≤ max_pins },
}

// Where the levels of the image lie: each takes the code with fewest bits.
fn plan(values: &[u32]) -> Levels
    requires { length values.now < 2 ^ 16 }
    ensures { result ≡ planned values.now }
{
    let n = values.len();
    let mut levels = no_levels(n);
    let mut end = levels.ends[0];
    for d in 0..tree::height(n) {
        let choice = codes::choose(tree::level_values(values, d));
        end += (choice.size + 7) / 8;
        levels.codes[d] = choice.code;
        levels.ends[d + 1] = end;
    }
    levels
}

// Packs the values of a tree, in node order, where the output has room.
fn pack_values(out: &mut [u8], work: &mut [u32], values: &[u32]) -> Result<usize, Refusal>
    requires { (length values.now < 2 ^ 16) × (length values.now + 1 ≤ 2 * length work.old) }
    ensures result_value { outcome result ≡ room_for (length out.old) (length (strip_of values.now)) }
    ensures out_after { out.new ≡ written (room_for (length out.old) (length (strip_of values.now))) (strip_of values.now) out.old }
{
    let levels = plan(values);
    let h = tree::height(levels.pins);
    let end = levels.ends[h];
    if out.len() < end {
        return Err(Refusal::Short(end));
    }
    put_strip(out, work, values, levels);
    Ok(end)
}

impl Tune<'_> {
    // Packs the list, where the output has room. The values stand in one lent array, and encoding works in another.
    fn pack_in(self, out: &mut [u8], values: &mut [u32], work: &mut [u32]) -> Result<usize, Refusal>
        requires { (length self.times.now ≤ length values.old) × (length self.times.now + 1 ≤ 2 * length work.old) }
        ensures result_value { outcome result ≡ pack_in self.entry.times.now (length out.old) }
        ensures out_after { out.new ≡ pack_over self.entry.times.now out.old }
    {
        let n = self.times.len();
        tree::construct(values, self.times);
        pack_values(out, work, &values[..n])
    }

    // Packs a list of at most N pins, in arrays that are made here.
    fn pack_within<const N: usize, const WORK: usize>(
        self,
        out: &mut [u8],
    ) -> Result<usize, Refusal>
        requires { (length self.times.now ≤ N) × (N ≤ max_pins) × (N + 1 ≤ 2 * WORK) × (WORK ≤ N) }
        ensures result_value { outcome result ≡ pack_in self.entry.times.now (length out.old) }
        ensures out_after { out.new ≡ pack_over self.entry.times.now out.old }
    {
        let mut values = [0u32; N];
        let mut work = [0u32; WORK];
        self.pack_in(out, &mut values, &mut work)
    }

    // Packs the list, where the output has room. `most` tells the arrays: `SHORT_PINS` the short ones, any other number those for the
    // longest list, which a list of more pins takes. The compiler joins no function with large arrays into one that calls itself: so a
    // short list takes a short stack.
    pub(crate) fn pack(self, out: &mut [u8], most: usize) -> Result<usize, Refusal>
        ensures result_value { outcome result ≡ pack_in self.entry.times.now (length out.old) }
        ensures out_after { out.new ≡ pack_over self.entry.times.now out.old }
    {
        if self.times.len() > most {
            return self.pack(out, Strip::MAX_PINS);
        }
        if most == Strip::SHORT_PINS {
            return self.pack_within::<{ Strip::SHORT_PINS }, { Strip::SHORT_WORK }>(out);
        }
        self.pack_within::<{ Strip::MAX_PINS }, { Strip::MAX_WORK }>(out)
    }
}
