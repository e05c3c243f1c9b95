// The bytes of a strip, written piece by piece: header, entries, parts. The output and the array to work in are borrowed by each: a struct that
// held them would have to promise at each step that they are still the same buffers. So that the values are fewer than 2^16 is asked by
// each, too.
ghost use Rattle.std.specs.Prelude.{◌≡◌, ℕ, ◌+◌, ◌*◌, ◌^◌, ◌<◌, ◌≤◌, length, get_or};
ghost use Rattle.codes.specs.Lists.{at_front, replaced};
ghost use Rattle.tree.specs.Shape.{height};
ghost use Rattle.strip.specs.Layout.{max_height, header, entry, parts_start};
ghost use Rattle.strip.specs.Image.{part_for, planned, joined, strip_of};
ghost use Rattle.strip.specs.Written.{entry_in};

use tree::Levels;

// Writes the mark, the version and the pin count.
fn put_header(out: &mut [u8], n: u16)
    requires { 7 ≤ length out.old }
    ensures { out.new ≡ replaced out.old 0 (header n) }
{
    out[..3].copy_from_slice(b"PIN");
    out[3..5].copy_from_slice(&1u16.to_be_bytes());
    out[5..7].copy_from_slice(&n.to_be_bytes());
}

// Writes a level's code byte and the length of its part, from byte `at` on.
fn put_entry(out: &mut [u8], at: usize, code: u8, bytes: u32)
    requires { at + 5 ≤ length out.old }
    ensures { out.new ≡ replaced out.old at (entry code bytes) }
{
    out[at] = code;
    out[at + 1..at + 5].copy_from_slice(&bytes.to_be_bytes());
}

// Writes the entries of the levels after the header.
fn put_entries(out: &mut [u8], levels: Levels)
    requires pins_bound { (height levels.pins ≤ max_height) × (parts_start levels.pins ≤ length out.old) }
    requires by_index { (d : ℕ) → d < height levels.pins → (get_or levels.ends d 0 ≤ get_or levels.ends (d + 1) 0)
        × (get_or levels.ends (d + 1) 0 < get_or levels.ends d 0 + 2 ^ 32) }
    ensures { out.new ≡ replaced out.old 7 (joined (entry_in levels) (height levels.pins)) }
{
    for d in 0..tree::height(levels.pins) {
        let start = levels.ends[d];
        let end = levels.ends[d + 1];
        let code = levels.codes[d];
        put_entry(out, 7 + 5 * d, code, (end - start) as u32);
    }
}

// Writes the parts of the levels after the entries. Half as many entries as there are values, rounded up, are enough to work in,
// since no level has more.
fn put_parts(out: &mut [u8], work: &mut [u32], values: &[u32], levels: Levels)
    requires values_len_bound { (length values.now < 2 ^ 16) × (length values.now + 1 ≤ 2 * length work.old) × (levels ≡ planned values.now) }
    requires values_in_bounds { length (strip_of values.now) ≤ length out.old }
    ensures { out.new ≡ replaced out.old (parts_start levels.pins) (joined (part_for values.now) (height levels.pins)) }
{
    for d in 0..tree::height(levels.pins) {
        let start = levels.ends[d];
        let code = levels.codes[d];
        codes::encode(&mut out[start..], work, tree::level_values(values, d), code);
    }
}

// Writes the strip of the values to the front.
pub(crate) fn put_strip(out: &mut [u8], work: &mut [u32], values: &[u32], levels: Levels)
    requires values_len_bound { (length values.now < 2 ^ 16) × (length values.now + 1 ≤ 2 * length work.old) × (levels ≡ planned values.now) }
    requires values_in_bounds { length (strip_of values.now) ≤ length out.old }
    ensures { out.new ≡ at_front (strip_of values.now) out.old }
{
    put_header(out, levels.pins as u16);
    put_entries(out, levels);
    put_parts(out, work, values, levels);
}
