// One value of a level, from the level's part alone.
ghost use Rattle.std.specs.Prelude.{◌≡◌, ◌+◌, ◌*◌, ◌^◌, ◌<◌, ◌≤◌, length, take, drop};
ghost use Rattle.codes.specs.Bits.{number, bits_of};
ghost use Rattle.codes.specs.declared.kinds.Kind.TheVariants.{Fixed};
ghost use Rattle.codes.specs.Codes.{kind_of};
ghost use Rattle.codes.specs.Fetch.{value, found, fixed_at, chunked_at, within32, fetched, Inside, short_fetched, NextLayer};
ghost use Rattle.codes.specs.Marks.{Marks};

use super::kinds::Kind;
use super::marking::{Mark, count_on};
use super::part::Part;
use super::reading::{read, read_short};

// A layer of a chunked level: the bit where it begins, how many values it has, which of them is fetched, and the first of its two marks.
#[derive(Clone, Copy)]
struct Layer {
    at: usize,
    count: usize,
    index: usize,
    mark: usize,
}

// Value `index` of a fixed code of width `w`.
fn fetch_fixed(part: Part<'_>, w: usize, index: usize) -> u32
    requires { (w ≤ 32) × Inside (Fixed w) index (length part.bytes.now) }
    ensures { value result ≡ fixed_at w index (bits_of part.entry.bytes.now) }
{
    if w == 0 {
        return 0;
    }
    read(part.bytes, index * w, w) as u32
}

// The `b` bits from bit `at` on, `shift` bits up.
fn chunk_at(part: &[u8], at: usize, b: usize, shift: usize) -> u64
    requires le_b { (1 ≤ b) × (b ≤ 8) × (shift ≤ 32) }
    requires b_in_bounds { at + b ≤ length part.now * 8 }
    ensures { (result < 2 ^ 40) × (result ≡ number (take b (drop at (bits_of part.now))) * 2 ^ shift) }
{
    read(part, at, b) << shift
}

// The layer after one that lies whole in the part: its values are those whose continuation bit is 1. The first mark of the one counts those
// before the value, and the second those of the whole layer.
fn next_layer(marks: &mut [Mark], part: Part<'_>, b: usize, layer: Layer) -> Layer
    requires b_bound { (b ≤ 8) × (layer.index ≤ layer.count) × (layer.mark < 2 ^ 40) }
    requires b_in_bounds { layer.at + layer.count + layer.count * b ≤ length part.bytes.now * 8 }
    requires marks { Marks part.bytes.now marks.old }
    ensures next_layer { NextLayer b (bits_of part.entry.bytes.now) layer result }
    ensures marks_2 { Marks part.entry.bytes.now marks.new }
{
    let chunks = layer.at + layer.count;
    let none = Mark {
        from: layer.at,
        to: layer.at,
        ones: 0,
    };
    let before = count_on(marks, layer.mark, part, none, layer.at + layer.index);
    let all = count_on(marks, layer.mark + 1, part, before, chunks);
    Layer {
        at: chunks + layer.count * b,
        count: all.ones,
        index: before.ones,
        mark: layer.mark + 2,
    }
}

// Value `index` of `count` in the layers of b-bit chunks that the part begins with; none where it passes the part or is 2^32 or more. Above
// 32 bits only zeros are left, so the shift stops there.
fn fetch_chunked(
    marks: &mut [Mark],
    part: Part<'_>,
    b: usize,
    count: usize,
    index: usize,
) -> Option<u32>
    requires le_b { (1 ≤ b) × (b ≤ 8) × (index < count) }
    requires marks { Marks part.bytes.now marks.old }
    ensures result_value { found result ≡ within32 (chunked_at b count index (bits_of part.entry.bytes.now)) }
    ensures marks_2 { Marks part.entry.bytes.now marks.new }
{
    let end = part.bytes.len() * 8;
    if end < count {
        return None;
    }
    let mut layer = Layer {
        at: 0,
        count,
        index,
        mark: 0,
    };
    let mut shift: usize = 0;
    let mut acc: u64 = 0;
    while layer.count + layer.count * b <= end - layer.at {
        acc += chunk_at(
            part.bytes,
            layer.at + layer.count + layer.index * b,
            b,
            shift,
        );
        let value = u32::try_from(acc).ok()?;
        if read(part.bytes, layer.at + layer.index, 1) == 0 {
            return Some(value);
        }
        layer = next_layer(marks, part, b, layer);
        shift = (shift + b).min(32);
    }
    None
}

// Value `index` of a level of `count` values, in code `code`, from the level's part alone, in which a fixed value lies; none where a chunked
// one passes its part or is 2^32 or more. Any number of marks serves, also none; at first they are all `Mark::NONE`. Fetches of rising
// indices with the same marks count each continuation bit at most twice: in its layer's total, and before a value.
pub fn fetch(
    marks: &mut [Mark],
    part: Part<'_>,
    code: u8,
    count: usize,
    index: usize,
) -> Option<u32>
    requires { (index < count) × Marks part.bytes.now marks.old × Inside (kind_of code) index (length part.bytes.now) }
    ensures result_value { found result ≡ fetched code count index part.entry.bytes.now }
    ensures marks { Marks part.entry.bytes.now marks.new }
{
    match Kind::from(code) {
        Kind::Fixed(w) => Some(fetch_fixed(part, w, index)),
        Kind::Chunked(b) => fetch_chunked(marks, part, b, count, index),
        Kind::Refused => None,
    }
}

// Value `index` of a level in a fixed code of at most 25 bits, where the part has 4 bytes or more; else none, which says nothing. It is short
// enough to stand in a walk's loop; `fetch` has every value. The number of values is no matter.
pub fn fetch_short(part: Part<'_>, code: u8, index: usize) -> Option<u32>
    requires { (index < 2 ^ 32) × Inside (kind_of code) index (length part.bytes.now) }
    ensures { result ≡ short_fetched code index part.entry.bytes.now }
{
    match Kind::from(code) {
        Kind::Fixed(w) => {
            if w > 25 {
                return None;
            }
            if part.bytes.len() < 4 {
                return None;
            }
            Some(read_short(part.bytes, index * w, w))
        }
        Kind::Chunked(_) => None,
        Kind::Refused => None,
    }
}
