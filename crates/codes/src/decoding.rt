// All values of a level at once, from the level's part alone. Values and part are passed side by side: a struct that borrowed the values would
// have to promise at each step that they are still the same buffer.
ghost use Rattle.std.specs.Prelude.{◌≡◌, ℕ, ◌+◌, ◌-◌, ◌*◌, ◌%◌, ◌^◌, ◌<◌, ◌≤◌, List, length, take, drop};
ghost use Rattle.codes.specs.Bits.{number, sum, bits_of};
ghost use Rattle.codes.specs.Decode.{merged, from_one, decoded_layers, kind_decoded, decoded, is_decoded, decoded_or0};
ghost use Rattle.codes.specs.Merging.{InPart, FixedTo, continuations_at, chunks_at, Small, GroupNext, GroupMerged, Says};
ghost use Rattle.codes.specs.declared.kinds.Kind.TheVariants.{Fixed};

use super::counting::count_ones;
use super::kinds::Kind;
use super::layering::Radix;
use super::part::Part;
use super::reading::{low_bits, read, read_word};

// A value of 32 bits has at most 32 chunks.
const LAYERS: usize = 32;

// Writes `K` values of width `w` from value `i` on, the last `K` that `x` has.
fn put_group<const K: usize>(values: &mut [u32], w: usize, i: usize, x: u64)
    requires { (w ≤ 32) × (K * w ≤ 56) × (i + K ≤ length values.old) }
    ensures { (bytes : List ℕ) → i * w + K * w ≤ length bytes * 8 → x % 2 ^ (K * w) ≡ number (take (K * w) (drop (i * w) (bits_of bytes)))
        → FixedTo w bytes values.old i → FixedTo w bytes values.new (i + K) }
{
    for j in 0..K {
        values[i + j] = low_bits(x >> ((K - 1 - j) * w), w) as u32;
    }
}

// The values from value `from` on in groups of `K`, where one read has a group: all but the last few. Gives up to where values are written.
fn decode_by<const K: usize>(values: &mut [u32], part: &[u8], w: usize, from: usize) -> usize
    requires { (1 ≤ K) × (K ≤ 4) × InPart w (length values.old) part.now × (from ≤ length values.old) × FixedTo w part.now values.old from }
    ensures { (result ≤ length values.old) × (K * w ≤ 56 → length values.old < result + K) × FixedTo w part.now values.new result }
{
    let width = K * w;
    if width > 56 {
        return from;
    }
    let groups = (values.len() - from) / K;
    for group in 0..groups {
        let i = from + group * K;
        put_group::<K>(values, w, i, read_word(part, i * w, width));
    }
    from + groups * K
}

// The values of a fixed code of width `w`.
fn decode_fixed(values: &mut [u32], part: Part<'_>, w: usize) -> Option<()>
    requires { (w ≤ 32) × (length values.old < 2 ^ 32) }
    ensures { Says (kind_decoded (Fixed w) (length values.old) (bits_of part.entry.bytes.now)) result values.new }
{
    if part.bytes.len() * 8 < values.len() * w {
        return None;
    }
    if w == 0 {
        values.fill(0);
        return Some(());
    }
    let fours = decode_by::<4>(values, part.bytes, w, 0);
    let twos = decode_by::<2>(values, part.bytes, w, fours);
    decode_by::<1>(values, part.bytes, w, twos);
    Some(())
}

// Whether each value is at least 1 and below 2 to the power of 32 - b, so that a chunk of b bits more leaves it a value. Of such a value one
// less is below that, too; of 0 it wraps and has all bits. So one word tells of all, and there is no branch for each.
fn all_small(values: &[u32], radix: Radix) -> bool
    ensures { result ≡ from_one (2 ^ (32 - radix.bits)) values.now }
{
    let mut joined: u32 = 0;
    for &v in values {
        joined |= v | v.wrapping_sub(1);
    }
    joined >> (32 - radix.bits) == 0
}

// A group of the layer that begins at bit `at`: the `k` values from value `from` on.
#[derive(Clone, Copy)]
struct Span {
    at: usize,
    from: usize,
    k: usize,
}

// Merges a group of the layer that has these values, one by one, the last first: a value is its chunk and, where its continuation bit is 1,
// the last rest that is not used yet above that. All bits of the group are read at once. Gives how many rests are left.
#[inline(always)] // for a width that is a constant
fn merge_group(values: &mut [u32], part: Part<'_>, radix: Radix, span: Span, kept: usize) -> usize
    requires group { GroupNext radix.bits part.bytes.now values.old span kept }
    requires le_k { (1 ≤ span.k) × (span.k * radix.bits ≤ 56) }
    ensures { GroupMerged radix.bits part.entry.bytes.now span values.old kept values.new result }
{
    let b = radix.bits;
    let Span { at, from, k } = span;
    let mut mores = read(part.bytes, at + from, k);
    let mut chunks = read(part.bytes, at + values.len() + from * b, k * b);
    let mut kept = kept;
    for j in (0..k).rev() {
        let more = mores % 2;
        kept -= more as usize;
        let above = u64::from(values[kept]) * more;
        values[from + j] = (above * radix.power + low_bits(chunks, b)) as u32;
        mores /= 2;
        chunks >>= b;
    }
    kept
}

// Merges the layer that has these values and begins at bit `at` with the `rests`, the values of the layers after it, which stand at the
// front. It goes from the last group to the first, so that no rest is lost before it is used.
#[inline(always)] // for a width that is a constant
fn merge(values: &mut [u32], part: Part<'_>, radix: Radix, at: usize, rests: usize)
    requires whole { let n = length values.old in at + n + n * radix.bits ≤ length part.bytes.now * 8 }
    requires rests_value { (rests ≡ sum (continuations_at part.bytes.now at (length values.old))) × Small radix.bits values.old rests }
    ensures { let n = length values.old in
        values.new ≡ merged radix.bits (continuations_at part.entry.bytes.now at n) (chunks_at part.entry.bytes.now at n) (take rests values.old) }
{
    let n = values.len();
    // As many as one read can have, wherever in a byte it begins.
    let room = 56 / radix.bits;
    let mut kept = rests;
    for group in (0..n.div_ceil(room)).rev() {
        let from = group * room;
        let k = room.min(n - from);
        kept = merge_group(values, part, radix, Span { at, from, k }, kept);
    }
}

// As `merge`, with the widths 1 and 2 as constants, of which the compiler makes faster shifts. It would join calls that differ in one
// constant, so the width comes with its power.
fn merge_by_width(values: &mut [u32], part: Part<'_>, radix: Radix, at: usize, rests: usize)
    requires whole { let n = length values.old in at + n + n * radix.bits ≤ length part.bytes.now * 8 }
    requires rests_value { (rests ≡ sum (continuations_at part.bytes.now at (length values.old))) × Small radix.bits values.old rests }
    ensures { let n = length values.old in
        values.new ≡ merged radix.bits (continuations_at part.entry.bytes.now at n) (chunks_at part.entry.bytes.now at n) (take rests values.old) }
{
    match radix.bits {
        1 => merge(values, part, Radix::of(1), at, rests),
        2 => merge(values, part, Radix::of(2), at, rests),
        _ => merge(values, part, radix, at, rests),
    }
}

// The values of the layers from bit `at` on, of which there may be `layers`.
fn decode_layers(
    values: &mut [u32],
    part: Part<'_>,
    radix: Radix,
    at: usize,
    layers: usize,
) -> Option<()>
    requires { (length values.old < 2 ^ 32) × (at ≤ length part.bytes.now * 8) }
    ensures { Says (decoded_layers layers radix.bits (length values.old) (drop at (bits_of part.entry.bytes.now))) result values.new }
{
    let n = values.len();
    if n == 0 {
        return Some(());
    }
    if layers == 0 {
        return None;
    }
    let bits = n + n * radix.bits;
    if part.bytes.len() * 8 - at < bits {
        return None;
    }
    let rests = count_ones(part, at, at + n);
    decode_layers(&mut values[..rests], part, radix, at + bits, layers - 1)?;
    if !all_small(&values[..rests], radix) {
        return None;
    }
    merge_by_width(values, part, radix, at, rests);
    Some(())
}

// The values of a level in code `code`.
fn decode_kind(values: &mut [u32], part: Part<'_>, code: u8) -> Option<()>
    requires { length values.old < 2 ^ 32 }
    ensures { Says (decoded code (length values.old) part.entry.bytes.now) result values.new }
{
    match Kind::from(code) {
        Kind::Fixed(w) => decode_fixed(values, part, w),
        Kind::Chunked(b) => decode_layers(values, part, Radix::of(b), 0, LAYERS),
        Kind::Refused => None,
    }
}

// Writes the values of a level in code `code`, of which there are as many as entries. Where they are not decoded, the entries are 0.
// The answer is `is_decoded`, a truth value.
pub fn decode(values: &mut [u32], part: Part<'_>, code: u8) -> bool
    requires { length values.old < 2 ^ 32 }
    ensures value { result ≡ is_decoded (decoded code (length values.old) part.entry.bytes.now) }
    ensures values_after { values.new ≡ decoded_or0 (length values.old) (decoded code (length values.old) part.entry.bytes.now) }
{
    let whole = decode_kind(values, part, code).is_some();
    if !whole {
        values.fill(0);
    }
    whole
}
