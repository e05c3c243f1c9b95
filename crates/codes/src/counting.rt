// Bits of a part that are 1, counted by 64-bit words.
ghost use Rattle.std.specs.Prelude.{◌≡◌, ◌+◌, ◌-◌, ◌*◌, ◌%◌, ◌<◌, ◌≤◌, length, take, drop, count_ones};
ghost use Rattle.codes.specs.Bits.{sum, bits_of};
ghost use Rattle.codes.specs.Streams.{in_streams};

use super::part::Part;
use super::reading::{bytes_at, read};

// How many bits of a word are 1.
fn ones_of(x: u64) -> usize
    ensures { (result ≤ 64) × (result ≡ count_ones x) }
{
    x.count_ones() as usize
}

// How many of the `w` bits from bit `at` on are 1.
fn ones_at(part: &[u8], at: usize, w: usize) -> usize
    requires w_bound { (w < 64) × (at % 8 + w ≤ 64) }
    requires w_in_bounds { at + w ≤ length part.now * 8 }
    ensures { (result ≤ w) × (result ≡ sum (take w (drop at (bits_of part.now)))) }
{
    if w == 0 {
        return 0;
    }
    ones_of(read(part, at, w))
}

// A word with the ones of the 8 bytes from byte `first` on. Their order is no matter for a count, and in this one they are a plain read.
fn ones_word(part: &[u8], first: usize) -> u64
    requires { first + 8 ≤ length part.now }
    ensures { count_ones result ≡ sum (take 64 (drop (first * 8) (bits_of part.now))) }
{
    u64::from_le_bytes(bytes_at(part, first))
}

// In each place the sum of three bits: its low bit in `ones`, its high bit in `twos`.
#[derive(Clone, Copy)]
struct Sum {
    ones: u64,
    twos: u64,
}

fn add_bits(a: u64, b: u64, c: u64) -> Sum
    ensures { count_ones result.ones + 2 * count_ones result.twos ≡ count_ones a + count_ones b + count_ones c }
{
    let odd = a ^ b;
    Sum {
        ones: odd ^ c,
        twos: (a & b) | (odd & c),
    }
}

// Adds to the bits of `a` those of two words, the second `step` bytes after the first.
fn add_two(part: Part<'_>, a: u64, first: usize, step: usize) -> Sum
    requires { first + step + 8 ≤ length part.bytes.now }
    ensures { count_ones result.ones + 2 * count_ones result.twos ≡ count_ones a + in_streams 2 1 part.entry.bytes.now first step }
{
    add_bits(
        a,
        ones_word(part.bytes, first),
        ones_word(part.bytes, first + step),
    )
}

// How many bits are 1 in fifteen words, each `step` bytes after the one before. Added up they are four words to count: a to g add the words,
// which leaves one word of ones and seven of twos; p to r add the twos, which leaves one of these and three of fours.
fn ones_in_fifteen(part: Part<'_>, first: usize, step: usize) -> usize
    requires { first + 14 * step + 8 ≤ length part.bytes.now }
    ensures { (result ≤ 960) × (result ≡ in_streams 15 1 part.entry.bytes.now first step) }
{
    let a = add_two(part, ones_word(part.bytes, first), first + step, step);
    let b = add_two(part, a.ones, first + 3 * step, step);
    let c = add_two(part, b.ones, first + 5 * step, step);
    let d = add_two(part, c.ones, first + 7 * step, step);
    let e = add_two(part, d.ones, first + 9 * step, step);
    let f = add_two(part, e.ones, first + 11 * step, step);
    let g = add_two(part, f.ones, first + 13 * step, step);
    let p = add_bits(a.twos, b.twos, c.twos);
    let q = add_bits(p.ones, d.twos, e.twos);
    let r = add_bits(q.ones, f.twos, g.twos);
    let fours = add_bits(p.twos, q.twos, r.twos);
    ones_of(g.ones) + 2 * ones_of(r.ones) + 4 * ones_of(fours.ones) + 8 * ones_of(fours.twos)
}

// How many bits are 1 in fifteen words for each turn, from byte `first` on. They are fifteen streams, side by side, since the compiler makes
// wide reads of words that follow each other from turn to turn.
fn ones_in_streams(part: Part<'_>, first: usize, turns: usize) -> usize
    requires { first + turns * 120 ≤ length part.bytes.now }
    ensures { (result ≤ turns * 960) × (result ≡ sum (take (turns * 960) (drop (first * 8) (bits_of part.entry.bytes.now)))) }
{
    let step = turns * 8;
    let mut count = 0;
    for i in 0..turns {
        count += ones_in_fifteen(part, first + i * 8, step);
    }
    count
}

// How many bits are 1 in the words from byte `first` on, one by one.
fn ones_in_few(part: Part<'_>, first: usize, words: usize) -> usize
    requires { first + words * 8 ≤ length part.bytes.now }
    ensures { (result ≤ words * 64) × (result ≡ sum (take (words * 64) (drop (first * 8) (bits_of part.entry.bytes.now)))) }
{
    let mut count = 0;
    for i in 0..words {
        count += ones_of(ones_word(part.bytes, first + i * 8));
    }
    count
}

// How many bits are 1 in the words from byte `first` on: of 30 and more, first those that the streams have in an even number of turns, since
// a wide read has two turns' words, and then what is left.
// The words are told by place and number: as slices of the part they take a sweep of chords, or a search, 1.06 times as long.
fn ones_in_words(part: Part<'_>, first: usize, words: usize) -> usize
    requires { first + words * 8 ≤ length part.bytes.now }
    ensures { (result ≤ words * 64) × (result ≡ sum (take (words * 64) (drop (first * 8) (bits_of part.entry.bytes.now)))) }
{
    if words < 30 {
        return ones_in_few(part, first, words);
    }
    let turns = words / 30 * 2;
    ones_in_streams(part, first, turns) + ones_in_few(part, first + turns * 120, words % 30)
}

// How many of the bits from `from` up to `to` are 1. Fewer than 58 are counted by one read. Of more, first those up to a whole byte,
// then whole words, then what is left.
pub(crate) fn count_ones(part: Part<'_>, from: usize, to: usize) -> usize
    requires { (from ≤ to) × (to ≤ length part.bytes.now * 8) }
    ensures { (result ≤ to - from) × (result ≡ sum (take (to - from) (drop from (bits_of part.entry.bytes.now)))) }
{
    if to - from < 58 {
        return ones_at(part.bytes, from, to - from);
    }
    let head = 7 - (from + 7) % 8;
    let start = from + head;
    let words = (to - start) / 64;
    let tail = start + words * 64;
    ones_at(part.bytes, from, head)
        + ones_in_words(part, start / 8, words)
        + ones_at(part.bytes, tail, to - tail)
}
