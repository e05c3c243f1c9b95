// The layers of a chunked code, written one after the other.
ghost use Rattle.std.specs.Prelude.{◌≡◌, ◌+◌, ◌*◌, ◌%◌, ◌^◌, ◌<◌, ◌≤◌, ◌++◌, map, length, take, drop};
ghost use Rattle.codes.specs.Bits.{number, fixed};
ghost use Rattle.codes.specs.Codes.{continuation, rest, chunked, Within};
ghost use Rattle.codes.specs.Written.{Wrote};

use super::writing::Writer;

// The width of a chunk, and 2 to its power. A product with the power is faster than a shift by the width.
#[derive(Clone, Copy)]
pub(crate) struct Radix {
    pub(crate) bits: usize,
    pub(crate) power: u64,
    ghost range: { (1 ≤ bits) × (bits ≤ 8) },
    ghost scale: { power ≡ 2 ^ bits },
}

impl Radix {
    // The radix for chunks of so many bits.
    pub(crate) fn of(bits: usize) -> Radix
        requires { (1 ≤ bits) × (bits ≤ 8) }
        ensures { result.bits ≡ bits }
    {
        Radix {
            bits,
            power: 1 << bits,
        }
    }

    // The lowest chunk of `v`.
    fn chunk(self, v: u32) -> u64
        ensures { result ≡ v % 2 ^ self.bits }
    {
        u64::from(v) & (self.power - 1)
    }

    // The continuation bit of `v`: 1 where another chunk follows the lowest.
    fn more(self, v: u32) -> u64
        ensures { (result < 2) × (result ≡ continuation self.bits v) }
    {
        if u64::from(v) < self.power { 0 } else { 1 }
    }
}

// The number that the continuation bits of the values spell.
fn joined_continuations(values: &[u32], radix: Radix) -> u64
    requires { length values.now ≤ 32 }
    ensures { result ≡ number (map (continuation radix.bits) values.now) }
{
    let mut joined: u64 = 0;
    for &v in values {
        joined = joined * 2 + radix.more(v);
    }
    joined
}

// Writes the continuation bits of the values, 32 at a time.
fn put_continuations(out: &mut [u8], writer: Writer, radix: Radix, values: &[u32]) -> Writer
    requires { writer.at * 8 + writer.have + length values.now ≤ length out.old * 8 }
    ensures { Wrote out.old writer out.new result (map (continuation radix.bits) values.now) }
{
    let mut p = writer;
    for group in values.chunks(32) {
        p = p.put(out, group.len(), joined_continuations(group, radix));
    }
    p
}

// The number that chunks spell, and how many values in front go on in the next layer.
#[derive(Clone, Copy)]
struct Group {
    joined: u64,
    left: usize,
}

// Joins the lowest chunks of `n` values from value `from` on, and adds what these values have above to the `left` in front.
// It writes to the front of the slice that it reads, so it is told the place.
fn joined_chunks(values: &mut [u32], from: usize, n: usize, radix: Radix, left: usize) -> Group
    requires left_bound { left ≤ from }
    requires n_in_bounds { (from + n ≤ length values.old) × (n * radix.bits ≤ 32) }
    ensures { (result.joined ≡ number (fixed radix.bits (take n (drop from values.old)))) × (result.left ≤ left + n)
        × (take result.left values.new ≡ take left values.old ++ rest radix.bits (take n (drop from values.old)))
        × (drop (from + n) values.new ≡ drop (from + n) values.old) }
{
    let mut joined: u64 = 0;
    let mut left = left;
    for i in 0..n {
        let v = values[from + i];
        joined = joined * radix.power + radix.chunk(v);
        values[left] = v >> radix.bits;
        left += radix.more(v) as usize;
    }
    Group { joined, left }
}

// A writer, and how many values go on in the next layer.
#[derive(Clone, Copy)]
struct Chunks {
    writer: Writer,
    left: usize,
}

// Writes the lowest chunks of the values, as many at a time as go into 32 bits, and leaves what these values have above at
// the front.
fn put_chunks(out: &mut [u8], writer: Writer, radix: Radix, values: &mut [u32]) -> Chunks
    requires { writer.at * 8 + writer.have + length values.old * radix.bits ≤ length out.old * 8 }
    ensures { Wrote out.old writer out.new result.writer (fixed radix.bits values.old)
        × (result.left ≤ length values.old) × (take result.left values.new ≡ rest radix.bits values.old) }
{
    let b = radix.bits;
    let room = 32 / b;
    let n = values.len();
    let mut writer = writer;
    let mut left: usize = 0;
    for i in (0..n).step_by(room) {
        let k = room.min(n - i);
        let group = joined_chunks(values, i, k, radix, left);
        writer = writer.put(out, k * b, group.joined);
        left = group.left;
    }
    Chunks { writer, left }
}

// Writes the layers of the values, as long as a value goes on, and uses the values up.
pub(crate) fn put_layers(out: &mut [u8], writer: Writer, b: usize, values: &mut [u32]) -> Writer
    requires le_b { (1 ≤ b) × (b ≤ 8) × Within 32 values.old }
    requires values_in_bounds { writer.at * 8 + writer.have + length (chunked b values.old) ≤ length out.old * 8 }
    ensures { Wrote out.old writer out.new result (chunked b values.old) }
{
    let radix = Radix::of(b);
    let mut p = writer;
    let mut left = values.len();
    while left > 0 {
        p = put_continuations(out, p, radix, &values[..left]);
        let chunks = put_chunks(out, p, radix, &mut values[..left]);
        p = chunks.writer;
        left = chunks.left;
    }
    p
}
