// A level's part, written to the front of a buffer.
ghost use Rattle.std.specs.Prelude.{◌≡◌, ◌+◌, ◌*◌, ◌<◌, ◌≤◌, ◌++◌, length, drop};
ghost use Rattle.codes.specs.Bits.{fixed};
ghost use Rattle.codes.specs.Codes.{kind_of, part, Holds, worked};
ghost use Rattle.codes.specs.Written.{Wrote};

use super::kinds::Kind;
use super::layering::put_layers;
use super::reading::low_bits;
use super::writing::Writer;

// Writes each value in `w` bits.
fn put_fixed(out: &mut [u8], writer: Writer, w: usize, values: &[u32]) -> Writer
    requires { (w ≤ 32) × (writer.at * 8 + writer.have + length values.now * w ≤ length out.old * 8) }
    ensures { Wrote out.old writer out.new result (fixed w values.now) }
{
    let mut p = writer;
    for &v in values {
        p = p.put(out, w, low_bits(u64::from(v), w));
    }
    p
}

// Copies the values, one by one: here the library's `copy_from_slice` would ask `memmove` of the C library.
fn copy(front: &mut [u32], values: &[u32])
    requires { length front.old ≡ length values.now }
    ensures { front.new ≡ values.now }
{
    for (i, &v) in values.iter().enumerate() {
        front[i] = v;
    }
}

// Writes the part of the values in code `code` to the front of `out`, and gives its length in bytes. A chunked code works in
// the front of `work`, as many entries as there are values, and leaves them 0.
pub fn encode(out: &mut [u8], work: &mut [u32], values: &[u32], code: u8) -> usize
    requires holds { Holds (kind_of code) values.now }
    requires values_in_bounds { (length (part code values.now) ≤ length out.old) × (length values.now ≤ length work.old) }
    ensures value { result ≡ length (part code values.now) }
    ensures out_after { out.new ≡ part code values.now ++ drop result out.old }
    ensures work_after { work.new ≡ worked (kind_of code) (length values.now) work.old }
{
    let start = Writer::new();
    match Kind::from(code) {
        Kind::Fixed(w) => {
            let p = put_fixed(out, start, w, values);
            p.finish(out)
        }
        Kind::Chunked(b) => {
            let front = &mut work[..values.len()];
            copy(front, values);
            let p = put_layers(out, start, b, front);
            front.fill(0);
            p.finish(out)
        }
        // A refused code holds no values.
        Kind::Refused => 0,
    }
}
