// Bits into a buffer, one after the other.
ghost use Rattle.std.specs.Prelude.{◌≡◌, ◌+◌, ◌*◌, ◌^◌, ◌<◌, ◌≤◌, length, take, drop};
ghost use Rattle.codes.specs.Bits.{bits, bytes_of, bytes_for, padded};

// Where the next bit goes: `at` whole bytes are written, and the `have` lowest bits of `acc` wait for theirs. The buffer is passed beside it:
// a writer that borrowed the buffer would have to promise at each step that it is still the same one.
#[derive(Clone, Copy)]
pub(crate) struct Writer {
    at: usize,
    have: usize,
    acc: u64,
    ghost few: { have < 32 },
}

// The 32 lowest bits of `x`, as bytes, the highest first.
fn word_bytes(x: u64) -> [u8; 4]
    ensures { result ≡ bytes_of 4 (bits 32 x) }
{
    ((x % 0x1_0000_0000) as u32).to_be_bytes()
}

impl Writer {
    ghost use Rattle.codes.specs.Written.{written, Wrote};

    // At the front of a buffer, where no bit waits.
    pub(crate) fn new() -> Writer
        ensures { (result.at ≡ 0) × (result.have ≡ 0) }
    {
        Writer {
            at: 0,
            have: 0,
            acc: 0,
        }
    }

    // Writes the `w` bits of `x`. Where 32 bits or more wait with them, the first 32 are stored.
    pub(crate) fn put(self, out: &mut [u8], w: usize, x: u64) -> Writer
        requires w_bound { (w ≤ 32) × (x < 2 ^ w) }
        requires w_in_bounds { self.at * 8 + self.have + w ≤ length out.old * 8 }
        ensures { Wrote out.old self out.new result (bits w x) }
    {
        let at = self.at;
        let acc = (self.acc << w) | x;
        let have = self.have + w;
        if have < 32 {
            return Writer { at, have, acc };
        }
        let have = have - 32;
        out[at..at + 4].copy_from_slice(&word_bytes(acc >> have));
        Writer {
            at: at + 4,
            have,
            acc,
        }
    }

    // Stores what waits, the last byte filled with zero bits, and gives how many bytes are written.
    pub(crate) fn finish(self, out: &mut [u8]) -> usize
        requires { self.at * 8 + self.have ≤ length out.old * 8 }
        ensures { (result ≡ bytes_for (self.at * 8 + self.have))
            × (take result out.new ≡ padded (written out.old self))
            × (drop result out.new ≡ drop result out.old) }
    {
        let last = self.have.div_ceil(8);
        let end = self.at + last;
        let bytes = word_bytes(self.acc << (32 - self.have));
        out[self.at..end].copy_from_slice(&bytes[..last]);
        end
    }
}
