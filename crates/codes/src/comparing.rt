// Whether a level's part is what pack writes.
ghost use Rattle.std.specs.Prelude.{◌≡◌, ◌^◌, ◌<◌, length, drop, ◌==◌};
ghost use Rattle.codes.specs.Bits.{number, bits_of, bytes_for};
ghost use Rattle.codes.specs.Choice.{is_chosen};
ghost use Rattle.codes.specs.Codes.{Within};
ghost use Rattle.codes.specs.Decode.{all, decoded};

use super::choosing::choose;
use super::part::Part;
use super::reading::low_bits;

// Whether the bits after the first `size` are 0. They are the lowest of the last byte. That a byte is below 2^8 is told with it.
fn zeros_after(bytes: &[u8], size: usize) -> bool
    requires { length bytes.now ≡ bytes_for size }
    ensures zeros { result ≡ (number (drop size (bits_of bytes.now)) == 0) }
    ensures fit { Within 8 bytes.now }
{
    match bytes.last() {
        Some(&b) => low_bits(u64::from(b), (8 - size % 8) % 8) == 0,
        None => true,
    }
}

// Whether a part is what pack writes for its values: in the chosen code, padded with zero bits, with nothing after. The values are those
// that it is decoded to, so nothing is encoded.
pub fn is_chosen(values: &[u32], part: Part<'_>, code: u8) -> bool
    requires values_len_bound { length values.now < 2 ^ 32 }
    requires part_value { decoded code (length values.now) part.bytes.now ≡ all values.now }
    ensures { result ≡ is_chosen code values.now part.entry.bytes.now }
{
    let choice = choose(values);
    if choice.code != code {
        return false;
    }
    if part.bytes.len() != choice.size.div_ceil(8) {
        return false;
    }
    zeros_after(part.bytes, choice.size)
}
