// Bits of a part, read by whole bytes. That the bits lie in the part, and in one word, is asked in each contract: it is a fact about the place
// that is read, which no two reads share.
ghost use Rattle.std.specs.Prelude.{◌≡◌, ◌+◌, ◌-◌, ◌*◌, ◌%◌, ◌^◌, ◌<◌, ◌≤◌, length, take, drop, slice_index};
ghost use Rattle.codes.specs.Bits.{number, bits_of};

// The `w` lowest bits of `x`.
pub(crate) fn low_bits(x: u64, w: usize) -> u64
    requires { w < 64 }
    ensures { (result < 2 ^ w) × (result ≡ x % 2 ^ w) }
{
    x & ((1u64 << w) - 1)
}

// The number that the bytes spell, of which there are fewer than 8.
fn short_word(part: &[u8]) -> u64
    requires { length part.now < 8 }
    ensures { result ≡ number (bits_of part.now) }
{
    let mut acc: u64 = 0;
    for &b in part {
        acc = acc * 256 + u64::from(b);
    }
    acc
}

// The `N` bytes from byte `first` on.
pub(crate) fn bytes_at<const N: usize>(part: &[u8], first: usize) -> [u8; N]
    requires { first + N ≤ length part.now }
    ensures { result ≡ take N (drop first part.now) }
{
    <[u8; N]>::try_from(&part[first..first + N]).unwrap()
}

// The number that the 4 bytes from byte `first` on spell. Each width has a `from_be_bytes` of its own, and no trait joins them; hence two
// functions, this and the next.
fn four_bytes(part: &[u8], first: usize) -> u32
    requires { first + 4 ≤ length part.now }
    ensures { result ≡ number (take 32 (drop (first * 8) (bits_of part.now))) }
{
    u32::from_be_bytes(bytes_at(part, first))
}

// The number that the 8 bytes from byte `first` on spell.
fn word_at(part: &[u8], first: usize) -> u64
    requires { first + 8 ≤ length part.now }
    ensures { result ≡ number (take 64 (drop (first * 8) (bits_of part.now))) }
{
    u64::from_be_bytes(bytes_at(part, first))
}

// A number whose lowest bits are the `w` bits from bit `at` on. They lie in one word: near the end of the part in its last 8 bytes.
pub(crate) fn read_word(part: &[u8], at: usize, w: usize) -> u64
    requires le_w { (1 ≤ w) × (w < 64) × (at % 8 + w ≤ 64) }
    requires w_in_bounds { at + w ≤ length part.now * 8 }
    ensures { result % 2 ^ w ≡ number (take w (drop at (bits_of part.now))) }
{
    let end = part.len();
    if end < 8 {
        return short_word(part) >> (end * 8 - at - w);
    }
    let first = (at / 8).min(end - 8);
    word_at(part, first) >> (64 - (at - first * 8) - w)
}

// The number that the `w` bits from bit `at` on spell.
pub(crate) fn read(part: &[u8], at: usize, w: usize) -> u64
    requires le_w { (1 ≤ w) × (w < 64) × (at % 8 + w ≤ 64) }
    requires w_in_bounds { at + w ≤ length part.now * 8 }
    ensures { (result < 2 ^ w) × (result ≡ number (take w (drop at (bits_of part.now)))) }
{
    low_bits(read_word(part, at, w), w)
}

// The number that the `w` bits from bit `at` on spell, where 4 bytes have them: near the end of the part its last 4. It is shorter than
// `read`, so that a walk can have it in its loop.
pub(crate) fn read_short(part: &[u8], at: usize, w: usize) -> u32
    requires w_bound { (at % 8 + w ≤ 32) × (4 ≤ length part.now) }
    requires w_in_bounds { at + w ≤ length part.now * 8 }
    ensures { result ≡ number (take w (drop at (bits_of part.now))) }
{
    let first = (at / 8).min(part.len() - 4);
    low_bits(
        u64::from(four_bytes(part, first)) >> (32 - (at - first * 8) - w),
        w,
    ) as u32
}
