// Numbers of several bytes in a strip, high byte first. Each width has a `from_be_bytes` of its own, and no trait joins them; hence two functions.
ghost use Rattle.std.specs.Prelude.{◌≡◌, ◌+◌, ◌^◌, ◌<◌, ◌≤◌, length};
ghost use Rattle.strip.specs.Layout.{two_at, four_at};

// The number in two bytes from byte `at` on.
pub(crate) fn two_at(s: &[u8], at: usize) -> usize
    requires { at + 2 ≤ length s.now }
    ensures { (result ≡ two_at s.now at) × (result < 2 ^ 16) }
{
    u16::from_be_bytes([s[at], s[at + 1]]) as usize
}

// The number in four bytes from byte `at` on.
pub(crate) fn four_at(s: &[u8], at: usize) -> usize
    requires { at + 4 ≤ length s.now }
    ensures { (result ≡ four_at s.now at) × (result < 2 ^ 32) }
{
    u32::from_be_bytes([s[at], s[at + 1], s[at + 2], s[at + 3]]) as usize
}
