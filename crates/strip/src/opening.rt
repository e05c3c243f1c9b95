// Opening: the tests that every reading call makes first, and where the levels lie.
ghost use Rattle.std.specs.Prelude.{◌≡◌, ◌^◌, ◌<◌, IfOk};
ghost use Rattle.strip.specs.Layout.{pins_of};
ghost use Rattle.tree.specs.Outcomes.{verdict};
ghost use Rattle.strip.specs.Opening.{header_tests, entry_tests, level_tests, levels_in, opening};
ghost use Rattle.strip.specs.Opened.{HeaderFits, opened};
ghost use Rattle.strip.specs.Refusals.{outcome};

use super::layout::no_levels;
use super::numbers::{four_at, two_at};
use super::open::Open;
use super::refusals::Refusal;
use codes::Kind;
use tree::{Levels, Tree};

// The pin count, where the header and the level entries lie whole in the strip: tests 5 (under 7 bytes), 6, 7, 1, 5 (under 7 + 5h).
fn header_of(s: &[u8]) -> Result<usize, Refusal>
    ensures result_value { outcome result ≡ verdict (header_tests s.now) (pins_of s.now) }
    ensures header_fits { IfOk result (λ n. HeaderFits n s.now) }
{
    if s.len() < 7 {
        return Err(Refusal::Cut);
    }
    if !s.starts_with(b"PIN") {
        return Err(Refusal::Mark);
    }
    if two_at(s, 3) != 1 {
        return Err(Refusal::Version);
    }
    let n = two_at(s, 5);
    if n == 0 {
        return Err(Refusal::Empty);
    }
    if s.len() < 7 + 5 * tree::height(n) {
        return Err(Refusal::Cut);
    }
    Ok(n)
}

// Tests 8 and 23 of a level of `count` values, by its entry.
fn test_entry(level: usize, count: usize, code: u8, bytes: usize) -> Result<(), Refusal>
    requires { count < 2 ^ 32 }
    ensures { outcome result ≡ verdict (entry_tests level count code bytes) tt }
{
    match Kind::from(code) {
        Kind::Fixed(w) => {
            if bytes == (count * w + 7) / 8 {
                return Ok(());
            }
            Err(Refusal::LevelLength(level))
        }
        Kind::Chunked(_) => Ok(()),
        Kind::Refused => Err(Refusal::Code(level)),
    }
}

// Tests 8 and 23 level by level, and 13, for n pins whose level entries lie whole in a strip that passes the tests before.
fn tree_of(s: &[u8], n: usize) -> Result<Open<'_>, Refusal>
    requires header_fits { HeaderFits n s.now }
    requires left { opening s.now ≡ verdict (level_tests s.now) (levels_in s.now) }
    ensures result_value { opened result ≡ opening s.now }
    ensures bytes_value { IfOk result (λ strip. strip.tree.bytes.now ≡ s.now) }
{
    let mut levels = no_levels(n);
    let mut end = levels.ends[0];
    for d in 0..tree::height(n) {
        let code = s[7 + 5 * d];
        let bytes = four_at(s, 8 + 5 * d);
        test_entry(d + 1, tree::count_of(n, d), code, bytes)?;
        end += bytes;
        levels.codes[d] = code;
        levels.ends[d + 1] = end;
    }
    if end != s.len() {
        return Err(Refusal::Length);
    }
    Ok(Open {
        tree: Tree { bytes: s, levels },
    })
}

// Opens a strip.
pub(crate) fn opening_of(s: &[u8]) -> Result<Open<'_>, Refusal>
    ensures result_value { opened result ≡ opening s.now }
    ensures bytes_value { IfOk result (λ strip. strip.tree.bytes.now ≡ s.now) }
{
    let n = header_of(s)?;
    tree_of(s, n)
}
