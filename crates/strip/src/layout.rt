// Where the levels of a strip lie.
ghost use Rattle.std.specs.Prelude.{◌≡◌};
ghost use Rattle.strip.specs.Layout.{no_levels};

use super::strip::Strip;
use tree::Levels;

// The levels of n pins before any is entered. The parts start after the header and the level entries.
pub(crate) fn no_levels(n: usize) -> Levels
    ensures { result ≡ no_levels n }
{
    let mut levels = Levels {
        pins: n,
        codes: [0; Strip::MAX_HEIGHT],
        ends: [0; Strip::MAX_HEIGHT + 1],
    };
    levels.ends[0] = 7 + 5 * tree::height(n);
    levels
}
