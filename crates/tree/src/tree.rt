// The tree of a strip, as its bytes have it.
ghost use Rattle.tree.specs.Levels.{Fits};

use super::nodes::Levels;

// A strip's bytes, and the levels that lie in them one after the other.
#[derive(Clone, Copy, Debug, PartialEq, Eq)]
pub struct Tree<'a> {
    pub bytes: &'a [u8],
    pub levels: Levels,
    pub ghost fits: { Fits levels bytes.now },
}
