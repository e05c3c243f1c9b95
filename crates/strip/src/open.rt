// A strip that is open.
ghost use Rattle.strip.specs.Open.{IsOpen};

use tree::Tree;

// A strip that is open: its tree is the one that its bytes' header and entries tell.
#[derive(Clone, Copy)]
pub(crate) struct Open<'a> {
    pub(crate) tree: Tree<'a>,
    ghost is_open: { IsOpen tree },
}
