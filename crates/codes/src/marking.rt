// Marks: bits of a part that were counted, remembered so that the next count goes on from there. They are passed beside their part: a struct
// that borrowed them would have to promise at each step that they are still the same buffer.
ghost use Rattle.std.specs.Prelude.{◌≡◌, ℕ, ◌*◌, ◌≤◌, List, length};
ghost use Rattle.codes.specs.Bits.{bits_of};
ghost use Rattle.codes.specs.Marks.{Counted, Marks};

use super::counting::count_ones;
use super::part::Part;

// Of the bits from `from` up to `to`, `ones` are 1.
#[derive(Clone, Copy, Debug, PartialEq, Eq)]
pub struct Mark {
    pub from: usize,
    pub to: usize,
    pub ones: usize,
}

impl Mark {
    // Of no bits none is 1, which is true of any part.
    pub const NONE: Mark = Mark {
        from: 0,
        to: 0,
        ones: 0,
    };
}

// The mark that is kept, where it counts from the same bit as what is known, as far or further, and not past `to`; else what is known.
fn nearer(kept: Mark, known: Mark, to: usize) -> Mark
    requires { known.to ≤ to }
    ensures { (result.from ≡ known.from) × (result.to ≤ to) × ((bs : List ℕ) → Counted bs kept → Counted bs known → Counted bs result) }
{
    if kept.from == known.from && known.to <= kept.to && kept.to <= to {
        kept
    } else {
        known
    }
}

// What is known, counted on up to `to`.
fn counted_to(part: Part<'_>, known: Mark, to: usize) -> Mark
    requires { Counted (bits_of part.bytes.now) known × (known.to ≤ to) × (to ≤ length part.bytes.now * 8) }
    ensures { Counted (bits_of part.entry.bytes.now) result × (result.from ≡ known.from) × (result.to ≡ to) }
{
    Mark {
        from: known.from,
        to,
        ones: known.ones + count_ones(part, known.to, to),
    }
}

// What is known, counted on up to `to`, from mark `k` where that is nearer; mark `k` then is what it gives. Past the marks nothing is kept.
pub(crate) fn count_on(marks: &mut [Mark], k: usize, part: Part<'_>, known: Mark, to: usize) -> Mark
    requires counted { Counted (bits_of part.bytes.now) known × (known.to ≤ to) × (to ≤ length part.bytes.now * 8) }
    requires marks { Marks part.bytes.now marks.old }
    ensures counted_2 { Counted (bits_of part.entry.bytes.now) result × (result.from ≡ known.from) × (result.to ≡ to) }
    ensures marks_2 { Marks part.entry.bytes.now marks.new }
{
    if marks.len() <= k {
        return counted_to(part, known, to);
    }
    let mark = counted_to(part, nearer(marks[k], known, to), to);
    marks[k] = mark;
    mark
}
