// Why a call is refused, with what the refusal carries.
ghost use Rattle.std.specs.Prelude.{◌≡◌};
ghost use Rattle.strip.specs.Refusals.{refusal_number, carried, of_walk};

#[derive(Clone, Copy, Debug, PartialEq, Eq)]
pub enum Refusal {
    // 1: no pins.
    Empty,
    // 2: more than 65,535 pins.
    TooMany,
    // 3: the list falls; the first lower position.
    ListFalls(usize),
    // 4: the output is shorter than needed; the bytes or entries needed.
    Short(usize),
    // 5: the strip is cut short.
    Cut,
    // 6: a mark other than `PIN`.
    Mark,
    // 7: a version other than 1.
    Version,
    // 8: a level code that is refused; the level.
    Code(usize),
    // 9: a fetch from a chunked level passes its part, or its value is 2^32 or more; the node.
    Fetch(usize),
    // 10: a time below 0 or above 4,294,967,295; the node.
    Time(usize),
    // 11: the times fall; the lower position.
    TimesFall(usize),
    // 12: bytes other than the list's image.
    Image,
    // 13: a length that is not 7 + 5h and the parts'.
    Length,
    // 14: a position at or past the pin count.
    Position,
    // 15: answers and targets differ in length.
    Answers,
    // 16: the targets fall; the first lower index.
    TargetsFall(usize),
    // 23: a fixed level has not exactly the fewest bytes for its width and number of values; the level.
    LevelLength(usize),
}

// A walk's refusal as a strip's.
impl From<tree::Refusal> for Refusal {
    ghost from_gives = { λ t r. r ≡ of_walk t };

    fn from(refusal: tree::Refusal) -> Refusal {
        match refusal {
            tree::Refusal::Fetch(v) => Refusal::Fetch(v),
            tree::Refusal::Time(v) => Refusal::Time(v),
        }
    }
}

impl Refusal {
    // The number of 01 or 02 for a refusal.
    pub fn number(self) -> usize
        ensures { result ≡ refusal_number self }
    {
        match self {
            Refusal::Empty => 1,
            Refusal::TooMany => 2,
            Refusal::ListFalls(_) => 3,
            Refusal::Short(_) => 4,
            Refusal::Cut => 5,
            Refusal::Mark => 6,
            Refusal::Version => 7,
            Refusal::Code(_) => 8,
            Refusal::Fetch(_) => 9,
            Refusal::Time(_) => 10,
            Refusal::TimesFall(_) => 11,
            Refusal::Image => 12,
            Refusal::Length => 13,
            Refusal::Position => 14,
            Refusal::Answers => 15,
            Refusal::TargetsFall(_) => 16,
            Refusal::LevelLength(_) => 23,
        }
    }

    // What a refusal carries.
    pub fn carried(self) -> usize
        ensures { result ≡ carried self }
    {
        match self {
            Refusal::Empty => 0,
            Refusal::TooMany => 0,
            Refusal::ListFalls(i) => i,
            Refusal::Short(needed) => needed,
            Refusal::Cut => 0,
            Refusal::Mark => 0,
            Refusal::Version => 0,
            Refusal::Code(level) => level,
            Refusal::Fetch(node) => node,
            Refusal::Time(node) => node,
            Refusal::TimesFall(i) => i,
            Refusal::Image => 0,
            Refusal::Length => 0,
            Refusal::Position => 0,
            Refusal::Answers => 0,
            Refusal::TargetsFall(i) => i,
            Refusal::LevelLength(level) => level,
        }
    }
}
