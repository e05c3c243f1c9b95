// What a code byte says.
ghost use Rattle.std.specs.Prelude.{◌≡◌};
ghost use Rattle.codes.specs.Codes.{kind_of};

// Codes 0 to 32 are fixed widths in bits, codes 65 to 72 chunked with 1 to 8 bits; all others are refused. `Refused` is a variant, since
// `kind_of`, `Holds` and `is_exact` of specs/Codes speak of it. Widths and b are plain numbers, since `kind_of` and the promises (`RoundTrip`)
// speak of such; so that they are at most 32 and 8 is asked where they are used.
#[derive(Clone, Copy, Debug, PartialEq, Eq)]
pub enum Kind {
    Fixed(usize),
    Chunked(usize),
    Refused,
}

impl From<u8> for Kind {
    ghost from_gives = { λ code kind. kind ≡ kind_of code };

    #[tactic(auto, unfolding(crate::specs::Codes::kind_of))]
    fn from(code: u8) -> Kind {
        match code {
            0..=32 => Kind::Fixed(usize::from(code)),
            65..=72 => Kind::Chunked(usize::from(code) - 64),
            _ => Kind::Refused,
        }
    }
}
