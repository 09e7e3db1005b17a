// Refusals of texts, and their numbers.
ghost use Rattle.std.specs.Prelude.{◌≡◌};
ghost use Rattle.reader.specs.Refusals.{refusal_number, refusal_value, offence_refusal, unread_refusal};

use lexer::NoToken;

/// Why a text is refused. A place is that of a byte of the text, or of its end.
#[derive(Clone, Copy, Debug, PartialEq, Eq)]
pub enum Refusal {
    ShortTable,
    LongText,
    WordList,
    NoToken(usize),
    NoFormula(usize),
    UnknownName(usize),
    TooManyEntries,
}

/// The refusal's number and its value, which is a place if it has one.
impl From<Refusal> for (u8, usize) {
    ghost from_gives = { λ r a. a ≡ (refusal_number r, refusal_value r) };

    fn from(refusal: Refusal) -> (u8, usize) {
        match refusal {
            Refusal::ShortTable => (19, 0),
            Refusal::LongText => (20, 0),
            Refusal::WordList => (21, 0),
            Refusal::NoToken(place) => (22, place),
            Refusal::NoFormula(place) => (23, place),
            Refusal::UnknownName(place) => (24, place),
            Refusal::TooManyEntries => (25, 0),
        }
    }
}

/// The place from which a text cannot go on to a formula.
#[derive(Clone, Copy, Debug, PartialEq, Eq)]
pub struct Offence(pub usize);

impl From<Offence> for Refusal {
    ghost from_gives = { λ o r. r ≡ offence_refusal o };

    fn from(offence: Offence) -> Refusal {
        Refusal::NoFormula(offence.0)
    }
}

impl From<NoToken> for Refusal {
    ghost from_gives = { λ n r. r ≡ unread_refusal n };

    fn from(bad: NoToken) -> Refusal {
        Refusal::NoToken(bad.0)
    }
}
