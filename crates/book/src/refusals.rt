// Why a call on a book refuses, and the numbers by which it says so.
ghost use Rattle.std.specs.Prelude.{◌≡◌};
ghost use Rattle.book.specs.Answers.{number_of, answer_of};

pub use crate::records::{MAX_BYTES, RECORD_BYTES};
use families::ACCEPTED;

/// Why a call on a book refuses. `u8::from` gives the number of each, 1 to 9 in this order.
#[derive(Clone, Copy, Debug, PartialEq, Eq)]
pub enum Refusal {
    /// The count of states is 0 or above 64.
    BadStateCount,
    /// 200 products are held.
    ProductsFull,
    /// A product with the configuration is held.
    ProductHeld,
    /// Source or target is no state of the book, or the action is above 63.
    OutOfRange,
    /// A transition with the same five fields is held.
    TransitionHeld,
    /// 256 transitions are held.
    TransitionsFull,
    /// No transition with the same five fields is held.
    NotHeld,
    /// The bytes of a load are no records, or more than a full book has.
    BadLength,
    /// A record is of no kind, or has a byte that must be 0 and is not.
    BadRecord,
}

impl From<Refusal> for u8 {
    ghost from_gives = { λ r n. n ≡ number_of r };

    fn from(refusal: Refusal) -> u8 {
        match refusal {
            Refusal::BadStateCount => 1,
            Refusal::ProductsFull => 2,
            Refusal::ProductHeld => 3,
            Refusal::OutOfRange => 4,
            Refusal::TransitionHeld => 5,
            Refusal::TransitionsFull => 6,
            Refusal::NotHeld => 7,
            Refusal::BadLength => 8,
            Refusal::BadRecord => 9,
        }
    }
}

// What a call answers: its number and its value, since calls on a book and checks answer such a pair.
pub(crate) fn answer(outcome: Result<usize, Refusal>) -> (u8, usize)
    ensures { result ≡ answer_of outcome }
{
    match outcome {
        Ok(value) => (ACCEPTED, value),
        Err(refusal) => (refusal.into(), 0),
    }
}
