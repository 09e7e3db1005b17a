// The answer to one formula text, and the line that tells it.
ghost use Rattle.std.specs.Prelude.{◌≡◌, ◌++◌, Some, IfOk, string_bytes, codes};
ghost use Rattle.reader.specs.Refusals.{refusal_number, refusal_value};
ghost use Rattle.report.specs.Lines.{two_numbers, written};
ghost use Rattle.report.specs.Verdicts.{outcome_of};

use crate::digits::Digits;
use reader::Refusal;
use std::alloc::{AllocError, Global};
use std::fmt;

// What is answered to a text that gets no digits: the number of a refusal and its value.
#[derive(Clone, Copy, Debug, PartialEq, Eq)]
pub struct Refused {
    pub number: u8,
    pub value: usize,
}

impl From<Refusal> for Refused {
    ghost from_gives = { λ r s. (s.number ≡ refusal_number r) × (s.value ≡ refusal_value r) };

    fn from(refusal: Refusal) -> Refused {
        let (number, value) = refusal.into();
        Refused { number, value }
    }
}

impl fmt::Display for Refused {
    ghost output = { λ r. Some (codes "refused " ++ two_numbers r.number r.value) };

    fn fmt<W: fmt::Write>(&self, f: &mut fmt::Formatter<W>) -> fmt::Result {
        write!(f, "refused {} {}", self.number, self.value)
    }
}

// The line, without its end, for the answer to line `number` of the input.
pub fn line(
    alloc: Global,
    number: u64,
    verdict: &Result<Digits, Refused>,
) -> Result<String, AllocError>
    ensures { IfOk result (λ s. string_bytes s ≡ written number (outcome_of verdict.now)) }
{
    match verdict {
        Ok(digits) => format!(in alloc; "{number} {digits}"),
        Err(refused) => format!(in alloc; "{number} {refused}"),
    }
}
