// Why a text or a family's records are refused.
ghost use Rattle.std.specs.Prelude.{◌≡◌};
ghost use Rattle.family_text.specs.declared.errors.ReadError.TheVariants.{OutOfMemory};
ghost use Rattle.family_text.specs.declared.errors.PrintError.TheVariants.{OutOfMemory as NoMemory};

use std::alloc::{AllocError, AllocFailed};
use std::error::Error;
use std::fmt::{self, Display};

/// What a line was expected to have where it is wrong.
#[derive(Clone, Copy, Debug, Drop, PartialEq, Eq)]
pub enum Expected {
    Key,
    State,
    Action,
    Feature,
    Condition,
}

impl Display for Expected {
    fn fmt<W: fmt::Write>(&self, f: &mut fmt::Formatter<W>) -> fmt::Result {
        f.write_str(match self {
            Expected::Key => "`vat` or `step`",
            Expected::State => "a state: a number from 0 to 63",
            Expected::Action => "an action's name",
            Expected::Feature => "an option's name",
            Expected::Condition => "`needs`, `bars` or the end of the line",
        })
    }
}

/// Why a text gives no family: a line is wrong, counted from 1, or memory ran out.
#[derive(Clone, Copy, Debug, Drop, PartialEq, Eq)]
pub enum ReadError {
    Line { number: usize, expected: Expected },
    OutOfMemory,
}

impl Display for ReadError {
    fn fmt<W: fmt::Write>(&self, f: &mut fmt::Formatter<W>) -> fmt::Result {
        match self {
            ReadError::Line { number, expected } => write!(f, "line {number}: expected {expected}"),
            ReadError::OutOfMemory => f.write_str("out of memory"),
        }
    }
}

impl Error for ReadError {}

impl From<AllocError> for ReadError {
    ghost from_gives = { λ _ e. e ≡ OutOfMemory };

    fn from(_error: AllocError) -> ReadError {
        ReadError::OutOfMemory
    }
}

/// What a record lacks to be written as text.
#[derive(Clone, Copy, Debug, Drop, PartialEq, Eq)]
pub enum Lack {
    Kind,
    State(u8),
    ActionName(u8),
    FeatureName(u8),
}

impl Display for Lack {
    fn fmt<W: fmt::Write>(&self, f: &mut fmt::Formatter<W>) -> fmt::Result {
        match self {
            Lack::Kind => f.write_str("its bytes are no record"),
            Lack::State(state) => write!(f, "state {state} is above 63"),
            Lack::ActionName(action) => write!(f, "action {action} has no name"),
            Lack::FeatureName(feature) => write!(f, "option {feature} has no name"),
        }
    }
}

/// Why records are not printed: their bytes are no multiple of eight, one of them, counted from 0, has no text, or
/// memory ran out.
#[derive(Clone, Copy, Debug, Drop, PartialEq, Eq)]
pub enum PrintError {
    Length,
    Record { number: usize, lack: Lack },
    OutOfMemory,
}

impl Display for PrintError {
    fn fmt<W: fmt::Write>(&self, f: &mut fmt::Formatter<W>) -> fmt::Result {
        match self {
            PrintError::Length => f.write_str("the length is no multiple of 8"),
            PrintError::Record { number, lack } => write!(f, "record {number}: {lack}"),
            PrintError::OutOfMemory => f.write_str("out of memory"),
        }
    }
}

impl Error for PrintError {}

impl From<AllocError> for PrintError {
    ghost from_gives = { λ _ e. e ≡ NoMemory };

    fn from(_error: AllocError) -> PrintError {
        PrintError::OutOfMemory
    }
}
