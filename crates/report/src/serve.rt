//! The loop of vatcheck: the lines of a console's input are answered on it, each before more is read.
ghost use Rattle.std.specs.Prelude.{◌≡◌, ◌∷◌, [], OnOk, string_bytes};
ghost use Rattle.report.specs.Events.{Through, Puts, ReadsAll};
ghost use Rattle.report.specs.Pieces.{Says, Feeds, Finishes};
ghost use Rattle.report.specs.Conversations.{Conversation};
ghost use Rattle.report.specs.declared.serve.Stopped.TheVariants.{Memory};

use crate::console::Console;
use crate::session::Session;
use crate::transcript::Transcript;
use std::alloc::{AllocError, Global};
use std::error::Error;
use std::io::ErrorKind;
use std::{fmt, io};

// How many bytes are read at once.
const BUFFER: usize = 4096;

// How many more writes than there are bytes a signal may interrupt before that is an error.
const RETRIES: usize = 64;

// The words of a write that takes nothing.
const UNWRITTEN: &str = "failed to write whole buffer";

/// Why not all of the input was answered: a read failed, a write failed, memory is lacking for an answer, or
/// no end came in as many reads as can be counted.
#[derive(Debug, Drop)]
pub enum Stopped {
    Input(io::Error),
    Output(io::Error),
    Memory(AllocError),
    Spent,
}

impl fmt::Display for Stopped {
    fn fmt<W: fmt::Write>(&self, f: &mut fmt::Formatter<W>) -> fmt::Result {
        match self {
            Stopped::Input(e) | Stopped::Output(e) => write!(f, "{e}"),
            Stopped::Memory(e) => write!(f, "{e}"),
            Stopped::Spent => f.write_str("the input has no end"),
        }
    }
}

impl Error for Stopped {}

impl From<AllocError> for Stopped {
    ghost from_gives = { λ e stopped. stopped ≡ Memory e };

    fn from(e: AllocError) -> Stopped {
        Stopped::Memory(e)
    }
}

// Writes all bytes, or a front of them. A write that a signal interrupts is tried again.
fn put<C: Console>(console: &mut C, bytes: &[u8]) -> io::Result<()>
    ensures { Through (C.known console.old) (C.known console.new) (Puts bytes.now result) }
{
    let mut rest = bytes;
    let mut retries = bytes.len().saturating_add(RETRIES);
    while !rest.is_empty() {
        match console.write(rest) {
            Ok(0) => return Err(io::Error::new(ErrorKind::WriteZero, UNWRITTEN)),
            Ok(count) => rest = &rest[count..],
            Err(e) if retries > 0 && e.kind() == ErrorKind::Interrupted => retries -= 1,
            Err(e) => return Err(e),
        }
    }
    Ok(())
}

// Writes a line with its end, or a front of that.
fn answer_line<C: Console>(console: &mut C, line: String) -> Result<(), Stopped>
    ensures { Through (C.known console.old) (C.known console.new) (Says (string_bytes line) result) }
{
    let mut line = line;
    line.push_str("\n")?;
    match put(console, line.as_bytes()) {
        Ok(()) => Ok(()),
        Err(e) => Err(Stopped::Output(e)),
    }
}

// Answers the lines that end within a piece of the input.
fn answer_piece<C: Console>(
    alloc: Global,
    transcript: &mut Transcript,
    console: &mut C,
    piece: &[u8],
) -> Result<(), Stopped>
    ensures session { transcript.new.session ≡ transcript.old.session }
    ensures answer { Through (C.known console.old) (C.known console.new)
        (Feeds transcript.old transcript.new piece.now result) }
{
    for byte in piece {
        match transcript.feed(alloc, *byte)? {
            None => {}
            Some(line) => answer_line(console, line)?,
        }
    }
    Ok(())
}

// Answers a last line that lacks its end.
fn answer_end<C: Console>(
    alloc: Global,
    transcript: &mut Transcript,
    console: &mut C,
) -> Result<(), Stopped>
    ensures { Through (C.known console.old) (C.known console.new) (Finishes transcript.old result) }
{
    match transcript.finish(alloc)? {
        None => Ok(()),
        Some(last) => answer_line(console, last),
    }
}

/// Answers the lines of a console's input to its end. At each moment every line that has ended is answered
/// before more is read.
pub fn serve<C: Console>(alloc: Global, session: Session, console: &mut C) -> Result<(), Stopped>
    ensures { Through (C.known console.old) (C.known console.new)
        (λ es. Conversation session result es × OnOk result (ReadsAll (C.known console.old).unread es)) }
{
    let mut transcript = Transcript::new(alloc, session)?;
    let mut buffer = [0u8; BUFFER];
    // A loop that waits on input has to be counted.
    for _ in 0..u64::MAX {
        match console.read(&mut buffer) {
            Ok(0) => return answer_end(alloc, &mut transcript, console),
            Ok(count) => answer_piece(alloc, &mut transcript, console, &buffer[..count])?,
            Err(e) => return Err(Stopped::Input(e)),
        }
    }
    Err(Stopped::Spent)
}
