//! Tests of the loop and the listing: in pieces of any length, with failures at every place.
#![tactic(auto)]

pub mod recorder;

use report::console::Streams;
use report::listing::own_steps;
use report::serve::{Stopped, serve};
use report::session::Session;
use report::transcript::transcribe;
use std::alloc::Global;
use std::io;
use std::io::{ErrorKind, Read, Write};

// Four products and six transitions.
const FAMILY: &[u8] = b"P\x01\0\0\0\0\0\0P\x02\0\0\0\0\0\0P\x03\0\0\0\0\0\0P\0\0\0\0\0\0\0\
    T\0\0\x01\0\0\0\0T\x01\x01\x02\x01\0\0\0T\x01\x01\x02\x02\0\0\0\
    T\x02\x02\x03\x01\0\0\0T\x02\x03\0\x02\0\0\0T\x03\x03\0\0\0\0\0";

const INPUT: &[u8] = b"<fill|hand>true\n\nmu X. !X";

const OUTPUT: &[u8] = b"1 0110\n2 refused 23 0\n3 refused 16 0\n";

/// Gives its bytes in pieces of at most `most`, and fails when `pieces` of them were given.
#[derive(Drop)]
pub struct Pieces<'a> {
    rest: &'a [u8],
    most: usize,
    pieces: usize,
}

impl Read for Pieces<'_> {
    fn read(&mut self, buf: &mut [u8]) -> io::Result<usize> {
        if self.pieces == 0 {
            return Err(io::Error::from(ErrorKind::ConnectionReset));
        }
        self.pieces -= 1;
        let count = buf.len().min(self.rest.len()).min(self.most);
        buf[..count].copy_from_slice(&self.rest[..count]);
        self.rest = &self.rest[count..];
        Ok(count)
    }
}

/// Takes at most seven bytes at once, fails when `room` bytes were taken, and before that is interrupted at
/// every second try.
#[derive(Drop)]
pub struct Room {
    taken: Vec<u8>,
    room: usize,
    interrupts: bool,
}

impl Write for Room {
    fn write(&mut self, buf: &[u8]) -> io::Result<usize> {
        if self.room == 0 {
            return Err(io::Error::from(ErrorKind::StorageFull));
        }
        self.interrupts = !self.interrupts;
        if !self.interrupts {
            return Err(io::Error::from(ErrorKind::Interrupted));
        }
        let count = buf.len().min(7).min(self.room);
        self.taken.extend_from_slice(&buf[..count])?;
        self.room -= count;
        Ok(count)
    }

    fn flush(&mut self) -> io::Result<()> {
        Ok(())
    }
}

fn session(alloc: Global) -> io::Result<Session> {
    let actions = Vec::from_slice(alloc, b"fill\nrennet\ntest\ncut\n")?;
    let features = Vec::from_slice(alloc, b"auto\nhand\n")?;
    Session::open(alloc, FAMILY, actions, features)?.map_err(|_| io::Error::from(
        ErrorKind::InvalidData,
    ))
}

/// What is written for the input, and whether it was answered to its end.
fn served(alloc: Global, most: usize, pieces: usize, room: usize) -> io::Result<(Vec<u8>, bool)> {
    let reader = Pieces {
        rest: INPUT,
        most,
        pieces,
    };
    let writer = Room {
        taken: Vec::new(alloc),
        room,
        interrupts: true,
    };
    let mut console = Streams { reader, writer };
    let ended = serve(alloc, session(alloc)?, &mut console).is_ok();
    let Streams { writer, .. } = console;
    let Room { taken, .. } = writer;
    Ok((taken, ended))
}

/// How many bytes the answers to the first lines have, a byte 10 at the end of each.
fn answered(lines: usize) -> usize {
    let mut left = lines;
    let mut bytes = 0usize;
    for byte in OUTPUT {
        if left > 0 {
            bytes = bytes.saturating_add(1);
            left = left.saturating_sub(usize::from(*byte == b'\n'));
        }
    }
    bytes
}

fn ends_in(bytes: &[u8]) -> usize {
    bytes.iter().filter(|byte| **byte == b'\n').count()
}

#[cfg(test)]
mod tests {
    use super::recorder::{Moment, Recorder};
    use super::*;

    // Each read finds as many lines answered as have ended.
    #[test]
    fn order_of_moments(rt: HostRuntime) -> io::Result<()> {
        let mut console = Recorder {
            alloc: rt.alloc(),
            rest: INPUT,
            most: 3,
            interruptions: 0,
            moments: Some(Vec::new(rt.alloc())),
        };
        assert!(rt; serve(rt.alloc(), session(rt.alloc())?, &mut console).is_ok());
        let Recorder { moments, .. } = console;
        let (mut ended, mut answered) = (0usize, 0usize);
        for moment in &moments.unwrap_or(Vec::new(rt.alloc())) {
            match moment {
                Moment::Read(bytes) => {
                    assert!(rt; answered == ended);
                    ended = ended.saturating_add(ends_in(bytes));
                }
                Moment::Wrote(bytes) => answered = answered.saturating_add(ends_in(bytes)),
                Moment::Interrupted(_) => {}
            }
        }
        assert!(rt; answered == 3 && ended == 2);
        Ok(())
    }

    // A write that is interrupted is tried again, and the conversation goes on.
    #[test]
    fn interrupted_write(rt: HostRuntime) -> io::Result<()> {
        let mut console = Recorder {
            alloc: rt.alloc(),
            rest: INPUT,
            most: 3,
            interruptions: 1,
            moments: Some(Vec::new(rt.alloc())),
        };
        assert!(rt; serve(rt.alloc(), session(rt.alloc())?, &mut console).is_ok());
        let Recorder { moments, .. } = console;
        let mut written = Vec::new(rt.alloc());
        let mut interrupted = 0usize;
        for moment in &moments.unwrap_or(Vec::new(rt.alloc())) {
            match moment {
                Moment::Read(_) => {}
                Moment::Wrote(bytes) => written.extend_from_slice(bytes)?,
                Moment::Interrupted(_) => interrupted = interrupted.saturating_add(1),
            }
        }
        assert!(rt; interrupted == 1 && written.as_slice() == OUTPUT);
        Ok(())
    }

    // Interruptions without end are an error.
    #[test]
    fn interrupted_writes(rt: HostRuntime) -> io::Result<()> {
        let mut console = Recorder {
            alloc: rt.alloc(),
            rest: INPUT,
            most: 3,
            interruptions: usize::MAX,
            moments: None,
        };
        let ended = serve(rt.alloc(), session(rt.alloc())?, &mut console);
        assert!(rt; matches!(ended, Err(Stopped::Output(e)) if e.kind() == ErrorKind::Interrupted));
        Ok(())
    }

    // The lines of a whole input.
    #[test]
    fn whole_input(rt: HostRuntime) -> io::Result<()> {
        let mut written = String::new(rt.alloc());
        for line in &transcribe(rt.alloc(), session(rt.alloc())?, INPUT)? {
            written.push_str(line)?;
            written.push_str("\n")?;
        }
        assert!(rt; written.as_bytes() == OUTPUT);
        Ok(())
    }

    // What is written on standard error: the words of the error that ended the conversation.
    #[test]
    fn words(rt: HostRuntime) -> io::Result<()> {
        let e = io::Error::from_raw_os_error(32);
        let (input, output) = (Stopped::Input(e), Stopped::Output(e));
        let text = format!(in rt.alloc(); "{e}")?;
        let words = format!(in rt.alloc(); "{input} {output}")?;
        assert!(rt; words == format!(in rt.alloc(); "{text} {text}")?);
        Ok(())
    }

    // In pieces of any length the answers are the same.
    #[test]
    fn any_pieces(rt: HostRuntime) -> io::Result<()> {
        for most in 1..30usize {
            let (written, ended) = served(rt.alloc(), most, 1000, 1000)?;
            assert!(rt;
                ended && written.as_slice() == OUTPUT,
                "in pieces of {most}"
            );
        }
        Ok(())
    }

    // Wherever a read fails, all lines that have ended are answered, and nothing else is written.
    #[test]
    fn failing_reads(rt: HostRuntime) -> io::Result<()> {
        for pieces in 0..INPUT.len() {
            let (written, ended) = served(rt.alloc(), 1, pieces, 1000)?;
            let lines = INPUT
                .iter()
                .take(pieces)
                .filter(|byte| **byte == b'\n')
                .count();
            assert!(rt;
                !ended && written.len() == answered(lines),
                "after {pieces} pieces"
            );
            assert!(rt; OUTPUT.starts_with(&written), "after {pieces} pieces");
        }
        Ok(())
    }

    // Wherever a write fails, what was taken until then is a front of the answers.
    #[test]
    fn failing_writes(rt: HostRuntime) -> io::Result<()> {
        for room in 0..OUTPUT.len() {
            let (written, ended) = served(rt.alloc(), 5, 1000, room)?;
            assert!(rt; !ended && written.len() == room, "with room for {room}");
            assert!(rt; OUTPUT.starts_with(&written), "with room for {room}");
        }
        Ok(())
    }

    // The lines of a product, and the line of a refused load.
    #[test]
    fn listings(rt: HostRuntime) -> io::Result<()> {
        let cases: [(&[u8], &str); 3] = [
            (
                &FAMILY[16..48],
                "product 0 configuration 3\n  0 0 1\n  1 1 2\nproduct 1 configuration 0\n  0 0 1\n",
            ),
            (&FAMILY[..79], "book 8 0\n"),
            (&[], ""),
        ];
        for (family, listing) in cases {
            let text = own_steps(rt.alloc(), family)?;
            assert_eq!(rt; text.as_str(), listing);
        }
        Ok(())
    }
}
