//! A console: one value that bytes are read from and written to, so that a contract can say in which
//! order.
ghost use Rattle.std.specs.Prelude.{◌≡◌, ◌<◌, length, None as none, OnOk, IfOk};
ghost use Rattle.std.specs.Io.{ReadsAtMost, WritesAtMost};
ghost use Rattle.std.specs.Io.KnownBytes.{IsAtEnd};
ghost use Rattle.report.specs.Events.{Known, Passes, reading, writing};

use std::io;
use std::io::{Read, Write};

/// What a program reads its input from and writes its output to.
pub trait Console {
    // What is known of it, as far as it says.
    ghost known: { Self → Known };

    /// Reads some bytes into a buffer and tells how many; 0 at the end of the input alone.
    fn read(&mut self, buffer: &mut [u8]) -> io::Result<usize>
        requires { 0 < length buffer.old }
        ensures bound { ReadsAtMost result buffer.new }
        ensures event { Passes (known self.old) (known self.new) (reading result buffer.new) }
        ensures end { IfOk result (λ n. n ≡ 0 → IsAtEnd (known self.new).unread) };

    /// Writes some of the bytes, from the first on, and tells how many.
    fn write(&mut self, bytes: &[u8]) -> io::Result<usize>
        ensures bound { WritesAtMost result bytes.now }
        ensures event { Passes (known self.old) (known self.new) (writing result bytes.now) };
}

/// A reader and a writer as one console, as standard input and output are.
#[derive(Drop)]
pub struct Streams<R, W> {
    pub reader: R,
    pub writer: W,
}

impl<R: Read, W: Write> Console for Streams<R, W> {
    ghost known = { λ s.
        record { unread = R.remaining s.reader; written = W.contents s.writer; events = none } };

    fn read(&mut self, buffer: &mut [u8]) -> io::Result<usize> {
        self.reader.read(buffer)
    }

    fn write(&mut self, bytes: &[u8]) -> io::Result<usize> {
        self.writer.write(bytes)
    }
}
