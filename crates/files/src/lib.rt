//! Files that a program may find missing.
#![tactic(auto)]

ghost use Rattle.std.specs.Prelude.{◌≡◌, ◌≢◌, [], take, Ok, Err, IfOk, IfErr, IfSome, IsOkAnd};
ghost use Rattle.std.specs.IoError.{error_kind};
ghost use Rattle.std_io.specs.declared.io.kind.ErrorKind.TheVariants.{NotFound};

use std::alloc::Global;
use std::fs::File;
use std::io;
use std::io::{ErrorKind, Read};

/// How many bytes of a file are read at most: more than any file that a program accepts has, so that a longer
/// one is refused all the same.
pub const MOST_BYTES: u64 = 65_536;

/// What opening and reading a file gave, a missing file counting as empty; any other failure stays as it
/// is.
pub fn missing_as_empty(alloc: Global, read: io::Result<Vec<u8>>) -> io::Result<Vec<u8>>
    ensures found { IfOk read (λ bytes. result ≡ Ok bytes) }
    ensures missing { IfErr read (λ e.
        error_kind e ≡ NotFound → IsOkAnd result (λ bytes. bytes.items ≡ [])) }
    ensures failed { IfErr read (λ e. error_kind e ≢ NotFound → result ≡ Err e) }
{
    match read {
        Ok(bytes) => Ok(bytes),
        Err(e) if e.kind() == ErrorKind::NotFound => Ok(Vec::new(alloc)),
        Err(e) => Err(e),
    }
}

// The first bytes that a reader gives, `most` of them or all.
fn read_front<R: Read>(alloc: Global, reader: &mut R, most: u64) -> io::Result<Vec<u8>>
    ensures { IfOk result (λ bytes.
        IfSome (R.remaining reader.old) (λ all. bytes.items ≡ take most all)) }
{
    let mut bytes = Vec::new(alloc);
    reader.take(most).read_to_end(&mut bytes)?;
    Ok(bytes)
}

/// The first bytes of what was opened, `most` of them or all; a missing file counts as empty, and any other
/// failure to open stays as it is.
pub fn front_or_none<R: Read + Drop>(
    alloc: Global,
    opened: io::Result<R>,
    most: u64,
) -> io::Result<Vec<u8>>
    ensures found { IfOk opened (λ r. IfOk result (λ bytes.
        IfSome (R.remaining r) (λ all. bytes.items ≡ take most all))) }
    ensures missing { IfErr opened (λ e.
        error_kind e ≡ NotFound → IsOkAnd result (λ bytes. bytes.items ≡ [])) }
    ensures failed { IfErr opened (λ e. error_kind e ≢ NotFound → result ≡ Err e) }
{
    match opened {
        Ok(mut reader) => read_front(alloc, &mut reader, most),
        Err(e) => missing_as_empty(alloc, Err(e)),
    }
}

/// A file's first bytes, or all; a missing file counts as empty, and any other failure to open or to read
/// it stays as it is.
pub fn bytes_or_none(rt: &HostRuntime, path: &str) -> io::Result<Vec<u8>> {
    let read = front_or_none(rt.alloc(), File::open(rt, path), MOST_BYTES);
    missing_as_empty(rt.alloc(), read)
}
