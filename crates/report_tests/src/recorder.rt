//! A console over bytes in memory that keeps what happened on it, in order.
ghost use Rattle.std.specs.Prelude.{◌≡◌, ℕ, [], ◌∷◌, None as none, IfOk, IsErr, vec_items};
ghost use Rattle.std.specs.Option.{option_map};
ghost use Rattle.report.specs.Events.{Known, Happen};
ghost use Rattle.report_tests.specs.Moments.{event_of, events_of};

use report::console::Console;
use std::alloc::{AllocError, Global};
use std::io;
use std::io::ErrorKind;

/// A read or a write that went well, with its bytes, or a write that was interrupted.
#[derive(Drop)]
pub enum Moment {
    Read(Vec<u8>),
    Wrote(Vec<u8>),
    Interrupted(io::Error),
}

/// Gives its bytes in pieces of at most `most`, and takes all that is written once so many writes were
/// interrupted. Without memory for a moment all are forgotten.
#[derive(Drop)]
pub struct Recorder<'a> {
    pub alloc: Global,
    pub rest: &'a [u8],
    pub most: usize,
    pub interruptions: usize,
    pub moments: Option<Vec<Moment>>,
}

// One moment more, or none at all.
fn kept(moments: Option<Vec<Moment>>, moment: Result<Moment, AllocError>) -> Option<Vec<Moment>>
    ensures more { IfOk moment (λ m. Happen (option_map (λ v. events_of (vec_items v)) moments)
        (option_map (λ v. events_of (vec_items v)) result) (event_of m ∷ [])) }
    ensures forgotten { IsErr moment → result ≡ none }
{
    let Some(mut moments) = moments else {
        return None;
    };
    let Ok(moment) = moment else {
        return None;
    };
    if moments.push(moment).is_err() {
        return None;
    }
    Some(moments)
}

impl Console for Recorder<'_> {
    ghost known = { λ r. record {
      unread = none;
      written = none;
      events = option_map (λ v. events_of (vec_items v)) r.moments;
    } };

    fn read(&mut self, buffer: &mut [u8]) -> io::Result<usize> {
        let count = buffer.len().min(self.rest.len()).min(self.most);
        buffer[..count].copy_from_slice(&self.rest[..count]);
        self.rest = &self.rest[count..];
        let moment = Vec::from_slice(self.alloc, &buffer[..count]).map(Moment::Read);
        self.moments = kept(self.moments.take(), moment);
        Ok(count)
    }

    fn write(&mut self, bytes: &[u8]) -> io::Result<usize> {
        if self.interruptions > 0 {
            self.interruptions -= 1;
            let e = io::Error::from(ErrorKind::Interrupted);
            self.moments = kept(self.moments.take(), Ok(Moment::Interrupted(e)));
            return Err(e);
        }
        let moment = Vec::from_slice(self.alloc, bytes).map(Moment::Wrote);
        self.moments = kept(self.moments.take(), moment);
        Ok(bytes.len())
    }
}
