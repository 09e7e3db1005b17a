//! A session that takes its input byte by byte and answers each line as it ends.
ghost use Rattle.std.specs.Prelude.{◌≡◌, ◌≢◌, ◌≤◌, [], ◌∷◌, ◌++◌, map, IfOk, None as none, Ok as ok};
ghost use Rattle.std.specs.Prelude.{vec_len, vec_capacity, string_bytes};
ghost use Rattle.report.specs.Sessions.{family_of, actions_of, features_of};
ghost use Rattle.report.specs.Transcripts.{kept, next, Told, Tells, Transcribed};

use crate::session::Session;
use crate::verdict::line;
use reader::LONGEST_TEXT;
use std::alloc::{AllocError, Global};

// One byte more than a text may have, so that what is kept of a longer line is refused too.
const KEPT: usize = LONGEST_TEXT + 1;

/// The line that is being read, as far as it is kept, and its number. Room for it is reserved, so no memory
/// is wanted while it grows. What a call leaves as it was, as the session, each call says.
#[derive(Drop)]
pub struct Transcript {
    session: Session,
    line: Vec<u8>,
    number: u64,
    ghost short: { vec_len line ≤ 1025 },
    ghost roomy: { 1025 ≤ vec_capacity line },
}

impl Transcript {
    /// Before the first byte of the input.
    pub fn new(alloc: Global, session: Session) -> Result<Transcript, AllocError>
        ensures { IfOk result (λ t. (t.session ≡ session) × (t.line.items ≡ []) × (t.number ≡ 1)) }
    {
        let line = Vec::with_capacity(alloc, KEPT)?;
        Ok(Transcript {
            session,
            line,
            number: 1,
        })
    }

    // The answer to the line that has ended.
    fn answer(&mut self, alloc: Global) -> Result<String, AllocError>
        ensures session { self.new.session ≡ self.old.session }
        ensures line { self.new.line.items ≡ [] }
        ensures number { self.new.number ≡ next self.old.number }
        ensures answer { IfOk result (λ s.
            Tells self.old.session self.old.number self.old.line.items (string_bytes s)) }
    {
        let number = self.number;
        let verdict = self.session.verdict(&self.line);
        self.line.clear();
        self.number = number.saturating_add(1);
        line(alloc, number, &verdict)
    }

    /// Takes the next byte of the input, and gives the answer if a line ends with it.
    pub fn feed(&mut self, alloc: Global, byte: u8) -> Result<Option<String>, AllocError>
        ensures session { self.new.session ≡ self.old.session }
        ensures within { (byte ≢ 10) → (result ≡ ok none)
            × (self.new.line.items ≡ kept (self.old.line.items ++ byte ∷ []))
            × (self.new.number ≡ self.old.number) }
        ensures ended { byte ≡ 10 → (self.new.line.items ≡ []) × (self.new.number ≡ next self.old.number) }
        ensures answer { byte ≡ 10 → IfOk result (λ o. Told o (λ s.
            Tells self.old.session self.old.number self.old.line.items (string_bytes s))) }
    {
        if byte == b'\n' {
            return Ok(Some(self.answer(alloc)?));
        }
        if self.line.len() < KEPT {
            self.line.push_reserved(byte);
        }
        Ok(None)
    }

    /// At the end of the input: the answer to a last line that lacks its end, unless it is empty.
    pub fn finish(&mut self, alloc: Global) -> Result<Option<String>, AllocError>
        ensures session { self.new.session ≡ self.old.session }
        ensures line { self.new.line.items ≡ [] }
        ensures empty { self.old.line.items ≡ [] →
            (result ≡ ok none) × (self.new.number ≡ self.old.number) }
        ensures ended { (self.old.line.items ≢ []) → self.new.number ≡ next self.old.number }
        ensures answer { (self.old.line.items ≢ []) → IfOk result (λ o. Told o (λ s.
            Tells self.old.session self.old.number self.old.line.items (string_bytes s))) }
    {
        if self.line.is_empty() {
            return Ok(None);
        }
        Ok(Some(self.answer(alloc)?))
    }
}

/// The lines that are written for a whole input, each without its end.
pub fn transcribe(alloc: Global, session: Session, input: &[u8]) -> Result<Vec<String>, AllocError>
    ensures { IfOk result (λ v. Transcribed (family_of session) (actions_of session) (features_of session)
        1 input.now (map string_bytes v.items)) }
{
    let mut transcript = Transcript::new(alloc, session)?;
    let mut lines = Vec::new(alloc);
    for byte in input {
        if let Some(line) = transcript.feed(alloc, *byte)? {
            lines.push(line)?;
        }
    }
    if let Some(line) = transcript.finish(alloc)? {
        lines.push(line)?;
    }
    Ok(lines)
}
