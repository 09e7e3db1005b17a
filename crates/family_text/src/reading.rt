// Reading a text.
ghost use Rattle.std.specs.Prelude.{◌≡◌, ◌++◌, List, IfOk, IfErr, OnOk};
ghost use Rattle.book.specs.declared.records.Record.{Record as Entry};
ghost use Rattle.family_text.specs.declared.errors.ReadError.TheVariants.{OutOfMemory};
ghost use Rattle.family_text.specs.Words.{texts, lines_of, words_of};
ghost use Rattle.family_text.specs.Records.{encoding, Holds};
ghost use Rattle.family_text.specs.Grammar.{vocabulary, said_by, Tell, Describes};
ghost use Rattle.family_text.specs.Reading.{record_of};
ghost use Rattle.family_text.specs.Faults.{IsFault};

use crate::errors::{Expected, ReadError};
use crate::records::bytes;
use crate::splitting::{lines, words};
use crate::vocabulary::Vocabulary;
use book::records::Record;
use std::alloc::{AllocError, Global};

// What a line says: a record or nothing, or what was expected where it is wrong.
type Said = Result<Option<Record>, Expected>;

fn said(alloc: Global, names: &Vocabulary, line: &[u8]) -> Result<Said, AllocError>
    ensures { IfOk result (λ said. said ≡ record_of (vocabulary names.now) (words_of line.now)) }
{
    let words = words(alloc, line)?;
    Ok(names.record(&words))
}

// Enters what a line says.
fn enter(records: &mut Vec<u8>, said: Option<Record>) -> Result<(), AllocError>
    ensures { OnOk result (records.new.items ≡ records.old.items ++ encoding (said_by said)) }
{
    if let Some(record) = said {
        records.extend_from_slice(&bytes(record))?;
    }
    Ok(())
}

// The records that lines say.
fn read_lines(alloc: Global, names: &Vocabulary, lines: &[&[u8]]) -> Result<Vec<u8>, ReadError>
    ensures read { IfOk result (λ bytes.
        (said : List Entry) × Tell (vocabulary names.now) (texts lines.now) said × (bytes.items ≡ encoding said)) }
    ensures fault { IfErr result (IsFault (vocabulary names.now) (texts lines.now)) }
{
    let mut records = Vec::new(alloc);
    for (i, line) in lines.iter().enumerate() {
        match said(alloc, names, line)? {
            Ok(said) => enter(&mut records, said)?,
            Err(expected) => {
                return Err(ReadError::Line {
                    number: i + 1,
                    expected,
                });
            }
        }
    }
    Ok(records)
}

/// Reads a text: eight bytes for each record that its lines say, in their order.
pub fn read(alloc: Global, names: &Vocabulary, text: &[u8]) -> Result<Vec<u8>, ReadError>
    ensures read { IfOk result (λ bytes.
        (said : List Entry) × Describes (vocabulary names.now) text.now said × (bytes.items ≡ encoding said)) }
    ensures only { (said : List Entry) → Describes (vocabulary names.now) text.now said →
        IfErr result (λ e. e ≡ OutOfMemory) × IfOk result (λ bytes. bytes.items ≡ encoding said) }
    ensures records { IfOk result (λ bytes. (said : List Entry) → Describes (vocabulary names.now) text.now said → Holds bytes.items said) }
    ensures fault { IfErr result (IsFault (vocabulary names.now) (lines_of text.now)) }
{
    let lines = lines(alloc, text)?;
    read_lines(alloc, names, &lines)
}
