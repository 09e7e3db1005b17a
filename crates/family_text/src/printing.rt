// Printing records as text.
ghost use Rattle.std.specs.Prelude.{◌≡◌, ◌++◌, ◌∷◌, ◌<◌, ◌≤◌, List, [], length, map, Some, IfOk, IfErr, OnOk, MatchResult};
ghost use Rattle.std.specs.Fmt.{decimal};
ghost use Rattle.words.specs.Cut.{cut};
ghost use Rattle.family_text.specs.Words.{word_at};
ghost use Rattle.family_text.specs.Grammar.{vocabulary, Describes};
ghost use Rattle.book.specs.declared.records.Record.{Record as Entry};
ghost use Rattle.family_text.specs.declared.errors.Lack.TheVariants.{State, ActionName};
ghost use Rattle.family_text.specs.Records.{Holds};
ghost use Rattle.family_text.specs.Printing.{spaced, feature_words, part_words, transition_words, line_for};
ghost use Rattle.family_text.specs.Printing.{one_if, Named, Unnamed, IsPrintable, Lacks, LacksText, Prints, IsPrintFault};
ghost use Rattle.book.specs.Records.{record_in};
ghost use Rattle.book.specs.declared.records.Record.TheVariants.{AddTransition};
ghost use Rattle.families.specs.Bits.{bit};

use crate::errors::{Lack, PrintError};
use crate::line::{STEP, VAT};
use crate::vocabulary::{BARS, MAX_FEATURES, NEEDS, Vocabulary};
use book::records::{RECORD_BYTES, Record, read};
use families::{MAX_STATES, Transition};
use std::alloc::{AllocError, Global};
use words::Names;

fn has(set: u16, feature: u8) -> bool
    requires { feature < 16 }
    ensures { result ≡ bit set feature }
{
    (set >> feature) & 1 == 1
}

// The name of a number, and no bytes if it has none.
fn name<'a>(list: Names<'a>, number: u8) -> &'a [u8]
    ensures { result.now ≡ word_at (cut list.entry.list.now) number }
{
    match list.name(number) {
        Some(name) => name,
        None => &[],
    }
}

fn push_word(text: &mut Vec<u8>, word: &[u8]) -> Result<(), AllocError>
    ensures { OnOk result (text.new.items ≡ text.old.items ++ 32 ∷ word.now) }
{
    text.push(b' ')?;
    text.extend_from_slice(word)
}

fn push_state(alloc: Global, text: &mut Vec<u8>, state: u8) -> Result<(), AllocError>
    ensures { OnOk result (text.new.items ≡ text.old.items ++ 32 ∷ decimal state) }
{
    let digits = state.to_string(alloc)?;
    push_word(text, digits.as_bytes())
}

// Whether a number is a state's.
fn check_state(state: u8) -> Result<(), Lack>
    ensures { MatchResult result (λ _. state < 64) (λ e. (e ≡ State state) × (64 ≤ state)) }
{
    if usize::from(state) < MAX_STATES {
        Ok(())
    } else {
        Err(Lack::State(state))
    }
}

impl Vocabulary<'_> {
    fn check_action(&self, action: u8) -> Result<(), Lack>
        ensures { let count = length (vocabulary self.now).actions in
            MatchResult result (λ _. action < count) (λ e. (e ≡ ActionName action) × (count ≤ action)) }
    {
        if self.actions.name(action).is_some() {
            Ok(())
        } else {
            Err(Lack::ActionName(action))
        }
    }

    // Whether each feature of a set has a name.
    fn check_features(&self, set: u16) -> Result<(), Lack>
        ensures { MatchResult result (λ _. Named (vocabulary self.now) set) (Unnamed (vocabulary self.now) set) }
    {
        for feature in 0..MAX_FEATURES {
            if has(set, feature) && self.features.name(feature).is_none() {
                return Err(Lack::FeatureName(feature));
            }
        }
        Ok(())
    }

    fn check_transition(&self, t: &Transition) -> Result<(), Lack>
        ensures { MatchResult result (λ _. IsPrintable (vocabulary self.now) (AddTransition t.now))
            (Lacks (vocabulary self.now) (AddTransition t.now)) }
    {
        check_state(t.source)?;
        self.check_action(t.action)?;
        check_state(t.target)?;
        self.check_features(t.required)?;
        self.check_features(t.excluded)
    }

    fn check(&self, entry: Record) -> Result<(), Lack>
        ensures { MatchResult result (λ _. IsPrintable (vocabulary self.now) entry) (Lacks (vocabulary self.now) entry) }
    {
        match entry {
            Record::AddProduct(configuration) => self.check_features(configuration),
            Record::AddTransition(t) => self.check_transition(&t),
        }
    }

    // The record of eight bytes, if it can be printed.
    fn printable(&self, bytes: [u8; RECORD_BYTES]) -> Result<Record, Lack>
        ensures { MatchResult result
            (λ entry. (record_in bytes ≡ Some entry) × IsPrintable (vocabulary self.now) entry)
            (LacksText (vocabulary self.now) (record_in bytes)) }
    {
        match read(bytes) {
            Some(entry) => {
                self.check(entry)?;
                Ok(entry)
            }
            None => Err(Lack::Kind),
        }
    }

    // The name of a feature, if a set has it.
    fn push_feature(&self, text: &mut Vec<u8>, set: u16, feature: u8) -> Result<(), AllocError>
        requires { feature < 16 }
        ensures { let named = map (word_at (vocabulary self.now).features) (one_if (bit set feature) feature) in
            OnOk result (text.new.items ≡ text.old.items ++ spaced named) }
    {
        if !has(set, feature) {
            return Ok(());
        }
        push_word(text, name(self.features, feature))
    }

    fn push_features(&self, text: &mut Vec<u8>, set: u16) -> Result<(), AllocError>
        ensures { OnOk result (text.new.items ≡ text.old.items ++ spaced (feature_words (vocabulary self.now) set)) }
    {
        for feature in 0..MAX_FEATURES {
            self.push_feature(text, set, feature)?;
        }
        Ok(())
    }

    fn push_part(&self, text: &mut Vec<u8>, key: &[u8], set: u16) -> Result<(), AllocError>
        ensures { OnOk result (text.new.items ≡ text.old.items ++ spaced (part_words (vocabulary self.now) key.now set)) }
    {
        if set == 0 {
            return Ok(());
        }
        push_word(text, key)?;
        self.push_features(text, set)
    }

    fn push_transition(
        &self,
        alloc: Global,
        text: &mut Vec<u8>,
        t: &Transition,
    ) -> Result<(), AllocError>
        ensures { OnOk result (text.new.items ≡ text.old.items ++ spaced (transition_words (vocabulary self.now) t.now)) }
    {
        push_state(alloc, text, t.source)?;
        push_word(text, name(self.actions, t.action))?;
        push_state(alloc, text, t.target)?;
        self.push_part(text, NEEDS, t.required)?;
        self.push_part(text, BARS, t.excluded)
    }

    // A line for a record.
    fn push_line(&self, alloc: Global, text: &mut Vec<u8>, entry: Record) -> Result<(), AllocError>
        ensures { OnOk result (text.new.items ≡ text.old.items ++ (line_for (vocabulary self.now) entry ++ 10 ∷ [])) }
    {
        match entry {
            Record::AddProduct(configuration) => {
                text.extend_from_slice(VAT)?;
                self.push_features(text, configuration)?;
            }
            Record::AddTransition(t) => {
                text.extend_from_slice(STEP)?;
                self.push_transition(alloc, text, &t)?;
            }
        }
        text.push(b'\n')?;
        Ok(())
    }
}

/// Prints records of eight bytes as text, a line each, in their order. Reading the text gives the same records: a
/// transition for every product is printed and read as one that needs and bars nothing.
pub fn print(alloc: Global, names: &Vocabulary, bytes: &[u8]) -> Result<Vec<u8>, PrintError>
    ensures printed { IfOk result (λ text. Prints (vocabulary names.now) bytes.now text.items) }
    ensures again { IfOk result (λ text.
        (said : List Entry) × Holds bytes.now said × Describes (vocabulary names.now) text.items said) }
    ensures fault { IfErr result (IsPrintFault (vocabulary names.now) bytes.now) }
{
    let mut text = Vec::new(alloc);
    if bytes.len() % RECORD_BYTES != 0 {
        return Err(PrintError::Length);
    }
    let (records, _) = bytes.as_chunks::<RECORD_BYTES>();
    for (number, record) in records.iter().enumerate() {
        match names.printable(*record) {
            Ok(entry) => names.push_line(alloc, &mut text, entry)?,
            Err(lack) => return Err(PrintError::Record { number, lack }),
        }
    }
    Ok(text)
}
