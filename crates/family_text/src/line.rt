// What the words of a line say.
ghost use Rattle.std.specs.Prelude.{◌≡◌, ◌≤◌, length};
ghost use Rattle.family_text.specs.Words.{texts, word_at};
ghost use Rattle.family_text.specs.Grammar.{vocabulary};
ghost use Rattle.family_text.specs.Reading.{state_of, action_of, feature_of, features_from, part_of, before_bars, condition_of, transition_of, record_of};

use crate::errors::Expected;
use crate::vocabulary::{BARS, NEEDS, Vocabulary, number};
use book::records::Record;
use families::{MAX_STATES, Transition};

// The words that lines begin with.
pub(crate) const VAT: &[u8] = b"vat";

pub(crate) const STEP: &[u8] = b"step";

// A word by its place in a line: no word has no bytes, so none stand for a word that is missing.
fn word<'a>(words: &[&'a [u8]], place: usize) -> &'a [u8]
    ensures { result.now ≡ word_at (texts words.now) place }
{
    words.get(place).copied().unwrap_or(&[])
}

// The number that one digit spells, or two of which the first is no zero, if it is a state's.
fn state(word: &[u8]) -> Result<u8, Expected>
    ensures { result ≡ state_of word.now }
{
    let number = match word {
        [one @ b'0'..=b'9'] => *one - b'0',
        [ten @ b'1'..=b'6', one @ b'0'..=b'9'] => 10 * (*ten - b'0') + (*one - b'0'),
        _ => return Err(Expected::State),
    };
    if usize::from(number) < MAX_STATES {
        Ok(number)
    } else {
        Err(Expected::State)
    }
}

// How many words stand before the first `bars`.
fn before_bars(words: &[&[u8]]) -> usize
    ensures value { result ≡ before_bars (texts words.now) }
    ensures within { result ≤ length words.now }
{
    words.iter().take_while(|word| **word != BARS).count()
}

impl Vocabulary<'_> {
    fn action(&self, word: &[u8]) -> Result<u8, Expected>
        ensures { result ≡ action_of (vocabulary self.now) word.now }
    {
        number(self.actions, word).ok_or(Expected::Action)
    }

    // The set of the one feature that a word names.
    fn feature(&self, word: &[u8]) -> Result<u16, Expected>
        ensures { result ≡ feature_of (vocabulary self.now) word.now }
    {
        match number(self.features, word) {
            Some(feature) => Ok(1 << feature),
            None => Err(Expected::Feature),
        }
    }

    // The set of the features that words name.
    fn features(&self, words: &[&[u8]]) -> Result<u16, Expected>
        ensures { result ≡ features_from (vocabulary self.now) 0 (texts words.now) }
    {
        let mut set = 0;
        for word in words {
            set |= self.feature(word)?;
        }
        Ok(set)
    }

    // A part of a condition: nothing, or its key word and one feature or more.
    fn part(&self, key: &[u8], words: &[&[u8]]) -> Result<u16, Expected>
        ensures { result ≡ part_of (vocabulary self.now) key.now (texts words.now) }
    {
        if words.is_empty() {
            return Ok(0);
        }
        if word(words, 0) != key {
            return Err(Expected::Condition);
        }
        if words.len() == 1 {
            return Err(Expected::Feature);
        }
        self.features(&words[1..])
    }

    // The required and the excluded features of a condition.
    #[tactic(auto, unfolding(crate::specs::Reading::condition_of))]
    fn condition(&self, words: &[&[u8]]) -> Result<(u16, u16), Expected>
        ensures { result ≡ condition_of (vocabulary self.now) (texts words.now) }
    {
        let (needs, bars) = words.split_at(before_bars(words));
        let required = self.part(NEEDS, needs)?;
        let excluded = self.part(BARS, bars)?;
        Ok((required, excluded))
    }

    #[tactic(auto, unfolding(crate::specs::Reading::transition_of))]
    fn transition(&self, words: &[&[u8]]) -> Result<Transition, Expected>
        ensures { result ≡ transition_of (vocabulary self.now) (texts words.now) }
    {
        let source = state(word(words, 1))?;
        let action = self.action(word(words, 2))?;
        let target = state(word(words, 3))?;
        let (required, excluded) = self.condition(words.get(4..).unwrap_or(&[]))?;
        Ok(Transition {
            source,
            action,
            target,
            required,
            excluded,
        })
    }

    // The record of a line, if it has any words.
    #[tactic(auto, unfolding(crate::specs::Reading::record_of))]
    pub(crate) fn record(&self, words: &[&[u8]]) -> Result<Option<Record>, Expected>
        ensures { result ≡ record_of (vocabulary self.now) (texts words.now) }
    {
        let key = word(words, 0);
        if key.is_empty() {
            Ok(None)
        } else if key == VAT {
            Ok(Some(Record::AddProduct(self.features(&words[1..])?)))
        } else if key == STEP {
            Ok(Some(Record::AddTransition(self.transition(words)?)))
        } else {
            Err(Expected::Key)
        }
    }
}
