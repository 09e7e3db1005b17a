// The names that a family's text is written with.
ghost use Rattle.std.specs.Prelude.{◌≡◌, ◌<◌, None, IfSome, codes};
ghost use Rattle.words.specs.Words.{number};
ghost use Rattle.words.specs.Cut.{cut};

use std::error::Error;
use std::fmt::{self, Display};
use words::Names;

// How many actions and features have names at most.
const MAX_ACTIONS: u8 = 64;

pub(crate) const MAX_FEATURES: u8 = 16;

// The words that part a transition's condition, and so name no feature.
pub(crate) const NEEDS: &[u8] = b"needs";

pub(crate) const BARS: &[u8] = b"bars";

/// Two word lists that a family's text can be written with.
#[derive(Clone, Copy)]
pub struct Vocabulary<'a> {
    pub(crate) actions: Names<'a>,
    pub(crate) features: Names<'a>,
    ghost few_actions: { actions.limit ≡ 64 },
    ghost few_features: { features.limit ≡ 16 },
    ghost no_needs: { number (cut features.list.now) (codes "needs") ≡ None },
    ghost no_bars: { number (cut features.list.now) (codes "bars") ≡ None },
}

/// Why two word lists are no vocabulary: one of them does not keep its form, or an option has the name of a word
/// that parts conditions.
#[derive(Clone, Copy, Debug, Drop, PartialEq, Eq)]
pub enum ListError {
    Actions,
    Features,
    Reserved,
}

impl Display for ListError {
    fn fmt<W: fmt::Write>(&self, f: &mut fmt::Formatter<W>) -> fmt::Result {
        f.write_str(match self {
            ListError::Actions => "the list of actions does not keep its form",
            ListError::Features => "the list of options does not keep its form",
            ListError::Reserved =>
                "an option is named `needs` or `bars`, which part a step's condition",
        })
    }
}

impl Error for ListError {}

// The number of a name in a list.
pub(crate) fn number(list: Names, word: &[u8]) -> Option<u8>
    ensures value { result ≡ number (cut list.entry.list.now) word.now }
    ensures below { IfSome result (λ number. number < list.entry.limit) }
{
    list.number(word)
}

impl<'a> Vocabulary<'a> {
    ghost use Rattle.std.specs.Prelude.{IfOk, IfErr};
    ghost use Rattle.words.specs.Words.{InForm};
    ghost use Rattle.family_text.specs.Grammar.{Lists, vocabulary, IsRefused};

    /// The vocabulary of a list of actions and a list of options, each name ended by byte 10.
    pub fn new(actions: &'a [u8], features: &'a [u8]) -> Result<Vocabulary<'a>, ListError>
        ensures lists { let names : Lists = record { actions = cut actions.now; features = cut features.now } in
            IfOk result (λ v. vocabulary v ≡ names) }
        ensures kept { IfOk result (λ v. InForm 64 actions.now × InForm 16 features.now) }
        ensures refused { IfErr result (IsRefused actions.now features.now) }
    {
        let actions = Names::new(actions, MAX_ACTIONS).ok_or(ListError::Actions)?;
        let features = Names::new(features, MAX_FEATURES).ok_or(ListError::Features)?;
        if number(features, NEEDS).is_some() || number(features, BARS).is_some() {
            return Err(ListError::Reserved);
        }
        Ok(Vocabulary { actions, features })
    }
}
