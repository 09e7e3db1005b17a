// The names that texts are read with.
ghost use Rattle.std.specs.Prelude.{◌≡◌, MatchOption};

use families::MAX_ACTION;
use formulas::judge::MAX_FEATURE;
use words::Names;

/// How many names the two word lists have at most.
pub const MAX_ACTIONS: u8 = MAX_ACTION + 1;

pub const MAX_FEATURES: u8 = MAX_FEATURE + 1;

/// The names of the actions and those of the features, in word lists that keep their form.
#[derive(Clone, Copy)]
pub struct Vocabulary<'w> {
    pub actions: Names<'w>,
    pub features: Names<'w>,
    ghost action_limit: { actions.limit ≡ 64 },
    ghost feature_limit: { features.limit ≡ 16 },
}

impl<'w> Vocabulary<'w> {
    ghost use Rattle.reader.specs.Vocabularies.{Knows};

    /// The names of two word lists, if both keep their form.
    pub fn new(actions: &'w [u8], features: &'w [u8]) -> Option<Vocabulary<'w>>
        ensures { Knows actions.now features.now result }
    {
        Some(Vocabulary {
            actions: Names::new(actions, MAX_ACTIONS)?,
            features: Names::new(features, MAX_FEATURES)?,
        })
    }
}
