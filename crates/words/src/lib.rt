// Word lists: the names of the actions, or of the features, each ended by byte 10. Name k of a list has number k.
#![tactic(auto)]

mod lines;
mod names;

ghost use Rattle.words.specs.Words.{LookedUp};

pub use names::{Names, keeps_form};

// The number of a name in a list of at most `limit` names. A list that does not keep its form has no names.
pub fn lookup(list: &[u8], limit: u8, name: &[u8]) -> Option<u8>
    ensures { LookedUp limit list.now name.now result }
{
    Names::new(list, limit)?.number(name)
}
