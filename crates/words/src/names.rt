// The names of a word list that keeps its form.
ghost use Rattle.std.specs.Prelude.{◌≡◌, ◌≤◌, ◌↔◌, T, ℕ, List, length, slice_get, option_map, MatchOption};
ghost use Rattle.std.specs.List.{AllByRecursion};
ghost use Rattle.lexer.specs.Tokens.{Name};
ghost use Rattle.words.specs.Words.{Lines as IsCutInto, Apart, InForm, number};
ghost use Rattle.words.specs.Cut.{cut, Ends};

use crate::lines::Lines;
use lexer::is_name;

// A list of at most `limit` names that keeps its form.
#[derive(Clone, Copy)]
pub struct Names<'a> {
    pub list: &'a [u8],
    pub limit: u8,
    ghost form: { ∥ InForm limit list.now ∥₁ },
}

impl<'a> Names<'a> {
    // The list, if it keeps its form.
    pub fn new(list: &'a [u8], limit: u8) -> Option<Names<'a>>
        ensures { MatchOption result (InForm limit list.now → ⊥) (λ names. InForm limit list.now × (names.list.now ≡ list.now) × (names.limit ≡ limit)) }
    {
        if keeps_form(list, limit) {
            Some(Names { list, limit })
        } else {
            None
        }
    }

    // The number of a name.
    pub fn number(self, name: &[u8]) -> Option<u8>
        ensures { (ws : List (List ℕ)) → IsCutInto self.entry.list.now ws → result ≡ number ws name.now }
    {
        // Nothing is lost, as a list has at most 255 names; `try_from` would answer for a case that cannot come.
        find(self.list, name).map(|k| k as u8)
    }

    /// The name of a number.
    pub fn name(self, number: u8) -> Option<&'a [u8]>
        ensures { option_map (λ name. name.now) result ≡ slice_get (cut self.entry.list.now) number }
    {
        Lines::of(self.list).nth(usize::from(number))
    }
}

// The number of a name among the lines of a list.
fn find(list: &[u8], name: &[u8]) -> Option<usize>
    ensures { result ≡ number (cut list.now) name.now }
{
    Lines::of(list).position(|line| line == name)
}

// Whether a list keeps its form: names, none twice, at most `limit` of them.
pub fn keeps_form(list: &[u8], limit: u8) -> bool
    ensures { T result ↔ InForm limit list.now }
{
    is_ended(list) && lists_names(list, limit)
}

// Whether each line is ended by byte 10.
fn is_ended(list: &[u8]) -> bool
    ensures { T result ↔ Ends list.now }
{
    list.last().is_none_or(|b| *b == b'\n')
}

// Whether the lines are names, none twice, at most `limit` of them. The walk ends at the first that
// may not stand there.
fn lists_names(list: &[u8], limit: u8) -> bool
    ensures { T result ↔ ((length (cut list.now) ≤ limit) × AllByRecursion Name (cut list.now)
        × Apart (cut list.now)) }
{
    Lines::of(list).enumerate().all(|(k, line)| k < usize::from(limit)
        && is_name(line)
        && find(list, line) == Some(k))
}
