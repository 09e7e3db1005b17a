//! Reads a formula text into an expression table and a formula table.
#![tactic(auto)]

mod entries;
mod parser;
mod refusals;
mod tables;
mod vocabulary;

ghost use Rattle.std.specs.Prelude.{◌≡◌, ◌≤◌, ℕ, List, Some, length, replicate};
ghost use Rattle.reader.specs.Outcome.{Attempted, Reading, answer_number, answer_value};
ghost use Rattle.reader.specs.Vocabularies.{Gives};
ghost use Rattle.formulas.specs.declared.Expr.TheVariants as ex;
ghost use Rattle.formulas.specs.declared.Node.TheVariants as nd;

use formulas::judge::MAX_ENTRIES;
use formulas::{Expr, Node};
pub use lexer::LONGEST_TEXT;
use lexer::{Sign, Text, Token};
use parser::parse;
pub use refusals::Refusal;
pub use vocabulary::{MAX_ACTIONS, MAX_FEATURES, Vocabulary};

// Tries to read a text into tables that are all false. `names` is asked once the text is known to be short
// enough; it gives none where a word list breaks its form.
fn attempt<'w, F: FnOnce() -> Option<Vocabulary<'w>>>(
    text: &[u8],
    names: F,
    exprs: &mut [Expr],
    nodes: &mut [Node],
) -> Result<usize, Refusal>
    requires asked { F.IsAlwaysCallable names }
    requires exprs { exprs.old ≡ replicate (length exprs.old) ex.False }
    requires nodes { nodes.old ≡ replicate (length nodes.old) nd.False }
    requires room { (64 ≤ length exprs.old) × (64 ≤ length nodes.old) }
    ensures { (actions features : List ℕ) → Gives actions features (F.post names) → Attempted text.now
        actions features (length exprs.old) (length nodes.old) exprs.new nodes.new result }
{
    let Some(text) = Text::new(text) else {
        return Err(Refusal::LongText);
    };
    let Some(names) = names() else {
        return Err(Refusal::WordList);
    };
    // What is zero throughout needs no loop to fill the table.
    let mut table = [Token::Sign(0, Sign::Mu); LONGEST_TEXT];
    let count = text.tokens(&mut table)?;
    parse(&table[..count], text.len(), names, exprs, nodes)
}

// Makes every entry of both tables false.
fn clear(exprs: &mut [Expr], nodes: &mut [Node])
    ensures exprs { exprs.new ≡ replicate (length exprs.old) ex.False }
    ensures nodes { nodes.new ≡ replicate (length nodes.old) nd.False }
{
    exprs.fill(Expr::False);
    nodes.fill(Node::False);
}

// Reads a text, or says what refuses it. `names` gives none where a word list breaks its form.
fn read_or_clear<'w, F: FnOnce() -> Option<Vocabulary<'w>>>(
    text: &[u8],
    names: F,
    exprs: &mut [Expr],
    nodes: &mut [Node],
) -> Result<usize, Refusal>
    requires { F.IsAlwaysCallable names }
    ensures { (actions features : List ℕ) → Gives actions features (F.post names) → Reading text.now actions
        features exprs.old nodes.old (answer_number result) (answer_value result) exprs.new nodes.new }
{
    if exprs.len() < MAX_ENTRIES || nodes.len() < MAX_ENTRIES {
        return Err(Refusal::ShortTable);
    }
    clear(exprs, nodes);
    let answer = attempt(text, names, exprs, nodes);
    if answer.is_err() {
        clear(exprs, nodes);
    }
    answer
}

/// Reads a formula text into both tables, with the names of two word lists. The answer is the count of
/// formula entries.
pub fn read(
    text: &[u8],
    actions: &[u8],
    features: &[u8],
    exprs: &mut [Expr],
    nodes: &mut [Node],
) -> Result<usize, Refusal>
    ensures { Reading text.now actions.now features.now exprs.old nodes.old (answer_number result)
        (answer_value result) exprs.new nodes.new }
{
    read_or_clear(text, || Vocabulary::new(actions, features), exprs, nodes)
}

/// Reads a formula text as `read` does, with the names of word lists that were checked before.
pub fn read_with(
    text: &[u8],
    names: Vocabulary,
    exprs: &mut [Expr],
    nodes: &mut [Node],
) -> Result<usize, Refusal>
    ensures { Reading text.now names.entry.actions.list.now names.entry.features.list.now exprs.old
        nodes.old (answer_number result) (answer_value result) exprs.new nodes.new }
{
    let checked = ||
        ensures { result ≡ Some names.entry }
    { Some(names) };
    read_or_clear(text, checked, exprs, nodes)
}
