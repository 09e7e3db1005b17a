// The grammar of formulas, and what is true of it.
#![tactic(auto)]

ghost use Rattle.grammar.specs.Viable.{Decided, Unambiguous, OneOffence};

// Formulas and the expressions in them are built alike.
#[derive(Clone, Copy, Debug, PartialEq, Eq)]
pub enum Level {
    Formula,
    Expression,
}

// Each list of tokens is a formula with one tree, or has one place where it offends.
pub fn grammar_holds()
    ensures decided { Decided }
    ensures unambiguous { Unambiguous }
    ensures one_offence { OneOffence }
{}
