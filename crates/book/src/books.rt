// The two types of book.
ghost use Rattle.std.specs.Prelude.{◌≡◌, IfOk};
ghost use Rattle.book.specs.Rules.{opened, open_answer, product_answer, product_after};
ghost use Rattle.book.specs.Rules.{transition_answer, transition_after, strike_answer, strike_after};
ghost use Rattle.book.specs.Contents.{contents, closed_contents};

use crate::calls::state_count;
use crate::contents::Contents;
use crate::refusals::answer;
use families::Transition;
use std::alloc::{AllocError, Global};

/// A book that takes additions and strikes; `close` makes it one that can be checked.
#[derive(Drop)]
pub struct OpenBook {
    pub(crate) contents: Contents,
}

/// A book that takes checks and questions; `reopen` makes it an open one again.
#[derive(Drop)]
pub struct ClosedBook {
    pub(crate) contents: Contents,
}

impl OpenBook {
    /// A book of 1 to 64 states that holds nothing, with the answer (0, 0); for any other count the answer
    /// (1, 0) and a book of one state. It reserves all the memory that the book can ever want, and is an
    /// error if there is none.
    pub fn open(alloc: Global, states: usize) -> Result<((u8, usize), OpenBook), AllocError>
        ensures { IfOk result (λ p. (p.0 ≡ open_answer states) × (contents p.1 ≡ opened states)) }
    {
        let counted = state_count(states);
        let contents = Contents::empty(alloc, counted.unwrap_or(1))?;
        Ok((answer(counted.map(|_| 0)), OpenBook { contents }))
    }

    /// Adds a product (the makers' vat); accepted, the value is its number. Refused by 2 if 200 are held,
    /// then by 3 if the configuration is held.
    pub fn add_product(&mut self, configuration: u16) -> (u8, usize)
        ensures answer { result ≡ product_answer (contents self.old) configuration }
        ensures book { contents self.new ≡ product_after (contents self.old) configuration }
    {
        answer(self.contents.add_product(configuration))
    }

    /// Adds a transition (a step); accepted, the value is the count of transitions after it. Refused by 4 if
    /// it lies outside the states and actions, then by 5 if an equal one is held, then by 6 if 256 are held.
    pub fn add_transition(&mut self, transition: Transition) -> (u8, usize)
        ensures answer { result ≡ transition_answer (contents self.old) transition }
        ensures book { contents self.new ≡ transition_after (contents self.old) transition }
    {
        answer(self.contents.add_transition(transition))
    }

    /// Removes the transition that equals this one in all five fields; accepted, the value is the count left.
    /// Refused by 7 if there is none.
    pub fn strike(&mut self, transition: Transition) -> (u8, usize)
        ensures answer { result ≡ strike_answer (contents self.old) transition }
        ensures book { contents self.new ≡ strike_after (contents self.old) transition }
    {
        answer(self.contents.strike(transition))
    }

    /// The same contents, closed. Never refused, so there is no answer beside the book.
    pub fn close(self) -> ClosedBook
        ensures { closed_contents result ≡ contents self }
    {
        let OpenBook { contents } = self;
        ClosedBook { contents }
    }
}

impl ClosedBook {
    /// The same contents, open. Never refused, so there is no answer beside the book.
    pub fn reopen(self) -> OpenBook
        ensures { contents result ≡ closed_contents self }
    {
        let ClosedBook { contents } = self;
        OpenBook { contents }
    }
}
