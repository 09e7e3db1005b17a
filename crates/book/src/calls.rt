// Opening, adding and striking.
ghost use Rattle.std.specs.Prelude.{◌≡◌, ◌≤◌, if◌then◌else◌, [], IfOk, position};
ghost use Rattle.book.specs.Rules.{state_count_fits, same_transition, product_result, product_after};
ghost use Rattle.book.specs.Rules.{transition_result, transition_after, strike_result, strike_after};
ghost use Rattle.book.specs.Contents.{family};

use crate::contents::Contents;
use crate::refusals::Refusal;
use families::{MAX_ACTION, MAX_PRODUCTS, MAX_STATES, MAX_TRANSITIONS, Transition};
use std::alloc::{AllocError, Global};

// A count of states that a book can have.
pub(crate) fn state_count(states: usize) -> Result<usize, Refusal>
    ensures { result ≡ (if state_count_fits states then Ok states else Err Refusal.BadStateCount) }
{
    if (1..=MAX_STATES).contains(&states) {
        Ok(states)
    } else {
        Err(Refusal::BadStateCount)
    }
}

impl Contents {
    // Nothing yet, with room for all that a book may ever hold.
    pub(crate) fn empty(alloc: Global, states: usize) -> Result<Contents, AllocError>
        requires { (1 ≤ states) × (states ≤ 64) }
        ensures { IfOk result (λ c. family c
            ≡ record { states = states; products = []; transitions = [] }) }
    {
        Ok(Contents {
            states,
            products: Vec::with_capacity(alloc, MAX_PRODUCTS)?,
            transitions: Vec::with_capacity(alloc, MAX_TRANSITIONS)?,
        })
    }

    pub(crate) fn add_product(&mut self, configuration: u16) -> Result<usize, Refusal>
        ensures outcome { result ≡ product_result (family self.old) configuration }
        ensures book { family self.new ≡ product_after (family self.old) configuration }
    {
        let number = self.products.len();
        if number == MAX_PRODUCTS {
            return Err(Refusal::ProductsFull);
        }
        if self.products.contains(&configuration) {
            return Err(Refusal::ProductHeld);
        }
        self.products.push_reserved(configuration);
        Ok(number)
    }

    pub(crate) fn add_transition(&mut self, transition: Transition) -> Result<usize, Refusal>
        ensures outcome { result ≡ transition_result (family self.old) transition }
        ensures book { family self.new ≡ transition_after (family self.old) transition }
    {
        let outside = |state: u8| usize::from(state) >= self.states;
        if outside(transition.source)
            || outside(transition.target)
            || transition.action > MAX_ACTION
        {
            return Err(Refusal::OutOfRange);
        }
        if self.transitions.contains(&transition) {
            return Err(Refusal::TransitionHeld);
        }
        if self.transitions.len() == MAX_TRANSITIONS {
            return Err(Refusal::TransitionsFull);
        }
        self.transitions.push_reserved(transition);
        Ok(self.transitions.len())
    }

    // A function of its own, so that one clause says what the search found.
    fn place_of(&self, transition: Transition) -> Option<usize>
        ensures { result ≡ position (λ t. same_transition t transition) self.now.transitions.items }
    {
        self.transitions.iter().position(|t| *t == transition)
    }

    pub(crate) fn strike(&mut self, transition: Transition) -> Result<usize, Refusal>
        ensures outcome { result ≡ strike_result (family self.old) transition }
        ensures book { family self.new ≡ strike_after (family self.old) transition }
    {
        let Some(at) = self.place_of(transition) else {
            return Err(Refusal::NotHeld);
        };
        self.transitions.remove(at);
        Ok(self.transitions.len())
    }
}
