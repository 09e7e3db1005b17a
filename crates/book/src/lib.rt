//! The book of a family: its states, products and transitions, open for changes or closed for questions.
#![tactic(auto)]

pub mod books;
mod calls;
mod check;
mod contents;
mod loads;
pub mod own;
pub mod records;
pub mod refusals;
