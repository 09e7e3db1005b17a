//! Histories of books: whole runs of calls, and what their checks find.
#![tactic(auto)]

pub mod calls;
pub mod columns;
pub mod laws;
pub mod log;
mod phase;
pub mod run;
pub mod table;
