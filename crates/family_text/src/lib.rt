//! Families written as text, a product or a transition a line: read into records of eight bytes, and printed from them.
#![tactic(auto)]

mod errors;
mod line;
mod printing;
mod reading;
mod records;
mod splitting;
mod vocabulary;

pub use errors::{Expected, Lack, PrintError, ReadError};
pub use printing::print;
pub use reading::read;
pub use vocabulary::{ListError, Vocabulary};
