// What vatcheck answers, made from values.
#![tactic(auto)]

pub mod console;
pub mod digits;
pub mod listing;
pub mod serve;
pub mod session;
pub mod transcript;
pub mod verdict;
