// Expressions: regular expressions over labels, as 32-bit words, and the machine that an expression is read into.
#![tactic(auto)]

pub mod fault;
pub mod language;
pub mod machine;
mod part;
mod reader;
pub mod symbol;
