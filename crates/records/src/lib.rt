// The tape: its records, its faults, the lines that are printed of it, how its start is run, and the law that decoding is determined.
#![tactic(auto)]

pub mod fault;
pub mod laws;
pub mod line;
pub mod load;
pub mod record;
pub mod start;
