// The link watch. As yet it only says what opening a watch would refuse.
#![tactic(auto)]

pub mod opening;
pub mod refusal;
pub mod triple;
