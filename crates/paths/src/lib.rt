// What the watch means: paths along links, arrivals, pairs and the plain watch, and the laws that follow. There is no code here: each
// function carries a theorem about the definitions.
#![tactic(auto)]

pub mod laws;
