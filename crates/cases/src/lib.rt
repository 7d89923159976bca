// Worked cases of what the watch means, with queries that are given as expressions.
#![tactic(auto)]

ghost use Rattle.cases.specs.Cases.{WorkedCases};

/// The definitions answer the worked cases as they should.
pub fn worked()
    ensures { WorkedCases }
{}
