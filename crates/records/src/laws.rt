// The laws of the definitions. The function's contract is its law.
ghost use Rattle.records.specs.Records.{OneDecoding};

/// What is decoded is determined: no two records have the same words, nor do one's words begin as another's, and a tape's start has one
/// fault at most.
#[tactic(auto, using(crate::proofs::OneDecoding::one_decoding))]
pub fn one_decoding()
    ensures { OneDecoding }
{}
