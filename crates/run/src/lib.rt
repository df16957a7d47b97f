// One claim over a whole run of the public calls: specs/Run.antt states it, proofs/Whole.antt proves it. The crate has no function
// of its own.

#![tactic(auto)]
