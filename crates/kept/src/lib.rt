//! Well-formedness is kept by every call of the model: a theorem, named by the contract of a function that does nothing.
#![tactic(auto)]

ghost use Rattle.kept.specs.Kept.{KeptWellFormed};

/// Every call keeps a state well formed, and no count passes its limit.
pub fn keeps_well_formed()
    ensures { KeptWellFormed }
{}
