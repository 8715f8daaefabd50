//! Theorems over the model and its numbers alone, each named by the contract of a function that does nothing: that the calls are the
//! original's, what each refusal means and leaves, and that the numbers are RFC 1982's.
#![tactic(auto)]

ghost use Rattle.agreement.specs.Demand2.{Demand2};
ghost use Rattle.agreement.specs.Effects.{Effects};
ghost use Rattle.agreement.specs.ProvedTable.{ProvedTable};
ghost use Rattle.agreement.specs.Serial.{AsTheRfc};
ghost use Rattle.agreement.specs.When.{ExactlyWhen};

/// Up to the first refusal that the port adds, answers and states are the original's.
pub fn answers_as_the_rust()
    ensures { Demand2 }
{}

/// What each refusal leaves of the state and of a lent list.
pub fn leaves_what_is_stated()
    ensures { Effects }
{}

/// Each refusal is answered exactly when its condition holds and no earlier one's does.
pub fn refuses_exactly_when()
    ensures { ExactlyWhen }
{}

/// The table of small cases that the specification asks for.
pub fn proves_the_table()
    ensures { ProvedTable }
{}

/// The numbers are RFC 1982's serial numbers at 28 bits: the comparison, the sum and the number source are the RFC's wherever it defines one.
pub fn agrees_with_rfc_1982()
    ensures { AsTheRfc }
{}
