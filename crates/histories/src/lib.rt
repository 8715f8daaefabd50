//! Histories of tables: what holds of every run of the public calls, each theorem named by the contract of a function that does nothing.
#![tactic(auto)]

ghost use Rattle.histories.specs.Demands.{AsTheRust, InSendingOrder, KeptWellFormed};
ghost use Rattle.histories.specs.Refusals.{Answered, Changed};
ghost use Rattle.histories.specs.Same.{Same};

/// The answers and states of every history are the original's, up to the first refusal that the port adds.
pub fn answers_as_the_rust()
    ensures { AsTheRust }
{}

/// Bundles come in sending order, each once, whatever the network does.
pub fn hands_out_in_sending_order()
    ensures { InSendingOrder }
{}

/// Every call keeps a table well formed.
pub fn keeps_tables_well_formed()
    ensures { KeptWellFormed }
{}

/// A refusal is answered exactly when its condition holds and no earlier one's does.
pub fn refuses_exactly_when()
    ensures { Answered }
{}

/// Each refusal leaves what is stated of it, and writes nothing to a lent list.
pub fn leaves_what_is_stated()
    ensures { Changed }
{}

/// The contract of each call admits one outcome.
pub fn admits_one_outcome()
    ensures { Same }
{}
