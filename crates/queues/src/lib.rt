//! The lists of a channel, each changed where it stands: a count and an array of places, of which those past the count are zero. They are
//! thin structs over `list`, so that each may be lent with its channel.
#![tactic(auto)]

pub mod ack_queue;
pub mod ack_test;
pub mod bundle_test;
pub mod bundles;
pub mod group_test;
pub mod groups;
pub mod out_list;
pub mod out_test;
pub mod waiting;
pub mod waiting_test;
pub mod words;

pub use ack_queue::{AckQueue, Lacking};
pub use bundles::Bundles;
pub use groups::{Fragments, Groups};
pub use out_list::{Clock, OutList};
pub use waiting::{Run, Waiting};
