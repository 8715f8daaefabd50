//! The table that a host lends, changed where it stands: channels by key in order of creation, and the shared numbers. Integers only, so
//! that any bytes are a value; unused places are zero.
#![tactic(auto)]

ghost use Rattle.std.specs.Prelude.{◌≡◌};
ghost use Rattle.model.specs.State as model;
ghost use Rattle.chan.specs.Channels.{no_off_channel, no_on_channel};
ghost use Rattle.tab.specs.Tables.{IsTable, state_of};

pub mod channels;
pub mod delivery;
pub mod forward;
pub mod handout;
pub mod prefixes;
pub mod records;
pub mod renewal;
pub mod resends;
pub mod send;
pub mod test;
pub mod written;

use chan::{OffChannel, OnChannel};
use seq::{Seq, SeqAlloc};

/// The channels of a relay, the shared numbers and the latest time (Rust: `Protocol` and `ProtocolShared`; `forwarding` is
/// `follows_accepted`, `prefix` is `last_accepted_prefix`, `offset` is `prefix_offset`, `source` is `off_seq_alloc`).
#[repr(C)]
#[derive(Clone, Copy)]
pub struct Table {
    pub latest: u64,
    pub forwarding: u32,
    pub prefix: u32,
    pub offset: u32,
    pub source: SeqAlloc,
    pub offcount: u32,
    pub oncount: u32,
    pub offs: [OffChannel; 4],
    pub ons: [OnChannel; 8],
}

impl Table {
    /// A new table, forwarding or not: no channels, and the shared numbers start at 1.
    pub fn new(forwarding: bool) -> Table
        ensures table { IsTable result }
        ensures state { state_of result ≡ model.new forwarding }
    {
        Table {
            latest: 0,
            forwarding: forwarding as u32,
            prefix: 0,
            offset: 0,
            source: SeqAlloc::new(Seq(1)),
            offcount: 0,
            oncount: 0,
            offs: [OffChannel::none(); 4],
            ons: [OnChannel::none(); 8],
        }
    }
}
