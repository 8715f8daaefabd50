//! The channels of a table, each changed where it stands: its key, what both kinds have, and on-channel the reliable side.
#![tactic(auto)]

ghost use Rattle.std.specs.Prelude.{◌≡◌};
ghost use Rattle.model.specs.State as model;
ghost use Rattle.chan.specs.Channels.{data_of, IsOffData, no_off_data, off_of, IsOffChannel, no_off_channel, on_of, IsOnChannel, no_on_channel};

pub mod acks;
pub mod fragments;
pub mod grouping;
pub mod holds;
pub mod records;
pub mod reliable;
pub mod sends;
pub mod tests;

use packet::View;
use queues::{AckQueue, Bundles, Groups, OutList, Waiting};
pub use records::Way;
use seq::{Seq, SeqAlloc};

/// What both kinds of channel have (Rust: `OffChannelData`).
#[repr(C)]
#[derive(Clone, Copy)]
pub struct OffData {
    pub out: OutList,
    pub acks: AckQueue,
    pub groups: Groups,
    pub bundles: Bundles,
}

/// An off-channel: its address is its key (Rust: `OffChannel`).
#[repr(C)]
#[derive(Clone, Copy)]
pub struct OffChannel {
    pub address: u32,
    pub off: OffData,
}

/// An on-channel, by address and index (Rust: `OnChannel`, with `OffChannelData` and `OnChannelData`; `expected` is
/// `in_reliable_expected_seq`, `source` its `seq_alloc`). Without an index, index and version are 0.
#[repr(C)]
#[derive(Clone, Copy)]
pub struct OnChannel {
    pub address: u32,
    pub index: u32,
    pub version: u32,
    pub expected: u32,
    pub source: SeqAlloc,
    pub off: OffData,
    pub buffer: Waiting,
    pub queue: Waiting,
}

impl OffData {
    pub fn new() -> OffData
        ensures none { result ≡ no_off_data }
        ensures data { IsOffData result }
        ensures items { data_of result ≡ model.no_data }
    {
        OffData {
            out: OutList::new(),
            acks: AckQueue::new(),
            groups: Groups::new(),
            bundles: Bundles::new(),
        }
    }
}

impl OffChannel {
    /// What stands in a place that is not in use.
    pub fn none() -> OffChannel
        ensures { result ≡ no_off_channel }
    {
        OffChannel {
            address: 0,
            off: OffData::new(),
        }
    }

    /// A channel of that address with nothing in it.
    pub fn new(address: u32) -> OffChannel
        ensures channel { IsOffChannel result }
        ensures items { off_of result ≡ model.new_off address }
    {
        OffChannel {
            address,
            off: OffData::new(),
        }
    }

    /// The channel as a call answers it.
    pub fn view(&self) -> View
        ensures { result ≡ model.off_view (off_of self.now) }
    {
        View {
            on: 0,
            address: self.address,
            index: 0,
            version: 0,
            expected: 0,
        }
    }
}

impl OnChannel {
    /// What stands in a place that is not in use.
    pub fn none() -> OnChannel
        ensures { result ≡ no_on_channel }
    {
        OnChannel {
            address: 0,
            index: 0,
            version: 0,
            expected: 0,
            source: SeqAlloc::new(Seq(0)),
            off: OffData::new(),
            buffer: Waiting::new(),
            queue: Waiting::new(),
        }
    }

    /// A channel of that key with nothing in it; it keeps the version.
    pub fn new(address: u32, index: u32, version: u32) -> OnChannel
        ensures channel { IsOnChannel result }
        ensures items { on_of result ≡ model.new_on address index version }
    {
        OnChannel {
            address,
            index,
            version,
            expected: 0,
            source: SeqAlloc::new(Seq(0)),
            off: OffData::new(),
            buffer: Waiting::new(),
            queue: Waiting::new(),
        }
    }

    /// The channel as a call answers it.
    pub fn view(&self) -> View
        ensures { result ≡ model.on_view (on_of self.now) }
    {
        View {
            on: 1,
            address: self.address,
            index: self.index,
            version: self.version,
            expected: self.expected,
        }
    }
}
