//! Whether any bytes are a channel in its form, with good numbers and lists; and whether nothing is in it.

ghost use Rattle.std.specs.Prelude.{◌≡◌, ◌↔◌, true, IsTrue};
ghost use Rattle.model.specs.Wellformed.{key_good};
ghost use Rattle.chan.specs.Channels.{on_of};
ghost use Rattle.chan.specs.Good.{IsGoodData, IsGoodOff, AreGoodNumbers, IsGoodOn, IsIdleData, IsIdleOff, IsIdleNumbers, IsIdleOn};

use crate::{OffChannel, OffData, OnChannel};
use queues::words::LAST;

impl OffData {
    /// Whether each list is in its form and good at a table's latest time.
    pub fn is_well_formed(&self, latest: u64) -> bool
        ensures { IsTrue result ↔ IsGoodData latest self.now }
    {
        self.out.is_well_formed(latest)
            && self.acks.is_well_formed()
            && self.groups.is_well_formed(latest)
            && self.bundles.is_well_formed()
    }

    /// Whether nothing is in the lists.
    fn is_idle(&self) -> bool
        ensures { IsTrue result ↔ IsIdleData self.now }
    {
        self.out.len == 0 && self.acks.len == 0 && self.groups.len == 0 && self.bundles.len == 0
    }
}

impl OffChannel {
    pub fn is_well_formed(&self, latest: u64) -> bool
        ensures { IsTrue result ↔ IsGoodOff latest self.now }
    {
        self.off.is_well_formed(latest)
    }

    /// Whether the channel has no address and nothing in it.
    pub fn is_idle(&self) -> bool
        ensures { IsTrue result ↔ IsIdleOff self.now }
    {
        self.address == 0 && self.off.is_idle()
    }
}

impl OnChannel {
    /// Whether index and version are both 0, or neither is.
    fn has_key(&self) -> bool
        ensures { result ≡ key_good (on_of self.now) }
    {
        if self.index == 0 {
            return self.version == 0;
        }
        self.version != 0
    }

    /// Whether the version fits the index, and the expected number and the source's next are sequence numbers, of 28 bits. For any channel.
    pub fn has_numbers(&self) -> bool
        ensures { IsTrue result ↔ AreGoodNumbers self.now }
    {
        self.has_key() && self.expected <= LAST && self.source.next <= LAST
    }

    pub fn is_well_formed(&self, latest: u64) -> bool
        ensures { IsTrue result ↔ IsGoodOn latest self.now }
    {
        self.has_numbers()
            && self.off.is_well_formed(latest)
            && self.buffer.is_buffer(self.expected)
            && self.queue.is_queue(self.expected)
    }

    fn has_no_numbers(&self) -> bool
        ensures { IsTrue result ↔ IsIdleNumbers self.now }
    {
        self.address == 0
            && self.index == 0
            && self.version == 0
            && self.expected == 0
            && self.source.next == 0
    }

    /// Whether the channel has no key, no numbers and nothing in it.
    pub fn is_idle(&self) -> bool
        ensures { IsTrue result ↔ IsIdleOn self.now }
    {
        self.has_no_numbers() && self.off.is_idle() && self.buffer.len == 0 && self.queue.len == 0
    }
}
