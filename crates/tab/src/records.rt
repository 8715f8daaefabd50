//! One record on the channel that it is for, which is found in the table or made.

ghost use Rattle.std.specs.Prelude.{◌≡◌, ◌<◌, true};
ghost use Rattle.std.specs.declared.option.Option.TheVariants.{None, Some};
ghost use Rattle.list.specs.Find.{position};
ghost use Rattle.packet.specs.Data.{well_made, index_of};
ghost use Rattle.model.specs.State as model;
ghost use Rattle.model.specs.Room.{off_room, on_room};
ghost use Rattle.chan.specs.Channels.{off_of, IsOffChannel, on_of, IsOnChannel};
ghost use Rattle.tab.specs.Tables.{IsTable, state_of};
ghost use Rattle.tab.specs.Played as Spec;

use crate::Table;
use chan::{OffChannel, OnChannel, Way};
use packet::{Record, Refusal, View};

/// Whether a refusal is for what the record would lead to, a fragment beyond its group or a list over its limit: it leaves the channel and
/// the last prefix as they were, and any other leaves what the rules before it changed.
pub fn is_late(refusal: Refusal) -> bool
    ensures { result ≡ Spec.late refusal }
{
    match refusal {
        Refusal::BeyondGroup | Refusal::OverLimit => true,
        _ => false,
    }
}

impl Table {
    /// Whether there is a place for one more on-channel.
    pub(crate) fn has_on_room(&self) -> bool
        requires { IsTable self.now }
        ensures { result ≡ on_room (state_of self.now).protocol }
    {
        self.oncount < 8
    }

    /// Whether there is a place for one more off-channel.
    pub(crate) fn has_off_room(&self) -> bool
        requires { IsTable self.now }
        ensures { result ≡ off_room (state_of self.now).protocol }
    {
        self.offcount < 4
    }

    /// Adds an on-channel after the last, where there is a place for it and none has its address and index.
    pub(crate) fn append_on(&mut self, c: &OnChannel)
        requires table { IsTable self.old }
        requires channel { IsOnChannel c.now }
        requires new { position (model.is_on c.now.address c.now.index) (state_of self.old).protocol.ons ≡ None }
        requires room { on_room (state_of self.old).protocol ≡ true }
        ensures table { IsTable self.new }
        ensures state { state_of self.new ≡ model.with_protocol (model.put_on (on_of c.now) (state_of self.old).protocol) (state_of self.old) }
    {
        let _ = self.add_on(c);
    }

    /// Adds an off-channel after the last, where there is a place for it and none has its address.
    pub(crate) fn append_off(&mut self, c: &OffChannel)
        requires table { IsTable self.old }
        requires channel { IsOffChannel c.now }
        requires new { position (model.is_off c.now.address) (state_of self.old).protocol.offs ≡ None }
        requires room { off_room (state_of self.old).protocol ≡ true }
        ensures table { IsTable self.new }
        ensures state { state_of self.new ≡ model.with_protocol (model.put_off (off_of c.now) (state_of self.old).protocol) (state_of self.old) }
    {
        let _ = self.add_off(c);
    }

    /// A record on the on-channel that stands at place `i`.
    fn settle_on_at(
        &mut self,
        i: usize,
        way: Way,
        prefix: u32,
        time: u64,
        address: u32,
        r: &Record,
    ) -> Result<View, Refusal>
        requires table { IsTable self.old }
        requires made { well_made r.now ≡ true }
        requires at { position (model.is_on address (index_of r.now)) (state_of self.old).protocol.ons ≡ Some i }
        requires within { i < self.old.oncount }
        ensures table { IsTable self.new }
        ensures result { result ≡ (Spec.on_step way prefix time address r.now (state_of self.old)).answer }
        ensures state { state_of self.new ≡ (Spec.on_step way prefix time address r.now (state_of self.old)).state }
    {
        match self.ons[i].take(way, time, r) {
            Ok(()) => {
                self.prefix = prefix;
                Ok(self.ons[i].view())
            }
            Err(refusal) => {
                if is_late(refusal) {
                    return Err(refusal);
                }
                self.prefix = prefix;
                Err(refusal)
            }
        }
    }

    /// A record on an on-channel that is made for it, with its version.
    fn settle_on_new(
        &mut self,
        way: Way,
        prefix: u32,
        time: u64,
        address: u32,
        r: &Record,
    ) -> Result<View, Refusal>
        requires table { IsTable self.old }
        requires made { well_made r.now ≡ true }
        requires new { position (model.is_on address (index_of r.now)) (state_of self.old).protocol.ons ≡ None }
        requires room { on_room (state_of self.old).protocol ≡ true }
        ensures table { IsTable self.new }
        ensures result { result ≡ (Spec.on_step way prefix time address r.now (state_of self.old)).answer }
        ensures state { state_of self.new ≡ (Spec.on_step way prefix time address r.now (state_of self.old)).state }
    {
        let mut c = OnChannel::new(address, r.index_of(), r.version_of());
        match c.take(way, time, r) {
            Ok(()) => {
                self.append_on(&c);
                self.prefix = prefix;
                Ok(c.view())
            }
            Err(refusal) => {
                if is_late(refusal) {
                    return Err(refusal);
                }
                self.append_on(&c);
                self.prefix = prefix;
                Err(refusal)
            }
        }
    }

    /// A record that is on-channel. Without a place for its channel it changes nothing; else the channel is found or made, and kept as the
    /// record leaves it with this last prefix, unless that is refused as a fragment beyond its group or over a limit: then nothing changes.
    pub(crate) fn settle_on(
        &mut self,
        way: Way,
        prefix: u32,
        time: u64,
        address: u32,
        r: &Record,
    ) -> Result<View, Refusal>
        requires table { IsTable self.old }
        requires made { well_made r.now ≡ true }
        ensures table { IsTable self.new }
        ensures result { result ≡ (Spec.on_placed way prefix time address r.now (state_of self.old)).answer }
        ensures state { state_of self.new ≡ (Spec.on_placed way prefix time address r.now (state_of self.old)).state }
    {
        match self.on_position(address, r.index_of()) {
            Some(i) => self.settle_on_at(i, way, prefix, time, address, r),
            None => {
                if !self.has_on_room() {
                    return Err(Refusal::TableFull);
                }
                self.settle_on_new(way, prefix, time, address, r)
            }
        }
    }

    /// A record on the off-channel that stands at place `i`.
    fn settle_off_at(
        &mut self,
        i: usize,
        way: Way,
        prefix: u32,
        time: u64,
        address: u32,
        r: &Record,
    ) -> Result<View, Refusal>
        requires table { IsTable self.old }
        requires made { well_made r.now ≡ true }
        requires at { position (model.is_off address) (state_of self.old).protocol.offs ≡ Some i }
        requires within { i < self.old.offcount }
        ensures table { IsTable self.new }
        ensures result { result ≡ (Spec.off_step way prefix time address r.now (state_of self.old)).answer }
        ensures state { state_of self.new ≡ (Spec.off_step way prefix time address r.now (state_of self.old)).state }
    {
        match self.offs[i].take(way, time, r) {
            Ok(()) => {
                self.prefix = prefix;
                Ok(self.offs[i].view())
            }
            Err(refusal) => {
                if is_late(refusal) {
                    return Err(refusal);
                }
                self.prefix = prefix;
                Err(refusal)
            }
        }
    }

    /// A record on an off-channel that is made for it.
    fn settle_off_new(
        &mut self,
        way: Way,
        prefix: u32,
        time: u64,
        address: u32,
        r: &Record,
    ) -> Result<View, Refusal>
        requires table { IsTable self.old }
        requires made { well_made r.now ≡ true }
        requires new { position (model.is_off address) (state_of self.old).protocol.offs ≡ None }
        requires room { off_room (state_of self.old).protocol ≡ true }
        ensures table { IsTable self.new }
        ensures result { result ≡ (Spec.off_step way prefix time address r.now (state_of self.old)).answer }
        ensures state { state_of self.new ≡ (Spec.off_step way prefix time address r.now (state_of self.old)).state }
    {
        let mut c = OffChannel::new(address);
        match c.take(way, time, r) {
            Ok(()) => {
                self.append_off(&c);
                self.prefix = prefix;
                Ok(c.view())
            }
            Err(refusal) => {
                if is_late(refusal) {
                    return Err(refusal);
                }
                self.append_off(&c);
                self.prefix = prefix;
                Err(refusal)
            }
        }
    }

    /// A record that is off-channel. Without a place for its channel it changes nothing; else the channel is found or made, and kept as the
    /// record leaves it with this last prefix, unless that is refused as a fragment beyond its group or over a limit: then nothing changes.
    pub(crate) fn settle_off(
        &mut self,
        way: Way,
        prefix: u32,
        time: u64,
        address: u32,
        r: &Record,
    ) -> Result<View, Refusal>
        requires table { IsTable self.old }
        requires made { well_made r.now ≡ true }
        ensures table { IsTable self.new }
        ensures result { result ≡ (Spec.off_placed way prefix time address r.now (state_of self.old)).answer }
        ensures state { state_of self.new ≡ (Spec.off_placed way prefix time address r.now (state_of self.old)).state }
    {
        match self.off_position(address) {
            Some(i) => self.settle_off_at(i, way, prefix, time, address, r),
            None => {
                if !self.has_off_room() {
                    return Err(Refusal::TableFull);
                }
                self.settle_off_new(way, prefix, time, address, r)
            }
        }
    }
}
