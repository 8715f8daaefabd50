//! A packet off the reliable path: a bundle of one, or a fragment of a group (Rust: `add_in_packet`).

ghost use Rattle.std.specs.Prelude.{◌≡◌, ◌<◌, ◌≤◌, true, length, OnErr};
ghost use Rattle.std.specs.declared.option.Option.TheVariants.{Some};
ghost use Rattle.list.specs.Find.{position};
ghost use Rattle.model.specs.Group.{add_in_packet, is_first, store, full};
ghost use Rattle.queues.specs.Places.{IsGroups};
ghost use Rattle.queues.specs.Made.{IsBundles};
ghost use Rattle.chan.specs.Channels.{data_of, IsOffData};
ghost use Rattle.chan.specs.Settled.{settled_data};
ghost use Rattle.chan.specs.Adding.{IsReady, Gives, group_in, one, at, filling, in_new};

use crate::OffData;
use packet::{Packet, Refusal};
use queues::Fragments;
use seq::Seq;

/// How many places the widest group has.
const MAX_FRAGMENTS: u32 = 32;

impl OffData {
    /// Makes a bundle of one.
    fn add_one(&mut self, handle: u32) -> Result<(), Refusal>
        requires ready { IsReady self.old }
        ensures ready { IsReady self.new }
        ensures others { self.new ≡ record self.old { groups = self.new.groups; bundles = self.new.bundles } }
        ensures unchanged { OnErr result (self.new ≡ self.old) }
        ensures given { Gives (one handle (data_of self.old)) (data_of self.old) result self.new }
    {
        self.bundles.push_one(handle)?;
        Ok(())
    }

    /// Stores the fragment that fills the group at `g`: the group goes, and is a bundle.
    fn complete(&mut self, g: usize, place: usize, handle: u32, time: u64) -> Result<(), Refusal>
        requires ready { IsReady self.old }
        requires there { position (is_first (group_in g (data_of self.old)).first) (data_of self.old).groups ≡ Some g }
        requires place { place < length (group_in g (data_of self.old)).places }
        requires full { full (store place handle time (group_in g (data_of self.old))) ≡ true }
        ensures ready { IsReady self.new }
        ensures others { self.new ≡ record self.old { groups = self.new.groups; bundles = self.new.bundles } }
        ensures unchanged { OnErr result (self.new ≡ self.old) }
        ensures given { Gives (filling g place handle time (data_of self.old)) (data_of self.old) result self.new }
    {
        let mut group = *self.groups.at(g);
        group.store(place, handle, time);
        self.bundles.push_handles(group.handles())?;
        self.groups.remove(g);
        Ok(())
    }

    /// A fragment whose group stands at `g`.
    fn add_at(&mut self, g: usize, place: usize, handle: u32, time: u64) -> Result<(), Refusal>
        requires ready { IsReady self.old }
        requires there { position (is_first (group_in g (data_of self.old)).first) (data_of self.old).groups ≡ Some g }
        ensures ready { IsReady self.new }
        ensures others { self.new ≡ record self.old { groups = self.new.groups; bundles = self.new.bundles } }
        ensures unchanged { OnErr result (self.new ≡ self.old) }
        ensures given { Gives (at g place handle time (data_of self.old)) (data_of self.old) result self.new }
    {
        let group = self.groups.at(g);
        if group.is_stale(time) {
            return Ok(());
        }
        if group.is_beyond(place) {
            return Err(Refusal::BeyondGroup);
        }
        if group.fills(place) {
            return self.complete(g, place, handle, time);
        }
        self.groups.store(g, place, handle, time);
        Ok(())
    }

    /// A fragment whose group is new; it makes no bundle, even where it is the only one of its range.
    fn add_new(&mut self, p: Packet, place: usize, time: u64) -> Result<(), Refusal>
        requires ready { IsReady self.old }
        ensures ready { IsReady self.new }
        ensures others { self.new ≡ record self.old { groups = self.new.groups; bundles = self.new.bundles } }
        ensures unchanged { OnErr result (self.new ≡ self.old) }
        ensures given { Gives (in_new p place time (data_of self.old)) (data_of self.old) result self.new }
    {
        let len = Seq(p.last).distance(Seq(p.first)).0 + 1;
        if place >= len as usize {
            return Err(Refusal::BeyondGroup);
        }
        if len > MAX_FRAGMENTS {
            return Err(Refusal::OverLimit);
        }
        let mut group = Fragments::new(p.first, len, time);
        group.store(place, p.handle, time);
        self.groups.push(group)?;
        Ok(())
    }

    /// Adds a packet that came off the reliable path at `time`, in milliseconds: without a range it is a bundle of one, with one a
    /// fragment of the group that begins at the range's first number. A fragment that comes too long after its group's last is dropped;
    /// one that fills its group makes a bundle of it. `BeyondGroup` says that its place is none of the group's, `OverLimit` that the lists
    /// would be beyond their limits; either way nothing changes. The out list and the ack queue may be any, and stay as they are.
    pub fn add_in_packet(&mut self, time: u64, p: Packet) -> Result<(), Refusal>
        requires groups { IsGroups self.old.groups }
        requires bundles { IsBundles self.old.bundles }
        ensures groups { IsGroups self.new.groups }
        ensures bundles { IsBundles self.new.bundles }
        ensures others { self.new ≡ record self.old { groups = self.new.groups; bundles = self.new.bundles } }
        ensures data { IsOffData self.old → IsOffData self.new }
        ensures unchanged { OnErr result (self.new ≡ self.old) }
        ensures beside { (length (data_of self.old).out ≤ 32) × (length (data_of self.old).acks ≤ 64) }
        ensures answer { result ≡ (settled_data (add_in_packet time p (data_of self.old)) (data_of self.old)).result }
        ensures items { data_of self.new ≡ (settled_data (add_in_packet time p (data_of self.old)) (data_of self.old)).channel }
    {
        // Room is judged on groups and bundles alone: of the other lists there are never more items than places.
        prove!(self.out.as_slice().len() <= 32);
        prove!(self.acks.as_slice().len() <= 64);
        if p.ranged != 1 {
            return self.add_one(p.handle);
        }
        let place = Seq(p.number).distance(Seq(p.first)).0 as usize;
        match self.groups.position(p.first) {
            Some(g) => self.add_at(g, place, p.handle, time),
            None => self.add_new(p, place, time),
        }
    }
}
