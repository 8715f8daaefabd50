//! Acknowledgements that a record or a forwarded packet brings, on what both kinds of channel have.

ghost use Rattle.std.specs.Prelude.{◌≡◌, false, OnOk, OnErr};
ghost use Rattle.packet.specs.Data.{single_acks};
ghost use Rattle.model.specs.Acks.{forwarded_entry};
ghost use Rattle.model.specs.Record as Rule;
ghost use Rattle.model.specs.Rust as Rust;
ghost use Rattle.model.specs.Room.{fits_data};
ghost use Rattle.queues.specs.Out.{IsOutList};
ghost use Rattle.chan.specs.Forwarding.{acked_in};
ghost use Rattle.chan.specs.Channels.{data_of, IsOffData};

use crate::OffData;
use list::Full;
use packet::{OutEntry, Record};

/// The entry of a reliable packet that is forwarded out: without a handle.
fn forwarded_entry(number: u32, time: u64) -> OutEntry
    ensures { result ≡ forwarded_entry number time }
{
    OutEntry {
        time,
        sent: time,
        number,
        held: 0,
        handle: 0,
    }
}

/// The single acks of a record: all of its places where its count is beyond them.
fn single_acks(r: &Record) -> &[u32]
    ensures { result.now ≡ single_acks r.now }
{
    list::used(r.ackcount, &r.acks)
}

impl OffData {
    /// The record's acks on-channel: the cumulative one, then the single ones. The out list alone changes, whatever the other lists are.
    pub fn acked_on(&mut self, r: &Record)
        requires { IsOutList self.old.out }
        ensures list { IsOutList self.new.out }
        ensures data { IsOffData self.old → IsOffData self.new }
        ensures others { self.new ≡ record self.old { out = self.new.out } }
        ensures items { data_of self.new ≡ Rule.acked_on r.now (data_of self.old) }
    {
        if r.hascumulative == 1 {
            self.out.ack_cumulative(r.cumulative);
        }
        self.out.ack_singles(single_acks(r));
    }

    /// The record's acks off-channel: single ones alone. The out list alone changes, whatever the other lists are.
    pub fn acked_off(&mut self, r: &Record)
        requires { IsOutList self.old.out }
        ensures list { IsOutList self.new.out }
        ensures data { IsOffData self.old → IsOffData self.new }
        ensures others { self.new ≡ record self.old { out = self.new.out } }
        ensures items { data_of self.new ≡ Rule.acked_off r.now (data_of self.old) }
    {
        self.out.ack_singles(single_acks(r));
    }

    /// The acks of a forwarded packet leave the ack queue, the cumulative one where it is taken.
    fn acked_in(&mut self, cumulative: bool, r: &Record)
        requires { IsOffData self.old }
        ensures data { IsOffData self.new }
        ensures items { data_of self.new ≡ acked_in cumulative r.now (data_of self.old) }
    {
        if cumulative {
            self.acks.ack_cumulative(r.cumulative);
        }
        self.acks.ack_singles(single_acks(r));
    }

    /// A packet forwarded out: if it is reliable it joins the out list in its place, without a handle, and its acks leave the ack queue.
    pub fn forwarded(&mut self, cumulative: bool, time: u64, r: &Record) -> Result<(), Full>
        requires { IsOffData self.old }
        ensures data { IsOffData self.new }
        ensures items { OnOk result (data_of self.new ≡ Rust.forwarded cumulative time r.now (data_of self.old)) }
        ensures full { OnErr result (fits_data (Rust.forwarded cumulative time r.now (data_of self.old)) ≡ false) }
        ensures unchanged { OnErr result (self.new ≡ self.old) }
    {
        if r.reliable == 1 {
            self.out.insert(forwarded_entry(r.number, time))?;
        }
        self.acked_in(cumulative, r);
        Ok(())
    }
}
