//! One record on its channel, of either kind. The record may be any, also one that is not well made: a flag that is not 1 is not set, and
//! a count past its eight single acks is of all eight.

ghost use Rattle.std.specs.Prelude.{◌≡◌, ◌<◌, true, [], ◌∷◌, ◌++◌, leb, length};
ghost use Rattle.packet.specs.Data.{is_set};
ghost use Rattle.model.specs.State as model;
ghost use Rattle.model.specs.Record.{on_record, off_record, reliable_in, loose_on, loose_off, queued, granted, observed_if};
ghost use Rattle.model.specs.Rust.{forward_on, forward_off};
ghost use Rattle.model.specs.Room.{fits_on, fits_off};
ghost use Rattle.chan.specs.Channels.{data_of, IsOffData, off_of, IsOffChannel, on_of, IsOnChannel};
ghost use Rattle.chan.specs.Settled.{settled};
ghost use Rattle.chan.specs.Rules.{last_on, last_off, on_acked, off_acked, outcome_on, outcome_off};

use crate::{OffChannel, OffData, OnChannel};
use packet::{Record, Refusal};
use seq::Seq;

/// Whether a record came in, to a relay that forwards (`true`) or not, or is forwarded out.
#[derive(Clone, Copy)]
pub enum Way {
    In(bool),
    Out,
}

impl OffData {
    /// Whether the ack queue has no room for one more number.
    fn is_ack_queue_full(&self) -> bool
        ensures { result ≡ leb 64 self.now.acks.len }
    {
        self.acks.len >= 64
    }

    /// The number of a reliable packet waits to be acknowledged, also where it came before. There must be room.
    fn queue_ack(&mut self, number: u32)
        requires data { IsOffData self.old }
        requires room { self.old.acks.len < 64 }
        ensures data { IsOffData self.new }
        ensures items { data_of self.new ≡ model.with_acks ((data_of self.old).acks ++ number ∷ []) (data_of self.old) }
    {
        let _ = list::push(&mut self.acks.len, &mut self.acks.numbers, 0, number);
    }
}

impl OnChannel {
    /// Where the sender gives its last reliable number, the record must be not reliable, and the number the one before the expected.
    fn check_last_reliable(&self, r: &Record) -> Result<(), Refusal>
        ensures { result ≡ last_on r.now (on_of self.now) }
    {
        match r.last_reliable() {
            None => Ok(()),
            Some(last) => {
                if r.reliable == 1 {
                    return Err(Refusal::LastOnReliable);
                }
                if last != Seq(self.expected).sub(1).0 {
                    return Err(Refusal::LastNotExpected);
                }
                Ok(())
            }
        }
    }

    /// A forwarding relay goes on sending after the numbers that it has seen: the source moves to the number after `number` where that
    /// compares Greater than its next. Without forwarding, nothing changes. For any channel.
    pub fn observe(&mut self, forwarding: bool, number: u32)
        ensures channel { IsOnChannel self.old → IsOnChannel self.new }
        ensures items { on_of self.new ≡ model.with_source (observed_if forwarding self.old.source.next number) (on_of self.old) }
        ensures others { self.new ≡ record self.old { source = self.new.source } }
    {
        if forwarding {
            self.source.observe(Seq(number));
        }
    }

    /// A reliable record. What may be refused comes first, so that a refused record leaves the channel as it was.
    fn accept_reliable(&mut self, forwarding: bool, r: &Record) -> Result<(), Refusal>
        requires { IsOnChannel self.old }
        ensures channel { IsOnChannel self.new }
        ensures result { result ≡ (settled fits_on (reliable_in forwarding r.now (on_acked r.now (on_of self.old))) (on_of self.old)).result }
        ensures items { on_of self.new ≡ (settled fits_on (reliable_in forwarding r.now (on_acked r.now (on_of self.old))) (on_of self.old)).channel }
    {
        if self.off.is_ack_queue_full() {
            return Err(Refusal::OverLimit);
        }
        self.add_in_reliable_packet(r.packet())?;
        self.off.acked_on(r);
        self.off.queue_ack(r.number);
        self.observe(forwarding, r.number);
        Ok(())
    }

    /// A record off the reliable path: a bundle of one, or a fragment. Its acks touch neither, so they come last.
    fn accept_loose(&mut self, time: u64, r: &Record) -> Result<(), Refusal>
        requires { IsOnChannel self.old }
        ensures channel { IsOnChannel self.new }
        ensures result { result ≡ (settled fits_on (loose_on time r.now (on_acked r.now (on_of self.old))) (on_of self.old)).result }
        ensures items { on_of self.new ≡ (settled fits_on (loose_on time r.now (on_acked r.now (on_of self.old))) (on_of self.old)).channel }
    {
        self.off.add_in_packet(time, r.packet())?;
        self.off.acked_on(r);
        Ok(())
    }

    /// One record that came in. Refused as of an old version it changes nothing, by its last reliable number it has applied its acks, and as
    /// a fragment beyond its group or over a limit it changes nothing. A version above the channel's is accepted, and not kept.
    pub fn accept(&mut self, forwarding: bool, time: u64, r: &Record) -> Result<(), Refusal>
        requires { IsOnChannel self.old }
        ensures channel { IsOnChannel self.new }
        ensures result { result ≡ (settled fits_on (on_record forwarding time r.now (on_of self.old)) (on_of self.old)).result }
        ensures items { on_of self.new ≡ (settled fits_on (on_record forwarding time r.now (on_of self.old)) (on_of self.old)).channel }
    {
        if r.version_of() < self.version {
            return Err(Refusal::OldVersion);
        }
        if let Err(refusal) = self.check_last_reliable(r) {
            self.off.acked_on(r);
            return Err(refusal);
        }
        if r.reliable == 1 {
            return self.accept_reliable(forwarding, r);
        }
        self.accept_loose(time, r)
    }

    /// One record that is forwarded out: its acks leave the ack queue, and a reliable one joins the out list.
    pub fn accept_out(&mut self, time: u64, r: &Record) -> Result<(), Refusal>
        requires { IsOnChannel self.old }
        ensures channel { IsOnChannel self.new }
        ensures result { result ≡ (settled fits_on (granted (forward_on time r.now (on_of self.old))) (on_of self.old)).result }
        ensures items { on_of self.new ≡ (settled fits_on (granted (forward_on time r.now (on_of self.old))) (on_of self.old)).channel }
    {
        self.off.forwarded(r.hascumulative == 1, time, r)?;
        Ok(())
    }

    /// One record, by the rules of its way.
    pub fn take(&mut self, way: Way, time: u64, r: &Record) -> Result<(), Refusal>
        requires { IsOnChannel self.old }
        ensures channel { IsOnChannel self.new }
        ensures result { result ≡ (settled fits_on (outcome_on way time r.now (on_of self.old)) (on_of self.old)).result }
        ensures items { on_of self.new ≡ (settled fits_on (outcome_on way time r.now (on_of self.old)) (on_of self.old)).channel }
    {
        match way {
            Way::In(forwarding) => self.accept(forwarding, time, r),
            Way::Out => self.accept_out(time, r),
        }
    }
}

impl OffChannel {
    /// Off-channel no last reliable number may be given.
    fn check_last_reliable(&self, r: &Record) -> Result<(), Refusal>
        ensures { result ≡ last_off r.now }
    {
        if r.haslast != 1 {
            return Ok(());
        }
        if r.reliable == 1 {
            return Err(Refusal::LastOnReliable);
        }
        Err(Refusal::LastOff)
    }

    /// A reliable record. Where there is no room to acknowledge it, a fragment beyond its group is refused as that.
    fn accept_reliable(&mut self, time: u64, r: &Record) -> Result<(), Refusal>
        requires { IsOffChannel self.old }
        ensures channel { IsOffChannel self.new }
        ensures result { result ≡ (settled fits_off (loose_off time r.now (model.off_with (queued r.now (off_acked r.now (off_of self.old)).off) (off_acked r.now (off_of self.old)))) (off_of self.old)).result }
        ensures items { off_of self.new ≡ (settled fits_off (loose_off time r.now (model.off_with (queued r.now (off_acked r.now (off_of self.old)).off) (off_acked r.now (off_of self.old)))) (off_of self.old)).channel }
    {
        if self.off.is_ack_queue_full() {
            let mut copy = self.off;
            return match copy.add_in_packet(time, r.packet()) {
                Ok(()) => Err(Refusal::OverLimit),
                Err(refusal) => Err(refusal),
            };
        }
        self.off.add_in_packet(time, r.packet())?;
        self.off.acked_off(r);
        self.off.queue_ack(r.number);
        Ok(())
    }

    /// A record that is not reliable, as on-channel.
    fn accept_loose(&mut self, time: u64, r: &Record) -> Result<(), Refusal>
        requires { IsOffChannel self.old }
        ensures channel { IsOffChannel self.new }
        ensures result { result ≡ (settled fits_off (loose_off time r.now (off_acked r.now (off_of self.old))) (off_of self.old)).result }
        ensures items { off_of self.new ≡ (settled fits_off (loose_off time r.now (off_acked r.now (off_of self.old))) (off_of self.old)).channel }
    {
        self.off.add_in_packet(time, r.packet())?;
        self.off.acked_off(r);
        Ok(())
    }

    /// One record that came in. Refused for its cumulative ack it changes nothing, by its last reliable number it has applied its acks, and
    /// as a fragment beyond its group or over a limit it changes nothing.
    pub fn accept(&mut self, time: u64, r: &Record) -> Result<(), Refusal>
        requires { IsOffChannel self.old }
        ensures channel { IsOffChannel self.new }
        ensures result { result ≡ (settled fits_off (off_record time r.now (off_of self.old)) (off_of self.old)).result }
        ensures items { off_of self.new ≡ (settled fits_off (off_record time r.now (off_of self.old)) (off_of self.old)).channel }
    {
        let cumulative = r.hascumulative == 1;
        if cumulative {
            return Err(Refusal::CumulativeOff);
        }
        if let Err(refusal) = self.check_last_reliable(r) {
            self.off.acked_off(r);
            return Err(refusal);
        }
        if r.reliable == 1 {
            return self.accept_reliable(time, r);
        }
        self.accept_loose(time, r)
    }

    /// One record that is forwarded out, as on-channel; with a cumulative ack it is refused and changes nothing.
    pub fn accept_out(&mut self, time: u64, r: &Record) -> Result<(), Refusal>
        requires { IsOffChannel self.old }
        ensures channel { IsOffChannel self.new }
        ensures result { result ≡ (settled fits_off (forward_off (is_set r.now.hascumulative) time r.now (off_of self.old)) (off_of self.old)).result }
        ensures items { off_of self.new ≡ (settled fits_off (forward_off (is_set r.now.hascumulative) time r.now (off_of self.old)) (off_of self.old)).channel }
    {
        match r.cumulative() {
            Some(_) => Err(Refusal::CumulativeOff),
            None => {
                self.off.forwarded(false, time, r)?;
                Ok(())
            }
        }
    }

    /// One record, by the rules of its way.
    pub fn take(&mut self, way: Way, time: u64, r: &Record) -> Result<(), Refusal>
        requires { IsOffChannel self.old }
        ensures channel { IsOffChannel self.new }
        ensures result { result ≡ (settled fits_off (outcome_off way time r.now (off_of self.old)) (off_of self.old)).result }
        ensures items { off_of self.new ≡ (settled fits_off (outcome_off way time r.now (off_of self.old)) (off_of self.old)).channel }
    {
        match way {
            Way::In(_) => self.accept(time, r),
            Way::Out => self.accept_out(time, r),
        }
    }
}
