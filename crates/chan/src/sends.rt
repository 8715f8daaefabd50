//! A send on its channel, and the packets to send again.

ghost use Rattle.std.specs.Prelude.{◌≡◌, ◌+◌, ◌<◌, ◌≤◌, ◌++◌, length, IfOk, OnOk, OnErr};
ghost use Rattle.list.specs.Find.{written_at};
ghost use Rattle.model.specs.Calls.{flat};
ghost use Rattle.model.specs.Rust.{sent_entries, resent_off, resent_on, rows_off, rows_on};
ghost use Rattle.queues.specs.Out.{entries, IsOutList};
ghost use Rattle.chan.specs.Channels.{off_of, IsOffChannel, on_of, IsOnChannel};
ghost use Rattle.chan.specs.Sends.{joined_off, sent_on};

use crate::{OffChannel, OnChannel};
use list::Full;
use packet::OutEntry;
use queues::{Clock, OutList};
use seq::{Seq, SeqAlloc};

/// Reliable packets join the out list at its end, one entry for each handle, numbered from `first` on; all of them, or none.
fn join_out(out: &mut OutList, time: u64, first: Seq, handles: &[u32]) -> Result<(), Full>
    requires { IsOutList out.old }
    ensures full { OnErr result (32 < length (entries out.old) + length handles.now) }
    ensures list { IsOutList out.new }
    ensures items { OnOk result (entries out.new ≡ entries out.old ++ sent_entries time first.0 handles.now) }
    ensures unchanged { OnErr result (out.new ≡ out.old) }
{
    let mut joined = *out;
    let mut number = first;
    for h in handles {
        joined.push(OutEntry {
            time,
            sent: time,
            number: number.get(),
            held: 1,
            handle: *h,
        })?;
        number = number.add(1);
    }
    *out = joined;
    Ok(())
}

impl OffChannel {
    /// Adds the packets of a reliable send to the out list, numbered from `first` on; the other lists may be any, and stay as they are.
    pub fn send(&mut self, time: u64, first: Seq, handles: &[u32]) -> Result<(), Full>
        requires { IsOutList self.old.off.out }
        ensures full { OnErr result (32 < length (off_of self.old).off.out + length handles.now) }
        ensures list { IsOutList self.new.off.out }
        ensures channel { IsOffChannel self.old → IsOffChannel self.new }
        ensures others { self.new ≡ record self.old { off = record self.old.off { out = self.new.off.out } } }
        ensures items { OnOk result (off_of self.new ≡ joined_off time first.0 handles.now (off_of self.old)) }
        ensures unchanged { OnErr result (self.new ≡ self.old) }
    {
        join_out(&mut self.off.out, time, first, handles)?;
        Ok(())
    }

    /// How many packets a resend lists.
    pub fn count_due(&self, clock: Clock) -> u32
        requires { IsOffChannel self.now }
        ensures rows { result ≡ length (rows_off clock.time clock.timeout clock.give_up (off_of self.now)) }
        ensures few { result ≤ 32 }
    {
        self.off.out.count_due(clock)
    }

    /// Lists the packets that are due, from place `at` on, and answers the place after their rows. Those given up go, and those listed are
    /// last sent now.
    pub fn resend(&mut self, clock: Clock, lent: &mut [u32], at: usize) -> usize
        requires channel { IsOffChannel self.old }
        requires room { at + length (flat (rows_off clock.time clock.timeout clock.give_up (off_of self.old))) ≤ length lent.old }
        ensures channel { IsOffChannel self.new }
        ensures items { off_of self.new ≡ resent_off clock.time clock.timeout clock.give_up (off_of self.old) }
        ensures rows { lent.new ≡ written_at at (flat (rows_off clock.time clock.timeout clock.give_up (off_of self.old))) lent.old }
        ensures next { result ≡ at + length (flat (rows_off clock.time clock.timeout clock.give_up (off_of self.old))) }
    {
        self.off.out.resend(self.address, clock, lent, at)
    }
}

impl OnChannel {
    /// Adds the packets of a reliable send to the out list, numbered from the channel's own source, which moves on; answers the first
    /// number. The other lists may be any, and stay as they are.
    pub fn send(&mut self, time: u64, handles: &[u32]) -> Result<Seq, Full>
        requires list { IsOutList self.old.off.out }
        requires few { length handles.now ≤ 16 }
        ensures full { OnErr result (32 < length (on_of self.old).off.out + length handles.now) }
        ensures first { IfOk result (λ n. n.0 ≡ self.old.source.next) }
        ensures list { IsOutList self.new.off.out }
        ensures channel { IsOnChannel self.old → IsOnChannel self.new }
        ensures others { self.new ≡ record self.old { source = self.new.source; off = record self.old.off { out = self.new.off.out } } }
        ensures items { OnOk result (on_of self.new ≡ sent_on time handles.now (on_of self.old)) }
        ensures unchanged { OnErr result (self.new ≡ self.old) }
    {
        join_out(&mut self.off.out, time, Seq(self.source.next), handles)?;
        Ok(self.source.alloc(handles.len() as u32))
    }

    /// How many packets a resend lists.
    pub fn count_due(&self, clock: Clock) -> u32
        requires { IsOnChannel self.now }
        ensures rows { result ≡ length (rows_on clock.time clock.timeout clock.give_up (on_of self.now)) }
        ensures few { result ≤ 32 }
    {
        self.off.out.count_due(clock)
    }

    /// As off-channel.
    pub fn resend(&mut self, clock: Clock, lent: &mut [u32], at: usize) -> usize
        requires channel { IsOnChannel self.old }
        requires room { at + length (flat (rows_on clock.time clock.timeout clock.give_up (on_of self.old))) ≤ length lent.old }
        ensures channel { IsOnChannel self.new }
        ensures items { on_of self.new ≡ resent_on clock.time clock.timeout clock.give_up (on_of self.old) }
        ensures rows { lent.new ≡ written_at at (flat (rows_on clock.time clock.timeout clock.give_up (on_of self.old))) lent.old }
        ensures next { result ≡ at + length (flat (rows_on clock.time clock.timeout clock.give_up (on_of self.old))) }
    {
        self.off.out.resend(self.address, clock, lent, at)
    }
}
