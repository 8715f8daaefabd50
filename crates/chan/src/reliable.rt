//! A reliable packet's arrival on an on-channel: the reorder rule, and then bundles from the contiguous queue.

ghost use Rattle.std.specs.Prelude.{◌≡◌, ◌≤◌, ◌<◌, true, false, [], length, IsOk, IfOk, OnOk, OnErr};
ghost use Rattle.model.specs.Reorder.{reorder, arrive};
ghost use Rattle.model.specs.Record.{with_reliable};
ghost use Rattle.model.specs.Room.{fits_on};
ghost use Rattle.queues.specs.Packets.{IsWaiting, run_of, IsRun};
ghost use Rattle.chan.specs.Channels.{on_of, IsOnChannel};
ghost use Rattle.chan.specs.Arriving.{run, reliable, advanced, kept_of, within, IsSide, with_side, comes_alone, Alone};

use crate::{OnChannel, grouping};
use list::Full;
use packet::Packet;
use queues::{Run, Waiting};
use seq::Seq;
use std::cmp::Ordering;

/// How many of these packets, from the front, follow one another from that number on.
#[tactic(auto, using(crate::proofs::Runs::run_stop, crate::proofs::Runs::run_step, crate::proofs::Runs::run_end))]
fn successors(packets: &[Packet], number: u32) -> usize
    ensures run { result ≡ run number packets.now }
    ensures most { result ≤ length packets.now }
{
    let mut due = number;
    for i in 0..packets.len() {
        if packets[i].number != due {
            return i;
        }
        due = Seq(due).add(1).0;
    }
    packets.len()
}

impl OnChannel {
    /// The expected packet joins the queue, and those buffered that follow it.
    fn advance(&mut self, p: Packet) -> Result<Run, Full>
        requires buffer { IsWaiting self.old.buffer }
        requires queue { IsWaiting self.old.queue }
        ensures ok { IsOk result }
        ensures run { IfOk result (λ w. IsRun w) }
        ensures buffer { IsWaiting self.new.buffer }
        ensures items { IfOk result (λ w. record (reliable self.new) { queue = run_of w } ≡ advanced (reliable self.old) p) }
        ensures kept { kept_of self.new ≡ kept_of self.old }
        ensures queue { self.new.queue ≡ self.old.queue }
    {
        let mut run = Run::new();
        run.extend(self.queue.as_slice())?;
        run.push(p)?;
        let next = Seq(self.expected).add(1);
        let buffered = self.buffer.as_slice();
        let k = successors(buffered, next.0);
        run.extend(&buffered[..k])?;
        self.buffer.take_front(k);
        self.expected = next.add(k as u32).0;
        Ok(run)
    }

    /// The reorder rule: the expected packet and those buffered that follow it join the contiguous queue, one before it is dropped, and one
    /// past it is buffered, unless its number is there. Answers the contiguous queue that it leaves, up to 65 packets; the channel's own
    /// queue stays, and so does all else but the expected number and the buffer, whatever the other lists are. `Full` says that the buffer
    /// would hold more than 32 packets; the channel stays as it was.
    pub fn reorder(&mut self, p: Packet) -> Result<Run, Full>
        requires buffer { IsWaiting self.old.buffer }
        requires queue { IsWaiting self.old.queue }
        ensures full { OnErr result (32 < length (reorder (reliable self.old) p).buffer) }
        ensures run { IfOk result (λ w. IsRun w) }
        ensures buffer { IsWaiting self.new.buffer }
        ensures items { IfOk result (λ w. record (reliable self.new) { queue = run_of w } ≡ reorder (reliable self.old) p) }
        ensures kept { kept_of self.new ≡ kept_of self.old }
        ensures queue { self.new.queue ≡ self.old.queue }
        ensures unchanged { OnErr result (self.new ≡ self.old) }
    {
        let mut run = Run::new();
        match Seq(p.number).compare(Seq(self.expected)) {
            Ordering::Equal => {
                let run = self.advance(p)?;
                Ok(run)
            }
            Ordering::Less => {
                run.extend(self.queue.as_slice())?;
                Ok(run)
            }
            Ordering::Greater => {
                self.buffer.insert(p)?;
                run.extend(self.queue.as_slice())?;
                Ok(run)
            }
        }
    }

    /// The reorder rule, and then bundles from the queue, also where the packet was dropped or buffered. After an `Err` the channel is in
    /// no state to go on with: work on a copy.
    fn arrive(&mut self, p: Packet) -> Result<(), Full>
        requires { IsSide self.old }
        ensures full { OnErr result (within (arrive (reliable self.old) p) ≡ false) }
        ensures side { OnOk result (IsSide self.new) }
        ensures others { OnOk result (self.new ≡ with_side self.new self.old) }
        ensures items { OnOk result (on_of self.new ≡ with_reliable (arrive (reliable self.old) p) (on_of self.old)) }
    {
        let run = self.reorder(p)?;
        let queue = run.as_slice();
        let taken = grouping::group(&mut self.off.bundles, queue)?;
        self.queue = Waiting::of(&queue[taken..])?;
        Ok(())
    }

    /// Whether nothing waits, and this packet comes in order and has no range: such a packet goes by no queue. For any channel.
    pub fn comes_alone(&self, p: Packet) -> bool
        ensures answer { result ≡ comes_alone self.now p }
        ensures alone { result ≡ true → Alone (reliable self.now) p }
    {
        self.buffer.len == 0 && self.queue.len == 0 && p.ranged != 1 && p.number == self.expected
    }

    /// A packet that comes alone is a bundle of one at once, with no way through the queue.
    fn add_alone(&mut self, p: Packet) -> Result<(), Full>
        requires side { IsSide self.old }
        requires alone { Alone (reliable self.old) p }
        ensures full { OnErr result (within (arrive (reliable self.old) p) ≡ false) }
        ensures unchanged { OnErr result (self.new ≡ self.old) }
        ensures side { IsSide self.new }
        ensures others { self.new ≡ with_side self.new self.old }
        ensures items { OnOk result (on_of self.new ≡ with_reliable (arrive (reliable self.old) p) (on_of self.old)) }
    {
        self.off.bundles.push_one(p.handle)?;
        self.expected = Seq(self.expected).add(1).0;
        Ok(())
    }

    /// Any packet, by the queue: on a copy of the channel, since a limit may be met late.
    fn add_by_queue(&mut self, p: Packet) -> Result<(), Full>
        requires { IsSide self.old }
        ensures full { OnErr result (within (arrive (reliable self.old) p) ≡ false) }
        ensures unchanged { OnErr result (self.new ≡ self.old) }
        ensures side { IsSide self.new }
        ensures others { self.new ≡ with_side self.new self.old }
        ensures items { OnOk result (on_of self.new ≡ with_reliable (arrive (reliable self.old) p) (on_of self.old)) }
    {
        let mut c = *self;
        c.arrive(p)?;
        *self = c;
        Ok(())
    }

    /// A reliable packet arrives. `Full` says that the channel that it would leave is beyond its limits, by its buffer, queue or bundles; the
    /// channel stays as it was. The out list, the ack queue and the groups may be any, and stay as they are.
    pub fn add_in_reliable_packet(&mut self, p: Packet) -> Result<(), Full>
        requires side { IsSide self.old }
        ensures over { OnErr result (within (arrive (reliable self.old) p) ≡ false) }
        ensures within { OnOk result (within (arrive (reliable self.old) p) ≡ true) }
        ensures full { OnErr result (fits_on (with_reliable (arrive (reliable self.old) p) (on_of self.old)) ≡ false) }
        ensures fits { IsOnChannel self.old → OnOk result (fits_on (with_reliable (arrive (reliable self.old) p) (on_of self.old)) ≡ true) }
        ensures unchanged { OnErr result (self.new ≡ self.old) }
        ensures side { IsSide self.new }
        ensures others { self.new ≡ with_side self.new self.old }
        ensures channel { IsOnChannel self.old → IsOnChannel self.new }
        ensures items { OnOk result (on_of self.new ≡ with_reliable (arrive (reliable self.old) p) (on_of self.old)) }
    {
        if self.comes_alone(p) {
            self.add_alone(p)?;
            return Ok(());
        }
        self.add_by_queue(p)?;
        Ok(())
    }
}
