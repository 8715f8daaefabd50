//! Packets that wait on an on-channel: the buffer, the contiguous queue, and the run of both while a packet arrives.

ghost use Rattle.std.specs.Prelude.{◌≡◌, ◌+◌, ◌<◌, ◌≤◌, ◌↔◌, [], ◌∷◌, ◌++◌, length, drop, IsOk, IfOk, OnOk, OnErr};
ghost use Rattle.list.specs.Find.{has};
ghost use Rattle.packet.specs.Data.{no_packet};
ghost use Rattle.model.specs.Acks.{search};
ghost use Rattle.model.specs.Reorder.{packet_number, insert_buffered};
ghost use Rattle.model.specs.Rust.{holds_packet};
ghost use Rattle.queues.specs.Packets.{packets_of, IsWaiting, run_of, IsRun};

use list::Full;
use packet::Packet;
use seq::Seq;
use std::cmp::Ordering;

/// The packets of a buffer or of a contiguous queue.
#[repr(C)]
#[derive(Clone, Copy)]
pub struct Waiting {
    pub len: u32,
    pub packets: [Packet; 32],
}

/// A contiguous queue while a packet arrives: the 32 that waited, the one that came, and the 32 that were buffered.
#[derive(Clone, Copy)]
pub struct Run {
    pub len: u32,
    pub packets: [Packet; 65],
}

/// Where a packet of that number goes in these, searched from the end.
#[tactic(auto, using(crate::proofs::Search::search_step, crate::proofs::Search::search_none))]
pub fn place_of(packets: &[Packet], number: u32) -> Option<usize>
    ensures { result ≡ search packet_number no_packet number packets.now (length packets.now) }
{
    for i in (0..packets.len()).rev() {
        match Seq(number).compare(Seq(packets[i].number)) {
            Ordering::Equal => return None,
            Ordering::Greater => return Some(i + 1),
            Ordering::Less => {}
        }
    }
    Some(0)
}

impl Waiting {
    ghost use Rattle.queues.specs.Packets.{no_waiting};

    pub fn new() -> Waiting
        ensures none { result ≡ no_waiting }
        ensures list { IsWaiting result }
        ensures items { packets_of result ≡ [] }
    {
        Waiting {
            len: 0,
            packets: [Packet::none(); 32],
        }
    }

    /// These packets, if there is room for them.
    pub fn of(packets: &[Packet]) -> Result<Waiting, Full>
        ensures full { OnErr result (32 < length packets.now) }
        ensures list { IfOk result (λ w. IsWaiting w) }
        ensures items { IfOk result (λ w. packets_of w ≡ packets.now) }
    {
        let mut w = Waiting::new();
        list::extend(&mut w.len, &mut w.packets, Packet::none(), packets)?;
        Ok(w)
    }

    /// The packets, of any count.
    pub fn as_slice(&self) -> &[Packet]
        ensures { result.now ≡ packets_of self.now }
    {
        list::used(self.len, &self.packets)
    }

    /// Puts a packet in its place among the buffered, unless its number is there.
    #[tactic(auto, using(crate::proofs::Search::again, crate::proofs::Search::placed, crate::proofs::Search::within))]
    pub fn insert(&mut self, p: Packet) -> Result<(), Full>
        requires { IsWaiting self.old }
        ensures full { OnErr result (32 < length (insert_buffered p (packets_of self.old))) }
        ensures list { IsWaiting self.new }
        ensures items { OnOk result (packets_of self.new ≡ insert_buffered p (packets_of self.old)) }
        ensures unchanged { OnErr result (self.new ≡ self.old) }
    {
        match place_of(self.as_slice(), p.number) {
            None => Ok(()),
            Some(i) => {
                list::insert(&mut self.len, &mut self.packets, Packet::none(), i, p)?;
                Ok(())
            }
        }
    }

    /// Whether one of the packets has that handle.
    pub fn holds(&self, handle: u32) -> bool
        requires { IsWaiting self.now }
        ensures { result ≡ has (holds_packet handle) (packets_of self.now) }
    {
        has_handle(self.as_slice(), handle)
    }

    /// Takes the first `n` packets out.
    pub fn take_front(&mut self, n: usize)
        requires list { IsWaiting self.old }
        requires there { n ≤ length (packets_of self.old) }
        ensures list { IsWaiting self.new }
        ensures items { packets_of self.new ≡ drop n (packets_of self.old) }
    {
        list::take_front(&mut self.len, &mut self.packets, Packet::none(), n);
    }
}

/// Whether the handle is one of these packets'.
fn has_handle(packets: &[Packet], handle: u32) -> bool
    ensures { result ≡ has (holds_packet handle) packets.now }
{
    packets.iter().any(|p| p.handle == handle)
}

impl Run {
    pub fn new() -> Run
        ensures list { IsRun result }
        ensures items { run_of result ≡ [] }
    {
        Run {
            len: 0,
            packets: [Packet::none(); 65],
        }
    }

    pub fn as_slice(&self) -> &[Packet]
        requires { IsRun self.now }
        ensures { result.now ≡ run_of self.now }
    {
        &self.packets[..self.len as usize]
    }

    pub fn push(&mut self, p: Packet) -> Result<(), Full>
        requires { IsRun self.old }
        ensures variant { IsOk result ↔ (length (run_of self.old) + 1 ≤ 65) }
        ensures list { IsRun self.new }
        ensures items { OnOk result (run_of self.new ≡ run_of self.old ++ p ∷ []) }
        ensures unchanged { OnErr result (self.new ≡ self.old) }
    {
        list::push(&mut self.len, &mut self.packets, Packet::none(), p)?;
        Ok(())
    }

    pub fn extend(&mut self, packets: &[Packet]) -> Result<(), Full>
        requires { IsRun self.old }
        ensures variant { IsOk result ↔ (length (run_of self.old) + length packets.now ≤ 65) }
        ensures list { IsRun self.new }
        ensures items { OnOk result (run_of self.new ≡ run_of self.old ++ packets.now) }
        ensures unchanged { OnErr result (self.new ≡ self.old) }
    {
        list::extend(&mut self.len, &mut self.packets, Packet::none(), packets)?;
        Ok(())
    }
}
