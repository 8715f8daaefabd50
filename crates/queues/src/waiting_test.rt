//! Whether any bytes are a buffer or a contiguous queue of good packets.

ghost use Rattle.std.specs.Prelude.{◌≡◌, ◌≤◌, ◌↔◌, ◌&&◌, true, IsTrue, length, fold, replicate};
ghost use Rattle.list.specs.Pad.{all_b};
ghost use Rattle.packet.specs.Data.{no_packet};
ghost use Rattle.model.specs.Wellformed.{packet_good, rising, consecutive};
ghost use Rattle.queues.specs.Folds.{over, rise, follow};
ghost use Rattle.queues.specs.Good.{IsGoodBuffer, IsGoodQueue};

use crate::waiting::Waiting;
use crate::words::LAST;
use packet::Packet;
use seq::Seq;

/// One packet laid over another, bit by bit.
fn over(a: Packet, p: &Packet) -> Packet
    ensures { result ≡ over a p.now }
{
    Packet {
        number: a.number | p.number,
        handle: a.handle | p.handle,
        ranged: a.ranged | p.ranged,
        first: a.first | p.first,
        last: a.last | p.last,
    }
}

fn is_none(p: Packet) -> bool
    ensures { IsTrue result ↔ (p ≡ no_packet) }
{
    (p.number == 0) & (p.handle == 0) & (p.ranged == 0) & (p.first == 0) & (p.last == 0)
}

fn overlay(s: &[Packet]) -> Packet
    ensures { result ≡ fold over no_packet s.now }
{
    s.iter().fold(Packet::none(), |all, p| over(all, p))
}

#[tactic(auto, using(crate::proofs::Folds::packets_by, crate::proofs::Folds::packets_none))]
fn are_none(s: &[Packet]) -> bool
    ensures { IsTrue result ↔ (s.now ≡ replicate (length s.now) no_packet) }
{
    is_none(overlay(s))
}

/// A packet: its number and its range are legal, and without a range first and last are 0.
fn is_good(p: &Packet) -> bool
    ensures { result ≡ packet_good p.now }
{
    (p.number <= LAST)
        & (((p.ranged == 1) & (p.first <= LAST) & (p.last <= LAST))
            | ((p.ranged == 0) & (p.first == 0) & (p.last == 0)))
}

/// One step of the test whether packets rise: from what the ones before gave, with the distance of the last.
fn rise(p: &Packet, before: (bool, u32), expected: u32) -> (bool, u32)
    ensures { result ≡ rise expected before p.now }
{
    let d = Seq(p.number).distance(Seq(expected)).0;
    (
        before.0 & (is_good(p) & (before.1 < d) & (d <= 0x800_0000)),
        d,
    )
}

fn rise_all(s: &[Packet], expected: u32) -> (bool, u32)
    ensures { result ≡ fold (rise expected) (true, 0) s.now }
{
    s.iter()
        .fold((true, 0), |before, p| rise(p, before, expected))
}

/// Whether the packets are good and their distances from the expected number rise, within 1 to 2^27.
#[tactic(auto, using(crate::proofs::Folds::rise_fold))]
fn rises(s: &[Packet], expected: u32) -> bool
    ensures { result ≡ all_b packet_good s.now && rising expected 0 s.now }
{
    rise_all(s, expected).0
}

/// One step of the test whether packets follow one another: from what the ones before gave, with the number that is due.
fn follow(p: &Packet, before: (bool, u32)) -> (bool, u32)
    ensures { result ≡ follow before p.now }
{
    (
        before.0 & (is_good(p) & (p.number == before.1)),
        Seq(before.1).add(1).0,
    )
}

fn follow_all(s: &[Packet], due: u32) -> (bool, u32)
    ensures { result ≡ fold follow (true, due) s.now }
{
    s.iter().fold((true, due), |before, p| follow(p, before))
}

/// Whether the packets are good and consecutive, and end before the expected number.
#[tactic(auto, using(crate::proofs::Folds::follow_fold))]
fn follows(s: &[Packet], expected: u32) -> bool
    requires { length s.now ≤ 32 }
    ensures { result ≡ all_b packet_good s.now && consecutive expected s.now }
{
    follow_all(s, Seq(expected).sub(s.len() as u32).0).0
}

impl Waiting {
    /// Whether the list is in its form and is a buffer at that expected number.
    #[inline(never)]
    pub fn is_buffer(&self, expected: u32) -> bool
        ensures { IsTrue result ↔ IsGoodBuffer expected self.now }
    {
        self.len <= 32
            && rises(&self.packets[..self.len as usize], expected)
            && are_none(&self.packets[self.len as usize..])
    }

    /// Whether the list is in its form and is a contiguous queue at that expected number.
    #[inline(never)]
    pub fn is_queue(&self, expected: u32) -> bool
        ensures { IsTrue result ↔ IsGoodQueue expected self.now }
    {
        self.len <= 32
            && follows(&self.packets[..self.len as usize], expected)
            && are_none(&self.packets[self.len as usize..])
    }
}
