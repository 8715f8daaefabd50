//! Bundles from the front of a contiguous queue.

ghost use Rattle.std.specs.Prelude.{◌≡◌, ◌++◌, ◌≤◌, length, take, drop, IfOk, OnOk, OnErr};
ghost use Rattle.packet.specs.Data.{range_of};
ghost use Rattle.model.specs.Group.{is_range, share, step, group};
ghost use Rattle.queues.specs.Made.{bundles_of, IsBundles};
ghost use Rattle.chan.specs.Fronts.{told, taken, TooMany};

use list::Full;
use packet::Packet;
use queues::Bundles;
use seq::Seq;

/// What the front of a queue asks for: to stop, to drop so many packets, or to make a bundle of so many.
#[derive(Clone, Copy)]
pub enum Pop {
    Stop,
    Skip(usize),
    Take(usize),
}

#[tactic(auto, using(crate::proofs::Steps::in_range, crate::proofs::Steps::no_range_at, crate::proofs::Steps::other_range))]
fn is_range(p: &Packet, first: u32, last: u32) -> bool
    ensures { result ≡ is_range first last (range_of p.now) }
{
    p.ranged == 1 && first == p.first && last == p.last
}

fn share(packets: &[Packet], first: u32, last: u32) -> bool
    ensures { result ≡ share first last packets.now }
{
    packets.iter().all(|p| is_range(p, first, last))
}

/// One look at the front: a packet without a range is a bundle of one, one that does not start its range is dropped, and a range of which
/// all have come is a bundle, or dropped where they do not share it. An empty queue, and a range of which some have not come, says to
/// stop. For any packets, and nothing changes.
pub fn front(queue: &[Packet]) -> Pop
    ensures says { told result queue.now ≡ step queue.now }
    ensures most { taken result ≤ length queue.now }
{
    if queue.is_empty() {
        return Pop::Stop;
    }
    let p = queue[0];
    if p.ranged != 1 {
        return Pop::Take(1);
    }
    if p.number != p.first {
        return Pop::Skip(1);
    }
    let span = Seq(p.last).distance(Seq(p.first)).0 as usize + 1;
    if queue.len() < span {
        return Pop::Stop;
    }
    if share(&queue[..span], p.first, p.last) {
        Pop::Take(span)
    } else {
        Pop::Skip(span)
    }
}

/// Makes bundles of the packets in front until it stops, and answers how many packets it took. `Full` says that they would be more than 16
/// bundles, or more than 64 handles in all: those that waited are still the first, and those that found room stand after them. To have
/// none of them, work on a copy.
pub fn group(made: &mut Bundles, packets: &[Packet]) -> Result<usize, Full>
    requires { IsBundles made.old }
    ensures full { OnErr result (TooMany (bundles_of made.old ++ (group packets.now).made)) }
    ensures bundles { IsBundles made.new }
    ensures first { take (length (bundles_of made.old)) (bundles_of made.new) ≡ bundles_of made.old }
    ensures items { OnOk result (bundles_of made.new ≡ bundles_of made.old ++ (group packets.now).made) }
    ensures within { IfOk result (λ n. n ≤ length packets.now) }
    ensures rest { IfOk result (λ n. drop n packets.now ≡ (group packets.now).rest) }
{
    let mut at = 0;
    loop {
        match front(&packets[at..]) {
            Pop::Stop => return Ok(at),
            Pop::Skip(n) => at += n,
            Pop::Take(n) => {
                made.push(&packets[at..at + n])?;
                at += n;
            }
        }
    }
}
