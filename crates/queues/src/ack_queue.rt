//! Numbers of reliable packets that came in and are to be acknowledged (Rust: `in_reliable_packets`, the queued acks).

ghost use Rattle.std.specs.Prelude.{◌≡◌, ◌≤◌, ◌∷◌, ◌++◌, [], true, false, length, OnOk, OnErr, position};
ghost use Rattle.std.specs.declared.option.Option.TheVariants.{None, Some};
ghost use Rattle.list.specs.Find.{has, remove_first, swap_remove_first};
ghost use Rattle.model.specs.Acks.{is, not_before, ack_in_cumulative, ack_in_singles, take_written};
ghost use Rattle.queues.specs.Acks.{numbers, IsAckQueue};

use list::Full;
use seq::Seq;
use std::cmp::Ordering;

/// Up to 64 numbers, in order of arrival.
#[repr(C)]
#[derive(Clone, Copy)]
pub struct AckQueue {
    pub len: u32,
    pub numbers: [u32; 64],
}

/// A number that was named is not in the queue.
#[derive(Clone, Copy, Debug, PartialEq, Eq, Drop)]
pub struct Lacking;

/// Whether a queued number is not before this one.
fn not_before(number: u32, queued: u32) -> bool
    ensures { result ≡ not_before number queued }
{
    match Seq(queued).compare(Seq(number)) {
        Ordering::Less => false,
        Ordering::Equal => true,
        Ordering::Greater => true,
    }
}

impl AckQueue {
    ghost use Rattle.queues.specs.Acks.{no_ack_queue};

    pub fn new() -> AckQueue
        ensures none { result ≡ no_ack_queue }
        ensures list { IsAckQueue result }
        ensures items { numbers result ≡ [] }
    {
        AckQueue {
            len: 0,
            numbers: [0; 64],
        }
    }

    /// The numbers. Past a count of 64 they are the numbers of all places.
    pub fn as_slice(&self) -> &[u32]
        ensures items { result.now ≡ numbers self.now }
        ensures few { length result.now ≤ 64 }
    {
        list::used(self.len, &self.numbers)
    }

    /// Adds a number at the end, also one that is there.
    pub fn push(&mut self, number: u32) -> Result<(), Full>
        requires { IsAckQueue self.old }
        ensures full { OnErr result (64 ≤ length (numbers self.old)) }
        ensures list { IsAckQueue self.new }
        ensures items { OnOk result (numbers self.new ≡ numbers self.old ++ number ∷ []) }
        ensures unchanged { OnErr result (self.new ≡ self.old) }
    {
        list::push(&mut self.len, &mut self.numbers, 0, number)?;
        Ok(())
    }

    fn position(&self, number: u32) -> Option<usize>
        requires { IsAckQueue self.now }
        ensures { result ≡ position (is number) (numbers self.now) }
    {
        self.as_slice().iter().position(|n| *n == number)
    }

    /// Keeps the numbers that are not before this one.
    pub fn ack_cumulative(&mut self, number: u32)
        requires { IsAckQueue self.old }
        ensures list { IsAckQueue self.new }
        ensures items { numbers self.new ≡ ack_in_cumulative number (numbers self.old) }
    {
        list::retain(&mut self.len, &mut self.numbers, 0, |n| {
            not_before(number, *n)
        });
    }

    /// Takes the first copy of the number out, the last number taking its place.
    #[tactic(auto, using(crate::proofs::Swapped::swapped_first, crate::proofs::Swapped::none_swapped, list::proofs::Firsts::first_within))]
    pub fn ack(&mut self, number: u32)
        requires { IsAckQueue self.old }
        ensures list { IsAckQueue self.new }
        ensures items { numbers self.new ≡ swap_remove_first 0 (is number) (numbers self.old) }
    {
        match self.position(number) {
            Some(i) => list::swap_remove(&mut self.len, &mut self.numbers, 0, i),
            None => {}
        }
    }

    /// Takes the first copy of each number out, in turn; the last number takes its place.
    pub fn ack_singles(&mut self, singles: &[u32])
        requires { IsAckQueue self.old }
        ensures list { IsAckQueue self.new }
        ensures items { numbers self.new ≡ ack_in_singles singles.now (numbers self.old) }
    {
        for n in singles {
            self.ack(*n);
        }
    }

    /// Takes the first copy of the number out, if there is one.
    #[tactic(auto, using(list::proofs::Firsts::removed_first, list::proofs::Firsts::first_within, list::proofs::Firsts::has_first, list::proofs::Firsts::lacks_first))]
    fn take(&mut self, number: u32) -> Result<(), Lacking>
        requires { IsAckQueue self.old }
        ensures there { OnOk result (has (is number) (numbers self.old) ≡ true) }
        ensures lacking { OnErr result (has (is number) (numbers self.old) ≡ false) }
        ensures list { IsAckQueue self.new }
        ensures items { OnOk result (numbers self.new ≡ remove_first (is number) (numbers self.old)) }
    {
        match self.position(number) {
            Some(i) => {
                list::remove(&mut self.len, &mut self.numbers, 0, i);
                Ok(())
            }
            None => Err(Lacking),
        }
    }

    /// Takes the named numbers out, each at its earliest place; all of them, or none if one is lacking.
    pub fn take_written(&mut self, names: &[u32]) -> Result<(), Lacking>
        requires { IsAckQueue self.old }
        ensures list { IsAckQueue self.new }
        ensures items { OnOk result (take_written names.now (numbers self.old) ≡ Some (numbers self.new)) }
        ensures lacking { OnErr result (take_written names.now (numbers self.old) ≡ None) }
        ensures unchanged { OnErr result (self.new ≡ self.old) }
    {
        let mut queue = *self;
        for n in names {
            queue.take(*n)?;
        }
        *self = queue;
        Ok(())
    }
}
