// Sequence numbers, the number source and the prefix sum: the Rust's `seq.rs`, and `update_prefix`
// of its `packet.rs`. Every function takes every u32, and its contract says the answer for each.
#![tactic(auto)]

ghost use Rattle.std.specs.Prelude.{◌≡◌};
ghost use Rattle.seq.specs.Num as Num;
ghost use Rattle.seq.specs.Prefix.{prefix};

use std::cmp::Ordering;

// "A number and a distance between two numbers are kept as separate kinds."
#[derive(Clone, Copy)]
pub struct Seq(pub u32);

#[derive(Clone, Copy)]
pub struct Delta(pub u32);

const SIZE: u32 = 0x1000_0000;

const MASK: u32 = 0x0FFF_FFFF;

// The Rust's `Seq::new` answers none where this is false.
pub fn legal(num: u32) -> bool
    ensures { result ≡ Num.legal num }
{
    num <= MASK
}

// The lowest 28 bits.
fn masked(num: u32) -> u32
    ensures { result ≡ Num.wrap num }
{
    num & MASK
}

// "Adding or subtracting any u32 wraps modulo 2^28." Both wrap on purpose: 2^32 is a multiple of
// 2^28, so what the u32 drops the mask drops too.
fn wrapped_sum(a: u32, n: u32) -> u32
    ensures { result ≡ Num.add a n }
{
    masked(a.wrapping_add(n))
}

fn wrapped_difference(a: u32, n: u32) -> u32
    ensures { result ≡ Num.dist a n }
{
    masked(a.wrapping_sub(n))
}

impl Seq {
    pub fn get(self) -> u32
        ensures { result ≡ self.0 }
    {
        self.0
    }

    // The Rust's `wrapping_cmp`. At a distance of 2^27 it answers Greater both ways.
    pub fn compare(self, other: Seq) -> Ordering
        ensures { result ≡ Num.cmp self.0 other.0 }
    {
        let a = self.0;
        let b = other.0;
        if a == b {
            return Ordering::Equal;
        }
        if wrapped_difference(a, b) > SIZE / 2 {
            return Ordering::Less;
        }
        Ordering::Greater
    }

    pub fn add(self, n: u32) -> Seq
        ensures { result.0 ≡ Num.add self.0 n }
    {
        Seq(wrapped_sum(self.0, n))
    }

    pub fn sub(self, n: u32) -> Seq
        ensures { result.0 ≡ Num.sub self.0 n }
    {
        Seq(wrapped_difference(self.0, n))
    }

    // The Rust's difference of two numbers.
    pub fn distance(self, other: Seq) -> Delta
        ensures { result.0 ≡ Num.dist self.0 other.0 }
    {
        Delta(wrapped_difference(self.0, other.0))
    }
}

/// The number source, which a host or a table holds where it stands: any `u32`.
#[repr(C)]
#[derive(Clone, Copy)]
pub struct SeqAlloc {
    pub next: u32,
}

impl SeqAlloc {
    pub fn new(next: Seq) -> SeqAlloc
        ensures { result.next ≡ next.0 }
    {
        SeqAlloc { next: next.0 }
    }

    /// Answers the next number and moves on by the count.
    pub fn alloc(&mut self, count: u32) -> Seq
        ensures next { self.new.next ≡ Num.add self.old.next count }
        ensures first { result.0 ≡ self.old.next }
    {
        let first = Seq(self.next);
        self.next = first.add(count).0;
        first
    }

    /// Moves to the number after `seq` where that compares Greater than the next.
    pub fn observe(&mut self, seq: Seq)
        ensures { self.new.next ≡ Num.observe_s self.old.next seq.0 }
    {
        let candidate = seq.add(1);
        match candidate.compare(Seq(self.next)) {
            Ordering::Greater => self.next = candidate.0,
            Ordering::Equal => {}
            Ordering::Less => {}
        }
    }
}

// The sum that the Rust's `update_prefix` writes. The letters are 01's and the Rust's.
pub fn prefix_sum(offset: u32, p0: u32, p1: u32) -> u32
    ensures { result ≡ prefix offset p0 p1 }
{
    let a = offset.wrapping_add(p0).wrapping_add(p1);
    let b = a << 13;
    let c = (b ^ a) >> 17;
    let y = c ^ b ^ a;
    y ^ (y << 5)
}
