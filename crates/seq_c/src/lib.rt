//! The number functions and the number source for a host, exported to C: every `u32` is taken, and a sequence number that is not legal is
//! answered by 2^31 and 2.
#![tactic(auto)]

ghost use Rattle.std.specs.Prelude.{◌≡◌};
ghost use Rattle.seq_c.specs.Host.{order_number, host_compare, host_add, host_sub, host_distance};
ghost use Rattle.seq.specs.Num as Num;
ghost use Rattle.seq.specs.Prefix.{prefix};

use seq::{Seq, SeqAlloc};
use std::cmp::Ordering;

const ILLEGAL: u32 = 0x8000_0002;

// The number of each case.
fn order_number(o: Ordering) -> u32
    ensures { result ≡ order_number o }
{
    match o {
        Ordering::Equal => 0,
        Ordering::Greater => 1,
        Ordering::Less => 2,
    }
}

#[unsafe(no_mangle)]
pub extern "C" fn relay_seq_compare(a: u32, b: u32) -> u32
    ensures { result ≡ host_compare a b }
{
    if !seq::legal(a) {
        return ILLEGAL;
    }
    if !seq::legal(b) {
        return ILLEGAL;
    }
    order_number(Seq(a).compare(Seq(b)))
}

#[unsafe(no_mangle)]
pub extern "C" fn relay_seq_add(a: u32, n: u32) -> u32
    ensures { result ≡ host_add a n }
{
    if !seq::legal(a) {
        return ILLEGAL;
    }
    let sum = Seq(a).add(n);
    sum.0
}

#[unsafe(no_mangle)]
pub extern "C" fn relay_seq_sub(a: u32, n: u32) -> u32
    ensures { result ≡ host_sub a n }
{
    if !seq::legal(a) {
        return ILLEGAL;
    }
    let rest = Seq(a).sub(n);
    rest.0
}

#[unsafe(no_mangle)]
pub extern "C" fn relay_seq_distance(a: u32, b: u32) -> u32
    ensures { result ≡ host_distance a b }
{
    if !seq::legal(a) {
        return ILLEGAL;
    }
    if !seq::legal(b) {
        return ILLEGAL;
    }
    let distance = Seq(a).distance(Seq(b));
    distance.0
}

#[unsafe(no_mangle)]
pub extern "C" fn relay_prefix_sum(offset: u32, p0: u32, p1: u32) -> u32
    ensures { result ≡ prefix offset p0 p1 }
{
    seq::prefix_sum(offset, p0, p1)
}

/// Answers the next number of the source and moves it on by the count.
#[unsafe(no_mangle)]
pub extern "C" fn relay_alloc(a: &mut SeqAlloc, count: u32) -> u32
    ensures { (a.new.next ≡ Num.add a.old.next count) × (result ≡ a.old.next) }
{
    a.alloc(count).0
}

/// Moves the source to the number after `num` where that compares Greater than the next.
#[unsafe(no_mangle)]
pub extern "C" fn relay_observe(a: &mut SeqAlloc, num: u32)
    ensures { a.new.next ≡ Num.observe_s a.old.next num }
{
    a.observe(Seq(num));
}
