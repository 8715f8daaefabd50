// What the sequence numbers do at their edges: the rows of 01's "Proved table" that speak of
// numbers, computed by the crate `seq` and written one to a line.
#![tactic(auto)]

use seq::{Seq, SeqAlloc};
use std::cmp::Ordering;
use std::io;
use std::io::Write;

fn digit(n: u32) -> u8 {
    let d = n % 16;
    if d < 10 {
        return b'0' + (d as u8);
    }
    b'a' + (d as u8 - 10)
}

// A number, in eight hexadecimal digits.
fn number<W: Write>(out: &mut W, n: u32) -> io::Result<()> {
    let text = [
        digit(n >> 28),
        digit(n >> 24),
        digit(n >> 20),
        digit(n >> 16),
        digit(n >> 12),
        digit(n >> 8),
        digit(n >> 4),
        digit(n),
    ];
    out.write_all(b" = 0x")?;
    out.write_all(&text)?;
    out.write_all(b"\n")
}

fn order<W: Write>(out: &mut W, o: Ordering) -> io::Result<()> {
    match o {
        Ordering::Less => out.write_all(b" = Less\n"),
        Ordering::Equal => out.write_all(b" = Equal\n"),
        Ordering::Greater => out.write_all(b" = Greater\n"),
    }
}

fn numbers<W: Write>(out: &mut W) -> io::Result<()> {
    out.write_all(b"0 - 1")?;
    number(out, Seq(0).sub(1).get())?;
    out.write_all(b"0 against 0x08000000")?;
    order(out, Seq(0).compare(Seq(0x0800_0000)))?;
    out.write_all(b"0x08000000 against 0")?;
    order(out, Seq(0x0800_0000).compare(Seq(0)))
}

fn source<W: Write>(out: &mut W) -> io::Result<()> {
    let mut a = SeqAlloc::new(Seq(0x0FFF_FFFE));
    let first = a.alloc(4);
    out.write_all(b"alloc 4 at 0x0ffffffe answers")?;
    number(out, first.get())?;
    out.write_all(b"alloc 4 at 0x0ffffffe leaves")?;
    number(out, a.next)?;
    let mut stayed = SeqAlloc::new(Seq(5));
    stayed.observe(Seq(0x0FFF_FFFF));
    out.write_all(b"observe 0x0fffffff at 5 leaves")?;
    number(out, stayed.next)
}

fn main(rt: HostRuntime) -> io::Result<()> {
    let mut out = rt.stdout();
    numbers(&mut out)?;
    source(&mut out)?;
    out.write_all(b"prefix sum for a = 1")?;
    number(&mut out, seq::prefix_sum(1, 0, 0))?;
    out.flush()
}
