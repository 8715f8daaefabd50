//! A long history over every call from a new table that forwards: each step writes a line with the answer and the sum of the table after
//! it. At the end the table is made malformed, and every call is tried on it.
#![tactic(auto)]

mod draw;
mod play;
mod sum;

use draw::Step;
use std::io;
use std::io::Write;
use tab::Table;

const STEPS: u32 = 2000;

fn stepped<W: Write>(out: &mut W, t: &mut Table, step: Step, kind: u32) -> io::Result<()> {
    write!(out, "{} ", step.0)?;
    play::call(out, t, step, kind)?;
    writeln!(out, " sum {}", sum::of(t))
}

fn main(rt: HostRuntime) -> io::Result<()> {
    let mut out = rt.stdout();
    let mut t = Table::new(true);
    for number in 0..STEPS {
        let step = Step(number);
        stepped(&mut out, &mut t, step, step.kind())?;
    }
    t.oncount = u32::MAX;
    for kind in 0..100 {
        stepped(&mut out, &mut t, Step(STEPS), kind)?;
    }
    out.flush()
}
