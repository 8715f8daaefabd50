//! Short scenes over a channel's out list and ack queue, each from a new list and each at an edge of the rules. A scene writes one line:
//! what was done, and after the colon what came of it.
#![tactic(auto)]

mod acks;
mod out;

use std::io;
use std::io::Write;

fn main(rt: HostRuntime) -> io::Result<()> {
    let mut out = rt.stdout();
    out::write_all(&mut out)?;
    acks::write_all(&mut out)?;
    out.flush()
}
