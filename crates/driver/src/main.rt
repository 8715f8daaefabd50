// The driver (01, "The driver"): a script on standard input, its answers on standard output.
#![tactic(auto)]

ghost use Rattle.std.specs.Prelude.{◌≤◌, ◌<◌, length, take, IfOk, IfSome, OnOk};
ghost use Rattle.std.specs.Io.KnownBytes.{Appends, Consumes, IsAtEnd};
ghost use Rattle.script.specs.Input.{run_of};

use script::Relay;
use std::io;
use std::io::{Read, Write};

// Reads into the buffer from its beginning on, until it is full or the input ends, and says how much.
fn read_full<R: Read>(from: &mut R, buf: &mut [u8]) -> io::Result<usize>
    ensures within { IfOk result (λ n. n ≤ length buf.new) }
    ensures bytes { IfOk result (λ n. Consumes (R.remaining from.old) (R.remaining from.new) (take n buf.new)) }
    ensures end { IfOk result (λ n. n < length buf.new → IsAtEnd (R.remaining from.new)) }
{
    let mut done = 0;
    while done < buf.len() {
        let n = from.read(&mut buf[done..])?;
        if n == 0 {
            break;
        }
        done += n;
    }
    Ok(done)
}

// The answers go out a buffer at a time, in order.
fn answer<W: Write>(to: &mut W, input: &[u8]) -> io::Result<()>
    requires { length input.now ≤ 60000 }
    ensures { OnOk result (Appends (W.contents to.old) (W.contents to.new) (run_of input.now)) }
{
    let mut out = [0u8; 65_536];
    let mut relay = Relay::new();
    let mut at = 0;
    while at < input.len() {
        let r = relay.run(input, at, &mut out);
        let n = r.len;
        to.write_all(&out[..n])?;
        at = r.at;
    }
    Ok(())
}

// "Standard input, read up to 60,000 bytes"
fn drive<R: Read, W: Write>(from: &mut R, to: &mut W) -> io::Result<()>
    ensures { OnOk result (IfSome (R.remaining from.old) (λ xs. Appends (W.contents to.old) (W.contents to.new) (run_of xs))) }
{
    let mut input = [0u8; 60_000];
    let n = read_full(from, &mut input)?;
    answer(to, &input[..n])
}

fn main(rt: HostRuntime) -> io::Result<()> {
    drive(&mut rt.stdin(), &mut rt.stdout())
}
