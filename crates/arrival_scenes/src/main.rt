//! Short scenes of reliable packets on an on-channel: the expected number, the buffer, the contiguous queue, and the bundles made. Each
//! starts from a new channel and stands at an edge of the rules. A scene writes one line: what was done, and after the colon what came
//! of it.
#![tactic(auto)]

ghost use Rattle.chan.specs.Channels.{IsOnChannel};

use chan::OnChannel;
use list::Full;
use packet::{Packet, Refusal};
use print::{After, Answer, YesNo};
use std::io::Write;
use std::{fmt, io};

/// What is done to the channel, which expects 0 at first.
#[derive(Clone, Copy)]
enum Step {
    /// The channel expects this number.
    Expect(u32),
    /// A packet without a range comes: number, handle.
    Bare(u32, u32),
    /// Packets without a range come, of the numbers from the one on and below the other, each with its number as handle.
    Bares(u32, u32),
    /// A packet of a range comes, with its number as handle: number, first and last of the range.
    Part(u32, [u32; 2]),
    /// Packets of a range come, of the numbers from the one on and below the other, each with its number as handle.
    Parts(u32, u32, [u32; 2]),
}

use Step::{Bare, Bares, Expect, Part, Parts};

const SCENES: [(&str, &[Step]); 37] = [
    // The expected packet joins the queue, and the next is expected. A packet before it is dropped.
    ("0 and 1 in order", &[Bares(0, 2)]),
    ("0 again after 0 and 1", &[Bares(0, 2), Bare(0, 30)]),
    // A packet after the expected one is searched for in the buffer from its end: where it is there it is dropped, else it goes after the
    // first that it compares Greater to, or in front.
    (
        "3 into the buffer 1 5",
        &[Bare(1, 21), Bare(5, 25), Bare(3, 23)],
    ),
    (
        "1 into the buffer 3 5",
        &[Bare(3, 23), Bare(5, 25), Bare(1, 21)],
    ),
    (
        "7 into the buffer 3 5",
        &[Bare(3, 23), Bare(5, 25), Bare(7, 27)],
    ),
    (
        "3 again into the buffer 3 5",
        &[Bare(3, 23), Bare(5, 25), Bare(3, 33)],
    ),
    (
        "0 before the buffer 1 2 4",
        &[Bares(1, 3), Bare(4, 4), Bare(0, 0)],
    ),
    // A number 2^27 ahead is still Greater, the next one is Less.
    ("134217728 where 0 is expected", &[Bare(134217728, 20)]),
    ("134217729 where 0 is expected", &[Bare(134217729, 20)]),
    (
        "1 into the buffer 134217728",
        &[Bare(134217728, 20), Bare(1, 21)],
    ),
    // 32 buffered at most; a repeat takes no place.
    ("32 buffered", &[Bares(1, 33)]),
    ("a 33rd buffered", &[Bares(1, 33), Bare(33, 33)]),
    ("a repeat at 32 buffered", &[Bares(1, 33), Bare(32, 99)]),
    // 32 contiguous at most, in the state after the whole rule: 33 that become one bundle are fine.
    ("32 contiguous of a range of 33", &[Parts(0, 32, [0, 32])]),
    (
        "33 contiguous that become one bundle",
        &[Parts(0, 33, [0, 32])],
    ),
    ("33 contiguous of a range of 34", &[Parts(0, 33, [0, 33])]),
    // Packets that share a range become a bundle once all of it are there.
    ("0 to 2 of one range", &[Parts(0, 3, [0, 2])]),
    (
        "0 after 2 and 1 of one range",
        &[Part(2, [0, 2]), Part(1, [0, 2]), Part(0, [0, 2])],
    ),
    ("a reliable range of length 1", &[Part(0, [0, 0])]),
    (
        "a range of 2 and one packet",
        &[Parts(0, 2, [0, 1]), Bare(2, 2)],
    ),
    // While fewer than the range's wait, all wait.
    ("an incomplete front", &[Parts(0, 2, [0, 3])]),
    (
        "an incomplete front with another behind it",
        &[Parts(0, 2, [0, 3]), Bare(2, 2)],
    ),
    // Where they do not share the range they are dropped.
    ("an incoherent range", &[Part(0, [0, 1]), Part(1, [1, 2])]),
    (
        "a packet after an incoherent range",
        &[Part(0, [0, 1]), Part(1, [1, 2]), Bare(2, 2)],
    ),
    // So they are where one has no range; the original panics there.
    ("a run with a bare packet", &[Part(0, [0, 1]), Bare(1, 1)]),
    (
        "a packet after a run with a bare packet",
        &[Part(0, [0, 1]), Bare(1, 1), Bare(2, 2)],
    ),
    // A packet in front whose number is not its range's first is dropped.
    ("a wrong first", &[Part(0, [5, 6])]),
    (
        "a packet after a wrong first",
        &[Part(0, [5, 6]), Bare(1, 1)],
    ),
    // Numbers and ranges that wrap past 2^28.
    (
        "268435455 where it is expected",
        &[Expect(268435455), Bare(268435455, 20)],
    ),
    (
        "the first of the range 268435455 to 0",
        &[Expect(268435455), Part(268435455, [268435455, 0])],
    ),
    (
        "both of the range 268435455 to 0",
        &[
            Expect(268435455),
            Part(268435455, [268435455, 0]),
            Part(0, [268435455, 0]),
        ],
    ),
    (
        "268435455 before the buffer 0",
        &[Expect(268435455), Bare(0, 21), Bare(268435455, 20)],
    ),
    // 16 bundles at most: a gap whose filling would make 17 is not filled.
    (
        "16 bundles from one filled gap",
        &[Bares(1, 16), Bare(0, 0)],
    ),
    (
        "17 bundles from one filled gap",
        &[Bares(1, 17), Bare(0, 0)],
    ),
    ("a 17th packet in order", &[Bares(0, 17)]),
    // They hold 64 handles in all at most.
    (
        "64 handles in two bundles",
        &[Parts(0, 32, [0, 31]), Parts(32, 64, [32, 63])],
    ),
    (
        "a 65th handle in order",
        &[Parts(0, 32, [0, 31]), Parts(32, 64, [32, 63]), Bare(64, 64)],
    ),
];

// ---- what a scene does

fn bare(number: u32, handle: u32) -> Packet {
    Packet {
        number,
        handle,
        ranged: 0,
        first: 0,
        last: 0,
    }
}

fn part(number: u32, range: [u32; 2]) -> Packet {
    Packet {
        number,
        handle: number,
        ranged: 1,
        first: range[0],
        last: range[1],
    }
}

/// Does a step. An `Err` says that there was no room.
fn act(c: &mut OnChannel, step: Step) -> Result<(), Full>
    requires { IsOnChannel c.old }
    ensures { IsOnChannel c.new }
{
    match step {
        Expect(number) => c.expected = number,
        Bare(number, handle) => c.add_in_reliable_packet(bare(number, handle))?,
        Bares(from, to) => {
            for number in from..to {
                c.add_in_reliable_packet(bare(number, number))?;
            }
        }
        Part(number, range) => c.add_in_reliable_packet(part(number, range))?,
        Parts(from, to, range) => {
            for number in from..to {
                c.add_in_reliable_packet(part(number, range))?;
            }
        }
    }
    Ok(())
}

/// What comes of these steps, the last of them refused or not.
fn play(steps: &[Step]) -> (OnChannel, Result<(), Full>)
    ensures { IsOnChannel result.0 }
{
    let mut c = OnChannel::new(7, 0, 0);
    let mut last = Ok(());
    for step in steps {
        last = act(&mut c, *step);
    }
    (c, last)
}

// ---- what a scene shows

/// Packets: number, handle, and first..last or -.
#[derive(Clone, Copy)]
struct Packets<'a>(&'a [Packet]);

impl fmt::Display for Packets<'_> {
    fn fmt<W: fmt::Write>(&self, f: &mut fmt::Formatter<W>) -> fmt::Result {
        for p in self.0 {
            write!(f, " {}{}", p.number, After(p.handle.into()))?;
            if p.ranged == 1 {
                write!(f, "{}..{}", After(p.first.into()), p.last)?;
            } else {
                f.write_str(",-")?;
            }
        }
        Ok(())
    }
}

fn write_scene<W: Write>(out: &mut W, name: &str, steps: &[Step]) -> io::Result<()> {
    let (c, last) = play(steps);
    let answer = Answer(last.map_err(Refusal::from));
    write!(out, "{name}: {answer} expected {}", c.expected)?;
    write!(out, " buffer{}", Packets(c.buffer.as_slice()))?;
    write!(out, " queue{}", Packets(c.queue.as_slice()))?;
    print::all_bundles(out, &c.off.bundles)?;
    writeln!(out)
}

/// A handle is held in the buffer, in the contiguous queue, and in a bundle not yet handed out.
fn write_held<W: Write>(out: &mut W) -> io::Result<()> {
    let (c, _) = play(&[Bare(0, 20), Part(1, [1, 2]), Bare(3, 23)]);
    write!(out, "handles of bundle 20, queue 1 and buffer 23: holds")?;
    for handle in [20, 1, 23, 0] {
        let held = c.buffer.holds(handle) || c.queue.holds(handle) || c.off.bundles.holds(handle);
        write!(out, " {handle} {}", YesNo(held))?;
    }
    writeln!(out)
}

/// The buffer's distances from the expected number rise; the queue is consecutive and ends right before it.
fn write_tests<W: Write>(out: &mut W) -> io::Result<()> {
    let (c, _) = play(&[Bare(3, 23), Bare(5, 25)]);
    print::test(
        out,
        b"a buffer 3 5 where 2 is expected:",
        c.buffer.is_buffer(2),
    )?;
    print::test(
        out,
        b"a buffer 3 5 where 3 is expected:",
        c.buffer.is_buffer(3),
    )?;
    let (c, _) = play(&[Parts(0, 2, [0, 3])]);
    print::test(
        out,
        b"a queue 0 1 where 2 is expected:",
        c.queue.is_queue(2),
    )?;
    print::test(
        out,
        b"a queue 0 1 where 3 is expected:",
        c.queue.is_queue(3),
    )
}

fn main(rt: HostRuntime) -> io::Result<()> {
    let mut out = rt.stdout();
    for (name, steps) in SCENES {
        write_scene(&mut out, name, steps)?;
    }
    write_held(&mut out)?;
    write_tests(&mut out)?;
    out.flush()
}
