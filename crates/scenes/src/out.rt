//! Scenes of the out list: reliable packets sent and not yet acknowledged.

ghost use Rattle.std.specs.Prelude.{◌≤◌};
ghost use Rattle.queues.specs.Out.{IsOutList};

use list::Full;
use packet::OutEntry;
use print::{After, YesNo};
use queues::OutList;
use queues::out_list::Clock;
use std::io::Write;
use std::{fmt, io};

/// What is done to the list.
#[derive(Clone, Copy)]
enum Step<'a> {
    /// Packets 0, 1, .. below the count are sent at time 0, each with its number as handle.
    SendBelow(u32),
    /// A packet is sent: number, handle, time.
    Send(u32, u32, u64),
    /// Packets of these numbers are forwarded at time 0.
    Forward(&'a [u32]),
    /// A packet is forwarded: number, time.
    ForwardAt(u32, u64),
    /// Single acks come.
    Ack(&'a [u32]),
    /// A cumulative ack comes.
    AckTo(u32),
    /// Packets that are due are sent again: time, timeout, age at which they are given up.
    Resend(u64, u64, u64),
}

/// What is shown of the list.
#[derive(Clone, Copy)]
enum Shown {
    Numbers,
    /// The entries whole.
    Entries,
    /// Whether there was room at the last step, and the numbers after it.
    Room,
    /// How many packets are due, their handles, and the entries that are left: time, timeout, age at which they are given up.
    Due(u64, u64, u64),
}

use Shown::{Due, Entries, Numbers, Room};
use Step::{Ack, AckTo, Forward, ForwardAt, Resend, Send, SendBelow};

const SENT: Step<'static> = Send(0, 20, 10);

const SENT_AGAIN: Step<'static> = Resend(60, 50, 1_000_000);

const SCENES: [(&str, &[Step<'static>], Shown); 31] = [
    // 32 entries at most. Freed room is used again.
    ("32 out entries", &[SendBelow(32)], Numbers),
    ("a 33rd out entry", &[SendBelow(32), Forward(&[32])], Room),
    (
        "a repeat at 32 out entries",
        &[SendBelow(32), Forward(&[31])],
        Room,
    ),
    (
        "room freed by a single ack",
        &[SendBelow(32), Ack(&[5]), Forward(&[32])],
        Room,
    ),
    // A cumulative ack removes entries until one that it compares Less or Equal to.
    (
        "cumulative 3 on 1 2 3 5",
        &[Forward(&[1, 2, 3, 5]), AckTo(3)],
        Numbers,
    ),
    (
        "cumulative 1 on 1 2",
        &[Forward(&[1, 2]), AckTo(1)],
        Numbers,
    ),
    (
        "cumulative 9 on 1 2",
        &[Forward(&[1, 2]), AckTo(9)],
        Numbers,
    ),
    (
        "cumulative 0 across the wrap",
        &[Forward(&[268435454, 268435455, 0, 1]), AckTo(0)],
        Numbers,
    ),
    (
        "cumulative 3 on 5 0 1",
        &[Forward(&[5]), Send(0, 20, 0), Send(1, 21, 0), AckTo(3)],
        Numbers,
    ),
    // At a distance of 2^27 both directions are Greater.
    (
        "cumulative 0 on 134217728",
        &[Forward(&[134217728]), AckTo(0)],
        Numbers,
    ),
    (
        "cumulative 0 on 134217727",
        &[Forward(&[134217727]), AckTo(0)],
        Numbers,
    ),
    (
        "cumulative 134217728 on 0",
        &[Forward(&[0]), AckTo(134217728)],
        Numbers,
    ),
    (
        "cumulative 134217729 on 0",
        &[Forward(&[0]), AckTo(134217729)],
        Numbers,
    ),
    // Each single ack removes the first entry with that number.
    (
        "single acks 2 9 5 on 1 2 3 5",
        &[Forward(&[1, 2, 3, 5]), Ack(&[2, 9, 5])],
        Numbers,
    ),
    (
        "the number 0 twice",
        &[Forward(&[0]), Send(0, 20, 0)],
        Entries,
    ),
    (
        "single ack 0 of the number 0 twice",
        &[Forward(&[0]), Send(0, 20, 0), Ack(&[0])],
        Entries,
    ),
    // The search from the end: after the last, in the middle, in front, across the wrap, and at half the numbers.
    ("forwarded 3 into 1 5", &[Forward(&[1, 5, 3])], Numbers),
    ("forwarded 1 into 3 5", &[Forward(&[3, 5, 1])], Numbers),
    ("forwarded 7 into 3 5", &[Forward(&[3, 5, 7])], Numbers),
    (
        "forwarded 0 into 268435455 1",
        &[Forward(&[268435455, 1, 0])],
        Numbers,
    ),
    (
        "forwarded 0 into 134217728",
        &[Forward(&[134217728, 0])],
        Numbers,
    ),
    (
        "forwarded 134217728 into 0",
        &[Forward(&[0, 134217728])],
        Numbers,
    ),
    // Where the number is there already, its entry stays as it was.
    (
        "forwarded 1 again into 1 3",
        &[Forward(&[1, 3]), ForwardAt(1, 5)],
        Entries,
    ),
    // A packet is due where the time since it was last sent is at least the timeout; it is then last sent now.
    ("a resend at its timeout", &[SENT], Due(60, 50, 100)),
    ("a resend one below its timeout", &[SENT], Due(59, 50, 100)),
    (
        "a second resend at its timeout",
        &[SENT, SENT_AGAIN],
        Due(110, 50, 200),
    ),
    (
        "a second resend one below its timeout",
        &[SENT, SENT_AGAIN],
        Due(109, 50, 200),
    ),
    // An entry whose age is not below the limit is given up.
    ("given up at its age", &[SENT], Due(110, 50, 100)),
    ("one below its age", &[SENT], Due(109, 50, 100)),
    (
        "one of two given up",
        &[SENT, Send(1, 21, 60)],
        Due(110, 50, 100),
    ),
    // A forwarded packet has no handle.
    (
        "forwarded packets are not sent again",
        &[Forward(&[1, 2])],
        Due(60, 50, 100),
    ),
];

// ---- what a scene does

fn sent(number: u32, handle: u32, time: u64) -> OutEntry {
    OutEntry {
        time,
        sent: time,
        number,
        held: 1,
        handle,
    }
}

fn forwarded(number: u32, time: u64) -> OutEntry {
    OutEntry {
        time,
        sent: time,
        number,
        held: 0,
        handle: 0,
    }
}

fn clock(time: u64, timeout: u64, give_up: u64) -> Clock {
    Clock {
        time,
        timeout,
        give_up,
    }
}

/// Sends again what is due, writes the rows to the front of the lent list, and answers where they end.
#[tactic(auto, using(crate::proofs::Rows::rows_few))]
fn resend(o: &mut OutList, clock: Clock, rows: &mut [u32; 64]) -> usize
    requires { IsOutList o.old }
    ensures list { IsOutList o.new }
    ensures end { result ≤ 64 }
{
    o.resend(7, clock, rows, 0)
}

/// Does a step. An `Err` says that there was no room.
fn act(o: &mut OutList, step: Step) -> Result<(), Full>
    requires { IsOutList o.old }
    ensures { IsOutList o.new }
{
    match step {
        SendBelow(count) => {
            for k in 0..count {
                o.push(sent(k, k, 0))?;
            }
        }
        Send(number, handle, time) => o.push(sent(number, handle, time))?,
        Forward(numbers) => {
            for number in numbers {
                o.insert(forwarded(*number, 0))?;
            }
        }
        ForwardAt(number, time) => o.insert(forwarded(number, time))?,
        Ack(numbers) => o.ack_singles(numbers),
        AckTo(number) => o.ack_cumulative(number),
        Resend(time, timeout, give_up) => {
            resend(o, clock(time, timeout, give_up), &mut [0; 64]);
        }
    }
    Ok(())
}

// ---- what a scene shows

/// The numbers of the entries.
#[derive(Clone, Copy)]
struct NumbersOf<'a>(&'a [OutEntry]);

/// The entries whole: number, handle or -, time, last sent.
#[derive(Clone, Copy)]
struct Whole<'a>(&'a [OutEntry]);

/// The handles of rows, each of which is an address and a handle.
#[derive(Clone, Copy)]
struct HandlesOf<'a>(&'a [u32]);

impl fmt::Display for NumbersOf<'_> {
    fn fmt<W: fmt::Write>(&self, f: &mut fmt::Formatter<W>) -> fmt::Result {
        for e in self.0 {
            write!(f, " {}", e.number)?;
        }
        Ok(())
    }
}

impl fmt::Display for Whole<'_> {
    fn fmt<W: fmt::Write>(&self, f: &mut fmt::Formatter<W>) -> fmt::Result {
        for e in self.0 {
            write!(f, " {}", e.number)?;
            if e.held == 1 {
                write!(f, "{}", After(e.handle.into()))?;
            } else {
                f.write_str(",-")?;
            }
            write!(f, "{}{}", After(e.time), After(e.sent))?;
        }
        Ok(())
    }
}

impl fmt::Display for HandlesOf<'_> {
    fn fmt<W: fmt::Write>(&self, f: &mut fmt::Formatter<W>) -> fmt::Result {
        for handle in self.0.iter().skip(1).step_by(2) {
            write!(f, " {handle}")?;
        }
        Ok(())
    }
}

fn write_scene<W: Write>(out: &mut W, name: &str, steps: &[Step], shown: Shown) -> io::Result<()> {
    let mut o = OutList::new();
    let mut last = Ok(());
    for step in steps {
        last = act(&mut o, *step);
    }
    write!(out, "{name}:")?;
    match shown {
        Numbers => {}
        Entries => return writeln!(out, " out{}", Whole(o.as_slice())),
        Room => write!(out, " room {}", YesNo(last.is_ok()))?,
        Due(time, timeout, give_up) => {
            let clock = clock(time, timeout, give_up);
            let mut rows = [0; 64];
            let count = o.count_due(clock);
            let end = resend(&mut o, clock, &mut rows);
            write!(out, " rows {count} |{} |", HandlesOf(&rows[..end]))?;
            return writeln!(out, " out{}", Whole(o.as_slice()));
        }
    }
    writeln!(out, " out{}", NumbersOf(o.as_slice()))
}

// ---- the scenes that ask the list

/// What has no handle holds none, not even the handle 0.
fn write_held<W: Write>(out: &mut W) -> io::Result<()> {
    let mut o = OutList::new();
    let _ = act(&mut o, Forward(&[3]));
    let _ = act(&mut o, Send(0, 20, 0));
    write!(out, "handles held by 3 forwarded and 0 sent: holds")?;
    for handle in [20, 0] {
        write!(out, " {handle} {}", YesNo(o.holds(handle)))?;
    }
    writeln!(out)
}

/// Each entry's time is not after the time it was last sent, that not after the latest time, and unused places are zero.
fn write_tests<W: Write>(out: &mut W) -> io::Result<()> {
    let mut o = OutList::new();
    let _ = act(&mut o, SENT);
    print::test(
        out,
        b"a sent packet at the latest time:",
        o.is_well_formed(10),
    )?;
    print::test(
        out,
        b"a sent packet after the latest time:",
        o.is_well_formed(9),
    )?;
    let mut stale = OutList::new();
    stale.entries[0] = forwarded(1, 0);
    print::test(out, b"an entry past the count:", stale.is_well_formed(10))
}

pub fn write_all<W: Write>(out: &mut W) -> io::Result<()> {
    for (name, steps, shown) in SCENES {
        write_scene(out, name, steps, shown)?;
    }
    write_held(out)?;
    write_tests(out)
}
