//! Short scenes of packets off the reliable path: the groups that wait, and the bundles made. Each starts from a new channel and stands
//! at an edge of the rules. A scene writes one line: what was done, and after the colon what came of it.
#![tactic(auto)]

mod show;

ghost use Rattle.chan.specs.Channels.{IsOffData};

use chan::OffData;
use packet::{Packet, Refusal};
use print::{Answer, YesNo};
use show::Waiting;
use std::io;
use std::io::Write;

/// What is done to the channel.
#[derive(Clone, Copy)]
enum Step<'a> {
    /// A packet without a range comes: handle.
    Bare(u32),
    /// Packets without a range come, with the handles from the one on and below the other.
    Bares(u32, u32),
    /// A fragment of a range comes: number, first and last of the range, handle, time.
    Part(u32, [u32; 2], u32, u64),
    /// Ranges from these numbers to the next ones begin: the first fragment of each comes, with its number as handle.
    Begin(&'a [u32]),
    /// All fragments of a range come, each with its number as handle.
    Parts([u32; 2]),
    /// The next bundle is handed out.
    HandOut,
}

use Step::{Bare, Bares, Begin, HandOut, Part, Parts};

const TEN: Step<'static> = Part(10, [10, 12], 20, 5);

const FOUR: Step<'static> = Begin(&[10, 20, 30, 40]);

const SCENES: [(&str, &[Step<'static>]); 37] = [
    // Without a range a packet is a bundle of one; with a range it joins the group of its first number.
    ("a packet without a range", &[Bare(20)]),
    ("12 of the range 10 to 12", &[Part(12, [10, 12], 22, 5)]),
    (
        "10 after 12 of the range 10 to 12",
        &[Part(12, [10, 12], 22, 5), Part(10, [10, 12], 20, 6)],
    ),
    (
        "11 after 12 and 10 of the range 10 to 12",
        &[
            Part(12, [10, 12], 22, 5),
            Part(10, [10, 12], 20, 6),
            Part(11, [10, 12], 21, 7),
        ],
    ),
    // A range that wraps past 2^28.
    (
        "0 of the range 268435455 to 1",
        &[Part(0, [268435455, 1], 20, 0)],
    ),
    (
        "all of the range 268435455 to 1",
        &[
            Part(0, [268435455, 1], 20, 0),
            Part(268435455, [268435455, 1], 19, 0),
            Part(1, [268435455, 1], 21, 0),
        ],
    ),
    // The first fragment makes no bundle even where the range has length 1. Another copy replaces the one that is stored. The group's own
    // length counts.
    (
        "a first fragment of a range of length 1",
        &[Part(10, [10, 10], 20, 0)],
    ),
    (
        "a second copy in a range of length 1",
        &[Part(10, [10, 10], 20, 0), Part(10, [10, 10], 30, 1)],
    ),
    (
        "a fragment twice",
        &[Part(10, [10, 11], 20, 0), Part(10, [10, 11], 30, 1)],
    ),
    (
        "a fragment with another last",
        &[Part(10, [10, 11], 20, 0), Part(11, [10, 99], 21, 1)],
    ),
    // More than 10,000 ms after a group's last update a fragment is dropped, and the group stays.
    ("a group at 10000 ms", &[TEN, Part(11, [10, 12], 21, 10005)]),
    ("a group at 10001 ms", &[TEN, Part(11, [10, 12], 21, 10006)]),
    (
        "10000 ms after the update",
        &[
            TEN,
            Part(11, [10, 12], 21, 10005),
            Part(12, [10, 12], 22, 20005),
        ],
    ),
    (
        "10001 ms after the update",
        &[
            TEN,
            Part(11, [10, 12], 21, 10005),
            Part(12, [10, 12], 22, 20006),
        ],
    ),
    // Refusal 10, except at a stale group, and before 11 where the range is too long as well.
    (
        "a fragment beyond its group",
        &[Part(10, [10, 11], 20, 0), Part(12, [10, 12], 22, 0)],
    ),
    (
        "a fragment beyond its group at 10001 ms",
        &[Part(10, [10, 11], 20, 0), Part(12, [10, 12], 22, 10001)],
    ),
    ("a number outside its range", &[Part(12, [10, 11], 22, 0)]),
    (
        "a number outside its range of 33",
        &[Part(43, [10, 42], 22, 0)],
    ),
    ("a number before its range", &[Part(9, [10, 11], 22, 0)]),
    // 4 groups at most, and 10 before 11 where there are 4 already.
    ("4 groups", &[FOUR]),
    ("a 5th group", &[FOUR, Part(50, [50, 51], 50, 0)]),
    (
        "a 5th group, the number outside its range",
        &[FOUR, Part(52, [50, 51], 52, 0)],
    ),
    (
        "room freed by a full group",
        &[FOUR, Part(11, [10, 11], 11, 0), Part(50, [50, 51], 50, 0)],
    ),
    // A group has up to 32 places.
    ("one of 32 places", &[Part(0, [0, 31], 20, 0)]),
    ("one of 33 places", &[Part(0, [0, 32], 20, 0)]),
    ("one of the range 5 to 4", &[Part(5, [5, 4], 20, 0)]),
    // 16 bundles at most.
    ("16 bundles", &[Bares(0, 16)]),
    ("a 17th bundle", &[Bares(0, 16), Bare(16)]),
    (
        "a 17th bundle once one is handed out",
        &[Bares(0, 16), HandOut, Bare(16)],
    ),
    // They hold 64 handles in all at most.
    ("64 handles", &[Parts([0, 31]), Parts([32, 63])]),
    (
        "a 65th handle",
        &[Parts([0, 31]), Parts([32, 63]), Bare(64)],
    ),
    // 10 before 11 where there are 16 bundles already.
    (
        "a full group that finds 16 bundles",
        &[
            Bares(0, 16),
            Part(10, [10, 11], 20, 0),
            Part(11, [10, 11], 21, 0),
        ],
    ),
    (
        "beyond its group, with 16 bundles",
        &[
            Bares(0, 16),
            Part(10, [10, 11], 20, 0),
            Part(12, [10, 11], 21, 0),
        ],
    ),
    // The bundle that was made first is handed out first.
    ("two bundles", &[Parts([10, 12]), Bare(20)]),
    (
        "the first of two handed out",
        &[Parts([10, 12]), Bare(20), HandOut],
    ),
    (
        "both handed out",
        &[Parts([10, 12]), Bare(20), HandOut, HandOut],
    ),
    (
        "nothing left to hand out",
        &[Parts([10, 12]), Bare(20), HandOut, HandOut, HandOut],
    ),
];

// ---- what a scene does

fn bare(handle: u32) -> Packet {
    Packet {
        number: 0,
        handle,
        ranged: 0,
        first: 0,
        last: 0,
    }
}

fn part(number: u32, range: [u32; 2], handle: u32) -> Packet {
    Packet {
        number,
        handle,
        ranged: 1,
        first: range[0],
        last: range[1],
    }
}

/// Does a step.
#[tactic(auto, using(print::proofs::Fronts::front_fits))]
fn act(d: &mut OffData, step: Step) -> Result<(), Refusal>
    requires { IsOffData d.old }
    ensures { IsOffData d.new }
{
    match step {
        Bare(handle) => d.add_in_packet(0, bare(handle))?,
        Bares(from, to) => {
            for handle in from..to {
                d.add_in_packet(0, bare(handle))?;
            }
        }
        Part(number, range, handle, time) => d.add_in_packet(time, part(number, range, handle))?,
        Begin(firsts) => {
            for first in firsts {
                d.add_in_packet(0, part(*first, [*first, first.wrapping_add(1)], *first))?;
            }
        }
        Parts(range) => {
            for number in range[0]..=range[1] {
                d.add_in_packet(0, part(number, range, number))?;
            }
        }
        HandOut => d.bundles.pop_front(&mut [0; 64]),
    }
    Ok(())
}

/// What comes of these steps, the last of them refused or not.
fn play(steps: &[Step]) -> (OffData, Result<(), Refusal>)
    ensures { IsOffData result.0 }
{
    let mut d = OffData::new();
    let mut last = Ok(());
    for step in steps {
        last = act(&mut d, *step);
    }
    (d, last)
}

// ---- what a scene shows

fn write_scene<W: Write>(out: &mut W, name: &str, steps: &[Step]) -> io::Result<()> {
    let (d, last) = play(steps);
    write!(
        out,
        "{name}: {} groups{}",
        Answer(last),
        Waiting(d.groups.as_slice())
    )?;
    print::all_bundles(out, &d.bundles)?;
    writeln!(out)
}

/// A handle is held in a group, and in a bundle not yet handed out.
fn write_held<W: Write>(out: &mut W) -> io::Result<()> {
    let (d, _) = play(&[Bare(20), Part(10, [10, 11], 21, 0)]);
    write!(out, "handles of a bundle of 20 and a group of 21: holds")?;
    for handle in [20, 21, 0] {
        let held = d.groups.holds(handle) || d.bundles.holds(handle);
        write!(out, " {handle} {}", YesNo(held))?;
    }
    writeln!(out)
}

/// Each group's last update is not after the latest time; the lengths of the bundles are those of the handles.
fn write_tests<W: Write>(out: &mut W) -> io::Result<()> {
    let (mut d, _) = play(&[Part(10, [10, 11], 20, 5)]);
    print::test(
        out,
        b"a group updated at the latest time:",
        d.groups.is_well_formed(5),
    )?;
    print::test(
        out,
        b"a group updated after the latest time:",
        d.groups.is_well_formed(4),
    )?;
    d.bundles.total = 1;
    print::test(out, b"a handle of no bundle:", d.bundles.is_well_formed())
}

fn main(rt: HostRuntime) -> io::Result<()> {
    let mut out = rt.stdout();
    for (name, steps) in SCENES {
        write_scene(&mut out, name, steps)?;
    }
    write_held(&mut out)?;
    write_tests(&mut out)?;
    out.flush()
}
