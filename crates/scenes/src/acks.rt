//! Scenes of the ack queue: numbers received and not yet acknowledged.

ghost use Rattle.queues.specs.Acks.{IsAckQueue};

use print::{Words, YesNo};
use queues::AckQueue;
use std::io;
use std::io::Write;

/// What is done to the queue. A number that finds no room does not join.
#[derive(Clone, Copy)]
enum Step<'a> {
    /// The numbers 0, 1, .. below the count are received.
    ReceiveBelow(u32),
    /// These are received.
    Receive(&'a [u32]),
    /// Single acks are forwarded.
    Ack(&'a [u32]),
    /// A cumulative ack is forwarded.
    AckTo(u32),
    /// Acks of these numbers were written.
    Written(&'a [u32]),
}

use Step::{Ack, AckTo, Receive, ReceiveBelow, Written};

const QUEUE: Step<'static> = Receive(&[4, 7, 9, 6]);

const SCENES: [(&str, &[Step<'static>]); 14] = [
    // 64 acks at most. A number joins at the end, a repeat too.
    ("64 acks", &[ReceiveBelow(64)]),
    ("a 65th ack", &[ReceiveBelow(64), Receive(&[64])]),
    ("the same number twice", &[Receive(&[5, 5])]),
    // Each single ack removes its first match, and the last number takes its place.
    ("forwarded ack 7 on 4 7 9 6", &[QUEUE, Ack(&[7])]),
    ("forwarded ack 6 on 4 7 9 6", &[QUEUE, Ack(&[6])]),
    ("forwarded ack 5 on 4 7 9 6", &[QUEUE, Ack(&[5])]),
    ("forwarded acks 4 9 on 4 7 9 6", &[QUEUE, Ack(&[4, 9])]),
    // A cumulative ack keeps numbers that compare Greater or Equal to it.
    (
        "forwarded cumulative 5 on 3 5 7 4 5",
        &[Receive(&[3, 5, 7, 4, 5]), AckTo(5)],
    ),
    (
        "forwarded cumulative 0 across the wrap",
        &[Receive(&[268435454, 1, 268435455, 0]), AckTo(0)],
    ),
    (
        "forwarded cumulative 0 on 134217728 134217729",
        &[Receive(&[134217728, 134217729]), AckTo(0)],
    ),
    // Names leave the queue, each at its earliest place; if one is lacking, none does.
    (
        "written 5 5 on 5 5 6",
        &[Receive(&[5, 5, 6]), Written(&[5, 5])],
    ),
    ("written 5 5 on 5 6", &[Receive(&[5, 6]), Written(&[5, 5])]),
    ("written 5 7 on 5 6", &[Receive(&[5, 6]), Written(&[5, 7])]),
    (
        "written 6 4 on 4 5 6 4",
        &[Receive(&[4, 5, 6, 4]), Written(&[6, 4])],
    ),
];

/// Does a step, and answers whether all names were there, where some are written.
fn act(q: &mut AckQueue, step: Step) -> Option<bool>
    requires { IsAckQueue q.old }
    ensures { IsAckQueue q.new }
{
    match step {
        ReceiveBelow(count) => {
            for k in 0..count {
                let _ = q.push(k);
            }
            None
        }
        Receive(numbers) => {
            for number in numbers {
                let _ = q.push(*number);
            }
            None
        }
        Ack(numbers) => {
            q.ack_singles(numbers);
            None
        }
        AckTo(number) => {
            q.ack_cumulative(number);
            None
        }
        Written(names) => Some(q.take_written(names).is_ok()),
    }
}

fn write_scene<W: Write>(out: &mut W, name: &str, steps: &[Step]) -> io::Result<()> {
    let mut q = AckQueue::new();
    let mut taken = None;
    for step in steps {
        taken = act(&mut q, *step);
    }
    write!(out, "{name}:")?;
    if let Some(taken) = taken {
        write!(out, " taken {}", YesNo(taken))?;
    }
    writeln!(out, " acks{}", Words(q.as_slice()))
}

/// The count keeps its limit, and the numbers are legal.
fn write_tests<W: Write>(out: &mut W) -> io::Result<()> {
    let mut q = AckQueue::new();
    act(&mut q, Receive(&[4, 7]));
    print::test(out, b"acks 4 7:", q.is_well_formed())?;
    let mut large = AckQueue::new();
    act(&mut large, Receive(&[268435456]));
    print::test(
        out,
        b"an ack that is no legal number:",
        large.is_well_formed(),
    )?;
    let mut long = AckQueue::new();
    long.len = 65;
    print::test(out, b"an ack queue of 65:", long.is_well_formed())
}

pub fn write_all<W: Write>(out: &mut W) -> io::Result<()> {
    for (name, steps) in SCENES {
        write_scene(out, name, steps)?;
    }
    write_tests(out)
}
