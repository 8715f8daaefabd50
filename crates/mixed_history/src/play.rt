//! One step of the history: a call with what is drawn for it, and its answer written out.

use crate::draw::Step;
use packet::{Prepared, Refusal, View};
use print::{Answer, Words};
use queues::out_list::Clock;
use std::io;
use std::io::Write;
use tab::Table;

/// Writes a call's name, whether it was granted, and the words that it answers.
fn answer<W: Write, T: Copy>(
    out: &mut W,
    name: &str,
    said: Result<T, Refusal>,
    words: &[u32],
) -> io::Result<()> {
    let granted = Answer(said.map(|_| ()));
    write!(out, "{name} {granted}{}", Words(words))
}

fn view_words(v: View) -> [u32; 5] {
    [v.on, v.address, v.index, v.version, v.expected]
}

fn prepared_words(p: Prepared) -> [u32; 7] {
    [
        p.allocated,
        p.first,
        p.on,
        p.expected,
        p.index,
        p.version,
        p.offset,
    ]
}

fn deliver<W: Write>(out: &mut W, t: &mut Table, step: Step) -> io::Result<()> {
    let records = step.records();
    let d = t.accept(step.time(), step.address(), &records[..step.record_count()]);
    write!(out, "in {} {}", Answer(d.last.map(|_| ())), d.count)?;
    write!(out, "{}", Words(&d.last.map_or([0; 5], view_words)))
}

fn forward_out<W: Write>(out: &mut W, t: &mut Table, step: Step) -> io::Result<()> {
    let said = t.accept_out(step.time(), step.address(), &step.record(0));
    answer(out, "out", said, &said.map_or([0; 5], view_words))
}

fn find<W: Write>(out: &mut W, t: &mut Table, step: Step) -> io::Result<()> {
    let said = t.channel(&step.key());
    answer(out, "find", said, &said.map_or([0; 5], view_words))
}

/// A bundle is handed out, sometimes to a list that has hardly any place: whether there was one, its length and its handles.
fn hand_out<W: Write>(out: &mut W, t: &mut Table, step: Step) -> io::Result<()> {
    let mut list = [0; 64];
    let room = if step.is_short() { 1 } else { 64 };
    let said = t.next_bundle(&step.key(), &mut list[..room]);
    let bundle = said.unwrap_or(None);
    let len = bundle.unwrap_or(0);
    write!(out, "next {}", Answer(said.map(|_| ())))?;
    write!(out, " {} {len}", u32::from(bundle.is_some()))?;
    for handle in list.iter().take(len) {
        write!(out, " {handle}")?;
    }
    Ok(())
}

fn prepare<W: Write>(out: &mut W, t: &mut Table, step: Step) -> io::Result<()> {
    let handles = step.handles();
    let said = t.prepare(
        step.time(),
        &step.key(),
        step.reliable(),
        &handles[..step.handle_count()],
    );
    answer(out, "prep", said, &said.map_or([0; 7], prepared_words))
}

fn wrote<W: Write>(out: &mut W, t: &mut Table, step: Step) -> io::Result<()> {
    let names = step.names();
    let said = t.acks_written(&step.key(), &names[..step.name_count()]);
    answer(out, "wrote", said, &[])
}

/// Packets are sent again, sometimes to a list that has hardly any place: how many rows, and each one's address and handle.
fn resend<W: Write>(out: &mut W, t: &mut Table, step: Step) -> io::Result<()> {
    let mut list = [0; 768];
    let room = if step.is_short() { 2 } else { 768 };
    let clock = Clock {
        time: step.time(),
        timeout: step.timeout(),
        give_up: step.give_up(),
    };
    let said = t.take_resends(clock, &mut list[..room]);
    let rows = said.unwrap_or(0);
    write!(out, "resend {} {rows}", Answer(said.map(|_| ())))?;
    for row in list.chunks_exact(2).take(rows) {
        write!(out, "{}", Words(row))?;
    }
    Ok(())
}

fn holds<W: Write>(out: &mut W, t: &Table, step: Step) -> io::Result<()> {
    let said = t.holds(step.handle());
    answer(out, "holds", said, &[u32::from(said.unwrap_or(false))])
}

fn prefix<W: Write>(out: &mut W, t: &Table) -> io::Result<()> {
    let said = t.last_accepted_prefix();
    answer(out, "prefix", said, &[said.unwrap_or(0)])
}

fn reset<W: Write>(out: &mut W, t: &mut Table) -> io::Result<()> {
    answer(out, "reset", t.reset_prefix_offset(), &[])
}

fn transfer<W: Write>(out: &mut W, t: &mut Table) -> io::Result<()> {
    let said = t.transfer_prefix_offset_from_last_received();
    answer(out, "transfer", said, &[])
}

/// A call of that kind, from 0 to 99: as often as it has numbers.
pub fn call<W: Write>(out: &mut W, t: &mut Table, step: Step, kind: u32) -> io::Result<()> {
    match kind {
        0..=43 => deliver(out, t, step),
        44..=55 => forward_out(out, t, step),
        56..=59 => find(out, t, step),
        60..=75 => hand_out(out, t, step),
        76..=83 => prepare(out, t, step),
        84..=89 => wrote(out, t, step),
        90..=93 => resend(out, t, step),
        94 | 95 => holds(out, t, step),
        96 | 97 => prefix(out, t),
        98 => reset(out, t),
        _ => transfer(out, t),
    }
}
