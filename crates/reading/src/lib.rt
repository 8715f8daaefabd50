//! The driver's lines (01, "The driver"): which command a line is.
#![tactic(auto)]

ghost use Rattle.std.specs.Prelude.{◌≡◌};
ghost use Rattle.reading.specs.Grammar as Grammar;

pub mod fields;
pub mod words;

use packet::{Key, Record};
use words::{Rest, Unreadable};

/// A line that could be read.
#[derive(Clone, Copy)]
pub enum Command {
    /// A record arrives from an address at a time, and with it those that are held.
    In(u64, u32, Record),
    /// A record is held for the next `in`.
    Pig(Record),
    /// A channel's next bundle is asked for.
    Pop(Key),
}

/// A line that could not. One whose first word is exactly `in` uses the held records up all the same.
#[derive(Clone, Copy, Debug, PartialEq, Eq)]
pub enum Bad {
    Line,
    Arrival,
}

// `T A P` and the fields, behind `in` and a blank.
#[tactic(auto, unfolding(crate::specs::Grammar::arrival_of))]
fn read_arrival(line: Rest<'_>) -> Result<Command, Unreadable>
    ensures { result ≡ Grammar.arrival_of line.entry.bytes.now }
{
    let mut rest = line;
    let time = rest.number(u64::MAX).ok_or(Unreadable)?;
    let address = rest.due(b" ")?;
    let prefix = rest.due(b" ")?;
    let record = fields::read_record(rest, prefix)?;
    Ok(Command::In(time, address, record))
}

// Behind `pop A`: `off`, `on` or `idx I`.
#[tactic(auto, unfolding(crate::specs::Grammar::key_of))]
fn read_key(line: Rest<'_>, address: u32) -> Result<Key, Unreadable>
    ensures { result ≡ Grammar.key_of address line.entry.bytes.now }
{
    let mut rest = line;
    let off = Key {
        address,
        on: 0,
        indexed: 0,
        index: 0,
    };
    if rest.word(b" off") {
        return rest.ended(off);
    }
    let on = Key { on: 1, ..off };
    if rest.word(b" on") {
        return rest.ended(on);
    }
    let index = rest.due(b" idx ")?;
    rest.ended(Key {
        indexed: 1,
        index,
        ..on
    })
}

// `pig P` and the fields, or `pop A` and a channel.
#[tactic(auto, unfolding(crate::specs::Grammar::other_of))]
fn read_other(line: Rest<'_>) -> Result<Command, Unreadable>
    ensures { result ≡ Grammar.other_of line.entry.bytes.now }
{
    let mut rest = line;
    match rest.field(b"pig ")? {
        Some(prefix) => {
            let record = fields::read_record(rest, prefix)?;
            Ok(Command::Pig(record))
        }
        None => {
            let address = rest.due(b"pop ")?;
            let key = read_key(rest, address)?;
            Ok(Command::Pop(key))
        }
    }
}

// After the letters `in`: the first word is exactly `in` where a blank or the end of the line follows.
#[tactic(auto, unfolding(crate::specs::Grammar::after_in))]
fn after_in(line: Rest<'_>) -> Result<Command, Bad>
    ensures { result ≡ Grammar.after_in line.entry.bytes.now }
{
    let mut rest = line;
    if rest.is_empty() {
        return Err(Bad::Arrival);
    }
    if !rest.word(b" ") {
        return Err(Bad::Line);
    }
    read_arrival(rest).map_err(|_| Bad::Arrival)
}

/// Which command a line is, without its line feed, or that it is `bad`.
#[tactic(auto, unfolding(crate::specs::Grammar::line_of))]
pub fn read_line(line: &[u8]) -> Result<Command, Bad>
    ensures { result ≡ Grammar.line_of line.now }
{
    let mut rest = Rest { bytes: line };
    if rest.word(b"in") {
        return after_in(rest);
    }
    read_other(rest).map_err(|_| Bad::Line)
}
