//! A record's fields, in their order: each is read from what the one before left of the line.
#![tactic(auto, unfolding(crate::specs::Readers::flag, crate::specs::Readers::number, crate::specs::Readers::pair))]

ghost use Rattle.std.specs.Prelude.{◌≡◌};
ghost use Rattle.packet.specs.Given as Given;
ghost use Rattle.reading.specs.Readers as Readers;
ghost use Rattle.reading.specs.Words as Words;

use crate::words::{Rest, Unreadable};
use packet::Record;

// How many singles a record has room for.
const SINGLES: u32 = 8;

// One more single. A ninth makes the record malformed: its count is 9 then, whatever follows, and the eight stay.
#[tactic(auto, unfolding(packet::specs::Given::with_ack))]
fn add_ack(r: &mut Record, number: u32)
    ensures { r.new ≡ Given.with_ack number r.old }
{
    if r.ackcount < SINGLES {
        r.acks[r.ackcount as usize] = number;
        r.ackcount += 1;
    } else {
        r.ackcount = SINGLES + 1;
    }
}

// A record as far as the line was read, and what is left of the line.
#[derive(Clone, Copy)]
struct Reader<'a> {
    rest: Rest<'a>,
    so_far: Record,
}

impl Reader<'_> {
    fn on(&mut self)
        ensures { Readers.from_on self.old.rest.bytes.now self.old.so_far ≡ Readers.from_idx self.new.rest.bytes.now self.new.so_far }
    {
        if self.rest.word(b" on") {
            self.so_far.on = 1;
        }
    }

    fn index(&mut self) -> Result<(), Unreadable>
        ensures { Readers.Hands result Readers.from_idx Readers.from_rel self.old.rest.bytes.now self.old.so_far self.new.rest.bytes.now self.new.so_far }
    {
        if let Some((index, version)) = self.rest.pair(b" idx ")? {
            self.so_far.indexed = 1;
            self.so_far.index = index;
            self.so_far.version = version;
        }
        Ok(())
    }

    fn reliable(&mut self)
        ensures { Readers.from_rel self.old.rest.bytes.now self.old.so_far ≡ Readers.from_seq self.new.rest.bytes.now self.new.so_far }
    {
        if self.rest.word(b" rel") {
            self.so_far.reliable = 1;
        }
    }

    fn number(&mut self) -> Result<(), Unreadable>
        ensures { Readers.Hands result Readers.from_seq Readers.from_rng self.old.rest.bytes.now self.old.so_far self.new.rest.bytes.now self.new.so_far }
    {
        if let Some(number) = self.rest.field(b" seq ")? {
            self.so_far.number = number;
        }
        Ok(())
    }

    fn range(&mut self) -> Result<(), Unreadable>
        ensures { Readers.Hands result Readers.from_rng Readers.from_cum self.old.rest.bytes.now self.old.so_far self.new.rest.bytes.now self.new.so_far }
    {
        if let Some((first, last)) = self.rest.pair(b" rng ")? {
            self.so_far.ranged = 1;
            self.so_far.first = first;
            self.so_far.last = last;
        }
        Ok(())
    }

    fn cumulative(&mut self) -> Result<(), Unreadable>
        ensures { Readers.Hands result Readers.from_cum Readers.from_ack self.old.rest.bytes.now self.old.so_far self.new.rest.bytes.now self.new.so_far }
    {
        if let Some(number) = self.rest.field(b" cum ")? {
            self.so_far.hascumulative = 1;
            self.so_far.cumulative = number;
        }
        Ok(())
    }

    #[tactic(auto, using(crate::proofs::Acks::acks))]
    fn acks(&mut self) -> Result<(), Unreadable>
        ensures { Readers.Hands result Readers.from_ack Readers.from_lrs self.old.rest.bytes.now self.old.so_far self.new.rest.bytes.now self.new.so_far }
    {
        while let Some(number) = self.rest.field(b" ack ")? {
            add_ack(&mut self.so_far, number);
        }
        Ok(())
    }

    fn last_reliable(&mut self) -> Result<(), Unreadable>
        ensures { Readers.Hands result Readers.from_lrs Readers.from_pkt self.old.rest.bytes.now self.old.so_far self.new.rest.bytes.now self.new.so_far }
    {
        if let Some(number) = self.rest.field(b" lrs ")? {
            self.so_far.haslast = 1;
            self.so_far.lastreliable = number;
        }
        Ok(())
    }

    fn handle(&mut self) -> Result<(), Unreadable>
        ensures { Readers.Hands result Readers.from_pkt Words.ended self.old.rest.bytes.now self.old.so_far self.new.rest.bytes.now self.new.so_far }
    {
        if let Some(handle) = self.rest.field(b" pkt ")? {
            self.so_far.handle = handle;
        }
        Ok(())
    }
}

/// The record of an `in` or a `pig` with this prefix, whose fields are all that is left of the line.
#[tactic(auto, unfolding(crate::specs::Readers::fields_of))]
pub fn read_record(rest: Rest<'_>, prefix: u32) -> Result<Record, Unreadable>
    ensures { result ≡ Readers.fields_of prefix rest.entry.bytes.now }
{
    let so_far = Record {
        prefix,
        ..Record::none()
    };
    let mut reader = Reader { rest, so_far };
    reader.on();
    reader.index()?;
    reader.reliable();
    reader.number()?;
    reader.range()?;
    reader.cumulative()?;
    reader.acks()?;
    reader.last_reliable()?;
    reader.handle()?;
    reader.rest.ended(reader.so_far)
}
