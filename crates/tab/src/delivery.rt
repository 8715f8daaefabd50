//! A delivery: records of one packet, or of several, in order.

ghost use Rattle.std.specs.Prelude.{◌≡◌, ◌<◌, ◌≤◌, Err, length};
ghost use Rattle.model.specs.Calls as call;
ghost use Rattle.model.specs.Port as port;
ghost use Rattle.tab.specs.Tables.{IsTable, state_of};
ghost use Rattle.tab.specs.Answers.{code_in, code_of};
ghost use Rattle.tab.specs.Calls.{called, delivery_of};
ghost use Rattle.tab.specs.Played as Spec;

use crate::Table;
use chan::Way;
use packet::{Record, Refusal, View};

/// How many records a delivery may have.
const MAX_RECORDS: usize = 8;

/// What a delivery answers: how many of its records were not refused, and the channel of the last one, or why that was refused.
#[derive(Clone, Copy)]
pub struct Delivery {
    pub count: u32,
    pub last: Result<View, Refusal>,
}

impl Delivery {
    /// The answer of a delivery before its first record: none is counted.
    pub fn none() -> Delivery
        ensures { result ≡ Spec.none_played }
    {
        Delivery::refused(Refusal::OutOfRange)
    }

    /// Refused as a whole: no record is looked at.
    pub fn refused(refusal: Refusal) -> Delivery
        ensures { result ≡ record { count = 0; last = Err refusal } }
    {
        Delivery {
            count: 0,
            last: Err(refusal),
        }
    }

    /// After one more record: a refusal of an earlier one is in the count alone.
    pub fn then(self, last: Result<View, Refusal>) -> Delivery
        requires { self.count ≤ 8 }
        ensures { result ≡ Spec.next_of self last }
    {
        match last {
            Ok(view) => Delivery {
                count: self.count + 1,
                last: Ok(view),
            },
            Err(refusal) => Delivery {
                count: self.count,
                last: Err(refusal),
            },
        }
    }
}

/// A delivery is of 1 to 8 records. A malformed one among them is refused by itself, but the last one must be well made.
pub fn is_well_made(records: &[Record]) -> bool
    ensures { result ≡ port.delivery_made records.now }
{
    if records.len() > MAX_RECORDS {
        return false;
    }
    match records.last() {
        None => false,
        Some(r) => r.well_made(),
    }
}

impl Table {
    /// One record: refused where it is malformed or there is no place for its channel, which changes nothing; else by its channel's rules.
    /// The last prefix becomes the record's, unless it is refused as a fragment beyond its group or over a limit, which changes nothing.
    fn accept_record(&mut self, time: u64, address: u32, r: &Record) -> Result<View, Refusal>
        requires { IsTable self.old }
        ensures table { IsTable self.new }
        ensures result { result ≡ Spec.result_of (port.record_step time address r.now (state_of self.old)).result }
        ensures state { state_of self.new ≡ (port.record_step time address r.now (state_of self.old)).state }
    {
        if !r.well_made() {
            return Err(Refusal::OutOfRange);
        }
        let way = Way::In(self.forwarding == 1);
        if r.on == 1 {
            return self.settle_on(way, r.prefix, time, address, r);
        }
        self.settle_off(way, r.prefix, time, address, r)
    }

    /// Each record by itself, in order.
    fn accept_each(&mut self, time: u64, address: u32, records: &[Record]) -> Delivery
        requires table { IsTable self.old }
        requires few { length records.now ≤ 8 }
        ensures table { IsTable self.new }
        ensures delivery { result ≡ Spec.after Spec.none_played (port.play time address records.now (state_of self.old)).results }
        ensures state { state_of self.new ≡ (port.play time address records.now (state_of self.old)).state }
    {
        let mut done = Delivery::none();
        for r in records {
            let result = self.accept_record(time, address, r);
            done = done.then(result);
        }
        done
    }

    /// A packet of 1 to 8 records came in from that address at that time, in milliseconds. Refused as a whole, with a count of 0 and no
    /// change, where the table is malformed, there are not 1 to 8 records or the last is malformed, or the time is below the latest.
    /// Otherwise the time is the latest from now on, and each record is taken or refused by itself.
    pub fn accept(&mut self, time: u64, address: u32, records: &[Record]) -> Delivery
        ensures table { self.new ≡ (called (call.accept time address records.now) self.old).table }
        ensures answer { result ≡ delivery_of (called (call.accept time address records.now) self.old).answer }
        ensures code { code_in result.last ≡ code_of (called (call.accept time address records.now) self.old).answer }
    {
        if !self.is_well_formed() {
            return Delivery::refused(Refusal::NotWellFormed);
        }
        if !is_well_made(records) {
            return Delivery::refused(Refusal::OutOfRange);
        }
        if time < self.latest {
            return Delivery::refused(Refusal::TimeBelow);
        }
        self.latest = time;
        self.accept_each(time, address, records)
    }
}
