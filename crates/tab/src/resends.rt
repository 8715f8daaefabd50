//! The packets to send again.

ghost use Rattle.std.specs.Prelude.{◌≡◌, ◌+◌, ◌≤◌, All, length, ltb, map, IfOk};
ghost use Rattle.list.specs.Find.{written_at};
ghost use Rattle.model.specs.Calls as Calls;
ghost use Rattle.model.specs.Calls.{flat};
ghost use Rattle.model.specs.Port.{reply};
ghost use Rattle.model.specs.Rust as Rust;
ghost use Rattle.chan.specs.Channels.{off_of, IsOffChannel, on_of, IsOnChannel};
ghost use Rattle.tab.specs.Tables.{IsTable, state_of};
ghost use Rattle.tab.specs.Resending.{off_rows, on_rows, off_after, on_after};
ghost use Rattle.tab.specs.Answers.{code_in, code_of};
ghost use Rattle.tab.specs.Calls.{called, answer_of, rows_in};

use crate::Table;
use chan::{OffChannel, OnChannel};
use packet::Refusal;
use queues::Clock;

/// Whether a call comes before the latest one.
fn is_late(time: u64, latest: u64) -> bool
    ensures { result ≡ ltb time latest }
{
    time < latest
}

/// How many rows a resend of these channels, at most four, lists: at most 32 for each. The clock's times are in the host's unit. Nothing is
/// changed or refused.
pub fn count_offs(channels: &[OffChannel], clock: Clock) -> u32
    requires few { length channels.now ≤ 4 }
    requires channels { All IsOffChannel channels.now }
    ensures rows { result ≡ length (off_rows clock (map off_of channels.now)) }
    ensures bound { result ≤ 128 }
{
    let mut rows = 0;
    for off in channels {
        rows += off.count_due(clock);
    }
    rows
}

/// As `count_offs`, for on-channels, at most eight.
pub fn count_ons(channels: &[OnChannel], clock: Clock) -> u32
    requires few { length channels.now ≤ 8 }
    requires channels { All IsOnChannel channels.now }
    ensures rows { result ≡ length (on_rows clock (map on_of channels.now)) }
    ensures bound { result ≤ 256 }
{
    let mut rows = 0;
    for on in channels {
        rows += on.count_due(clock);
    }
    rows
}

/// Lists the packets that are due on these channels, as address and handle, from place `at` of the lent list on, and answers the place
/// after the rows: `OffChannel::resend` for one channel after the other. The clock's times are in the host's unit. Packets that are given
/// up go, and those listed are last sent now. Nothing is refused: the list must have room for all rows.
pub fn resend_offs(offs: &mut [OffChannel], clock: Clock, lent: &mut [u32], at: usize) -> usize
    requires channels { All IsOffChannel offs.old }
    requires room { at + length (flat (off_rows clock (map off_of offs.old))) ≤ length lent.old }
    ensures channels { All IsOffChannel offs.new }
    ensures items { map off_of offs.new ≡ map (off_after clock) (map off_of offs.old) }
    ensures rows { lent.new ≡ written_at at (flat (off_rows clock (map off_of offs.old))) lent.old }
    ensures next { result ≡ at + length (flat (off_rows clock (map off_of offs.old))) }
{
    let mut next = at;
    for i in 0..offs.len() {
        next = offs[i].resend(clock, lent, next);
    }
    next
}

/// As `resend_offs`, for on-channels.
pub fn resend_ons(ons: &mut [OnChannel], clock: Clock, lent: &mut [u32], at: usize) -> usize
    requires channels { All IsOnChannel ons.old }
    requires room { at + length (flat (on_rows clock (map on_of ons.old))) ≤ length lent.old }
    ensures channels { All IsOnChannel ons.new }
    ensures items { map on_of ons.new ≡ map (on_after clock) (map on_of ons.old) }
    ensures rows { lent.new ≡ written_at at (flat (on_rows clock (map on_of ons.old))) lent.old }
    ensures next { result ≡ at + length (flat (on_rows clock (map on_of ons.old))) }
{
    let mut next = at;
    for i in 0..ons.len() {
        next = ons[i].resend(clock, lent, next);
    }
    next
}

impl Table {
    /// How many rows a resend lists.
    fn count_rows(&self, clock: Clock) -> usize
        requires { IsTable self.now }
        ensures rows { result ≡ length (Rust.all_rows clock.time clock.timeout clock.give_up (state_of self.now).protocol) }
        ensures bound { result ≤ 384 }
    {
        let offs = count_offs(&self.offs[..self.offcount as usize], clock);
        let ons = count_ons(&self.ons[..self.oncount as usize], clock);
        (offs + ons) as usize
    }

    fn resend(&mut self, clock: Clock, lent: &mut [u32]) -> Result<usize, Refusal>
        requires { IsTable self.old }
        ensures table { IsTable self.new }
        ensures state { state_of self.new ≡ (reply (Calls.take_resends clock.time clock.timeout clock.give_up lent.old) (state_of self.old)).state }
        ensures answer { result ≡ answer_of rows_in (reply (Calls.take_resends clock.time clock.timeout clock.give_up lent.old) (state_of self.old)).answer }
        ensures lent { lent.new ≡ Calls.lent (reply (Calls.take_resends clock.time clock.timeout clock.give_up lent.old) (state_of self.old)).answer lent.old }
        ensures few { IfOk result (λ n. n ≤ 384) }
    {
        if is_late(clock.time, self.latest) {
            return Err(Refusal::TimeBelow);
        }
        let rows = self.count_rows(clock);
        self.latest = clock.time;
        if lent.len() < 2 * rows {
            return Err(Refusal::ListTooShort);
        }
        let next = resend_offs(&mut self.offs[..self.offcount as usize], clock, lent, 0);
        resend_ons(&mut self.ons[..self.oncount as usize], clock, lent, next);
        Ok(rows)
    }

    /// Lists the packets to send again at the clock's time, as address and handle, from the front of `lent`: off-channels first, each kind
    /// in order of creation; the answer is how many. Packets that are given up go, and those listed are last sent now. Refused, and
    /// nothing is changed or written: a malformed table, a time below the latest. A lent list that is too short for all rows refuses too,
    /// and leaves the time set.
    pub fn take_resends(&mut self, clock: Clock, lent: &mut [u32]) -> Result<usize, Refusal>
        ensures table { self.new ≡ (called (Calls.take_resends clock.time clock.timeout clock.give_up lent.old) self.old).table }
        ensures answer { result ≡ answer_of rows_in (called (Calls.take_resends clock.time clock.timeout clock.give_up lent.old) self.old).answer }
        ensures code { code_in result ≡ code_of (called (Calls.take_resends clock.time clock.timeout clock.give_up lent.old) self.old).answer }
        ensures lent { lent.new ≡ Calls.lent (called (Calls.take_resends clock.time clock.timeout clock.give_up lent.old) self.old).answer lent.old }
        ensures few { IfOk result (λ n. n ≤ 384) }
    {
        if !self.is_well_formed() {
            return Err(Refusal::NotWellFormed);
        }
        self.resend(clock, lent)
    }
}
