//! The state half of a send.

ghost use Rattle.std.specs.Prelude.{◌≡◌, ◌<◌, ◌≤◌, Some, true, false, length, ltb};
ghost use Rattle.packet.specs.Data.{is_set, key_index};
ghost use Rattle.model.specs.State as model;
ghost use Rattle.model.specs.Calls as Calls;
ghost use Rattle.model.specs.Port.{asked, prepare_s, reply};
ghost use Rattle.model.specs.Rust as Rust;
ghost use Rattle.tab.specs.Tables.{IsTable, state_of};
ghost use Rattle.tab.specs.Keyed.{key_position, key_count};
ghost use Rattle.tab.specs.Loose.{loosed};
ghost use Rattle.tab.specs.Answers.{code_in, code_of};
ghost use Rattle.tab.specs.Calls.{called, answer_of, prepared_in};

use crate::Table;
use packet::{Key, Prepared, Refusal, View};

/// As many packets as take no number where they are not reliable.
const LONE: usize = 1;

/// A key and a flag that are well made, and at most 16 handles.
fn is_asked(key: &Key, reliable: u32, count: usize) -> bool
    ensures { result ≡ asked key.now reliable count }
{
    key.well_made() && reliable <= 1 && count <= 16
}

/// What a send answers: the first number where numbers were taken, what the channel is, and the prefix offset.
fn answer(view: View, offset: u32, allocated: bool, first: u32) -> Prepared
    ensures { result ≡ Rust.answer_of view offset allocated first }
{
    Prepared {
        allocated: allocated as u32,
        first: if allocated { first } else { 0 },
        on: view.on,
        expected: view.expected,
        index: view.index,
        version: view.version,
        offset,
    }
}

impl Table {
    /// What the channel at that place among those of the key's kind is.
    fn view_at(&self, key: &Key, i: usize) -> View
        requires table { IsTable self.now }
        requires place { key_position key.now (state_of self.now).protocol ≡ Some i }
        requires there { i < key_count key.now self.now }
        ensures { result ≡ Rust.key_view key.now (state_of self.now).protocol }
    {
        if key.on == 1 {
            self.ons[i].view()
        } else {
            self.offs[i].view()
        }
    }

    /// Packets that are not reliable: the channel stays, and the shared source moves on where they are more than one.
    fn send_loose(&mut self, view: View, count: usize) -> Prepared
        requires table { IsTable self.old }
        requires few { count ≤ 16 }
        ensures table { IsTable self.new }
        ensures state { state_of self.new ≡ model.with_protocol (loosed (ltb 1 count) count (state_of self.old).protocol) (state_of self.old) }
        ensures answer { result ≡ Rust.answer_of view (state_of self.old).protocol.offset (ltb 1 count) (state_of self.old).protocol.source }
    {
        if count <= LONE {
            return answer(view, self.offset, false, 0);
        }
        let first = self.source.alloc(count as u32);
        answer(view, self.offset, true, first.get())
    }

    /// Reliable packets on the on-channel at that place: they join its out list, numbered from its own source.
    fn send_on(
        &mut self,
        i: usize,
        time: u64,
        key: &Key,
        handles: &[u32],
    ) -> Result<Prepared, Refusal>
        requires table { IsTable self.old }
        requires place { key_position key.now (state_of self.old).protocol ≡ Some i }
        requires there { i < self.old.oncount }
        requires on { key.now.on ≡ 1 }
        requires asked { asked key.now 1 (length handles.now) ≡ true }
        requires now { self.old.latest ≡ time }
        ensures table { IsTable self.new }
        ensures state { state_of self.new ≡ (prepare_s time key.now 1 handles.now (state_of self.old)).state }
        ensures answer { result ≡ answer_of prepared_in (prepare_s time key.now 1 handles.now (state_of self.old)).answer }
    {
        let view = self.ons[i].view();
        let first = self.ons[i].send(time, handles)?;
        Ok(answer(view, self.offset, true, first.get()))
    }

    /// Reliable packets on the off-channel at that place: they join its out list, numbered from the shared source.
    fn send_off(
        &mut self,
        i: usize,
        time: u64,
        key: &Key,
        handles: &[u32],
    ) -> Result<Prepared, Refusal>
        requires table { IsTable self.old }
        requires place { key_position key.now (state_of self.old).protocol ≡ Some i }
        requires there { i < self.old.offcount }
        requires off { is_set key.now.on ≡ false }
        requires asked { asked key.now 1 (length handles.now) ≡ true }
        requires now { self.old.latest ≡ time }
        ensures table { IsTable self.new }
        ensures state { state_of self.new ≡ (prepare_s time key.now 1 handles.now (state_of self.old)).state }
        ensures answer { result ≡ answer_of prepared_in (prepare_s time key.now 1 handles.now (state_of self.old)).answer }
    {
        let view = self.offs[i].view();
        let mut source = self.source;
        let first = source.alloc(handles.len() as u32);
        self.offs[i].send(time, first, handles)?;
        self.source = source;
        Ok(answer(view, self.offset, true, first.get()))
    }

    /// A send on its channel, once its time is set.
    fn send_now(
        &mut self,
        time: u64,
        key: &Key,
        reliable: u32,
        handles: &[u32],
    ) -> Result<Prepared, Refusal>
        requires table { IsTable self.old }
        requires asked { asked key.now reliable (length handles.now) ≡ true }
        requires now { self.old.latest ≡ time }
        ensures table { IsTable self.new }
        ensures state { state_of self.new ≡ (prepare_s time key.now reliable handles.now (state_of self.old)).state }
        ensures answer { result ≡ answer_of prepared_in (prepare_s time key.now reliable handles.now (state_of self.old)).answer }
    {
        match self.position(key) {
            None => Err(Refusal::ChannelAbsent),
            Some(i) => {
                if reliable != 1 {
                    let view = self.view_at(key, i);
                    return Ok(self.send_loose(view, handles.len()));
                }
                if key.on == 1 {
                    self.send_on(i, time, key, handles)
                } else {
                    self.send_off(i, time, key, handles)
                }
            }
        }
    }

    fn send(
        &mut self,
        time: u64,
        key: &Key,
        reliable: u32,
        handles: &[u32],
    ) -> Result<Prepared, Refusal>
        requires { IsTable self.old }
        ensures table { IsTable self.new }
        ensures state { state_of self.new ≡ (reply (Calls.prepare time key.now reliable handles.now) (state_of self.old)).state }
        ensures answer { result ≡ answer_of prepared_in (reply (Calls.prepare time key.now reliable handles.now) (state_of self.old)).answer }
    {
        if !is_asked(key, reliable, handles.len()) {
            return Err(Refusal::OutOfRange);
        }
        if time < self.latest {
            return Err(Refusal::TimeBelow);
        }
        self.latest = time;
        self.send_now(time, key, reliable, handles)
    }

    /// Packets of one bundle are sent on the key's channel: reliable ones (flag 1) join its out list, and numbers are taken for those and
    /// where there is more than one. Refused, and nothing is changed: a malformed table, a key or flag out of range, more than 16 handles,
    /// a time below the latest. A channel that is absent, or an out list without room, refuses too, and leaves the time set.
    pub fn prepare(
        &mut self,
        time: u64,
        key: &Key,
        reliable: u32,
        handles: &[u32],
    ) -> Result<Prepared, Refusal>
        ensures table { self.new ≡ (called (Calls.prepare time key.now reliable handles.now) self.old).table }
        ensures answer { result ≡ answer_of prepared_in (called (Calls.prepare time key.now reliable handles.now) self.old).answer }
        ensures code { code_in result ≡ code_of (called (Calls.prepare time key.now reliable handles.now) self.old).answer }
    {
        if !self.is_well_formed() {
            return Err(Refusal::NotWellFormed);
        }
        self.send(time, key, reliable, handles)
    }
}
