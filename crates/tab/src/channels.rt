//! Where the channels of a table stand; the call that finds or makes one.

ghost use Rattle.std.specs.Prelude.{◌≡◌, ◌==◌, ◌&&◌, ◌<◌, IfSome, true, false, None, OnOk, OnErr, Err};
ghost use Rattle.std.specs.List as Std;
ghost use Rattle.list.specs.Find.{position};
ghost use Rattle.model.specs.State as model;
ghost use Rattle.model.specs.Room.{off_room, on_room};
ghost use Rattle.model.specs.Rust.{first_version};
ghost use Rattle.model.specs.Calls as Calls;
ghost use Rattle.model.specs.Port.{reply};
ghost use Rattle.chan.specs.Channels.{off_of, IsOffChannel, on_of, IsOnChannel};
ghost use Rattle.tab.specs.Tables.{IsTable, state_of};
ghost use Rattle.tab.specs.Keyed.{key_position, key_count, off_key};
ghost use Rattle.tab.specs.Found.{made_off, made_on};
ghost use Rattle.tab.specs.Answers.{code_in, code_of};
ghost use Rattle.tab.specs.Calls.{called, answer_of, view_in};

use crate::Table;
use chan::{OffChannel, OnChannel};
use list::Full;
use packet::{Key, Refusal, View};

fn off_position(channels: &[OffChannel], address: u32) -> Option<usize>
    ensures { result ≡ Std.position (λ c. c.address == address) channels.now }
{
    channels.iter().position(|c| c.address == address)
}

fn on_position(channels: &[OnChannel], address: u32, index: u32) -> Option<usize>
    ensures { result ≡ Std.position (λ c. (c.address == address) && (c.index == index)) channels.now }
{
    channels
        .iter()
        .position(|c| c.address == address && c.index == index)
}

/// The version of a channel that the key makes: 1 for an index, 0 without one.
fn first_version(key: &Key) -> u32
    ensures { result ≡ first_version key.now }
{
    if key.indexed == 1 {
        return 1;
    }
    0
}

impl Table {
    /// Where the off-channel of that address stands, of any table.
    pub fn off_position(&self, address: u32) -> Option<usize>
        ensures first { result ≡ position (model.is_off address) (state_of self.now).protocol.offs }
        ensures within { IfSome result (λ i. i < self.now.offcount) }
    {
        off_position(list::used(self.offcount, &self.offs), address)
    }

    /// Where the on-channel of that address and index stands, of any table.
    pub fn on_position(&self, address: u32, index: u32) -> Option<usize>
        ensures first { result ≡ position (model.is_on address index) (state_of self.now).protocol.ons }
        ensures within { IfSome result (λ i. i < self.now.oncount) }
    {
        on_position(list::used(self.oncount, &self.ons), address, index)
    }

    /// Where the channel that the key names stands among its kind; nowhere if there is none. For any table.
    pub fn position(&self, key: &Key) -> Option<usize>
        ensures first { result ≡ key_position key.now (state_of self.now).protocol }
        ensures within { IfSome result (λ i. i < key_count key.now self.now) }
    {
        if key.on == 1 {
            self.on_position(key.address, key.index_of())
        } else {
            self.off_position(key.address)
        }
    }

    /// Adds an off-channel after the last, whose address none has.
    pub(crate) fn add_off(&mut self, c: &OffChannel) -> Result<(), Full>
        requires table { IsTable self.old }
        requires channel { IsOffChannel c.now }
        requires new { position (model.is_off c.now.address) (state_of self.old).protocol.offs ≡ None }
        ensures table { IsTable self.new }
        ensures state { OnOk result (state_of self.new ≡ model.with_protocol (model.put_off (off_of c.now) (state_of self.old).protocol) (state_of self.old)) }
        ensures room { OnOk result (off_room (state_of self.old).protocol ≡ true) }
        ensures full { OnErr result (off_room (state_of self.old).protocol ≡ false) }
        ensures unchanged { OnErr result (self.new ≡ self.old) }
    {
        list::push(&mut self.offcount, &mut self.offs, OffChannel::none(), *c)?;
        Ok(())
    }

    /// Adds an on-channel after the last, whose address and index none has.
    pub(crate) fn add_on(&mut self, c: &OnChannel) -> Result<(), Full>
        requires table { IsTable self.old }
        requires channel { IsOnChannel c.now }
        requires new { position (model.is_on c.now.address c.now.index) (state_of self.old).protocol.ons ≡ None }
        ensures table { IsTable self.new }
        ensures state { OnOk result (state_of self.new ≡ model.with_protocol (model.put_on (on_of c.now) (state_of self.old).protocol) (state_of self.old)) }
        ensures room { OnOk result (on_room (state_of self.old).protocol ≡ true) }
        ensures full { OnErr result (on_room (state_of self.old).protocol ≡ false) }
        ensures unchanged { OnErr result (self.new ≡ self.old) }
    {
        list::push(&mut self.oncount, &mut self.ons, OnChannel::none(), *c)?;
        Ok(())
    }

    /// Makes the off-channel of that address, which none has.
    fn make_off(&mut self, address: u32) -> Result<View, Refusal>
        requires table { IsTable self.old }
        requires new { position (model.is_off address) (state_of self.old).protocol.offs ≡ None }
        ensures table { IsTable self.new }
        ensures state { state_of self.new ≡ (made_off address (state_of self.old)).state }
        ensures answer { result ≡ answer_of view_in (made_off address (state_of self.old)).answer }
    {
        let c = OffChannel::new(address);
        match self.add_off(&c) {
            Ok(()) => Ok(c.view()),
            Err(_) => Err(Refusal::TableFull),
        }
    }

    /// Makes the on-channel of that address and index, which none has; it keeps the version.
    fn make_on(&mut self, address: u32, index: u32, version: u32) -> Result<View, Refusal>
        requires table { IsTable self.old }
        requires new { position (model.is_on address index) (state_of self.old).protocol.ons ≡ None }
        ensures table { IsTable self.new }
        ensures state { state_of self.new ≡ (made_on address index version (state_of self.old)).state }
        ensures answer { result ≡ answer_of view_in (made_on address index version (state_of self.old)).answer }
    {
        let c = OnChannel::new(address, index, version);
        match self.add_on(&c) {
            Ok(()) => Ok(c.view()),
            Err(_) => Err(Refusal::TableFull),
        }
    }

    fn find_or_make(&mut self, key: &Key) -> Result<View, Refusal>
        requires { IsTable self.old }
        ensures table { IsTable self.new }
        ensures state { state_of self.new ≡ (reply (Calls.channel key.now) (state_of self.old)).state }
        ensures answer { result ≡ answer_of view_in (reply (Calls.channel key.now) (state_of self.old)).answer }
    {
        if !key.well_made() {
            return Err(Refusal::OutOfRange);
        }
        if key.on == 1 {
            match self.on_position(key.address, key.index_of()) {
                Some(i) => Ok(self.ons[i].view()),
                None => self.make_on(key.address, key.index_of(), first_version(key)),
            }
        } else {
            match self.off_position(key.address) {
                Some(i) => Ok(self.offs[i].view()),
                None => self.make_off(key.address),
            }
        }
    }

    /// The channel of the key, made where there is none: a created index gets version 1. Refused, and nothing is changed: a malformed
    /// table, a key out of range, a new channel for which there is no place.
    pub fn channel(&mut self, key: &Key) -> Result<View, Refusal>
        ensures table { self.new ≡ (called (Calls.channel key.now) self.old).table }
        ensures answer { result ≡ answer_of view_in (called (Calls.channel key.now) self.old).answer }
        ensures code { code_in result ≡ code_of (called (Calls.channel key.now) self.old).answer }
    {
        if !self.is_well_formed() {
            return Err(Refusal::NotWellFormed);
        }
        self.find_or_make(key)
    }

    /// The same of the off-channel of that address.
    pub fn off_channel(&mut self, address: u32) -> Result<View, Refusal>
        ensures table { self.new ≡ (called (Calls.channel (off_key address)) self.old).table }
        ensures answer { result ≡ answer_of view_in (called (Calls.channel (off_key address)) self.old).answer }
        ensures code { code_in result ≡ code_of (called (Calls.channel (off_key address)) self.old).answer }
    {
        let key = Key {
            address,
            on: 0,
            indexed: 0,
            index: 0,
        };
        self.channel(&key)
    }
}
