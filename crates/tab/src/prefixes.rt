//! The prefix calls.

ghost use Rattle.std.specs.Prelude.{◌≡◌};
ghost use Rattle.model.specs.State as model;
ghost use Rattle.model.specs.Calls as Calls;
ghost use Rattle.tab.specs.Tables.{IsTable, state_of};
ghost use Rattle.tab.specs.Answers.{code_in, code_of};
ghost use Rattle.tab.specs.Calls.{called, answer_of, done_in, prefix_in};

use crate::Table;
use packet::Refusal;

impl Table {
    /// The prefix of the last record that was delivered. A malformed table is refused.
    pub fn last_accepted_prefix(&self) -> Result<u32, Refusal>
        ensures table { self.now ≡ (called Calls.last_accepted_prefix self.now).table }
        ensures answer { result ≡ answer_of prefix_in (called Calls.last_accepted_prefix self.now).answer }
        ensures code { code_in result ≡ code_of (called Calls.last_accepted_prefix self.now).answer }
    {
        if self.is_well_formed() {
            return Ok(self.prefix);
        }
        Err(Refusal::NotWellFormed)
    }

    fn set_offset(&mut self, offset: u32)
        requires { IsTable self.old }
        ensures table { IsTable self.new }
        ensures state { state_of self.new ≡ model.with_protocol (model.with_offset offset (state_of self.old).protocol) (state_of self.old) }
    {
        self.offset = offset;
    }

    /// The prefix offset becomes 0. A malformed table is refused, and stays as it is.
    pub fn reset_prefix_offset(&mut self) -> Result<(), Refusal>
        ensures table { self.new ≡ (called Calls.reset_prefix_offset self.old).table }
        ensures answer { result ≡ answer_of done_in (called Calls.reset_prefix_offset self.old).answer }
        ensures code { code_in result ≡ code_of (called Calls.reset_prefix_offset self.old).answer }
    {
        if !self.is_well_formed() {
            return Err(Refusal::NotWellFormed);
        }
        self.set_offset(0);
        Ok(())
    }

    /// The prefix offset becomes the prefix of the last record that was delivered. A malformed table is refused, and stays as it is.
    pub fn transfer_prefix_offset_from_last_received(&mut self) -> Result<(), Refusal>
        ensures table { self.new ≡ (called Calls.transfer_prefix_offset self.old).table }
        ensures answer { result ≡ answer_of done_in (called Calls.transfer_prefix_offset self.old).answer }
        ensures code { code_in result ≡ code_of (called Calls.transfer_prefix_offset self.old).answer }
    {
        if !self.is_well_formed() {
            return Err(Refusal::NotWellFormed);
        }
        self.set_offset(self.prefix);
        Ok(())
    }
}
