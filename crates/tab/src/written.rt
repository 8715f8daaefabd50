//! The report of acknowledgements that were written.

ghost use Rattle.std.specs.Prelude.{◌≡◌, Err};
ghost use Rattle.model.specs.State as model;
ghost use Rattle.model.specs.Acks.{take_written};
ghost use Rattle.model.specs.Calls as Calls;
ghost use Rattle.model.specs.Port.{reply};
ghost use Rattle.chan.specs.Channels.{data_of, IsOffData};
ghost use Rattle.tab.specs.Tables.{IsTable, state_of};
ghost use Rattle.tab.specs.Answers.{code_in, code_of};
ghost use Rattle.tab.specs.Calls.{called, answer_of, done_in};
ghost use Rattle.tab.specs.Offers.{wrote_answer, queue_after, absent_refusal};

use crate::Table;
use chan::OffData;
use packet::{Key, Refusal};

/// Why names are refused on an absent channel: none of them is in a queue there, and with no name the channel itself is missing.
fn absent(names: &[u32]) -> Result<(), Refusal>
    ensures { result ≡ Err (absent_refusal names.now) }
{
    if names.is_empty() {
        return Err(Refusal::ChannelAbsent);
    }
    Err(Refusal::OutOfRange)
}

/// The named numbers leave the ack queue, each at its earliest place, or one of them is lacking and nothing is changed.
fn take_written(d: &mut OffData, names: &[u32]) -> Result<(), Refusal>
    requires { IsOffData d.old }
    ensures data { IsOffData d.new }
    ensures items { data_of d.new ≡ model.with_acks (queue_after (take_written names.now (data_of d.old).acks) (data_of d.old).acks) (data_of d.old) }
    ensures answer { result ≡ answer_of done_in (wrote_answer (take_written names.now (data_of d.old).acks)) }
{
    match d.acks.take_written(names) {
        Ok(()) => Ok(()),
        Err(_) => Err(Refusal::OutOfRange),
    }
}

impl Table {
    fn take_written(&mut self, key: &Key, names: &[u32]) -> Result<(), Refusal>
        requires { IsTable self.old }
        ensures table { IsTable self.new }
        ensures state { state_of self.new ≡ (reply (Calls.acks_written key.now names.now) (state_of self.old)).state }
        ensures answer { result ≡ answer_of done_in (reply (Calls.acks_written key.now names.now) (state_of self.old)).answer }
    {
        if !key.well_made() {
            return Err(Refusal::OutOfRange);
        }
        match self.position(key) {
            None => absent(names),
            Some(i) => {
                if key.on == 1 {
                    take_written(&mut self.ons[i].off, names)
                } else {
                    take_written(&mut self.offs[i].off, names)
                }
            }
        }
    }

    /// The acknowledgements of these numbers were written: they leave the ack queue of the key's channel, each at its earliest place.
    /// Refused, and nothing is changed: a malformed table, a key out of range, a name that is lacking (any, on an absent channel), an
    /// absent channel.
    pub fn acks_written(&mut self, key: &Key, names: &[u32]) -> Result<(), Refusal>
        ensures table { self.new ≡ (called (Calls.acks_written key.now names.now) self.old).table }
        ensures answer { result ≡ answer_of done_in (called (Calls.acks_written key.now names.now) self.old).answer }
        ensures code { code_in result ≡ code_of (called (Calls.acks_written key.now names.now) self.old).answer }
    {
        if !self.is_well_formed() {
            return Err(Refusal::NotWellFormed);
        }
        self.take_written(key, names)
    }
}
