//! A packet forwarded out.

ghost use Rattle.std.specs.Prelude.{◌≡◌, true};
ghost use Rattle.packet.specs.Data.{well_made};
ghost use Rattle.model.specs.Calls as call;
ghost use Rattle.model.specs.Port as port;
ghost use Rattle.tab.specs.Tables.{IsTable, state_of};
ghost use Rattle.tab.specs.Answers.{code_in, code_of};
ghost use Rattle.tab.specs.Calls.{called, answer_of, view_in};
ghost use Rattle.tab.specs.Played as Spec;

use crate::Table;
use chan::Way;
use packet::{Record, Refusal, View};

impl Table {
    /// A well-made record, once the time is set.
    fn forward(&mut self, time: u64, address: u32, r: &Record) -> Result<View, Refusal>
        requires table { IsTable self.old }
        requires made { well_made r.now ≡ true }
        ensures table { IsTable self.new }
        ensures result { result ≡ (Spec.out_placed time address r.now (state_of self.old)).answer }
        ensures state { state_of self.new ≡ (Spec.out_placed time address r.now (state_of self.old)).state }
    {
        if r.on == 1 {
            return self.settle_on(Way::Out, self.prefix, time, address, r);
        }
        self.settle_off(Way::Out, self.prefix, time, address, r)
    }

    /// A record that the relay sent on to that address at that time, in milliseconds; the last prefix stays. It is refused with no change
    /// where the table is malformed, the record is malformed or the time is below the latest. Otherwise the time is the latest from now
    /// on: that is all where there is no place for its channel, or a list would be over its limit. Refused for a cumulative ack
    /// off-channel it leaves its channel, found or made.
    pub fn accept_out(&mut self, time: u64, address: u32, r: &Record) -> Result<View, Refusal>
        ensures table { self.new ≡ (called (call.accept_out time address r.now) self.old).table }
        ensures answer { result ≡ answer_of view_in (called (call.accept_out time address r.now) self.old).answer }
        ensures code { code_in result ≡ code_of (called (call.accept_out time address r.now) self.old).answer }
    {
        if !self.is_well_formed() {
            return Err(Refusal::NotWellFormed);
        }
        if !r.well_made() {
            return Err(Refusal::OutOfRange);
        }
        if time < self.latest {
            return Err(Refusal::TimeBelow);
        }
        self.latest = time;
        self.forward(time, address, r)
    }
}
