//! The next bundle of a channel, and whether a handle is held.

ghost use Rattle.std.specs.Prelude.{◌≡◌, length, map, All};
ghost use Rattle.list.specs.Find.{has};
ghost use Rattle.model.specs.Rust.{holds, holds_off, holds_on};
ghost use Rattle.model.specs.Calls as Calls;
ghost use Rattle.model.specs.Port.{reply};
ghost use Rattle.queues.specs.Made.{bundles_of, IsBundles};
ghost use Rattle.chan.specs.Channels.{off_of, IsOffChannel, on_of, IsOnChannel};
ghost use Rattle.tab.specs.Tables.{IsTable, state_of};
ghost use Rattle.tab.specs.Answers.{code_in, code_of};
ghost use Rattle.tab.specs.Calls.{called, answer_of, bundle_in, held_in};
ghost use Rattle.tab.specs.Offers.{offered, left_after};

use crate::Table;
use chan::{OffChannel, OnChannel};
use packet::{Key, Refusal};
use queues::Bundles;

/// The handles of the bundle that is next are written from the front of the lent list, and it is gone: the answer is how many, or `None`
/// where none waits. A lent list that is too short for them is refused, and nothing is changed or written.
#[tactic(auto, using(crate::proofs::Offers::no_first, crate::proofs::Offers::first_length, crate::proofs::Offers::short_offered, crate::proofs::Offers::short_left, crate::proofs::Offers::one_offered, crate::proofs::Offers::one_left))]
pub fn hand_out(b: &mut Bundles, lent: &mut [u32]) -> Result<Option<usize>, Refusal>
    requires { IsBundles b.old }
    ensures bundles { IsBundles b.new }
    ensures items { bundles_of b.new ≡ left_after (bundles_of b.old) (length lent.old) }
    ensures answer { result ≡ answer_of bundle_in (offered (bundles_of b.old) (length lent.old)) }
    ensures lent { lent.new ≡ Calls.lent (offered (bundles_of b.old) (length lent.old)) lent.old }
{
    match b.front_len() {
        None => Ok(None),
        Some(n) => {
            if lent.len() < n {
                return Err(Refusal::ListTooShort);
            }
            b.pop_front(lent);
            Ok(Some(n))
        }
    }
}

/// Whether one of these channels has the handle.
fn any_off(channels: &[OffChannel], handle: u32) -> bool
    requires { All IsOffChannel channels.now }
    ensures { result ≡ has (holds_off handle) (map off_of channels.now) }
{
    for c in channels {
        if c.holds(handle) {
            return true;
        }
    }
    false
}

fn any_on(channels: &[OnChannel], handle: u32) -> bool
    requires { All IsOnChannel channels.now }
    ensures { result ≡ has (holds_on handle) (map on_of channels.now) }
{
    for c in channels {
        if c.holds(handle) {
            return true;
        }
    }
    false
}

impl Table {
    fn hand_out(&mut self, key: &Key, lent: &mut [u32]) -> Result<Option<usize>, Refusal>
        requires { IsTable self.old }
        ensures table { IsTable self.new }
        ensures state { state_of self.new ≡ (reply (Calls.next_bundle key.now lent.old) (state_of self.old)).state }
        ensures answer { result ≡ answer_of bundle_in (reply (Calls.next_bundle key.now lent.old) (state_of self.old)).answer }
        ensures lent { lent.new ≡ Calls.lent (reply (Calls.next_bundle key.now lent.old) (state_of self.old)).answer lent.old }
    {
        if !key.well_made() {
            return Err(Refusal::OutOfRange);
        }
        match self.position(key) {
            None => Err(Refusal::ChannelAbsent),
            Some(i) => {
                if key.on == 1 {
                    hand_out(&mut self.ons[i].off.bundles, lent)
                } else {
                    hand_out(&mut self.offs[i].off.bundles, lent)
                }
            }
        }
    }

    /// Hands out the next bundle of the key's channel: its handles are written from the front of `lent`, and the answer is how many;
    /// `None` where none waits. Refused, and nothing is changed or written: a malformed table, a key out of range, a channel that is
    /// absent, a lent list that is too short.
    pub fn next_bundle(&mut self, key: &Key, lent: &mut [u32]) -> Result<Option<usize>, Refusal>
        ensures table { self.new ≡ (called (Calls.next_bundle key.now lent.old) self.old).table }
        ensures answer { result ≡ answer_of bundle_in (called (Calls.next_bundle key.now lent.old) self.old).answer }
        ensures code { code_in result ≡ code_of (called (Calls.next_bundle key.now lent.old) self.old).answer }
        ensures lent { lent.new ≡ Calls.lent (called (Calls.next_bundle key.now lent.old) self.old).answer lent.old }
    {
        if !self.is_well_formed() {
            return Err(Refusal::NotWellFormed);
        }
        self.hand_out(key, lent)
    }

    fn any_holds(&self, handle: u32) -> bool
        requires { IsTable self.now }
        ensures { result ≡ holds handle (state_of self.now).protocol }
    {
        any_off(&self.offs[..self.offcount as usize], handle)
            || any_on(&self.ons[..self.oncount as usize], handle)
    }

    /// Whether the handle is in an out list, a buffer, a contiguous queue, a group, or a bundle that is not yet handed out. A malformed
    /// table is refused.
    pub fn holds(&self, handle: u32) -> Result<bool, Refusal>
        ensures table { self.now ≡ (called (Calls.holds handle) self.now).table }
        ensures answer { result ≡ answer_of held_in (called (Calls.holds handle) self.now).answer }
        ensures code { code_in result ≡ code_of (called (Calls.holds handle) self.now).answer }
    {
        if self.is_well_formed() {
            return Ok(self.any_holds(handle));
        }
        Err(Refusal::NotWellFormed)
    }
}
