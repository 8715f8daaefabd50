//! The test whether a table is well formed, for any bytes.

ghost use Rattle.std.specs.Prelude.{◌≡◌, ◌≤◌, ◌↔◌, ◌==◌, ◌&&◌, IsTrue, All, map, length};
ghost use Rattle.std.specs.List.{list_any};
ghost use Rattle.model.specs.Wellformed.{distinct, same_off, same_on};
ghost use Rattle.chan.specs.Channels.{off_of, on_of};
ghost use Rattle.chan.specs.Good.{IsGoodOff, IsGoodOn, IsIdleOff, IsIdleOn};
ghost use Rattle.tab.specs.Good.{AreGoodCounts, AreGoodOffs, AreGoodOns, IsGoodTable};
ghost use Rattle.tab.specs.Test.{wfb, IsWellFormed};

use crate::Table;
use chan::{OffChannel, OnChannel};
use queues::words::LAST;

fn are_offs(s: &[OffChannel], latest: u64) -> bool
    ensures { IsTrue result ↔ All (λ c. IsGoodOff latest c) s.now }
{
    s.iter().all(|c| c.is_well_formed(latest))
}

fn are_ons(s: &[OnChannel], latest: u64) -> bool
    ensures { IsTrue result ↔ All (λ c. IsGoodOn latest c) s.now }
{
    s.iter().all(|c| c.is_well_formed(latest))
}

fn idle_offs(s: &[OffChannel]) -> bool
    ensures { IsTrue result ↔ All IsIdleOff s.now }
{
    s.iter().all(|c| c.is_idle())
}

fn idle_ons(s: &[OnChannel]) -> bool
    ensures { IsTrue result ↔ All IsIdleOn s.now }
{
    s.iter().all(|c| c.is_idle())
}

/// Whether each channel is good, and those past the first `n` are unused.
fn offs_good(s: &[OffChannel; 4], n: usize, latest: u64) -> bool
    requires { n ≤ 4 }
    ensures { IsTrue result ↔ AreGoodOffs latest n s.now }
{
    are_offs(s, latest) && idle_offs(&s[n..])
}

fn ons_good(s: &[OnChannel; 8], n: usize, latest: u64) -> bool
    requires { n ≤ 8 }
    ensures { IsTrue result ↔ AreGoodOns latest n s.now }
{
    are_ons(s, latest) && idle_ons(&s[n..])
}

fn has_off(s: &[OffChannel], address: u32) -> bool
    ensures { result ≡ list_any (λ c. c.address == address) s.now }
{
    s.iter().any(|c| c.address == address)
}

fn has_on(s: &[OnChannel], address: u32, index: u32) -> bool
    ensures { result ≡ list_any (λ c. (c.address == address) && (c.index == index)) s.now }
{
    s.iter().any(|c| c.address == address && c.index == index)
}

/// Whether no key is that of a later channel.
fn offs_apart(s: &[OffChannel]) -> bool
    ensures { result ≡ distinct same_off (map off_of s.now) }
{
    for i in 0..s.len() {
        if has_off(&s[i + 1..], s[i].address) {
            return false;
        }
    }
    true
}

fn ons_apart(s: &[OnChannel]) -> bool
    ensures { result ≡ distinct same_on (map on_of s.now) }
{
    for i in 0..s.len() {
        if has_on(&s[i + 1..], s[i].address, s[i].index) {
            return false;
        }
    }
    true
}

impl Table {
    /// Whether the flag, the shared number and the counts are in range.
    fn counts_good(&self) -> bool
        ensures { IsTrue result ↔ AreGoodCounts self.now }
    {
        self.forwarding <= 1 && self.source.next <= LAST && self.offcount <= 4 && self.oncount <= 8
    }

    fn parts_good(&self) -> bool
        ensures { IsTrue result ↔ IsGoodTable self.now }
    {
        self.counts_good()
            && offs_good(&self.offs, self.offcount as usize, self.latest)
            && ons_good(&self.ons, self.oncount as usize, self.latest)
            && offs_apart(&self.offs[..self.offcount as usize])
            && ons_apart(&self.ons[..self.oncount as usize])
    }

    /// Whether the table is well formed: it is in its form, its numbers and keys are legal, keys are distinct, and each channel's lists
    /// are as the relay keeps them. For any bytes.
    pub fn is_well_formed(&self) -> bool
        ensures test { result ≡ wfb self.now }
        ensures means { IsTrue result ↔ IsWellFormed self.now }
    {
        self.parts_good()
    }
}
