//! Whether any bytes are an out list whose entries are good.

ghost use Rattle.std.specs.Prelude.{◌≡◌, ◌↔◌, IsTrue, All, length, fold, replicate};
ghost use Rattle.packet.specs.Data.{no_entry};
ghost use Rattle.queues.specs.Folds.{over_times, over_words};
ghost use Rattle.queues.specs.Good.{IsGoodEntry, IsGoodOut};

use crate::out_list::OutList;
use crate::words::LAST;
use packet::OutEntry;

/// An entry: its number is legal, it has a handle only where its flag says so, and it was sent again neither before its time nor after
/// the latest.
fn is_good(e: &OutEntry, latest: u64) -> bool
    ensures { IsTrue result ↔ IsGoodEntry latest e.now }
{
    e.number <= LAST
        && (e.held == 1 || e.held == 0 && e.handle == 0)
        && e.time <= e.sent
        && e.sent <= latest
}

fn are_good(s: &[OutEntry], latest: u64) -> bool
    ensures { IsTrue result ↔ All (λ e. IsGoodEntry latest e) s.now }
{
    s.iter().all(|e| is_good(e, latest))
}

/// The times of all entries laid over one another.
fn times_over(s: &[OutEntry]) -> (u64, u64)
    ensures { result ≡ fold over_times (0, 0) s.now }
{
    s.iter().fold((0, 0), |a, e| (a.0 | e.time, a.1 | e.sent))
}

/// The other fields of all entries laid over one another.
fn words_over(s: &[OutEntry]) -> u32
    ensures { result ≡ fold over_words 0 s.now }
{
    s.iter().fold(0, |a, e| a | e.number | e.held | e.handle)
}

#[tactic(auto, using(crate::proofs::Folds::entries_by, crate::proofs::Folds::times_none, crate::proofs::Folds::words_none))]
fn are_none(s: &[OutEntry]) -> bool
    ensures { IsTrue result ↔ (s.now ≡ replicate (length s.now) no_entry) }
{
    let times = times_over(s);
    times.0 == 0 && times.1 == 0 && words_over(s) == 0
}

impl OutList {
    /// Whether the list is in its form and its entries are good at a table's latest time.
    #[inline(never)]
    pub fn is_well_formed(&self, latest: u64) -> bool
        ensures { IsTrue result ↔ IsGoodOut latest self.now }
    {
        self.len <= 32
            && are_good(&self.entries[..self.len as usize], latest)
            && are_none(&self.entries[self.len as usize..])
    }
}
