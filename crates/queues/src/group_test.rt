//! Whether any bytes are a channel's groups of fragments.

ghost use Rattle.std.specs.Prelude.{◌≡◌, ◌≤◌, ◌↔◌, true, IsTrue, All, map, length, take, fold, replicate, zip};
ghost use Rattle.list.specs.Find.{sum};
ghost use Rattle.model.specs.Wellformed.{distinct, same_first};
ghost use Rattle.queues.specs.Folds.{count_place};
ghost use Rattle.queues.specs.Tests.{places_good};
ghost use Rattle.queues.specs.Places.{group_of, no_fragments};
ghost use Rattle.queues.specs.Good.{IsGoodGroup, IsGoodGroups};

use crate::groups::{Fragments, Groups};
use crate::words::{LAST, are_zero};

/// Whether each place is filled or empty, and how many are filled, in one pass.
fn count_places(marks: &[u32], handles: &[u32]) -> (bool, u32)
    ensures { result ≡ fold count_place (true, 0) (zip marks.now handles.now) }
{
    marks.iter().zip(handles).fold((true, 0u32), |a, (m, h)| {
        (
            a.0 & ((*m == 1) | ((*m == 0) & (*h == 0))),
            a.1.wrapping_add(*m),
        )
    })
}

/// Whether each place is filled or empty, and `count` of them are filled.
#[tactic(auto, using(crate::proofs::Folds::counts_good, crate::proofs::Folds::counts_marks))]
fn are_places(marks: &[u32], handles: &[u32], count: u32) -> bool
    requires same { length marks.now ≡ length handles.now }
    requires few { length marks.now ≤ 64 }
    ensures { IsTrue result ↔ ((places_good marks.now handles.now ≡ true) × (sum marks.now ≡ count)) }
{
    let counted = count_places(marks, handles);
    counted.0 && counted.1 == count
}

impl Fragments {
    /// Whether this is a group in its form, with a legal first number and an update not after the latest time.
    fn is_group(&self, latest: u64) -> bool
        ensures { IsTrue result ↔ IsGoodGroup latest self.now }
    {
        self.len <= 32
            && self.updated <= latest
            && self.first <= LAST
            && are_places(&self.marks, &self.handles, self.count)
            && are_zero(&self.marks[self.len as usize..])
    }

    /// Whether this is an unused place.
    fn is_none(&self) -> bool
        ensures { IsTrue result ↔ (self.now ≡ no_fragments) }
    {
        self.updated == 0
            && self.first == 0
            && self.len == 0
            && self.count == 0
            && are_zero(&self.marks)
            && are_zero(&self.handles)
    }
}

fn are_groups(s: &[Fragments], latest: u64) -> bool
    ensures { IsTrue result ↔ All (λ g. IsGoodGroup latest g) s.now }
{
    s.iter().all(|g| g.is_group(latest))
}

#[tactic(auto, using(list::proofs::Edits::blanks_by, list::proofs::Edits::blank_by))]
fn are_none(s: &[Fragments]) -> bool
    ensures { IsTrue result ↔ (s.now ≡ replicate (length s.now) no_fragments) }
{
    s.iter().all(|g| g.is_none())
}

/// Whether the first numbers of the first `n` groups are distinct.
fn firsts_apart(s: &[Fragments; 4], n: u32) -> bool
    requires { n ≤ 4 }
    ensures { result ≡ distinct same_first (map group_of (take n s.now)) }
{
    let a = s[0].first;
    let b = s[1].first;
    let c = s[2].first;
    let d = s[3].first;
    let two = (n < 2) | (b != a);
    let three = (n < 3) | ((c != a) & (c != b));
    let four = (n < 4) | ((d != a) & (d != b) & (d != c));
    two & three & four
}

impl Groups {
    /// Whether the groups are in their form, each good at a table's latest time, and no two of one first number.
    pub fn is_well_formed(&self, latest: u64) -> bool
        ensures { IsTrue result ↔ IsGoodGroups latest self.now }
    {
        self.len <= 4
            && are_groups(&self.groups[..self.len as usize], latest)
            && are_none(&self.groups[self.len as usize..])
            && firsts_apart(&self.groups, self.len)
    }
}
