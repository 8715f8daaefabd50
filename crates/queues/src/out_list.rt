//! The out list: reliable packets sent and not yet acknowledged (Rust: `out_reliable_packets`).

ghost use Rattle.std.specs.Prelude.{◌≡◌, ◌+◌, ◌-◌, ◌^◌, ◌<◌, ◌≤◌, ◌∷◌, ◌++◌, [], map, length, drop, leb, OnOk, OnErr, position};
ghost use Rattle.list.specs.Find.{has, keep_by, written_at};
ghost use Rattle.list.specs.Pad.{all_b};
ghost use Rattle.packet.specs.Data.{no_entry};
ghost use Rattle.model.specs.Acks.{search, entry_number, has_number, is_greater, insert_out, ack_single, ack_singles, ack_cumulative};
ghost use Rattle.model.specs.Calls.{flat};
ghost use Rattle.model.specs.Rust as Rust;
ghost use Rattle.queues.specs.Out.{entries, IsOutList, listed, calm, due_entries, due_rows, resent};

use list::Full;
use packet::OutEntry;
use seq::Seq;
use std::cmp::Ordering;

/// Up to 32 packets sent and not yet acknowledged, in order of sending or of their numbers.
#[repr(C)]
#[derive(Clone, Copy)]
pub struct OutList {
    pub len: u32,
    pub entries: [OutEntry; 32],
}

/// The time of a resend, after how long without an ack a packet is sent again, and after how long it is given up, in the host's unit of time.
#[derive(Clone, Copy)]
pub struct Clock {
    pub time: u64,
    pub timeout: u64,
    pub give_up: u64,
}

impl Clock {
    /// The time that went by since then: 0 where that is yet to come.
    fn age(&self, since: u64) -> u64
        ensures { result ≡ self.now.time - since }
    {
        self.time.saturating_sub(since)
    }

    /// Whether the entry is not given up.
    pub fn young(&self, e: &OutEntry) -> bool
        ensures { result ≡ Rust.young self.now.time self.now.give_up e.now }
    {
        self.age(e.time) < self.give_up
    }

    /// Whether the entry is to be sent again: it has a handle, and was last sent at least the timeout ago.
    pub fn due(&self, e: &OutEntry) -> bool
        ensures { result ≡ Rust.due self.now.time self.now.timeout e.now }
    {
        e.held == 1 && self.timeout <= self.age(e.sent)
    }

    /// Whether a resend gives the entry a row.
    fn listed(&self, e: &OutEntry) -> bool
        ensures { result ≡ listed self.now.time self.now.timeout self.now.give_up e.now }
    {
        self.young(e) && self.due(e)
    }

    /// Whether a resend leaves the entry as it is: it is neither given up nor due.
    fn stays(&self, e: &OutEntry) -> bool
        ensures { result ≡ calm self.now.time self.now.timeout self.now.give_up e.now }
    {
        self.young(e) && !self.due(e)
    }

    /// The entry after a resend: last sent now, if it is due.
    pub fn mark(&self, e: &OutEntry) -> OutEntry
        ensures { result ≡ Rust.mark self.now.time self.now.timeout e.now }
    {
        let mut marked = *e;
        if self.due(e) {
            marked.sent = self.time;
        }
        marked
    }
}

/// Where an entry of that number goes in these, searched from the end; nowhere if the number is there.
#[tactic(auto, using(crate::proofs::OutSearch::search_step, crate::proofs::OutSearch::search_none))]
pub fn place_of(entries: &[OutEntry], number: u32) -> Option<usize>
    ensures { result ≡ search entry_number no_entry number entries.now (length entries.now) }
{
    for i in (0..entries.len()).rev() {
        match Seq(number).compare(Seq(entries[i].number)) {
            Ordering::Equal => return None,
            Ordering::Greater => return Some(i + 1),
            Ordering::Less => {}
        }
    }
    Some(0)
}

/// How many entries in front a cumulative ack of that number removes.
fn passed(entries: &[OutEntry], number: u32) -> usize
    ensures within { result ≤ length entries.now }
    ensures rest { drop result entries.now ≡ ack_cumulative number entries.now }
{
    let mut n = 0;
    for e in entries {
        match Seq(number).compare(Seq(e.number)) {
            Ordering::Greater => n += 1,
            Ordering::Equal => return n,
            Ordering::Less => return n,
        }
    }
    n
}

/// Writes a row for each entry that is due, from place `at` on, and answers the place after them.
fn list_rows(entries: &[OutEntry], address: u32, clock: Clock, lent: &mut [u32], at: usize) -> usize
    requires room { at + length (flat (due_rows address clock entries.now)) ≤ length lent.old }
    ensures rows { lent.new ≡ written_at at (flat (due_rows address clock entries.now)) lent.old }
    ensures next { result ≡ at + length (flat (due_rows address clock entries.now)) }
{
    let mut next = at;
    for e in entries {
        if clock.listed(e) {
            lent[next] = address;
            lent[next + 1] = e.handle;
            next += 2;
        }
    }
    next
}

/// How many of these are due.
fn count_due(entries: &[OutEntry], clock: Clock) -> u32
    requires { length entries.now < 2 ^ 32 }
    ensures { result ≡ length (due_entries clock entries.now) }
{
    let mut n = 0;
    for e in entries {
        if clock.listed(e) {
            n += 1;
        }
    }
    n
}

impl OutList {
    ghost use Rattle.queues.specs.Out.{no_out_list};

    pub fn new() -> OutList
        ensures none { result ≡ no_out_list }
        ensures list { IsOutList result }
        ensures items { entries result ≡ [] }
    {
        OutList {
            len: 0,
            entries: [OutEntry::none(); 32],
        }
    }

    /// The entries. Past a count of 32 they are the entries of all places.
    pub fn as_slice(&self) -> &[OutEntry]
        ensures items { result.now ≡ entries self.now }
        ensures few { length result.now ≤ 32 }
    {
        list::used(self.len, &self.entries)
    }

    /// Whether there is room for an entry in its place by its number: none is needed where that number is there.
    #[tactic(auto, using(crate::proofs::OutSearch::none_room, crate::proofs::OutSearch::some_room))]
    pub fn has_room_for(&self, e: OutEntry) -> bool
        requires { IsOutList self.now }
        ensures { result ≡ leb (length (insert_out e (entries self.now))) 32 }
    {
        match place_of(self.as_slice(), e.number) {
            None => true,
            Some(_) => self.len < 32,
        }
    }

    /// Adds an entry at the end.
    pub fn push(&mut self, e: OutEntry) -> Result<(), Full>
        requires { IsOutList self.old }
        ensures full { OnErr result (32 ≤ length (entries self.old)) }
        ensures list { IsOutList self.new }
        ensures items { OnOk result (entries self.new ≡ entries self.old ++ e ∷ []) }
        ensures unchanged { OnErr result (self.new ≡ self.old) }
    {
        list::push(&mut self.len, &mut self.entries, OutEntry::none(), e)?;
        Ok(())
    }

    /// Puts an entry in its place by its number, unless that number is there.
    #[tactic(auto, using(crate::proofs::OutSearch::again, crate::proofs::OutSearch::placed, crate::proofs::OutSearch::within))]
    pub fn insert(&mut self, e: OutEntry) -> Result<(), Full>
        requires { IsOutList self.old }
        ensures full { OnErr result (32 < length (insert_out e (entries self.old))) }
        ensures list { IsOutList self.new }
        ensures items { OnOk result (entries self.new ≡ insert_out e (entries self.old)) }
        ensures unchanged { OnErr result (self.new ≡ self.old) }
    {
        match place_of(self.as_slice(), e.number) {
            None => Ok(()),
            Some(i) => {
                list::insert(&mut self.len, &mut self.entries, OutEntry::none(), i, e)?;
                Ok(())
            }
        }
    }

    fn position(&self, number: u32) -> Option<usize>
        requires { IsOutList self.now }
        ensures { result ≡ position (has_number number) (entries self.now) }
    {
        self.as_slice().iter().position(|e| e.number == number)
    }

    /// Removes the first entry of that number, if there is one.
    #[tactic(auto, using(list::proofs::Firsts::removed_first, list::proofs::Firsts::first_within, list::proofs::Firsts::none_first))]
    pub fn ack(&mut self, number: u32)
        requires { IsOutList self.old }
        ensures list { IsOutList self.new }
        ensures items { entries self.new ≡ ack_single number (entries self.old) }
    {
        match self.position(number) {
            Some(i) => list::remove(&mut self.len, &mut self.entries, OutEntry::none(), i),
            None => {}
        }
    }

    /// Removes the first entry of each number, in turn.
    pub fn ack_singles(&mut self, numbers: &[u32])
        requires { IsOutList self.old }
        ensures list { IsOutList self.new }
        ensures items { entries self.new ≡ ack_singles numbers.now (entries self.old) }
    {
        for n in numbers {
            self.ack(*n);
        }
    }

    /// Removes entries from the front up to one that the number is not after.
    pub fn ack_cumulative(&mut self, number: u32)
        requires { IsOutList self.old }
        ensures list { IsOutList self.new }
        ensures items { entries self.new ≡ ack_cumulative number (entries self.old) }
    {
        let n = passed(self.as_slice(), number);
        list::take_front(&mut self.len, &mut self.entries, OutEntry::none(), n);
    }

    /// Whether an entry holds the handle.
    pub fn holds(&self, handle: u32) -> bool
        requires { IsOutList self.now }
        ensures { result ≡ has (Rust.holds_entry handle) (entries self.now) }
    {
        self.as_slice()
            .iter()
            .any(|e| e.held == 1 && e.handle == handle)
    }

    /// How many rows a resend lists.
    pub fn count_due(&self, clock: Clock) -> u32
        requires { IsOutList self.now }
        ensures { result ≡ length (due_entries clock (entries self.now)) }
    {
        count_due(self.as_slice(), clock)
    }

    /// Whether a resend leaves the list as it is and lists nothing of it. For a list of any count.
    pub fn is_quiet(&self, clock: Clock) -> bool
        ensures { result ≡ all_b (λ e. calm clock.time clock.timeout clock.give_up e) (entries self.now) }
    {
        self.as_slice().iter().all(|e| clock.stays(e))
    }

    /// Lists the entries that are due, as address and handle, from place `at` on, and answers the place after them. Entries that are given
    /// up go, and those listed are last sent now.
    pub fn resend(&mut self, address: u32, clock: Clock, lent: &mut [u32], at: usize) -> usize
        requires list { IsOutList self.old }
        requires room { at + length (flat (due_rows address clock (entries self.old))) ≤ length lent.old }
        ensures list { IsOutList self.new }
        ensures items { entries self.new ≡ resent clock (entries self.old) }
        ensures rows { lent.new ≡ written_at at (flat (due_rows address clock (entries self.old))) lent.old }
        ensures next { result ≡ at + length (flat (due_rows address clock (entries self.old))) }
    {
        if self.is_quiet(clock) {
            return at;
        }
        let next = list_rows(self.as_slice(), address, clock, lent, at);
        list::retain(
            &mut self.len,
            &mut self.entries,
            OutEntry::none(),
            |e| clock.young(e),
        );
        list::map(&self.len, &mut self.entries, OutEntry::none(), |e| {
            clock.mark(e)
        });
        next
    }
}
