//! Fragments that wait for their bundle, in groups by the first number of their range (Rust: `Fragments`, `in_fragments`).

ghost use Rattle.std.specs.Prelude.{◌≡◌, ◌<◌, ◌≤◌, true, [], ◌∷◌, ◌++◌, ℕ, length, set, get_or, remove, take, map, All, OnOk, OnErr};
ghost use Rattle.list.specs.Find.{has, position};
ghost use Rattle.model.specs.Group.{new_group, store, stale, full, is_first, is_beyond, in_places};
ghost use Rattle.model.specs.Rust.{holds_group, holds_place};
ghost use Rattle.queues.specs.Places.{no_fragments, group_of, IsGroup, no_group, groups_of, IsGroups, places};

use list::Full;

/// How long a group waits for its next fragment, in milliseconds; a fragment that comes later is dropped.
const FRAGMENT_TIMEOUT: u64 = 10_000;

/// The fragments of one range, by its first number. A filled place has mark 1 and its handle, an empty one 0 and 0; `len` places are in
/// use, `count` of them are filled. `updated` is the time of the last fragment.
#[repr(C)]
#[derive(Clone, Copy)]
pub struct Fragments {
    pub updated: u64,
    pub first: u32,
    pub len: u32,
    pub count: u32,
    pub marks: [u32; 32],
    pub handles: [u32; 32],
}

/// Up to 4 groups, in order of creation.
#[repr(C)]
#[derive(Clone, Copy)]
pub struct Groups {
    pub len: u32,
    pub groups: [Fragments; 4],
}

impl Fragments {
    /// An unused place for a group.
    pub fn none() -> Fragments
        ensures { result ≡ no_fragments }
    {
        Fragments {
            updated: 0,
            first: 0,
            len: 0,
            count: 0,
            marks: [0; 32],
            handles: [0; 32],
        }
    }

    /// The group of a range from its first number, with `len` places that are all empty; `time` is in milliseconds.
    pub fn new(first: u32, len: u32, time: u64) -> Fragments
        requires { len ≤ 32 }
        ensures group { IsGroup result }
        ensures new { group_of result ≡ new_group first len time }
    {
        Fragments {
            updated: time,
            first,
            len,
            count: 0,
            marks: [0; 32],
            handles: [0; 32],
        }
    }

    /// Puts a fragment at place `i`, over what may be there; the count is raised only where the place was empty.
    pub fn store(&mut self, i: usize, handle: u32, time: u64)
        requires group { IsGroup self.old }
        requires there { i < self.old.len }
        ensures group { IsGroup self.new }
        ensures stored { group_of self.new ≡ store i handle time (group_of self.old) }
    {
        self.count += 1 - self.marks[i];
        self.marks[i] = 1;
        self.handles[i] = handle;
        self.updated = time;
    }

    /// Whether its last fragment came too long before that time, in milliseconds.
    pub fn is_stale(&self, time: u64) -> bool
        ensures { result ≡ stale time (group_of self.now) }
    {
        time.saturating_sub(self.updated) > FRAGMENT_TIMEOUT
    }

    /// Whether place `i` is none of the group's.
    pub fn is_beyond(&self, i: usize) -> bool
        requires { IsGroup self.now }
        ensures { result ≡ is_beyond i (group_of self.now) }
    {
        self.len as usize <= i
    }

    pub fn is_full(&self) -> bool
        requires { IsGroup self.now }
        ensures { result ≡ full (group_of self.now) }
    {
        self.count == self.len
    }

    /// Whether a fragment at place `i` fills the group, whichever handle it has.
    pub fn fills(&self, i: usize) -> bool
        requires group { IsGroup self.now }
        requires there { i < self.now.len }
        ensures { (handle : ℕ) → (time : ℕ) → result ≡ full (store i handle time (group_of self.now)) }
    {
        self.count + (1 - self.marks[i]) == self.len
    }

    /// The handles of a full group in place order.
    pub fn handles(&self) -> &[u32]
        requires group { IsGroup self.now }
        requires full { full (group_of self.now) ≡ true }
        ensures { result.now ≡ in_places (group_of self.now).places }
    {
        &self.handles[..self.len as usize]
    }

    /// Whether one of its fragments has that handle. For a group of any counts and marks.
    pub fn holds(&self, handle: u32) -> bool
        ensures { result ≡ holds_group handle (group_of self.now) }
    {
        let marks = &self.marks;
        let handles = &self.handles;
        holds(
            list::used(self.len, marks),
            list::used(self.len, handles),
            handle,
        )
    }
}

/// Whether one of these marked handles is that one.
fn holds(marks: &[u32], handles: &[u32], handle: u32) -> bool
    requires { length marks.now ≡ length handles.now }
    ensures { result ≡ has (holds_place handle) (places (length marks.now) marks.now handles.now) }
{
    for i in 0..marks.len() {
        if marks[i] == 1 && handles[i] == handle {
            return true;
        }
    }
    false
}

/// Where the group of that first number stands.
fn position(groups: &[Fragments], first: u32) -> Option<usize>
    ensures { result ≡ position (is_first first) (map group_of groups.now) }
{
    groups.iter().position(|g| g.first == first)
}

/// Whether one of these has a fragment with that handle.
fn one_holds(groups: &[Fragments], handle: u32) -> bool
    ensures { result ≡ has (holds_group handle) (map group_of groups.now) }
{
    for g in groups {
        if g.holds(handle) {
            return true;
        }
    }
    false
}

impl Groups {
    ghost use Rattle.queues.specs.Places.{no_groups};

    pub fn new() -> Groups
        ensures none { result ≡ no_groups }
        ensures groups { IsGroups result }
        ensures items { groups_of result ≡ [] }
    {
        Groups {
            len: 0,
            groups: [Fragments::none(); 4],
        }
    }

    /// The groups, of any count.
    pub fn as_slice(&self) -> &[Fragments]
        ensures { result.now ≡ take self.now.len self.now.groups }
    {
        list::used(self.len, &self.groups)
    }

    /// The group that stands at `i`.
    pub fn at(&self, i: usize) -> &Fragments
        requires groups { IsGroups self.now }
        requires there { i < length (groups_of self.now) }
        ensures group { IsGroup result.now }
        ensures item { group_of result.now ≡ get_or (groups_of self.now) i no_group }
    {
        &self.groups[i]
    }

    /// Where the group of that first number stands.
    pub fn position(&self, first: u32) -> Option<usize>
        requires { IsGroups self.now }
        ensures { result ≡ position (is_first first) (groups_of self.now) }
    {
        position(self.as_slice(), first)
    }

    /// Puts a fragment at place `i` of the group that stands at `g`.
    pub fn store(&mut self, g: usize, i: usize, handle: u32, time: u64)
        requires groups { IsGroups self.old }
        requires there { g < length (groups_of self.old) }
        requires place { i < length (get_or (groups_of self.old) g no_group).places }
        ensures groups { IsGroups self.new }
        ensures items { groups_of self.new ≡ set (groups_of self.old) g (store i handle time (get_or (groups_of self.old) g no_group)) }
    {
        self.groups[g].store(i, handle, time);
    }

    /// Puts a group in the place of the one that stands at `i`.
    pub fn put(&mut self, i: usize, g: Fragments)
        requires groups { IsGroups self.old }
        requires there { i < length (groups_of self.old) }
        requires group { IsGroup g }
        ensures groups { IsGroups self.new }
        ensures items { groups_of self.new ≡ set (groups_of self.old) i (group_of g) }
    {
        self.groups[i] = g;
    }

    /// Adds a group after the last.
    pub fn push(&mut self, g: Fragments) -> Result<(), Full>
        requires groups { IsGroups self.old }
        requires group { IsGroup g }
        ensures full { OnErr result (4 ≤ length (groups_of self.old)) }
        ensures groups { IsGroups self.new }
        ensures items { OnOk result (groups_of self.new ≡ groups_of self.old ++ group_of g ∷ []) }
        ensures unchanged { OnErr result (self.new ≡ self.old) }
    {
        list::push(&mut self.len, &mut self.groups, Fragments::none(), g)?;
        Ok(())
    }

    /// Takes the group that stands at `i` out, and those after it move up.
    pub fn remove(&mut self, i: usize)
        requires groups { IsGroups self.old }
        requires there { i < length (groups_of self.old) }
        ensures groups { IsGroups self.new }
        ensures items { groups_of self.new ≡ remove (groups_of self.old) i }
    {
        list::remove(&mut self.len, &mut self.groups, Fragments::none(), i);
    }

    /// Whether one of its groups has a fragment with that handle. For groups of any counts and marks.
    pub fn holds(&self, handle: u32) -> bool
        ensures { result ≡ has (holds_group handle) (groups_of self.now) }
    {
        one_holds(self.as_slice(), handle)
    }
}
