//! Bundles that are made and wait to be handed out (Rust: `in_bundles`).

ghost use Rattle.std.specs.Prelude.{◌≡◌, ◌+◌, ◌^◌, ◌<◌, ◌≤◌, ◌⊎◌, [], ◌∷◌, ◌++◌, length, take, drop, OnOk, OnErr};
ghost use Rattle.list.specs.Lists.{IsList};
ghost use Rattle.list.specs.Find.{has, joined, written};
ghost use Rattle.model.specs.Group.{handles};
ghost use Rattle.model.specs.Rust.{is_handle, holds_bundle};
ghost use Rattle.queues.specs.Made.{bundles_of, IsBundles, front, front_len, room};

use list::Full;
use packet::Packet;

/// Bundles that wait to be handed out: the length of each, and the handles of all of them one after the other.
#[repr(C)]
#[derive(Clone, Copy)]
pub struct Bundles {
    pub len: u32,
    pub total: u32,
    pub lengths: [u32; 16],
    pub handles: [u32; 64],
}

/// Adds the handles of these packets at the end.
fn add_handles(len: &mut u32, places: &mut [u32], packets: &[Packet]) -> Result<(), Full>
    requires list { IsList (length places.old) 0 len.old places.old }
    requires small { length places.old < 2 ^ 32 }
    ensures full { OnErr result (length places.old < len.old + length packets.now) }
    ensures list { IsList (length places.old) 0 len.new places.new }
    ensures items { OnOk result (take len.new places.new ≡ take len.old places.old ++ handles packets.now) }
{
    for p in packets {
        list::push(len, places, 0, p.handle)?;
    }
    Ok(())
}

/// Whether the handle is one of these.
fn has_handle(handles: &[u32], handle: u32) -> bool
    ensures { result ≡ has (is_handle handle) handles.now }
{
    handles.iter().any(|h| *h == handle)
}

impl Bundles {
    ghost use Rattle.queues.specs.Made.{no_bundles};

    pub fn new() -> Bundles
        ensures none { result ≡ no_bundles }
        ensures bundles { IsBundles result }
        ensures items { bundles_of result ≡ [] }
    {
        Bundles {
            len: 0,
            total: 0,
            lengths: [0; 16],
            handles: [0; 64],
        }
    }

    /// Whether one more bundle of `n` handles has room.
    pub fn has_room(&self, n: usize) -> bool
        requires { IsBundles self.now }
        ensures { result ≡ room (bundles_of self.now) n }
    {
        self.len < 16 && n <= 64 - self.total as usize
    }

    /// Adds a bundle of these packets at the end.
    pub fn push(&mut self, packets: &[Packet]) -> Result<(), Full>
        requires { IsBundles self.old }
        ensures full { OnErr result (16 ≤ length (bundles_of self.old) ⊎ 64 < length (joined (bundles_of self.old)) + length packets.now) }
        ensures bundles { IsBundles self.new }
        ensures items { OnOk result (bundles_of self.new ≡ bundles_of self.old ++ handles packets.now ∷ []) }
        ensures unchanged { OnErr result (self.new ≡ self.old) }
    {
        if !self.has_room(packets.len()) {
            return Err(Full);
        }
        add_handles(&mut self.total, &mut self.handles, packets)?;
        list::push(&mut self.len, &mut self.lengths, 0, packets.len() as u32)?;
        Ok(())
    }

    /// Adds a bundle of these handles at the end.
    pub fn push_handles(&mut self, handles: &[u32]) -> Result<(), Full>
        requires { IsBundles self.old }
        ensures full { OnErr result (16 ≤ length (bundles_of self.old) ⊎ 64 < length (joined (bundles_of self.old)) + length handles.now) }
        ensures bundles { IsBundles self.new }
        ensures items { OnOk result (bundles_of self.new ≡ bundles_of self.old ++ handles.now ∷ []) }
        ensures unchanged { OnErr result (self.new ≡ self.old) }
    {
        if self.len >= 16 {
            return Err(Full);
        }
        list::extend(&mut self.total, &mut self.handles, 0, handles)?;
        list::push(&mut self.len, &mut self.lengths, 0, handles.len() as u32)?;
        Ok(())
    }

    /// Adds a bundle of one at the end.
    pub fn push_one(&mut self, handle: u32) -> Result<(), Full>
        requires { IsBundles self.old }
        ensures full { OnErr result (16 ≤ length (bundles_of self.old) ⊎ 64 ≤ length (joined (bundles_of self.old))) }
        ensures bundles { IsBundles self.new }
        ensures items { OnOk result (bundles_of self.new ≡ bundles_of self.old ++ (handle ∷ []) ∷ []) }
        ensures unchanged { OnErr result (self.new ≡ self.old) }
    {
        self.push_handles(&[handle])?;
        Ok(())
    }

    /// How many handles the bundle has that is handed out next; `None` where none waits.
    pub fn front_len(&self) -> Option<usize>
        requires { IsBundles self.now }
        ensures { result ≡ front_len (bundles_of self.now) }
    {
        if self.len == 0 {
            return None;
        }
        Some(self.lengths[0] as usize)
    }

    /// Writes the handles of the bundle that is handed out next from the front of `lent`; it stays. Where none waits, nothing is written.
    pub fn write_front(&self, lent: &mut [u32])
        requires bundles { IsBundles self.now }
        requires room { length (front (bundles_of self.now)) ≤ length lent.old }
        ensures { lent.new ≡ written (front (bundles_of self.now)) lent.old }
    {
        if self.len == 0 {
            return;
        }
        let n = self.lengths[0] as usize;
        lent[..n].copy_from_slice(&self.handles[..n]);
    }

    /// Hands out the next bundle: its handles are written from the front of `lent`, and it is gone. Where none waits, nothing is done.
    pub fn pop_front(&mut self, lent: &mut [u32])
        requires bundles { IsBundles self.old }
        requires room { length (front (bundles_of self.old)) ≤ length lent.old }
        ensures bundles { IsBundles self.new }
        ensures items { bundles_of self.new ≡ drop 1 (bundles_of self.old) }
        ensures lent { lent.new ≡ written (front (bundles_of self.old)) lent.old }
    {
        if self.len == 0 {
            return;
        }
        let n = self.lengths[0] as usize;
        self.write_front(lent);
        list::take_front(&mut self.total, &mut self.handles, 0, n);
        list::take_front(&mut self.len, &mut self.lengths, 0, 1);
    }

    /// Whether the handle is in a bundle that is not yet handed out.
    pub fn holds(&self, handle: u32) -> bool
        requires { IsBundles self.now }
        ensures { result ≡ has (holds_bundle handle) (bundles_of self.now) }
    {
        has_handle(&self.handles[..self.total as usize], handle)
    }
}
