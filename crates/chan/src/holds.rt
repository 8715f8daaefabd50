//! Whether a channel holds a handle, and the bundle that it hands out next.

ghost use Rattle.std.specs.Prelude.{◌≡◌};
ghost use Rattle.model.specs.Rust.{holds_data, holds_off, holds_on};
ghost use Rattle.chan.specs.Channels.{data_of, IsOffData, off_of, IsOffChannel, on_of, IsOnChannel};

use crate::{OffChannel, OffData, OnChannel};

impl OffData {
    /// Whether the out list, a group or a bundle has the handle.
    pub fn holds(&self, handle: u32) -> bool
        requires { IsOffData self.now }
        ensures { result ≡ holds_data handle (data_of self.now) }
    {
        self.out.holds(handle) || self.groups.holds(handle) || self.bundles.holds(handle)
    }
}

impl OffChannel {
    /// Whether the channel has the handle anywhere.
    pub fn holds(&self, handle: u32) -> bool
        requires { IsOffChannel self.now }
        ensures { result ≡ holds_off handle (off_of self.now) }
    {
        self.off.holds(handle)
    }
}

impl OnChannel {
    /// Whether the channel has the handle anywhere, also in its buffer and its contiguous queue.
    pub fn holds(&self, handle: u32) -> bool
        requires { IsOnChannel self.now }
        ensures { result ≡ holds_on handle (on_of self.now) }
    {
        self.off.holds(handle) || self.buffer.holds(handle) || self.queue.holds(handle)
    }
}
