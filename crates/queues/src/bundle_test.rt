//! Whether any bytes are a list of bundles.

ghost use Rattle.std.specs.Prelude.{◌↔◌, IsTrue};
ghost use Rattle.queues.specs.Good.{IsGoodBundles};

use crate::bundles::Bundles;
use crate::words::{are_zero, sums_to};

impl Bundles {
    /// Whether the bundles are in their form: within their limits, and as many handles as the lengths say.
    pub fn is_well_formed(&self) -> bool
        ensures { IsTrue result ↔ IsGoodBundles self.now }
    {
        self.len <= 16
            && self.total <= 64
            && sums_to(&self.lengths, self.total)
            && are_zero(&self.lengths[self.len as usize..])
            && are_zero(&self.handles[self.total as usize..])
    }
}
