//! Whether any bytes are an ack queue of legal numbers.

ghost use Rattle.std.specs.Prelude.{◌↔◌, IsTrue};
ghost use Rattle.queues.specs.Good.{IsGoodAcks};

use crate::ack_queue::AckQueue;
use crate::words::{are_legal, are_zero};

impl AckQueue {
    /// Whether the queue is in its form and its numbers are legal.
    pub fn is_well_formed(&self) -> bool
        ensures { IsTrue result ↔ IsGoodAcks self.now }
    {
        self.len <= 64
            && are_legal(&self.numbers[..self.len as usize])
            && are_zero(&self.numbers[self.len as usize..])
    }
}
