//! A table made new where it stands.

ghost use Rattle.std.specs.Prelude.{◌≡◌, ◌≤◌, ◌↔◌, IsOk, OnOk, OnErr, Err};
ghost use Rattle.packet.specs.Data.{is_set};
ghost use Rattle.model.specs.State as model;
ghost use Rattle.tab.specs.Tables.{IsTable, state_of};

use crate::Table;
use packet::Refusal;

impl Table {
    /// Becomes a new table, whatever stood there: forwarding at 1, not forwarding at 0. Any other number is out of range, and the table
    /// stays as it was.
    pub fn renew(&mut self, forwarding: u32) -> Result<(), Refusal>
        ensures variant { IsOk result ↔ (forwarding ≤ 1) }
        ensures table { OnOk result (IsTable self.new) }
        ensures state { OnOk result (state_of self.new ≡ model.new (is_set forwarding)) }
        ensures refused { OnErr result (result ≡ Err Refusal.OutOfRange) }
        ensures unchanged { OnErr result (self.new ≡ self.old) }
    {
        if forwarding > 1 {
            return Err(Refusal::OutOfRange);
        }
        *self = Table::new(forwarding == 1);
        Ok(())
    }
}
