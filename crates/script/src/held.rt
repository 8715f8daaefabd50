//! The records that the driver holds for its next `in`.

ghost use Rattle.std.specs.Prelude.{◌≡◌, []};
ghost use Rattle.script.specs.Holding.{held_of, IsHeld, more};

use packet::Record;

/// So many records have a place.
const PLACES: u32 = 9;

/// Up to nine records, oldest first. A delivery has at most eight, so that nine are too many already, and more change nothing.
#[derive(Clone, Copy)]
pub struct Held {
    pub count: u32,
    pub records: [Record; 9],
}

impl Held {
    pub fn new() -> Held
        ensures held { IsHeld result }
        ensures items { held_of result ≡ [] }
    {
        Held {
            count: 0,
            records: [Record::none(); 9],
        }
    }

    /// The held records. Past a count of nine they are the records of all nine places.
    pub fn as_slice(&self) -> &[Record]
        ensures { result.now ≡ held_of self.now }
    {
        list::used(self.count, &self.records)
    }

    /// One more record; where nine are held it changes nothing.
    #[tactic(auto, using(crate::proofs::More::more_room, crate::proofs::More::more_full))]
    pub fn push(&mut self, r: Record)
        ensures held { IsHeld self.old → IsHeld self.new }
        ensures items { held_of self.new ≡ more (held_of self.old) r }
    {
        if self.count < PLACES {
            self.records[self.count as usize] = r;
            self.count += 1;
        }
    }
}
