//! The sum of a table: every word of it in order, so that two tables that differ hardly have the same sum.

use chan::{OffChannel, OffData, OnChannel};
use packet::{OutEntry, Packet};
use queues::{AckQueue, Bundles, Fragments, Groups, OutList, Waiting};
use tab::Table;

/// The sum of the words so far.
#[derive(Drop)]
struct Sum(u32);

/// The sum of a table.
pub fn of(t: &Table) -> u32 {
    let mut sum = Sum(0);
    sum.table(t);
    sum.0
}

impl Sum {
    fn word(&mut self, word: u32) {
        self.0 = ((u64::from(self.0) * 31 + u64::from(word)) % 4294967291) as u32;
    }

    fn words(&mut self, words: &[u32]) {
        for word in words {
            self.word(*word);
        }
    }

    /// A word of 64 bits counts as its lower and its upper half.
    fn long(&mut self, word: u64) {
        self.word((word & 0xFFFF_FFFF) as u32);
        self.word((word >> 32) as u32);
    }

    fn entry(&mut self, e: &OutEntry) {
        self.long(e.time);
        self.long(e.sent);
        self.words(&[e.number, e.held, e.handle]);
    }

    fn out(&mut self, out: &OutList) {
        self.word(out.len);
        for e in &out.entries {
            self.entry(e);
        }
    }

    fn acks(&mut self, acks: &AckQueue) {
        self.word(acks.len);
        self.words(&acks.numbers);
    }

    fn group(&mut self, g: &Fragments) {
        self.long(g.updated);
        self.words(&[g.first, g.len, g.count]);
        self.words(&g.marks);
        self.words(&g.handles);
    }

    fn groups(&mut self, groups: &Groups) {
        self.word(groups.len);
        for g in &groups.groups {
            self.group(g);
        }
    }

    fn bundles(&mut self, bundles: &Bundles) {
        self.words(&[bundles.len, bundles.total]);
        self.words(&bundles.lengths);
        self.words(&bundles.handles);
    }

    fn packet(&mut self, p: &Packet) {
        self.words(&[p.number, p.handle, p.ranged, p.first, p.last]);
    }

    fn waiting(&mut self, waiting: &Waiting) {
        self.word(waiting.len);
        for p in &waiting.packets {
            self.packet(p);
        }
    }

    fn data(&mut self, data: &OffData) {
        self.out(&data.out);
        self.acks(&data.acks);
        self.groups(&data.groups);
        self.bundles(&data.bundles);
    }

    fn off(&mut self, c: &OffChannel) {
        self.word(c.address);
        self.data(&c.off);
    }

    fn on(&mut self, c: &OnChannel) {
        self.words(&[c.address, c.index, c.version, c.expected, c.source.next]);
        self.data(&c.off);
        self.waiting(&c.buffer);
        self.waiting(&c.queue);
    }

    fn table(&mut self, t: &Table) {
        self.long(t.latest);
        self.words(&[t.forwarding, t.prefix, t.offset, t.source.next]);
        self.words(&[t.offcount, t.oncount]);
        for c in &t.offs {
            self.off(c);
        }
        for c in &t.ons {
            self.on(c);
        }
    }
}
