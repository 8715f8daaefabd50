//! What each step of the history is: every choice is drawn from the step's number alone, so that others can play the same history.

ghost use Rattle.std.specs.Prelude.{◌<◌, ◌≤◌};

use packet::{Key, Record};

const HANDLES: u32 = 1_000_000;

/// The number of a step.
#[derive(Clone, Copy)]
pub struct Step(pub u32);

fn spread(x: u32) -> u32 {
    (u64::from(x) * 48271 % 2147483647) as u32
}

impl Step {
    /// A number below `n`, drawn by step, part and choice; 0 where `n` is 0. check/mixed.py draws the same.
    pub fn pick(self, part: u32, choice: u32, n: u32) -> u32
        ensures { 0 < n → result < n }
    {
        if n == 0 {
            return 0;
        }
        let seed = u64::from(self.0) * 131
            + u64::from(part) * 8191
            + u64::from(choice) * 524287
            + 7;
        let a = (seed % 2147483647) as u32;
        let b = spread(a ^ (a >> 15));
        spread(b ^ (b >> 13)) % n
    }

    /// Whether it happens, once in `n` times.
    fn once_in(self, part: u32, choice: u32, n: u32) -> bool {
        self.pick(part, choice, n) == 0
    }

    /// Numbers move on with the steps, a few of them at a time.
    fn near(self, part: u32, choice: u32) -> u32 {
        self.0 / 32 + self.pick(part, choice, 8)
    }

    pub fn time(self) -> u64 {
        let time = u64::from(self.0) * 37 + 1000;
        if self.once_in(0, 40, 60) {
            time - 500
        } else {
            time
        }
    }

    /// Most of the traffic is of one address.
    pub fn address(self) -> u32 {
        if self.once_in(0, 41, 8) {
            self.pick(0, 42, 4)
        } else {
            7
        }
    }

    fn index(self, part: u32) -> u32 {
        if self.once_in(part, 17, 60) {
            0
        } else {
            1 + self.pick(part, 3, 2)
        }
    }

    fn number(self, part: u32) -> u32 {
        if self.once_in(part, 7, 150) {
            268435456
        } else {
            self.near(part, 6)
        }
    }

    fn ack_count(self, part: u32) -> u32 {
        if self.once_in(part, 21, 120) {
            9
        } else {
            self.pick(part, 15, 3)
        }
    }

    pub fn record(self, part: u32) -> Record {
        let number = self.number(part);
        Record {
            handle: self.pick(part, 19, HANDLES),
            prefix: self.pick(part, 20, 100_000),
            on: u32::from(!self.once_in(part, 1, 4)),
            indexed: u32::from(self.once_in(part, 2, 3)),
            index: self.index(part),
            version: 1 + self.pick(part, 4, 2),
            reliable: u32::from(!self.once_in(part, 5, 3)),
            number,
            ranged: u32::from(self.once_in(part, 8, 5)),
            first: number.saturating_sub(self.pick(part, 9, 3)),
            last: self.near(part, 10),
            hascumulative: u32::from(self.once_in(part, 11, 5)),
            cumulative: self.near(part, 12),
            haslast: u32::from(self.once_in(part, 13, 12)),
            lastreliable: self.near(part, 14).saturating_sub(1),
            ackcount: self.ack_count(part),
            acks: [self.near(part, 16), self.near(part, 18), 0, 0, 0, 0, 0, 0],
        }
    }

    /// Mostly one record, sometimes several, and now and then none or nine.
    pub fn record_count(self) -> usize
        ensures { result ≤ 9 }
    {
        match self.pick(0, 43, 40) {
            0 => 0,
            1 => 9,
            k if k < 8 => k as usize,
            _ => 1,
        }
    }

    pub fn records(self) -> [Record; 9] {
        let mut records = [Record::none(); 9];
        for part in 0..9 {
            records[part as usize] = self.record(part);
        }
        records
    }

    pub fn key(self) -> Key {
        Key {
            address: self.address(),
            on: u32::from(!self.once_in(0, 44, 4)),
            indexed: u32::from(self.once_in(0, 45, 3)),
            index: self.index(0),
        }
    }

    /// 1 or 0, and now and then 2.
    pub fn reliable(self) -> u32 {
        if self.once_in(0, 46, 30) {
            2
        } else {
            self.pick(0, 47, 2)
        }
    }

    /// At most three, and now and then seventeen.
    pub fn handle_count(self) -> usize
        ensures { result ≤ 17 }
    {
        if self.once_in(0, 50, 25) {
            17
        } else {
            self.pick(0, 49, 4) as usize
        }
    }

    pub fn handles(self) -> [u32; 17] {
        let mut handles = [0; 17];
        for part in 0..17 {
            handles[part as usize] = self.pick(part, 48, HANDLES);
        }
        handles
    }

    pub fn name_count(self) -> usize
        ensures { result ≤ 2 }
    {
        self.pick(0, 53, 3) as usize
    }

    pub fn names(self) -> [u32; 2] {
        [self.near(0, 51), self.near(0, 52)]
    }

    /// The handle that is asked for.
    pub fn handle(self) -> u32 {
        self.pick(0, 58, HANDLES)
    }

    /// Whether the lent list has hardly any place.
    pub fn is_short(self) -> bool {
        self.once_in(0, 54, 8)
    }

    /// The timeout of resends, in ms.
    pub fn timeout(self) -> u64 {
        self.pick(0, 56, 2000).into()
    }

    /// The age at which resends give up, in ms.
    pub fn give_up(self) -> u64 {
        self.pick(0, 57, 20000).into()
    }

    /// The kind of the call, from 0 to 99.
    pub fn kind(self) -> u32 {
        self.pick(0, 59, 100)
    }
}
