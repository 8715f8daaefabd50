//! The driver: a script of lines, each a command or nothing that can be read, and the answers to them in order.
#![tactic(auto)]

ghost use Rattle.std.specs.Prelude.{◌≡◌, [], ◌+◌, ◌≤◌, ◌<◌, length, drop, Ok};
ghost use Rattle.reading.specs.declared.Command.TheVariants.{In, Pop};
ghost use Rattle.script.specs.Plain.{start, plain};
ghost use Rattle.script.specs.Holding.{IsHeld, plain_of};
ghost use Rattle.script.specs.Lines.{by_kind, step_of, Says};
ghost use Rattle.script.specs.Input as Input;

pub mod held;

use held::Held;
use packet::{Key, Record};
use reading::{Bad, Command};
use tab::Table;
use writing::Page;

/// What a line finds and leaves: the table, and the records that the next `in` delivers before its own.
#[derive(Clone, Copy)]
pub struct Relay {
    pub table: Table,
    pub held: Held,
}

/// No answer is longer, a bundle of 64 handles of ten digits included.
const ROOM: usize = 800;

/// How far an input is answered: the place in the input, and how much of the buffer the answers take.
#[derive(Clone, Copy)]
pub struct Ran {
    pub at: usize,
    pub len: usize,
}

impl Relay {
    /// A table that does not forward, and nothing held.
    pub fn new() -> Relay
        ensures held { IsHeld result.held }
        ensures start { plain_of result ≡ start }
    {
        Relay {
            table: Table::new(false),
            held: Held::new(),
        }
    }

    /// The held records are used up, and the table stays as it was.
    pub fn use_up(&mut self)
        ensures held { IsHeld self.new.held }
        ensures used { plain_of self.new ≡ plain self.old.table [] }
    {
        self.held = Held::new();
    }

    /// `in`: the held records and its own are one delivery, and used up. Its answer goes to the page.
    pub fn deliver(&mut self, time: u64, address: u32, r: Record, page: &mut Page<'_>)
        requires { page.old.len + 800 ≤ length page.old.buf.now }
        ensures held { IsHeld self.new.held }
        ensures same { page.new.buf.ghost_name ≡ page.old.buf.ghost_name }
        ensures says { Says (by_kind (Ok (In time address r)) (plain_of self.old)) page.old.buf.now page.new.buf.now page.old.len page.new.len (plain_of self.new) }
    {
        self.held.push(r);
        let delivery = self.table.accept(time, address, self.held.as_slice());
        self.use_up();
        match delivery.last {
            Ok(view) => page.write_ok(view),
            Err(refusal) => page.write_no(refusal.code()),
        }
    }

    /// `pop`: 64 places always suffice. Its answer goes to the page.
    pub fn pop(&mut self, key: &Key, page: &mut Page<'_>)
        requires { page.old.len + 800 ≤ length page.old.buf.now }
        ensures held { IsHeld self.old.held → IsHeld self.new.held }
        ensures same { page.new.buf.ghost_name ≡ page.old.buf.ghost_name }
        ensures says { Says (by_kind (Ok (Pop key.now)) (plain_of self.old)) page.old.buf.now page.new.buf.now page.old.len page.new.len (plain_of self.new) }
    {
        let mut handles = [0u32; 64];
        match self.table.next_bundle(key, &mut handles) {
            Ok(None) => page.write_none(),
            Ok(Some(n)) => page.write_bundle(&handles[..n]),
            Err(refusal) => page.write_no(refusal.code()),
        }
    }

    /// One line, without its line feed: its answer goes to the page.
    pub fn step(&mut self, line: &[u8], page: &mut Page<'_>)
        requires { page.old.len + 800 ≤ length page.old.buf.now }
        ensures held { IsHeld self.old.held → IsHeld self.new.held }
        ensures same { page.new.buf.ghost_name ≡ page.old.buf.ghost_name }
        ensures says { Says (step_of (plain_of self.old) line.now) page.old.buf.now page.new.buf.now page.old.len page.new.len (plain_of self.new) }
    {
        match reading::read_line(line) {
            Ok(Command::In(time, address, r)) => self.deliver(time, address, r, page),
            Ok(Command::Pig(r)) => self.held.push(r),
            Ok(Command::Pop(key)) => self.pop(&key, page),
            Err(Bad::Line) => page.write_bad(),
            Err(Bad::Arrival) => {
                self.use_up();
                page.write_bad();
            }
        }
    }

    /// The line that begins where `r` stands. A last line without its line feed is `bad`.
    fn turn(&mut self, r: Ran, input: &[u8], out: &mut [u8]) -> Ran
        requires { (r.at < length input.now) × (r.len + 800 ≤ length out.old) }
        ensures held { IsHeld self.old.held → IsHeld self.new.held }
        ensures turned { Input.Turned (Input.going (plain_of self.old) r) input.now out.old out.new (Input.going (plain_of self.new) result) }
    {
        let at = r.at;
        let end = feed(input, at);
        let mut page = Page {
            buf: out,
            len: r.len,
        };
        if end < input.len() {
            self.step(&input[at..end], &mut page);
            let len = page.len;
            return Ran { at: end + 1, len };
        }
        page.write_bad();
        let len = page.len;
        Ran { at: end, len }
    }

    /// Answers lines of the input from `from` on, in order, until the end or until another answer might not fit into the buffer. Of an
    /// input 60,000 bytes are read.
    pub fn run(&mut self, input: &[u8], from: usize, out: &mut [u8]) -> Ran
        ensures held { IsHeld self.old.held → IsHeld self.new.held }
        ensures told { Input.Told (Input.part_from (length out.old) (plain_of self.old) (drop from (Input.read input.now))) from out.old out.new (Input.going (plain_of self.new) result) }
    {
        let n = cut(input.len());
        let read = &input[..n];
        let mut r = Ran { at: from, len: 0 };
        while r.at < read.len() {
            if out.len() - r.len < ROOM {
                return r;
            }
            r = self.turn(r, read, out);
        }
        r
    }
}

// Where the next line feed stands, from `at` on, or the end.
#[tactic(auto, using(crate::proofs::Input::feed_within))]
fn feed(input: &[u8], at: usize) -> usize
    requires { at ≤ length input.now }
    ensures { result ≡ at + Input.feed_at (drop at input.now) }
{
    let (_, rest) = input.split_at(at);
    at + before_feed(rest)
}

// How many bytes stand before the first line feed, all of them where there is none.
fn before_feed(line: &[u8]) -> usize
    ensures { result ≡ Input.feed_at line.now }
{
    line.iter().take_while(|b| **b != b'\n').count()
}

// How many bytes of an input are read.
#[tactic(auto, using(crate::proofs::Input::cut_is))]
fn cut(n: usize) -> usize
    ensures { result ≡ Input.cut n }
{
    n.min(60_000)
}
