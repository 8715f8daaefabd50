//! The driver's answers (01, "The driver"), each with its line feed, appended to a lent buffer.
#![tactic(auto)]

ghost use Rattle.std.specs.Prelude.{◌≡◌, [], ◌∷◌, ◌+◌, ◌≤◌, ◌<◌, length};
ghost use Rattle.writing.specs.Answers as Answers;
ghost use Rattle.writing.specs.Wrote.{Wrote};

use packet::View;

/// A lent buffer, and how much of it is written. The rest keeps its contents.
#[derive(Drop)]
pub struct Page<'a> {
    pub buf: &'a mut [u8],
    pub len: usize,
}

impl Page<'_> {
    fn push(&mut self, b: u8)
        requires { self.old.len < length self.old.buf.now }
        ensures same { self.new.buf.ghost_name ≡ self.old.buf.ghost_name }
        ensures wrote { Wrote 1 self.old.buf.now self.new.buf.now self.old.len self.new.len (b ∷ []) }
    {
        self.buf[self.len] = b;
        self.len += 1;
    }

    // Bytes as they stand.
    fn text(&mut self, text: &[u8])
        requires { self.old.len + length text.now ≤ length self.old.buf.now }
        ensures same { self.new.buf.ghost_name ≡ self.old.buf.ghost_name }
        ensures wrote { Wrote (length text.now) self.old.buf.now self.new.buf.now self.old.len self.new.len text.now }
    {
        for b in text {
            self.push(*b);
        }
    }

    // A decimal number without leading zeros. A u32 has ten digits at most.
    fn number(&mut self, n: u32)
        requires { self.old.len + 10 ≤ length self.old.buf.now }
        ensures same { self.new.buf.ghost_name ≡ self.old.buf.ghost_name }
        ensures wrote { Wrote 10 self.old.buf.now self.new.buf.now self.old.len self.new.len (Answers.digits n) }
    {
        let mut digits = itoa::Buffer::new();
        self.text(digits.format(n).as_bytes());
    }

    // A word and its number.
    fn worded(&mut self, w: &[u8], n: u32)
        requires { self.old.len + length w.now + 10 ≤ length self.old.buf.now }
        ensures same { self.new.buf.ghost_name ≡ self.old.buf.ghost_name }
        ensures wrote { Wrote (length w.now + 10) self.old.buf.now self.new.buf.now self.old.len self.new.len (Answers.worded w.now n) }
    {
        self.text(w);
        self.number(n);
    }

    // `-` without index.
    fn index(&mut self, i: u32)
        requires { self.old.len + 10 ≤ length self.old.buf.now }
        ensures same { self.new.buf.ghost_name ≡ self.old.buf.ghost_name }
        ensures wrote { Wrote 10 self.old.buf.now self.new.buf.now self.old.len self.new.len (Answers.index_text i) }
    {
        if i == 0 {
            self.text(b"-");
        } else {
            self.number(i);
        }
    }

    /// `ok off A`, `ok on A I exp N`.
    pub fn write_ok(&mut self, v: View)
        requires { self.old.len + 64 ≤ length self.old.buf.now }
        ensures same { self.new.buf.ghost_name ≡ self.old.buf.ghost_name }
        ensures wrote { Wrote 64 self.old.buf.now self.new.buf.now self.old.len self.new.len (Answers.ok_line v) }
    {
        if v.on != 1 {
            self.worded(b"ok off ", v.address);
            self.text(b"\n");
        } else {
            self.worded(b"ok on ", v.address);
            self.text(b" ");
            self.index(v.index);
            self.worded(b" exp ", v.expected);
            self.text(b"\n");
        }
    }

    /// `no R`.
    pub fn write_no(&mut self, n: u32)
        requires { self.old.len + 64 ≤ length self.old.buf.now }
        ensures same { self.new.buf.ghost_name ≡ self.old.buf.ghost_name }
        ensures wrote { Wrote 64 self.old.buf.now self.new.buf.now self.old.len self.new.len (Answers.no_line n) }
    {
        self.worded(b"no ", n);
        self.text(b"\n");
    }

    /// `bad`.
    pub fn write_bad(&mut self)
        requires { self.old.len + 64 ≤ length self.old.buf.now }
        ensures same { self.new.buf.ghost_name ≡ self.old.buf.ghost_name }
        ensures wrote { Wrote 64 self.old.buf.now self.new.buf.now self.old.len self.new.len Answers.bad_line }
    {
        self.text(b"bad\n");
    }

    /// `none`.
    pub fn write_none(&mut self)
        requires { self.old.len + 64 ≤ length self.old.buf.now }
        ensures same { self.new.buf.ghost_name ≡ self.old.buf.ghost_name }
        ensures wrote { Wrote 64 self.old.buf.now self.new.buf.now self.old.len self.new.len Answers.none_line }
    {
        self.text(b"none\n");
    }

    /// `bundle`, count, handles: 64 at most.
    pub fn write_bundle(&mut self, handles: &[u32])
        requires few { length handles.now ≤ 64 }
        requires room { self.old.len + 800 ≤ length self.old.buf.now }
        ensures same { self.new.buf.ghost_name ≡ self.old.buf.ghost_name }
        ensures wrote { Wrote 800 self.old.buf.now self.new.buf.now self.old.len self.new.len (Answers.bundle_line handles.now) }
    {
        self.worded(b"bundle ", handles.len() as u32);
        for h in handles {
            self.worded(b" ", *h);
        }
        self.text(b"\n");
    }
}
