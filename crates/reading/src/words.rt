//! What is left of a line, and the words and numbers that it goes on with.
ghost use Rattle.std.specs.Prelude.{◌≡◌, ◌≤◌, ◌==◌, length, IfNone, IfSome, OnErr};
ghost use Rattle.reading.specs.Words as Words;

/// A number that is due and not there, or does not fit; or something that is not due.
#[derive(Clone, Copy, Debug, PartialEq, Eq)]
pub struct Unreadable;

// The largest number of a field.
const MOST32: u64 = 0xFFFF_FFFF;

/// What is left of a line that is being read.
#[derive(Clone, Copy)]
pub struct Rest<'a> {
    pub bytes: &'a [u8],
}

// How many digits the line begins with.
fn count_digits(line: &[u8]) -> usize
    ensures { result ≡ Words.digits line.now }
{
    line.iter().take_while(|b| b.is_ascii_digit()).count()
}

// What the digits write, where a u64 holds it.
#[tactic(auto, using(crate::proofs::Numbers::numbers))]
fn value(digits: &[u8]) -> Option<u64>
    ensures { result ≡ Words.fitting Words.most64 (Words.value digits.now) }
{
    let mut v = 0u64;
    for b in digits {
        let digit = u64::from(b.saturating_sub(b'0'));
        v = v.checked_mul(10)?.checked_add(digit)?;
    }
    Some(v)
}

// The number that the digits write: one digit or more, and `most` at most.
fn number_in(digits: &[u8], most: u64) -> Option<u64>
    ensures { result ≡ Words.number_in most digits.now }
{
    if digits.is_empty() {
        return None;
    }
    let v = value(digits)?;
    (v <= most).then_some(v)
}

impl Rest<'_> {
    /// Takes the word if the line goes on with it, and says whether it does.
    pub fn word(&mut self, w: &[u8]) -> bool
        ensures answer { result ≡ Words.begins w.now self.old.bytes.now }
        ensures rest { self.new.bytes.now ≡ Words.after w.now self.old.bytes.now }
    {
        match self.bytes.strip_prefix(w) {
            Some(rest) => {
                self.bytes = rest;
                true
            }
            None => false,
        }
    }

    /// Takes a decimal number of one or more digits, `most` at most. Without one the line stays as it is.
    #[tactic(auto, using(crate::proofs::Numbers::prefix_within), unfolding(crate::specs::Words::number_of))]
    pub fn number(&mut self, most: u64) -> Option<u64>
        ensures answer { Words.number_of most self.old.bytes.now ≡ Words.before result self.new.bytes.now }
        ensures fits { IfSome result (λ v. v ≤ most) }
        ensures unmoved { IfNone result (self.new.bytes.now ≡ self.old.bytes.now) }
    {
        let (digits, rest) = self.bytes.split_at(count_digits(self.bytes));
        let v = number_in(digits, most)?;
        self.bytes = rest;
        Some(v)
    }

    /// Takes a word and a `u32` behind it; `None` where the line goes on with something else. A refused line stays as it is.
    #[tactic(auto, unfolding(crate::specs::Words::field_of))]
    pub fn field(&mut self, w: &[u8]) -> Result<Option<u32>, Unreadable>
        ensures answer { Words.field_of w.now self.old.bytes.now ≡ Words.taken result self.new.bytes.now }
        ensures unmoved { Words.IsUnmoved result self.old.bytes.now self.new.bytes.now }
    {
        let mut rest = *self;
        if !rest.word(w) {
            return Ok(None);
        }
        let n = rest.number(MOST32).ok_or(Unreadable)?;
        *self = rest;
        Ok(Some(n as u32))
    }

    /// A field that has to be there.
    #[tactic(auto, unfolding(crate::specs::Words::due_of))]
    pub fn due(&mut self, w: &[u8]) -> Result<u32, Unreadable>
        ensures answer { Words.due_of w.now self.old.bytes.now ≡ Words.given result self.new.bytes.now }
        ensures unmoved { OnErr result (self.new.bytes.now ≡ self.old.bytes.now) }
    {
        self.field(w)?.ok_or(Unreadable)
    }

    /// A field, and a second number behind one blank.
    #[tactic(auto, unfolding(crate::specs::Words::pair_of))]
    pub fn pair(&mut self, w: &[u8]) -> Result<Option<(u32, u32)>, Unreadable>
        ensures answer { Words.pair_of w.now self.old.bytes.now ≡ Words.taken result self.new.bytes.now }
        ensures unmoved { Words.IsUnmoved result self.old.bytes.now self.new.bytes.now }
    {
        let mut rest = *self;
        match rest.field(w)? {
            Some(first) => {
                let second = rest.due(b" ")?;
                *self = rest;
                Ok(Some((first, second)))
            }
            None => Ok(None),
        }
    }

    /// Whether nothing is left.
    pub fn is_empty(&self) -> bool
        ensures { result ≡ (length self.now.bytes.now == 0) }
    {
        self.bytes.is_empty()
    }

    /// The value that was read, where nothing is left of the line.
    #[tactic(auto, unfolding(crate::specs::Words::ended))]
    pub fn ended<T>(&self, value: T) -> Result<T, Unreadable>
    where
        T: Copy,
        ensures { result ≡ Words.ended self.now.bytes.now value }
    {
        if self.bytes.is_empty() {
            Ok(value)
        } else {
            Err(Unreadable)
        }
    }
}
