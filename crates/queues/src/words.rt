//! Tests of many words at once: all of them laid over one another, or added up, in one pass that has no way out before the end; and what
//! that says of each.

ghost use Rattle.std.specs.Prelude.{◌≡◌, ◌≤◌, ◌↔◌, IsTrue, All, length, fold, replicate, bit_or};
ghost use Rattle.list.specs.Find.{sum};
ghost use Rattle.queues.specs.Folds.{wrapped};

/// The greatest sequence number. All numbers are legal exactly where all of them laid over one another are.
pub const LAST: u32 = 0x0FFF_FFFF;

/// All the words laid over one another, bit by bit.
fn bits(s: &[u32]) -> u32
    ensures { result ≡ fold bit_or 0 s.now }
{
    s.iter().fold(0, |bits, n| bits | *n)
}

#[tactic(auto, using(crate::proofs::Folds::zero_bits, crate::proofs::Folds::bits_zero))]
pub fn are_zero(s: &[u32]) -> bool
    ensures { IsTrue result ↔ (s.now ≡ replicate (length s.now) 0) }
{
    bits(s) == 0
}

#[tactic(auto, using(crate::proofs::Folds::legal_bits, crate::proofs::Folds::bits_legal))]
pub fn are_legal(s: &[u32]) -> bool
    ensures { IsTrue result ↔ All (λ n. n ≤ 0x0FFF_FFFF) s.now }
{
    bits(s) <= LAST
}

/// The sum of the words, which wraps.
fn wrapped_sum(s: &[u32]) -> u32
    ensures { result ≡ fold wrapped 0 s.now }
{
    s.iter().fold(0u32, |sum, n| sum.wrapping_add(*n))
}

/// Whether the words add up to `total`. Of words below 128 each, the sum does not wrap.
#[tactic(auto, using(crate::proofs::Folds::sums_to, crate::proofs::Folds::summed))]
pub fn sums_to(s: &[u32], total: u32) -> bool
    requires few { length s.now ≤ 64 }
    requires total { total ≤ 64 }
    ensures { IsTrue result ↔ (sum s.now ≡ total) }
{
    bits(s) < 128 && wrapped_sum(s) == total
}
