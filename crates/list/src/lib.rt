//! One list for every kind of item: a count, and places of which the first are in use and each other one is blank. Both are lent, so
//! that a `#[repr(C)]` struct may hold them.
#![tactic(auto)]

ghost use Rattle.std.specs.Prelude.{◌≡◌, Bool, ℕ, map, ◌+◌, ◌^◌, ◌<◌, ◌≤◌, ◌↔◌, [], ◌∷◌, ◌++◌, length, take, IsOk, OnOk, OnErr, remove, insert, drop, slice_index_or, ◌⊎◌};
ghost use Rattle.std.specs.Fn.{FnReturnsAt};
ghost use Rattle.list.specs.Find.{keep_by, swap_remove};
ghost use Rattle.list.specs.Lists.{IsList};

/// A list has no room.
#[derive(Clone, Copy, Debug, PartialEq, Eq, Drop)]
pub struct Full;

/// The items: the places in use, which are all of them where the count is beyond them. For any count and places.
#[tactic(auto, using(std::proofs::lemmas::List::take_min))]
pub fn used<T: Copy>(len: u32, places: &[T]) -> &[T]
    ensures { result.now ≡ take len places.now }
{
    let n = (len as usize).min(places.len());
    &places[..n]
}

/// Adds `x` at the end.
#[tactic(auto, using(crate::proofs::Edits::pushed))]
pub fn push<T: Copy>(len: &mut u32, places: &mut [T], blank: T, x: T) -> Result<(), Full>
    requires list { IsList (length places.old) blank len.old places.old }
    requires small { length places.old < 2 ^ 32 }
    ensures variant { IsOk result ↔ (len.old < length places.old) }
    ensures full { OnErr result (length places.old ≤ len.old) }
    ensures list { IsList (length places.old) blank len.new places.new }
    ensures items { OnOk result (take len.new places.new ≡ take len.old places.old ++ x ∷ []) }
    ensures err_count { OnErr result (len.new ≡ len.old) }
    ensures err { OnErr result (places.new ≡ places.old) }
{
    let at = *len as usize;
    if at >= places.len() {
        return Err(Full);
    }
    places[at] = x;
    *len += 1;
    Ok(())
}

/// Takes item `i` out.
#[tactic(auto, using(crate::proofs::Edits::removed, crate::proofs::Edits::take_removed))]
pub fn remove<T: Copy>(len: &mut u32, places: &mut [T], blank: T, i: usize)
    requires list { IsList (length places.old) blank len.old places.old }
    requires there { i < len.old }
    ensures list { IsList (length places.old) blank len.new places.new }
    ensures items { take len.new places.new ≡ remove (take len.old places.old) i }
{
    let n = *len as usize;
    places.copy_within(i + 1..n, i);
    places[n - 1] = blank;
    *len -= 1;
}

/// Puts `x` before item `i`.
#[tactic(auto, using(crate::proofs::Edits::inserted, crate::proofs::Edits::take_inserted))]
pub fn insert<T: Copy>(
    len: &mut u32,
    places: &mut [T],
    blank: T,
    i: usize,
    x: T,
) -> Result<(), Full>
    requires list { IsList (length places.old) blank len.old places.old }
    requires there { i ≤ len.old }
    requires small { length places.old < 2 ^ 32 }
    ensures variant { IsOk result ↔ (len.old < length places.old) }
    ensures full { OnErr result (length places.old ≤ len.old) }
    ensures list { IsList (length places.old) blank len.new places.new }
    ensures items { OnOk result (take len.new places.new ≡ insert (take len.old places.old) i x) }
    ensures err_count { OnErr result (len.new ≡ len.old) }
    ensures err { OnErr result (places.new ≡ places.old) }
{
    let n = *len as usize;
    if n >= places.len() {
        return Err(Full);
    }
    places.copy_within(i..n, i + 1);
    places[i] = x;
    *len += 1;
    Ok(())
}

/// Writes a blank in each place from `from` up to `to`.
fn blank_out<T: Copy>(places: &mut [T], blank: T, from: usize, to: usize)
    requires order { from ≤ to }
    requires within { to ≤ length places.old }
    ensures len { length places.new ≡ length places.old }
    ensures blank { (k : ℕ) → (d : T) → from ≤ k → k < to → slice_index_or places.new k d ≡ blank }
    ensures others { (k : ℕ) → (d : T) → (k < from) ⊎ (to ≤ k) → slice_index_or places.new k d ≡ slice_index_or places.old k d }
{
    for k in from..to {
        places[k] = blank;
    }
}

/// Takes the first `n` items out.
pub fn take_front<T: Copy>(len: &mut u32, places: &mut [T], blank: T, n: usize)
    requires list { IsList (length places.old) blank len.old places.old }
    requires there { n ≤ len.old }
    ensures list { IsList (length places.old) blank len.new places.new }
    ensures items { take len.new places.new ≡ drop n (take len.old places.old) }
{
    let end = *len as usize;
    let left = end - n;
    places.copy_within(n..end, 0);
    blank_out(places, blank, left, end);
    *len = left as u32;
}

/// Adds `xs` at the end.
pub fn extend<T: Copy>(len: &mut u32, places: &mut [T], blank: T, xs: &[T]) -> Result<(), Full>
    requires list { IsList (length places.old) blank len.old places.old }
    requires small { length places.old < 2 ^ 32 }
    ensures variant { IsOk result ↔ (len.old + length xs.now ≤ length places.old) }
    ensures full { OnErr result (length places.old < len.old + length xs.now) }
    ensures list { IsList (length places.old) blank len.new places.new }
    ensures items { OnOk result (take len.new places.new ≡ take len.old places.old ++ xs.now) }
    ensures err_count { OnErr result (len.new ≡ len.old) }
    ensures err { OnErr result (places.new ≡ places.old) }
{
    let n = *len as usize;
    if places.len() - n < xs.len() {
        return Err(Full);
    }
    places[n..n + xs.len()].copy_from_slice(xs);
    *len += xs.len() as u32;
    Ok(())
}

/// Takes item `i` out, the last item taking its place.
#[tactic(auto, using(crate::proofs::Swaps::take_swapped))]
pub fn swap_remove<T: Copy>(len: &mut u32, places: &mut [T], blank: T, i: usize)
    requires list { IsList (length places.old) blank len.old places.old }
    requires there { i < len.old }
    ensures list { IsList (length places.old) blank len.new places.new }
    ensures items { take len.new places.new ≡ swap_remove blank i (take len.old places.old) }
{
    let last = *len as usize - 1;
    places[i] = places[last];
    places[last] = blank;
    *len -= 1;
}

/// Keeps the items that pass the test, in their order.
pub fn retain<T: Copy, F: Fn(&T) -> bool>(len: &mut u32, places: &mut [T], blank: T, keep: F)
    requires list { IsList (length places.old) blank len.old places.old }
    requires callable { F.IsAlwaysCallable keep }
    ensures list { IsList (length places.old) blank len.new places.new }
    ensures items { (test : T → Bool) → ((x : T) → (b : Bool) → FnReturnsAt F.Fn keep x b → b ≡ test x) → take len.new places.new ≡ keep_by test (take len.old places.old) }
{
    let n = *len as usize;
    let mut kept: usize = 0;
    for i in 0..n {
        let x = places[i];
        if keep(&x) {
            places[kept] = x;
            kept += 1;
        }
    }
    blank_out(places, blank, kept, n);
    *len = kept as u32;
}

/// Puts what `change` makes of each item in its place.
pub fn map<T: Copy, F: Fn(&T) -> T>(len: &u32, places: &mut [T], blank: T, change: F)
    requires list { IsList (length places.old) blank len.now places.old }
    requires callable { F.IsAlwaysCallable change }
    ensures list { IsList (length places.old) blank len.now places.new }
    ensures items { (made : T → T) → ((x : T) → (y : T) → FnReturnsAt F.Fn change x y → y ≡ made x) → take len.now places.new ≡ map made (take len.now places.old) }
{
    let n = *len as usize;
    for i in 0..n {
        let x = places[i];
        places[i] = change(&x);
    }
}
