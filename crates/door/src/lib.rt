//! The calls for a host in Rust or C: each of the table's calls once more, over what the host lends, for every table and input. References
//! and numbers alone cross, and nothing is asked of the host but what Rust asks of a reference. Here alone a refusal becomes its number.
#![tactic(auto)]

ghost use Rattle.std.specs.Prelude.{◌≡◌, ◌<◌, cond, IfSome, IfNone};
ghost use Rattle.packet.specs.Data.{no_view, is_flag};
ghost use Rattle.packet.specs.declared.Refusal.TheVariants.{NotWellFormed, OutOfRange};
ghost use Rattle.model.specs.Calls as Calls;
ghost use Rattle.model.specs.Calls.{accept, accept_out, channel, next_bundle, prepare, acks_written, take_resends, holds, last_accepted_prefix, reset_prefix_offset, transfer_prefix_offset};
ghost use Rattle.tab.specs.Test.{wfb};
ghost use Rattle.tab.specs.Calls.{called};
ghost use Rattle.tab.specs.Answers.{code_of, count_of, view_of, prepared_of, no_prepared};
ghost use Rattle.door.specs.Numbers.{code_in, value_or, renewed, bundle_number, rows_number, held_number, prefix_number, handles_of, names_of, size_of};

use packet::{Key, Prepared, Record, Refusal, View};
use queues::out_list::Clock;
use tab::Table;

/// A delivery's answer: the count of records not refused, and the last one's channel.
#[repr(C)]
#[derive(Clone, Copy)]
pub struct Arrival {
    pub count: u32,
    pub view: View,
}

/// The handles of a send: the first `count` of them. A count above 16 is a list too long.
#[repr(C)]
#[derive(Clone, Copy)]
pub struct Handles {
    pub count: u32,
    pub handles: [u32; 16],
}

/// The numbers of the acks that were written: the first `count` of them. A count above 64 is a list too long.
#[repr(C)]
#[derive(Clone, Copy)]
pub struct Names {
    pub count: u32,
    pub numbers: [u32; 64],
}

// What crosses lies in memory as the host's own structs do.
const _: () = prove!(size_of::<Table>() == 43584);

const _: () = prove!(size_of::<Record>() == 96);

const _: () = prove!(size_of::<Key>() == 16);

const _: () = prove!(size_of::<View>() == 20);

const _: () = prove!(size_of::<Arrival>() == 24);

const _: () = prove!(size_of::<Prepared>() == 28);

const _: () = prove!(size_of::<Handles>() == 68);

const _: () = prove!(size_of::<Names>() == 260);

/// What a refused send answers.
const NOT_PREPARED: Prepared = Prepared {
    allocated: 0,
    first: 0,
    on: 0,
    expected: 0,
    index: 0,
    version: 0,
    offset: 0,
};

impl Handles {
    /// The handles; none where the count is above 16.
    fn as_slice(&self) -> Option<&[u32]>
        ensures some { IfSome result (λ s. s.now ≡ handles_of self.now) }
        ensures none { IfNone result (16 < self.now.count) }
    {
        if self.count > 16 {
            return None;
        }
        Some(&self.handles[..self.count as usize])
    }
}

impl Names {
    /// The numbers; none where the count is above 64.
    fn as_slice(&self) -> Option<&[u32]>
        ensures some { IfSome result (λ s. s.now ≡ names_of self.now) }
        ensures none { IfNone result (64 < self.now.count) }
    {
        if self.count > 64 {
            return None;
        }
        Some(&self.numbers[..self.count as usize])
    }
}

/// 0, or the number of the refusal.
fn code<T: Copy>(r: Result<T, Refusal>) -> u32
    ensures { result ≡ code_in r }
{
    match r {
        Ok(_) => 0,
        Err(x) => x.code(),
    }
}

/// Writes what was asked for, or a blank where the call was refused; 0, or the number of the refusal.
fn answered<T: Copy>(r: Result<T, Refusal>, blank: T, answer: &mut T) -> u32
    ensures answer { answer.new ≡ value_or blank r }
    ensures code { result ≡ code_in r }
{
    match r {
        Ok(x) => {
            *answer = x;
            0
        }
        Err(x) => {
            *answer = blank;
            x.code()
        }
    }
}

/// A new table, forwarding or not, in the place of whatever was there: 0. For a flag other than 0 or 1 it is 2, and the memory is as it was.
#[unsafe(no_mangle)]
pub extern "C" fn relay_new(t: &mut Table, forwarding: u32) -> u32
    ensures table { t.new ≡ renewed t.old forwarding }
    ensures number { result ≡ cond (is_flag forwarding) 0 2 }
{
    match t.renew(forwarding) {
        Ok(()) => 0,
        Err(refusal) => refusal.code(),
    }
}

/// 1 where the table is well formed, else 0.
#[unsafe(no_mangle)]
pub extern "C" fn relay_well_formed(t: &Table) -> u32
    ensures { result ≡ cond (wfb t.now) 1 0 }
{
    t.is_well_formed() as u32
}

/// 0 or the last record's refusal; the count of records not refused and that record's channel are written to the answer.
#[unsafe(no_mangle)]
pub extern "C" fn relay_accept(
    t: &mut Table,
    time: u64,
    address: u32,
    records: &[Record],
    answer: &mut Arrival,
) -> u32
    ensures table { t.new ≡ (called (accept time address records.now) t.old).table }
    ensures count { answer.new.count ≡ count_of (called (accept time address records.now) t.old).answer }
    ensures view { answer.new.view ≡ view_of (called (accept time address records.now) t.old).answer }
    ensures code { result ≡ code_of (called (accept time address records.now) t.old).answer }
{
    let delivery = t.accept(time, address, records);
    answer.count = delivery.count;
    answered(delivery.last, View::none(), &mut answer.view)
}

/// 0 or the refusal; the channel is written to the answer.
#[unsafe(no_mangle)]
pub extern "C" fn relay_accept_out(
    t: &mut Table,
    time: u64,
    address: u32,
    r: &Record,
    answer: &mut View,
) -> u32
    ensures table { t.new ≡ (called (accept_out time address r.now) t.old).table }
    ensures answer { answer.new ≡ view_of (called (accept_out time address r.now) t.old).answer }
    ensures code { result ≡ code_of (called (accept_out time address r.now) t.old).answer }
{
    answered(t.accept_out(time, address, r), View::none(), answer)
}

/// 0 or the refusal; the channel, found or made, is written to the answer.
#[unsafe(no_mangle)]
pub extern "C" fn relay_channel(t: &mut Table, k: &Key, answer: &mut View) -> u32
    ensures table { t.new ≡ (called (channel k.now) t.old).table }
    ensures answer { answer.new ≡ view_of (called (channel k.now) t.old).answer }
    ensures code { result ≡ code_of (called (channel k.now) t.old).answer }
{
    answered(t.channel(k), View::none(), answer)
}

/// 0 for no bundle, else the bundle's length and one more; 2^31 and the number for a refusal.
#[unsafe(no_mangle)]
pub extern "C" fn relay_next_bundle(t: &mut Table, k: &Key, lent: &mut [u32]) -> u32
    ensures table { t.new ≡ (called (next_bundle k.now lent.old) t.old).table }
    ensures lent { lent.new ≡ Calls.lent (called (next_bundle k.now lent.old) t.old).answer lent.old }
    ensures number { result ≡ bundle_number (called (next_bundle k.now lent.old) t.old).answer }
{
    match t.next_bundle(k, lent) {
        Ok(None) => 0,
        Ok(Some(n)) => n as u32 + 1,
        Err(x) => 0x8000_0000 + x.code(),
    }
}

/// 0 or the refusal; what was prepared is written to the answer.
#[unsafe(no_mangle)]
pub extern "C" fn relay_prepare(
    t: &mut Table,
    time: u64,
    k: &Key,
    reliable: u32,
    h: &Handles,
    answer: &mut Prepared,
) -> u32
    ensures table { t.new ≡ (called (prepare time k.now reliable (handles_of h.now)) t.old).table }
    ensures answer { answer.new ≡ prepared_of (called (prepare time k.now reliable (handles_of h.now)) t.old).answer }
    ensures code { result ≡ code_of (called (prepare time k.now reliable (handles_of h.now)) t.old).answer }
{
    match h.as_slice() {
        Some(handles) => answered(t.prepare(time, k, reliable, handles), NOT_PREPARED, answer),
        None => answered(Err(too_long(t)), NOT_PREPARED, answer),
    }
}

/// 0 or the refusal.
#[unsafe(no_mangle)]
pub extern "C" fn relay_acks_written(t: &mut Table, k: &Key, n: &Names) -> u32
    ensures table { t.new ≡ (called (acks_written k.now (names_of n.now)) t.old).table }
    ensures code { result ≡ code_of (called (acks_written k.now (names_of n.now)) t.old).answer }
{
    match n.as_slice() {
        Some(names) => code(t.acks_written(k, names)),
        None => too_long(t).code(),
    }
}

/// Why a call with a list too long is refused.
fn too_long(t: &Table) -> Refusal
    ensures { result ≡ cond (wfb t.now) OutOfRange NotWellFormed }
{
    if t.is_well_formed() {
        Refusal::OutOfRange
    } else {
        Refusal::NotWellFormed
    }
}

/// The count of rows, two numbers each; 2^31 and the number for a refusal. Times in milliseconds.
#[unsafe(no_mangle)]
pub extern "C" fn relay_take_resends(
    t: &mut Table,
    time: u64,
    timeout: u64,
    giveup: u64,
    lent: &mut [u32],
) -> u32
    ensures table { t.new ≡ (called (take_resends time timeout giveup lent.old) t.old).table }
    ensures lent { lent.new ≡ Calls.lent (called (take_resends time timeout giveup lent.old) t.old).answer lent.old }
    ensures number { result ≡ rows_number (called (take_resends time timeout giveup lent.old) t.old).answer }
{
    let clock = Clock {
        time,
        timeout,
        give_up: giveup,
    };
    match t.take_resends(clock, lent) {
        Ok(rows) => rows as u32,
        Err(x) => 0x8000_0000 + x.code(),
    }
}

/// 1 where the handle is held, else 0; 2^31 and the number for a refusal.
#[unsafe(no_mangle)]
pub extern "C" fn relay_holds(t: &Table, handle: u32) -> u32
    ensures { result ≡ held_number (called (holds handle) t.now).answer }
{
    match t.holds(handle) {
        Ok(held) => held as u32,
        Err(x) => 0x8000_0000 + x.code(),
    }
}

/// The prefix; a refusal's number times 2^32.
#[unsafe(no_mangle)]
pub extern "C" fn relay_last_accepted_prefix(t: &Table) -> u64
    ensures { result ≡ prefix_number (called last_accepted_prefix t.now).answer }
{
    match t.last_accepted_prefix() {
        Ok(prefix) => prefix as u64,
        Err(x) => x.code() as u64 * 0x1_0000_0000,
    }
}

/// 0 or the refusal, 1 alone.
#[unsafe(no_mangle)]
pub extern "C" fn relay_reset_prefix_offset(t: &mut Table) -> u32
    ensures table { t.new ≡ (called reset_prefix_offset t.old).table }
    ensures code { result ≡ code_of (called reset_prefix_offset t.old).answer }
{
    code(t.reset_prefix_offset())
}

/// 0 or the refusal, 1 alone (Rust: transfer_prefix_offset_from_last_received).
#[unsafe(no_mangle)]
pub extern "C" fn relay_transfer_prefix_offset(t: &mut Table) -> u32
    ensures table { t.new ≡ (called transfer_prefix_offset t.old).table }
    ensures code { result ≡ code_of (called transfer_prefix_offset t.old).answer }
{
    code(t.transfer_prefix_offset_from_last_received())
}

/// The sizes in bytes of what crosses, by number, for the host to compare with its own: the table, a record, a key, a view, a delivery's
/// answer, a send's answer, its handles, the names of acks. 0 for another number.
#[unsafe(no_mangle)]
pub extern "C" fn relay_size(what: u32) -> u32
    ensures { result ≡ size_of what }
{
    match what {
        0 => size_of::<Table>() as u32,
        1 => size_of::<Record>() as u32,
        2 => size_of::<Key>() as u32,
        3 => size_of::<View>() as u32,
        4 => size_of::<Arrival>() as u32,
        5 => size_of::<Prepared>() as u32,
        6 => size_of::<Handles>() as u32,
        7 => size_of::<Names>() as u32,
        _ => 0,
    }
}
