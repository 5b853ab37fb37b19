//! The records of a log.
ghost use Rattle.std.specs.Prelude.{◌≡◌, ◌≤◌, ◌<◌, ◌+◌, ◌^◌, length, IfErr, IfNone, IfOk, IfSome, None, Some};
ghost use Rattle.rb_log.specs.Entries.{GoesOn, HasTicks, arrival_in, entry_at, events_at, fault_of, is_end, size_of, tick_in, ticks_in, ticks_of, zeros_of};

use crate::field::field;
use crate::refusal::LogRefusal;
use rb_base::MOST_TICKS;

/// A record, without the bytes of a message that arrived.
#[derive(Clone, Copy, Debug, PartialEq, Eq)]
pub(crate) enum Entry {
    /// One tick and its word.
    Tick(u32),
    /// This number of ticks with word 0.
    Ticks(u32),
    /// The arrival of a message of `size` bytes from node `from` of the other kind.
    Arrival { from: u8, size: u8 },
    /// The end of the log.
    End,
}

#[tactic(auto, unfolding(crate::specs::Entries::tick_in))]
fn tick_in(bytes: &[u8], place: usize) -> Result<Entry, LogRefusal>
    requires { place < length bytes.now }
    ensures value { result ≡ tick_in bytes.now place }
    ensures inside { IfOk result (λ e. place + size_of e ≤ length bytes.now) }
    ensures some { IfOk result HasTicks }
{
    let word = field(bytes, place + 1, 4, 0, 0xffff_ffff)?;
    Ok(Entry::Tick(word as u32))
}

#[tactic(auto, unfolding(crate::specs::Entries::ticks_in))]
fn ticks_in(bytes: &[u8], place: usize) -> Result<Entry, LogRefusal>
    requires { place < length bytes.now }
    ensures value { result ≡ ticks_in bytes.now place }
    ensures inside { IfOk result (λ e. place + size_of e ≤ length bytes.now) }
    ensures some { IfOk result HasTicks }
{
    let count = field(bytes, place + 1, 4, 1, 0xffff_ffff)?;
    Ok(Entry::Ticks(count as u32))
}

#[tactic(auto, unfolding(crate::specs::Entries::arrival_in))]
fn arrival_in(senders: u8, bytes: &[u8], place: usize) -> Result<Entry, LogRefusal>
    requires place { place < length bytes.now }
    requires senders { 1 ≤ senders }
    ensures value { result ≡ arrival_in senders bytes.now place }
    ensures inside { IfOk result (λ e. place + size_of e ≤ length bytes.now) }
    ensures some { IfOk result HasTicks }
{
    let from = field(bytes, place + 1, 1, 0, u64::from(senders) - 1)?;
    let size = field(bytes, place + 2, 1, 1, 32)?;
    if place + 3 + size as usize <= bytes.len() {
        Ok(Entry::Arrival {
            from: from as u8,
            size: size as u8,
        })
    } else {
        Err(LogRefusal::Truncated(bytes.len() as u64))
    }
}

/// The record at a place, or the first fault in it. It is compiled into its callers: else a replay
/// would take 25 % more instructions.
#[inline(always)]
#[tactic(auto, unfolding(crate::specs::Entries::entry_at))]
pub(crate) fn entry_at(senders: u8, bytes: &[u8], place: usize) -> Result<Entry, LogRefusal>
    requires place { place < 2 ^ 63 }
    requires senders { 1 ≤ senders }
    ensures value { result ≡ entry_at senders bytes.now place }
    ensures inside { IfOk result (λ e. place + size_of e ≤ length bytes.now) }
    ensures some { IfOk result HasTicks }
{
    match field(bytes, place, 1, 1, 4)? {
        1 => tick_in(bytes, place),
        2 => ticks_in(bytes, place),
        3 => arrival_in(senders, bytes, place),
        _ => Ok(Entry::End),
    }
}

/// How many bytes the record has.
pub(crate) fn size_of(entry: Entry) -> usize
    ensures value { result ≡ size_of entry }
    ensures most { result ≤ 258 }
{
    match entry {
        Entry::Tick(_) | Entry::Ticks(_) => 5,
        Entry::Arrival { size, .. } => 3 + usize::from(size),
        Entry::End => 1,
    }
}

/// How many ticks it tells of.
pub(crate) fn ticks_of(entry: Entry) -> u32
    ensures { result ≡ ticks_of entry }
{
    match entry {
        Entry::Tick(_) => 1,
        Entry::Ticks(count) => count,
        Entry::Arrival { .. } => 0,
        Entry::End => 0,
    }
}

/// How many ticks with word 0 it tells of, if of nothing else.
pub(crate) fn zeros_of(entry: Entry) -> u32
    ensures { result ≡ zeros_of entry }
{
    match entry {
        Entry::Tick(0) => 1,
        Entry::Tick(_) => 0,
        Entry::Ticks(count) => count,
        Entry::Arrival { .. } => 0,
        Entry::End => 0,
    }
}

/// Where a record begins, and how many ticks the log has before it.
#[derive(Clone, Copy)]
pub(crate) struct Position {
    pub place: usize,
    pub ticks: u32,
}

/// Whether it is the end.
pub(crate) fn is_end(entry: Entry) -> bool
    ensures { result ≡ is_end entry }
{
    match entry {
        Entry::End => true,
        Entry::Tick(_) | Entry::Ticks(_) => false,
        Entry::Arrival { .. } => false,
    }
}

// Where the next record begins. None at the end of the log.
#[tactic(auto, using(crate::proofs::Reading::steps))]
fn advance(
    senders: u8,
    bytes: &[u8],
    place: usize,
    ticks: u32,
) -> Result<Option<Position>, LogRefusal>
    requires senders { 1 ≤ senders }
    requires place { place ≤ length bytes.now }
    requires ticks { ticks ≤ 2147483648 }
    ensures fault { IfErr result (λ e. fault_of (events_at senders bytes.now place ticks)
        ≡ Some e) }
    ensures end { IfOk result (λ o. IfNone o (fault_of (events_at senders bytes.now place ticks) ≡ None)) }
    ensures next { IfOk result (λ o. IfSome o (GoesOn senders bytes.now place ticks)) }
{
    let entry = match entry_at(senders, bytes, place) {
        Ok(entry) => entry,
        Err(fault) => return Err(fault),
    };
    let next = place + size_of(entry);
    if is_end(entry) {
        return if next < bytes.len() {
            Err(LogRefusal::AfterEnd(next as u64))
        } else {
            Ok(None)
        };
    }
    let all = u64::from(ticks) + u64::from(ticks_of(entry));
    if all <= MOST_TICKS {
        Ok(Some(Position {
            place: next,
            ticks: all as u32,
        }))
    } else {
        Err(LogRefusal::BadField(place as u64))
    }
}

/// Looks at all records from a place on.
pub(crate) fn check_entries(senders: u8, bytes: &[u8], place: usize) -> Result<(), LogRefusal>
    requires senders { 1 ≤ senders }
    requires place { place ≤ length bytes.now }
    ensures { fault_of result ≡ fault_of (events_at senders bytes.now place 0) }
{
    let mut at = Position { place, ticks: 0 };
    loop {
        match advance(senders, bytes, at.place, at.ticks) {
            Ok(Some(next)) => at = next,
            Ok(None) => return Ok(()),
            Err(fault) => return Err(fault),
        }
    }
}
