//! The head at the front of what is read.
ghost use Rattle.std.specs.Prelude.{◌≡◌, ◌≤◌, ◌+◌, ◌++◌, ◌∷◌, [], false, ℕ, List, IfOk, IfSome, MatchOption, length};
ghost use Rattle.http_wire.specs.Filling.{HasReadCause};
ghost use Rattle.http_wire.specs.MessageHeads.{begins_pair, ends_empty};
ghost use Rattle.http_wire.specs.HeadSearch.{HasNoEnd, IsHeadEnd, IsSearch, IsGiven, Shows, PassesPart};
ghost use Rattle.http_wire.specs.HeadSearch.{IsHeadAnswer, IsSomeAnswer};
ghost use Rattle.http_wire.specs.Messages.{end_fault};

use crate::buffer::Buffer;
use crate::fault::WireFault;
use lake_base::Source;
use memchr::memchr;

// How many bytes a head has at most, with the pairs before it.
const HEAD_LIMIT: usize = 16_384;

// Whether the line is empty that a line feed behind these bytes ends.
fn is_empty_line(front: &[u8]) -> bool
    ensures { result ≡ ends_empty (front.now ++ 10 ∷ []) }
{
    match front {
        [] | [.., b'\n'] | [b'\r'] | [.., b'\n', b'\r'] => true,
        _ => false,
    }
}

// Where the first empty line ends. None ends in the first `from` bytes.
fn head_end(bytes: &[u8], from: usize) -> Option<usize>
    requires within { from ≤ length bytes.now }
    requires none { HasNoEnd bytes.now from }
    ensures { MatchOption result (HasNoEnd bytes.now (length bytes.now)) (IsHeadEnd bytes.now) }
{
    let mut start = from;
    'lines: while let Some(found) = memchr(b'\n', &bytes[start..]) {
        let at = start + found;
        if is_empty_line(&bytes[..at]) {
            return Some(at + 1);
        }
        start = at + 1;
    }
    None
}

// What stands at the front of the bytes that are held.
#[derive(Clone, Copy, Debug)]
enum Look {
    // A head of so many bytes.
    Head(usize),
    // A part of a head, or nothing.
    Part,
    // 16,384 bytes, and no head ends in them.
    TooLong,
}

// How far the search for a head's end has come: so many bytes of pairs were taken out before it, and in so many bytes
// of those that are held no head ends.
#[derive(Debug, Drop)]
struct Search {
    skipped: usize,
    passed: usize,
}

// Takes out the pairs at the front, within the limit.
fn skip_pairs(buffer: &mut Buffer, search: &mut Search)
    requires { IsSearch search.old buffer.old }
    ensures search { IsSearch search.new buffer.new }
    ensures total { search.new.skipped + length buffer.new ≡ search.old.skipped + length buffer.old }
    ensures given { (given : List ℕ) → IsGiven given search.old buffer.old → IsGiven given search.new buffer.new }
    ensures none { search.new.skipped + 2 ≤ 16384 → begins_pair buffer.new ≡ false }
{
    while search.skipped + 2 <= HEAD_LIMIT && begins_pair(buffer.held()) {
        buffer.skip(2);
        search.skipped += 2;
        search.passed = 0;
    }
}

// Whether a pair stands at the front.
fn begins_pair(bytes: &[u8]) -> bool
    ensures { result ≡ begins_pair bytes.now }
{
    matches!(bytes, [b'\r', b'\n', ..])
}

// Takes pairs out, and goes on with the search.
fn search_on(buffer: &mut Buffer, search: &mut Search) -> Look
    requires { IsSearch search.old buffer.old }
    ensures shows { (given : List ℕ) → IsGiven given search.old buffer.old
        → Shows given search.new buffer.new result }
    ensures passes { PassesPart (search.old.skipped + length buffer.old) search.new buffer.new result }
{
    skip_pairs(buffer, search);
    let held = buffer.held();
    let (front, _) = held.split_at(held.len().min(HEAD_LIMIT - search.skipped));
    match head_end(front, search.passed) {
        Some(end) => Look::Head(end),
        None if front.len() == HEAD_LIMIT - search.skipped => Look::TooLong,
        None => {
            search.passed = front.len();
            Look::Part
        }
    }
}

/// Reads once where nothing is held.
pub(crate) fn read_some<S: Source>(source: &mut S, buffer: &mut Buffer) -> Result<(), WireFault>
    ensures read { IfSome (S.left source.old)
        (λ left. IsSomeAnswer buffer.old left buffer.new (S.left source.new) result) }
    ensures cause { HasReadCause (S.faults source.old) (S.faults source.new) result }
{
    if !buffer.held().is_empty() {
        return Ok(());
    }
    match buffer.fill(source) {
        Ok(0) => Err(WireFault::Ended),
        Ok(_) => Ok(()),
        Err(fault) => Err(fault),
    }
}

/// Reads until a head stands whole at the front of the bytes that are held, without the pairs before it, and answers
/// how many bytes it has.
pub(crate) fn read_head<S: Source>(source: &mut S, buffer: &mut Buffer) -> Result<usize, WireFault>
    ensures read { IfSome (S.left source.old)
        (λ left. IsHeadAnswer buffer.old left buffer.new (S.left source.new) result) }
    ensures within { IfOk result (λ n. n ≤ length buffer.new) }
    ensures cause { HasReadCause (S.faults source.old) (S.faults source.new) result }
{
    let mut search = Search {
        skipped: 0,
        passed: 0,
    };
    'reading: loop {
        match search_on(buffer, &mut search) {
            Look::Head(end) => return Ok(end),
            Look::TooLong => return Err(WireFault::HeadTooLong),
            Look::Part => {}
        }
        match buffer.fill(source) {
            Ok(0) => return Err(end_fault(buffer)),
            Ok(_) => {}
            Err(fault) => return Err(fault),
        }
    }
}

// Where the source ended: before a first byte of the message, or behind those that are held.
fn end_fault(buffer: &Buffer) -> WireFault
    ensures { result ≡ end_fault buffer.now }
{
    match buffer.held().len() {
        0 => WireFault::Ended,
        held => WireFault::Truncated(held as u64),
    }
}
