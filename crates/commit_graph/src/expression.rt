//! Expressions of commits: a name, at most one `@`, and moves back, as `main~2^`.
ghost use Rattle.std.specs.Prelude.{◌≡◌, ◌≤◌, ◌+◌, ◌-◌, ◌*◌, ◌++◌, ℕ, true, false, [], length, None, IfOk, MatchResult};
ghost use Rattle.std.specs.Prelude.{MatchOption, option_map};
ghost use Rattle.lake_base.specs.Names.{ref_fault, begins_ref, continues_ref};
ghost use Rattle.commit_graph.specs.Expressions.{RefExprValue, IsExpression, IsStray, at_sign, NoAt};
ghost use Rattle.commit_graph.specs.Scanning.{takes_digit, number_from, read_number, read_move, IsScanned, StopsMoves};
ghost use Rattle.commit_graph.specs.Scanning.{tail_len, name_len};
ghost use Rattle.commit_graph.specs.declared.expression.ExprFault.TheVariants.{NoMemory as expr_no_memory};

use lake_base::names::{NameFault, RefName};
use lake_base::outside::NoMemory;
use lake_base::sequence::Sequence;
use std::alloc::{AllocFailed, Global};
use std::marker::Model;
use thiserror::Error;

/// A way back from a commit.
#[derive(Clone, Copy, Debug, PartialEq, Eq)]
pub enum Move {
    /// So many first parents back.
    Back(u32),
    /// The parent of this number, counted from 1; the commit itself where it is 0.
    Parent(u32),
}

/// An expression of a commit: a name, whether `@` stands behind it, and moves back, fewer than 2^32. Contracts see
/// its fields.
#[derive(Debug, Drop)]
pub struct RefExpr {
    pub name: RefName,
    pub at: bool,
    pub moves: Sequence<Move>,
}

impl Model for RefExpr {
    ghost use Rattle.std.specs.Prelude.{◌<◌, ◌^◌, length};
    ghost use Rattle.commit_graph.specs.Expressions.{RefExprValue};

    ghost Value = { RefExprValue };

    ghost view = { λ e. record { name = e.name; at = e.at; moves = e.moves } };

    ghost invariant = { λ e. length e.moves < 2 ^ 32 };
}

/// Why bytes aren't an expression.
#[derive(Clone, Copy, Debug, PartialEq, Eq, Error)]
pub enum ExprFault {
    /// The least place, counted from 0, at which no expression goes on.
    #[error("no expression goes on at byte {0}")]
    Bad(usize),
    /// No memory was left, or there are 2^32 moves and more.
    #[error("out of memory")]
    NoMemory,
}

impl From<NoMemory> for ExprFault {
    ghost from_gives = { λ _ e. e ≡ expr_no_memory };

    fn from(_: NoMemory) -> Self {
        ExprFault::NoMemory
    }
}

impl<T: Drop> From<AllocFailed<T>> for ExprFault {
    ghost from_gives = { λ _ e. e ≡ expr_no_memory };

    fn from(_: AllocFailed<T>) -> Self {
        ExprFault::NoMemory
    }
}

// Whether a name may begin with the byte: a letter, a digit or an underscore.
fn begins_name(byte: u8) -> bool
    ensures { result ≡ begins_ref byte }
{
    byte.is_ascii_alphanumeric() || byte == b'_'
}

// Whether it may go on with the byte.
fn continues_name(byte: u8) -> bool
    ensures { result ≡ continues_ref byte }
{
    begins_name(byte) || byte == b'-'
}

// How many bytes of the front a name may go on with, at most 254.
fn tail_len(bytes: &[u8]) -> usize
    ensures len { result ≡ tail_len 254 bytes.now }
    ensures few { result ≤ 254 }
{
    for (at, byte) in bytes.iter().enumerate() {
        if at == 254 || !continues_name(*byte) {
            return at;
        }
    }
    bytes.len()
}

// How long the longest name at the front is.
#[tactic(auto, unfolding(crate::specs::Scanning::name_len))]
fn name_len(bytes: &[u8]) -> usize
    ensures len { result ≡ name_len bytes.now }
{
    match bytes {
        [byte, rest @ ..] if begins_name(*byte) => 1 + tail_len(rest),
        _ => 0,
    }
}

// The number with one digit more.
fn next_digit(before: u32, byte: u8) -> Option<u32>
    ensures { MatchOption result (takes_digit before byte ≡ false)
        (λ number. (takes_digit before byte ≡ true) × (number ≡ before * 10 + (byte - 48))) }
{
    if !byte.is_ascii_digit() {
        return None;
    }
    before.checked_mul(10)?.checked_add((byte - 48) as u32)
}

// The number at the front, which is 1 where there is no digit, and the bytes after it.
#[tactic(auto, unfolding(crate::specs::Scanning::read_number))]
fn read_number(bytes: &[u8]) -> (u32, &[u8])
    ensures { (result.0, result.1.now) ≡ read_number bytes.now }
{
    match bytes {
        [byte, ..] if byte.is_ascii_digit() => read_digits(bytes),
        _ => (1, bytes),
    }
}

// The number of at most 10 digits at the front, and the bytes after it.
fn read_digits(bytes: &[u8]) -> (u32, &[u8])
    ensures { (result.0, result.1.now) ≡ number_from 10 0 bytes.now }
{
    let mut number = 0;
    for (at, byte) in bytes.iter().enumerate() {
        if at == 10 {
            return (number, &bytes[at..]);
        }
        let Some(next) = next_digit(number, *byte) else {
            return (number, &bytes[at..]);
        };
        number = next;
    }
    (number, &bytes[bytes.len()..])
}

// The move at the front, and the bytes after it.
#[tactic(auto, unfolding(crate::specs::Scanning::read_move))]
fn read_move(bytes: &[u8]) -> Option<(Move, &[u8])>
    ensures { option_map (λ x. (x.0, x.1.now)) result ≡ read_move bytes.now }
{
    match bytes {
        [b'~', rest @ ..] => {
            let (steps, rest) = read_number(rest);
            Some((Move::Back(steps), rest))
        }
        [b'^', rest @ ..] => {
            let (number, rest) = read_number(rest);
            Some((Move::Parent(number), rest))
        }
        _ => None,
    }
}

// Moves to the end of the bytes, in an input of `len` bytes.
fn read_moves(alloc: Global, bytes: &[u8], len: usize) -> Result<Vec<Move>, ExprFault>
    requires { length bytes.now ≤ len }
    ensures { MatchResult result (λ moves. IsScanned bytes.now moves.items []) (StopsMoves len bytes.now) }
{
    let mut moves = Vec::new(alloc);
    let mut rest = bytes;
    while !rest.is_empty() {
        let Some((one, after)) = read_move(rest) else {
            return Err(ExprFault::Bad(len - rest.len()));
        };
        moves.push(one)?;
        rest = after;
    }
    Ok(moves)
}

// The `@` at the front, and the bytes after it.
fn after_at(bytes: &[u8]) -> (bool, &[u8])
    ensures parts { bytes.now ≡ at_sign result.0 ++ result.1.now }
    ensures plain { result.0 ≡ false → NoAt result.1.now }
{
    match bytes {
        [b'@', rest @ ..] => (true, rest),
        _ => (false, bytes),
    }
}

// The name that these bytes are.
fn name_of(alloc: Global, bytes: &[u8]) -> Result<RefName, ExprFault>
    requires { ref_fault bytes.now ≡ None }
    ensures { MatchResult result (λ name. name ≡ bytes.now) (λ fault. fault ≡ expr_no_memory) }
{
    match RefName::read(alloc, bytes) {
        Ok(name) => Ok(name),
        Err(_) => Err(ExprFault::NoMemory),
    }
}

impl RefExpr {
    /// Reads a name, at most one `@`, and any of `~N` and `^N`, where N is a number below 2^32 in at most 10 digits,
    /// and 1 where it is absent. Bad holds the least place at which no expression goes on. A text of 2^32 moves and
    /// more is answered as out of memory.
    pub fn read(alloc: Global, bytes: &[u8]) -> Result<RefExpr, ExprFault>
        ensures found { IfOk result (λ e. IsExpression e bytes.now) }
        // What is an expression is read as that one, unless memory runs out.
        ensures only { (e : RefExprValue) → IsExpression e bytes.now
            → MatchResult result (λ x. x ≡ e) (λ fault. fault ≡ expr_no_memory) }
        ensures bad { (place : ℕ) → result ≡ Err (ExprFault.Bad place) → IsStray bytes.now place }
    {
        let end = name_len(bytes);
        if end == 0 {
            return Err(ExprFault::Bad(0));
        }
        let (front, rest) = bytes.split_at(end);
        let (at, rest) = after_at(rest);
        let name = name_of(alloc, front)?;
        let moves = read_moves(alloc, rest, bytes.len())?;
        if moves.len() > u32::MAX as usize {
            return Err(ExprFault::NoMemory);
        }
        Ok(RefExpr {
            name,
            at,
            moves: Sequence::of(moves),
        })
    }
}
