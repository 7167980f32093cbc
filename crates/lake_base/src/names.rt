//! Paths, and the names of repositories, branches and tags.
ghost use Rattle.std.specs.Prelude.{◌≡◌, ◌+◌, ◌<◌, not, length, position, IfOk, None};
ghost use Rattle.lake_base.specs.Names.{ReadsName, path_fault, repo_fault, ref_fault, bad_byte, begins_repo};
ghost use Rattle.lake_base.specs.Names.{continues_repo, begins_ref, continues_ref, is_hex, stray_hex, is_like_id};
ghost use Rattle.lake_base.specs.declared.names.NameFault.TheVariants.{NoMemory as name_no_memory};

use crate::copying::TryCopy;
use crate::limits::{PATH_LIMIT, REF_NAME_LIMIT, REPO_NAME_LIMIT};
use crate::outside::NoMemory;
use crate::text::Text;
use std::alloc::Global;
use std::marker::Model;
use thiserror::Error;

/// Why bytes aren't a name, a path or a text.
#[derive(Clone, Copy, Debug, PartialEq, Eq, Error)]
pub enum NameFault {
    /// There is no byte.
    #[error("it is empty")]
    Empty,
    /// There are too few bytes.
    #[error("it is too short")]
    TooShort,
    /// There are too many bytes.
    #[error("it is too long")]
    TooLong,
    /// The bytes aren't UTF-8.
    #[error("it is not UTF-8")]
    NotUtf8,
    /// The byte at this place, the first such, may not stand there.
    #[error("byte {0} may not stand there")]
    BadByte(usize),
    /// No memory was left.
    #[error("out of memory")]
    NoMemory,
}

impl From<NoMemory> for NameFault {
    ghost from_gives = { λ _ e. e ≡ name_no_memory };

    fn from(_: NoMemory) -> Self {
        NameFault::NoMemory
    }
}

// Whether the name of a repository may begin with the byte: a lower-case letter or a digit.
fn begins_repo(byte: u8) -> bool
    ensures { result ≡ begins_repo byte }
{
    byte.is_ascii_lowercase() || byte.is_ascii_digit()
}

// Whether it may go on with the byte.
fn continues_repo(byte: u8) -> bool
    ensures { result ≡ continues_repo byte }
{
    begins_repo(byte) || byte == b'-'
}

// The first byte with which it may not go on.
fn stray_repo_byte(bytes: &[u8]) -> Option<usize>
    ensures { result ≡ position (λ byte. not (continues_repo byte)) bytes.now }
{
    bytes.iter().position(|byte| !continues_repo(*byte))
}

// The least place at which the name of a repository doesn't go on.
fn bad_repo_byte(bytes: &[u8]) -> Option<NameFault>
    requires { 0 < length bytes.now }
    ensures { result ≡ bad_byte begins_repo continues_repo bytes.now }
{
    if !begins_repo(bytes[0]) {
        return Some(NameFault::BadByte(0));
    }
    match stray_repo_byte(&bytes[1..]) {
        None => None,
        Some(at) => Some(NameFault::BadByte(at + 1)),
    }
}

// Whether the name of a branch or a tag may begin with the byte: a letter, a digit or an underscore.
fn begins_ref(byte: u8) -> bool
    ensures { result ≡ begins_ref byte }
{
    byte.is_ascii_alphanumeric() || byte == b'_'
}

// Whether it may go on with the byte.
fn continues_ref(byte: u8) -> bool
    ensures { result ≡ continues_ref byte }
{
    begins_ref(byte) || byte == b'-'
}

// The first byte with which it may not go on.
fn stray_ref_byte(bytes: &[u8]) -> Option<usize>
    ensures { result ≡ position (λ byte. not (continues_ref byte)) bytes.now }
{
    bytes.iter().position(|byte| !continues_ref(*byte))
}

// The least place at which the name of a branch or a tag doesn't go on.
fn bad_ref_byte(bytes: &[u8]) -> Option<NameFault>
    requires { 0 < length bytes.now }
    ensures { result ≡ bad_byte begins_ref continues_ref bytes.now }
{
    if !begins_ref(bytes[0]) {
        return Some(NameFault::BadByte(0));
    }
    match stray_ref_byte(&bytes[1..]) {
        None => None,
        Some(at) => Some(NameFault::BadByte(at + 1)),
    }
}

// Whether the byte is a lower-case hex digit.
fn is_hex(byte: u8) -> bool
    ensures { result ≡ is_hex byte }
{
    byte.is_ascii_digit() || matches!(byte, b'a'..=b'f')
}

// The first byte that isn't one.
pub(crate) fn stray_hex_byte(bytes: &[u8]) -> Option<usize>
    ensures { result ≡ stray_hex bytes.now }
{
    bytes.iter().position(|byte| !is_hex(*byte))
}

/// A path: UTF-8 of 1 to 1,024 bytes. Contracts see its bytes.
#[derive(Debug, Drop)]
pub struct Path {
    text: Text,
}

impl Model for Path {
    ghost use Rattle.std.specs.Prelude.{◌≡◌, List, ℕ, None};
    ghost use Rattle.lake_base.specs.Names.{path_fault};

    ghost Value = { List ℕ };

    ghost view = { λ name. name.text };

    ghost invariant = { λ name. path_fault name.text ≡ None };
}

impl Path {
    /// Reads it. Each fault comes exactly where it is the first.
    pub fn read(alloc: Global, bytes: &[u8]) -> Result<Path, NameFault>
        ensures { ReadsName result (path_fault bytes.now) (λ name. name ≡ bytes.now) }
    {
        if bytes.is_empty() {
            return Err(NameFault::Empty);
        }
        Ok(Path {
            text: Text::read(alloc, bytes, PATH_LIMIT)?,
        })
    }

    /// Its bytes. It takes no memory.
    pub fn as_slice(&self) -> &[u8]
        ensures bytes { result.now ≡ self.now }
        ensures valid { path_fault self.now ≡ None }
    {
        self.text.as_slice()
    }

    /// It as a string. It takes no memory.
    pub fn as_str(&self) -> &str
        ensures bytes { result.now ≡ self.now }
        ensures valid { path_fault self.now ≡ None }
    {
        self.text.as_str()
    }
}

impl TryCopy for Path {
    fn copy(&self, alloc: Global) -> Result<Path, NoMemory>
        ensures equal { IfOk result (λ copy. copy ≡ self.now) }
        ensures valid { path_fault self.now ≡ None }
    {
        let text = self.text.copy(alloc)?;
        Ok(Path { text })
    }
}

/// The name of a repository: `[a-z0-9][a-z0-9-]{2,62}`. Contracts see its bytes.
#[derive(Debug, Drop)]
pub struct RepoName {
    text: Text,
}

impl Model for RepoName {
    ghost use Rattle.std.specs.Prelude.{◌≡◌, List, ℕ, None};
    ghost use Rattle.lake_base.specs.Names.{repo_fault};

    ghost Value = { List ℕ };

    ghost view = { λ name. name.text };

    ghost invariant = { λ name. repo_fault name.text ≡ None };
}

impl RepoName {
    /// Reads it. Each fault comes exactly where it is the first.
    pub fn read(alloc: Global, bytes: &[u8]) -> Result<RepoName, NameFault>
        ensures { ReadsName result (repo_fault bytes.now) (λ name. name ≡ bytes.now) }
    {
        if bytes.is_empty() {
            return Err(NameFault::Empty);
        }
        if bytes.len() < 3 {
            return Err(NameFault::TooShort);
        }
        if bytes.len() > REPO_NAME_LIMIT {
            return Err(NameFault::TooLong);
        }
        if let Some(fault) = bad_repo_byte(bytes) {
            return Err(fault);
        }
        Ok(RepoName {
            text: Text::of_utf8(alloc, bytes)?,
        })
    }

    /// Its bytes. It takes no memory.
    pub fn as_slice(&self) -> &[u8]
        ensures bytes { result.now ≡ self.now }
        ensures valid { repo_fault self.now ≡ None }
    {
        self.text.as_slice()
    }

    /// It as a string. It takes no memory.
    pub fn as_str(&self) -> &str
        ensures bytes { result.now ≡ self.now }
        ensures valid { repo_fault self.now ≡ None }
    {
        self.text.as_str()
    }
}

impl TryCopy for RepoName {
    fn copy(&self, alloc: Global) -> Result<RepoName, NoMemory>
        ensures equal { IfOk result (λ copy. copy ≡ self.now) }
        ensures valid { repo_fault self.now ≡ None }
    {
        let text = self.text.copy(alloc)?;
        Ok(RepoName { text })
    }
}

/// The name of a branch or a tag: `[A-Za-z0-9_][A-Za-z0-9_-]{0,254}`. Contracts see its bytes.
#[derive(Debug, Drop)]
pub struct RefName {
    text: Text,
}

impl Model for RefName {
    ghost use Rattle.std.specs.Prelude.{◌≡◌, List, ℕ, None};
    ghost use Rattle.lake_base.specs.Names.{ref_fault};

    ghost Value = { List ℕ };

    ghost view = { λ name. name.text };

    ghost invariant = { λ name. ref_fault name.text ≡ None };
}

impl RefName {
    /// Reads it. Each fault comes exactly where it is the first.
    pub fn read(alloc: Global, bytes: &[u8]) -> Result<RefName, NameFault>
        ensures { ReadsName result (ref_fault bytes.now) (λ name. name ≡ bytes.now) }
    {
        if bytes.is_empty() {
            return Err(NameFault::Empty);
        }
        if bytes.len() > REF_NAME_LIMIT {
            return Err(NameFault::TooLong);
        }
        if let Some(fault) = bad_ref_byte(bytes) {
            return Err(fault);
        }
        Ok(RefName {
            text: Text::of_utf8(alloc, bytes)?,
        })
    }

    /// Whether it could be taken for the id of a commit: 64 lower-case hex digits. It takes no memory.
    pub fn like_id(&self) -> bool
        ensures { result ≡ is_like_id self.now }
    {
        self.as_slice().len() == 64 && stray_hex_byte(self.as_slice()).is_none()
    }

    /// Its bytes. It takes no memory.
    pub fn as_slice(&self) -> &[u8]
        ensures bytes { result.now ≡ self.now }
        ensures valid { ref_fault self.now ≡ None }
    {
        self.text.as_slice()
    }

    /// It as a string. It takes no memory.
    pub fn as_str(&self) -> &str
        ensures bytes { result.now ≡ self.now }
        ensures valid { ref_fault self.now ≡ None }
    {
        self.text.as_str()
    }
}

impl TryCopy for RefName {
    fn copy(&self, alloc: Global) -> Result<RefName, NoMemory>
        ensures equal { IfOk result (λ copy. copy ≡ self.now) }
        ensures valid { ref_fault self.now ≡ None }
    {
        let text = self.text.copy(alloc)?;
        Ok(RefName { text })
    }
}
