//! The spelling of a key and of a pair: the project's own format.
//!
//! | key | value |
//! |---|---|
//! | `R`, repository | when it was created, default branch, version of the settings |
//! | `B`, repository, branch | version, head, staging token, 4 bytes of count, each sealed token, newest first |
//! | `T`, repository, tag | the commit's id |
//! | `C`, repository, the commit's id | `00`, or `01` where it is expired, and the commit's bytes |
//! | `M`, name | the bytes of a metarange file |
//! | `G`, name | the bytes of a range file |
//! | `S`, token, path to the end | `00` for a deletion, or `01` and an entry |
//! | `N`, repository, 1 retention, 2 protection or 3 hooks | the text of the setting |
//! | `X`, number | nothing |
//! | `Z` | the next number, the next version, the next token |
//!
//! Numbers, versions, tokens and times have 8 bytes, the high byte first; ids and the names of files have 32; the
//! names of repositories, branches and tags stand behind 2 bytes of length.
ghost use Rattle.std.specs.Prelude.{◌≡◌, ◌++◌, ◌∷◌, ◌<◌, ◌^◌, [], ℕ, List, length, false, None, Ok, IfOk, OnOk};
ghost use Rattle.std.specs.Int.{w64, to_be_bytes};
ghost use Rattle.lake_base.specs.Names.{repo_fault, path_fault, is_like_id};
ghost use Rattle.lake_format.specs.Spelling.{short_text, commit_spelling, AreBytes, IsDigest, IsSpelledCommit};
ghost use Rattle.pair_format.specs.declared.key.OwnedKey.{OwnedKey as AnyKey};
ghost use Rattle.pair_format.specs.declared.stored.Stored.{Stored as AnyStored};
ghost use Rattle.pair_format.specs.Keys.{key_value, note_number};
ghost use Rattle.pair_format.specs.PairSpelling.{key_of, key_spelling, value_spelling, pair_spelling, tokens_spelling};
ghost use Rattle.pair_format.specs.PairSpelling.{change_spelling, flag, IsStoredKey, IsStored, IsSpelledKey};
ghost use Rattle.pair_format.specs.PairSpelling.{IsSpelledChange, IsSpelledValue, IsSpelledStored, IsRefName};
ghost use Rattle.pair_format.specs.PairSpelling.{AreTokens};
ghost use Rattle.pair_format.specs.PairReading.{pair_from};

use crate::key::StoredKey;
use crate::pair::Pair;
use crate::stored::Stored;
use commit_graph::commit_bytes;
use lake_base::digest::Digest;
use lake_base::names::{Path, RefName, RepoName};
use lake_base::outside::NoMemory;
use lake_base::sequence::Sequence;
use lake_format::encoding::put_entry;
use lake_format::fields::{put_digest, put_text, put_u32, put_u64};
use lake_values::commit::CommitRecord;
use lake_values::entry::Change;
use lake_values::settings::NoteName;
use std::alloc::Global;

/// The one spelling of a key.
pub fn encode_key(alloc: Global, key: &StoredKey) -> Result<Sequence<u8>, NoMemory>
    requires { IsStoredKey (key_value key.now) }
    ensures spelled { IfOk result (λ bytes. bytes ≡ key_spelling (key_value key.now)) }
    ensures limits { OnOk result (IsSpelledKey (key_value key.now)) }
{
    match key {
        StoredKey::Repository { repo } => name_key(alloc, b'R', repo),
        StoredKey::Branch { repo, branch } => two_names_key(alloc, b'B', repo, branch),
        StoredKey::Tag { repo, tag } => two_names_key(alloc, b'T', repo, tag),
        StoredKey::Commit { repo, id } => id_key(alloc, b'C', repo, id),
        StoredKey::MetaRange { name } => digest_key(alloc, b'M', name),
        StoredKey::Range { name } => digest_key(alloc, b'G', name),
        StoredKey::Staged { token, path } => path_key(alloc, b'S', *token, path),
        StoredKey::Note { repo, name } => note_key(alloc, b'N', repo, *name),
        StoredKey::Gone { number } => number_key(alloc, b'X', *number),
        StoredKey::Counts => letter_key(alloc, b'Z'),
    }
}

// A letter.
fn letter_key(alloc: Global, letter: u8) -> Result<Sequence<u8>, NoMemory>
    ensures { IfOk result (λ bytes. bytes ≡ letter ∷ []) }
{
    let mut out = Vec::new(alloc);
    out.push(letter)?;
    Ok(Sequence::of(out))
}

// A letter and the name of a repository.
fn name_key(alloc: Global, letter: u8, repo: &RepoName) -> Result<Sequence<u8>, NoMemory>
    ensures spelled { IfOk result (λ bytes. bytes ≡ letter ∷ short_text repo.now) }
    ensures limits { OnOk result (repo_fault repo.now ≡ None) }
{
    let mut out = Vec::new(alloc);
    out.push(letter)?;
    put_repo(&mut out, repo)?;
    Ok(Sequence::of(out))
}

// A letter, the name of a repository, and that of a branch or a tag.
fn two_names_key(
    alloc: Global,
    letter: u8,
    repo: &RepoName,
    name: &RefName,
) -> Result<Sequence<u8>, NoMemory>
    requires { is_like_id name.now ≡ false }
    ensures spelled { IfOk result (λ bytes. bytes ≡ letter ∷ (short_text repo.now ++ short_text name.now)) }
    ensures limits { OnOk result ((repo_fault repo.now ≡ None) × IsRefName name.now) }
{
    let mut out = Vec::new(alloc);
    out.push(letter)?;
    put_repo(&mut out, repo)?;
    put_ref(&mut out, name)?;
    Ok(Sequence::of(out))
}

// A letter, the name of a repository, and an id.
fn id_key(alloc: Global, letter: u8, repo: &RepoName, id: &Digest) -> Result<Sequence<u8>, NoMemory>
    ensures spelled { IfOk result (λ bytes. bytes ≡ letter ∷ (short_text repo.now ++ id.now.0)) }
    ensures limits { OnOk result ((repo_fault repo.now ≡ None) × IsDigest id.now.0) }
{
    let mut out = Vec::new(alloc);
    out.push(letter)?;
    put_repo(&mut out, repo)?;
    put_digest(&mut out, id)?;
    Ok(Sequence::of(out))
}

// A letter and a digest.
fn digest_key(alloc: Global, letter: u8, name: &Digest) -> Result<Sequence<u8>, NoMemory>
    ensures spelled { IfOk result (λ bytes. bytes ≡ letter ∷ name.now.0) }
    ensures limits { OnOk result (IsDigest name.now.0) }
{
    let mut out = Vec::new(alloc);
    out.push(letter)?;
    put_digest(&mut out, name)?;
    Ok(Sequence::of(out))
}

// A letter, a token, and a path to the end.
fn path_key(alloc: Global, letter: u8, token: u64, path: &Path) -> Result<Sequence<u8>, NoMemory>
    ensures spelled { IfOk result (λ bytes. bytes ≡ letter ∷ (to_be_bytes w64 token ++ path.now)) }
    ensures limits { OnOk result ((token < 2 ^ 64) × (path_fault path.now ≡ None)) }
{
    let mut out = Vec::new(alloc);
    out.push(letter)?;
    put_u64(&mut out, token)?;
    out.extend_from_slice(path.as_slice())?;
    Ok(Sequence::of(out))
}

// A letter, the name of a repository, and the byte of a setting's name.
fn note_key(
    alloc: Global,
    letter: u8,
    repo: &RepoName,
    name: NoteName,
) -> Result<Sequence<u8>, NoMemory>
    ensures spelled { IfOk result (λ bytes. bytes ≡ letter ∷ (short_text repo.now ++ note_number name ∷ [])) }
    ensures limits { OnOk result (repo_fault repo.now ≡ None) }
{
    let mut out = Vec::new(alloc);
    out.push(letter)?;
    put_repo(&mut out, repo)?;
    out.push(note_number(name))?;
    Ok(Sequence::of(out))
}

// A letter and a number.
fn number_key(alloc: Global, letter: u8, number: u64) -> Result<Sequence<u8>, NoMemory>
    ensures spelled { IfOk result (λ bytes. bytes ≡ letter ∷ to_be_bytes w64 number) }
    ensures limits { OnOk result (number < 2 ^ 64) }
{
    let mut out = Vec::new(alloc);
    out.push(letter)?;
    put_u64(&mut out, number)?;
    Ok(Sequence::of(out))
}

// The byte of a setting's name.
fn note_number(name: NoteName) -> u8
    ensures { result ≡ note_number name }
{
    match name {
        NoteName::Retention => 1,
        NoteName::Protection => 2,
        NoteName::Hooks => 3,
    }
}

// Appends the name of a repository behind two bytes of its length.
fn put_repo(out: &mut Vec<u8>, repo: &RepoName) -> Result<(), NoMemory>
    ensures spelled { OnOk result (out.new.items ≡ out.old.items ++ short_text repo.now) }
    ensures limits { OnOk result (repo_fault repo.now ≡ None) }
{
    put_text(out, repo.as_slice())
}

// Appends the name of a branch or a tag behind two bytes of its length.
fn put_ref(out: &mut Vec<u8>, name: &RefName) -> Result<(), NoMemory>
    requires { is_like_id name.now ≡ false }
    ensures spelled { OnOk result (out.new.items ≡ out.old.items ++ short_text name.now) }
    ensures limits { OnOk result (IsRefName name.now) }
{
    put_text(out, name.as_slice())
}

/// The one spelling of what is stored: its key and its value.
pub fn encode_pair(alloc: Global, stored: &Stored) -> Result<Pair, NoMemory>
    requires { IsStored stored.now }
    ensures spelled { IfOk result (λ pair. pair ≡ pair_spelling stored.now) }
    ensures limits { OnOk result (IsSpelledStored stored.now) }
{
    let key = key_bytes(alloc, stored)?;
    let value = value_bytes(alloc, stored)?;
    Ok(Pair { key, value })
}

// The spelling of its key.
fn key_bytes(alloc: Global, stored: &Stored) -> Result<Sequence<u8>, NoMemory>
    requires { IsStored stored.now }
    ensures spelled { IfOk result (λ bytes. bytes ≡ key_spelling (key_of stored.now)) }
    ensures limits { OnOk result (IsSpelledKey (key_of stored.now)) }
{
    encode_key(alloc, &stored.key())
}

// The spelling of its value.
fn value_bytes(alloc: Global, stored: &Stored) -> Result<Sequence<u8>, NoMemory>
    requires { IsStored stored.now }
    ensures spelled { IfOk result (λ bytes. bytes ≡ value_spelling stored.now) }
    ensures limits { OnOk result (IsSpelledValue stored.now) }
{
    match stored {
        Stored::Repository {
            created,
            default_branch,
            settings,
            ..
        } => repository_value(alloc, *created, default_branch, *settings),
        Stored::Branch {
            version,
            head,
            staging,
            sealed,
            ..
        } => branch_value(alloc, *version, head, *staging, sealed.as_slice()),
        Stored::Tag { commit, .. } => digest_value(alloc, commit),
        Stored::Commit {
            expired,
            commit,
            ..
        } => commit_value(alloc, *expired, commit),
        Stored::MetaRange { bytes, .. } => bytes_value(alloc, bytes.as_slice()),
        Stored::Range { bytes, .. } => bytes_value(alloc, bytes.as_slice()),
        Stored::Staged { change, .. } => change_value(alloc, change),
        Stored::Note { text, .. } => bytes_value(alloc, text.as_slice()),
        Stored::Gone { .. } => Ok(Sequence::of(Vec::new(alloc))),
        Stored::Counts {
            number,
            version,
            token,
        } => counts_value(alloc, *number, *version, *token),
    }
}

// A time, the name of a branch and a version.
fn repository_value(
    alloc: Global,
    created: u64,
    default_branch: &RefName,
    settings: u64,
) -> Result<Sequence<u8>, NoMemory>
    requires { is_like_id default_branch.now ≡ false }
    ensures spelled { IfOk result
        (λ bytes. bytes ≡ to_be_bytes w64 created ++ (short_text default_branch.now ++ to_be_bytes w64 settings)) }
    ensures limits { OnOk result ((created < 2 ^ 64) × (IsRefName default_branch.now × (settings < 2 ^ 64))) }
{
    let mut out = Vec::new(alloc);
    put_u64(&mut out, created)?;
    put_ref(&mut out, default_branch)?;
    put_u64(&mut out, settings)?;
    Ok(Sequence::of(out))
}

// A version, a head, a staging token, and sealed tokens behind their count.
fn branch_value(
    alloc: Global,
    version: u64,
    head: &Digest,
    staging: u64,
    sealed: &[u64],
) -> Result<Sequence<u8>, NoMemory>
    requires { length sealed.now < 2 ^ 32 }
    ensures spelled { IfOk result (λ bytes. bytes
        ≡ to_be_bytes w64 version ++ (head.now.0 ++ (to_be_bytes w64 staging ++ tokens_spelling sealed.now))) }
    ensures limits { OnOk result
        ((version < 2 ^ 64) × (IsDigest head.now.0 × ((staging < 2 ^ 64) × AreTokens sealed.now))) }
{
    let mut out = Vec::new(alloc);
    put_u64(&mut out, version)?;
    put_digest(&mut out, head)?;
    put_u64(&mut out, staging)?;
    put_tokens(&mut out, sealed)?;
    Ok(Sequence::of(out))
}

// Appends tokens behind four bytes of their count.
fn put_tokens(out: &mut Vec<u8>, tokens: &[u64]) -> Result<(), NoMemory>
    requires { length tokens.now < 2 ^ 32 }
    ensures spelled { OnOk result (out.new.items ≡ out.old.items ++ tokens_spelling tokens.now) }
    ensures limits { OnOk result (AreTokens tokens.now) }
{
    put_u32(out, tokens.len() as u32)?;
    for token in tokens {
        put_token(out, *token)?;
    }
    Ok(())
}

// Appends a token.
fn put_token(out: &mut Vec<u8>, token: u64) -> Result<(), NoMemory>
    ensures spelled { OnOk result (out.new.items ≡ out.old.items ++ to_be_bytes w64 token) }
    ensures limits { OnOk result (token < 2 ^ 64) }
{
    put_u64(out, token)
}

// A digest.
fn digest_value(alloc: Global, digest: &Digest) -> Result<Sequence<u8>, NoMemory>
    ensures spelled { IfOk result (λ bytes. bytes ≡ digest.now.0) }
    ensures limits { OnOk result (IsDigest digest.now.0) }
{
    let mut out = Vec::new(alloc);
    put_digest(&mut out, digest)?;
    Ok(Sequence::of(out))
}

// A flag and the bytes of a commit.
fn commit_value(
    alloc: Global,
    expired: bool,
    commit: &CommitRecord,
) -> Result<Sequence<u8>, NoMemory>
    ensures spelled { IfOk result (λ bytes. bytes ≡ flag expired ∷ commit_spelling commit.now) }
    ensures limits { OnOk result (IsSpelledCommit commit.now) }
{
    let fields = commit_bytes(alloc, commit)?;
    let mut out = Vec::new(alloc);
    out.push(flag(expired))?;
    out.extend_from_slice(fields.as_slice())?;
    Ok(Sequence::of(out))
}

// A byte that says whether it holds.
fn flag(holds: bool) -> u8
    ensures { result ≡ flag holds }
{
    if holds { 1 } else { 0 }
}

// Any bytes.
fn bytes_value(alloc: Global, bytes: &[u8]) -> Result<Sequence<u8>, NoMemory>
    ensures spelled { IfOk result (λ copy. copy ≡ bytes.now) }
    ensures limits { OnOk result (AreBytes bytes.now) }
{
    let copy = Vec::from_slice(alloc, bytes)?;
    Ok(Sequence::of(copy))
}

// 0 for a deletion, or 1 and the entry.
fn change_value(alloc: Global, change: &Change) -> Result<Sequence<u8>, NoMemory>
    ensures spelled { IfOk result (λ bytes. bytes ≡ change_spelling change.now) }
    ensures limits { OnOk result (IsSpelledChange change.now) }
{
    let mut out = Vec::new(alloc);
    match change {
        Change::Delete => out.push(0)?,
        Change::Put(entry) => {
            out.push(1)?;
            put_entry(&mut out, entry)?;
        }
    }
    Ok(Sequence::of(out))
}

// Three numbers.
fn counts_value(
    alloc: Global,
    number: u64,
    version: u64,
    token: u64,
) -> Result<Sequence<u8>, NoMemory>
    ensures spelled { IfOk result
        (λ bytes. bytes ≡ to_be_bytes w64 number ++ (to_be_bytes w64 version ++ to_be_bytes w64 token)) }
    ensures limits { OnOk result ((number < 2 ^ 64) × ((version < 2 ^ 64) × (token < 2 ^ 64))) }
{
    let mut out = Vec::new(alloc);
    put_u64(&mut out, number)?;
    put_u64(&mut out, version)?;
    put_u64(&mut out, token)?;
    Ok(Sequence::of(out))
}

/// What is spelled is read again. So no two things that are stored share a pair, and no two keys share a spelling.
/// What is read is spelled so. (A law: it does nothing.)
pub fn laws_of_pairs()
    ensures again { (s : AnyStored) → IsSpelledStored s
        → pair_from (key_spelling (key_of s)) (value_spelling s) ≡ Ok s }
    ensures apart { (a b : AnyStored) → IsSpelledStored a → IsSpelledStored b
        → pair_spelling a ≡ pair_spelling b → a ≡ b }
    ensures keys_apart { (a b : AnyKey) → IsSpelledKey a → IsSpelledKey b
        → key_spelling a ≡ key_spelling b → a ≡ b }
    ensures found { (key value : List ℕ) (s : AnyStored) → AreBytes key → AreBytes value
        → pair_from key value ≡ Ok s
        → IsSpelledStored s × (key ≡ key_spelling (key_of s)) × (value ≡ value_spelling s) }
{}
