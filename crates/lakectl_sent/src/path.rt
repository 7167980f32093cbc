//! Paths of requests.
ghost use Rattle.std.specs.Prelude.{◌≡◌, ◌++◌, ◌∷◌, [], map, codes, IfOk, OnOk, string_bytes};
ghost use Rattle.std.specs.List.{flat_map};
ghost use Rattle.lakectl_sent.specs.SentMessages.{segments_of, is_kept, escaped_byte, escaped, behind_slash, path_text};
ghost use Rattle.lakectl_sent.specs.UriPlaces.{place_seen};

use crate::place::Place;
use lake_base::NoMemory;
use lakectl_verbs::Verb;
use percent_encoding::percent_encode_byte;
use std::alloc::Global;

// Whether a byte stands for itself in a segment.
fn is_kept(byte: u8) -> bool
    ensures { result ≡ is_kept byte }
{
    byte.is_ascii_alphanumeric() || byte == b'-' || byte == b'.' || byte == b'_' || byte == b'~'
}

// A byte of a segment behind others.
fn push_byte(out: &mut Vec<u8>, byte: u8) -> Result<(), NoMemory>
    ensures { OnOk result (out.new.items ≡ out.old.items ++ escaped_byte byte) }
{
    if is_kept(byte) {
        return Ok(out.push(byte)?);
    }
    Ok(out.extend_from_slice(percent_encode_byte(byte).as_bytes())?)
}

// A segment, percent-escaped, behind others.
fn push_escaped(out: &mut Vec<u8>, segment: &[u8]) -> Result<(), NoMemory>
    ensures { OnOk result (out.new.items ≡ out.old.items ++ escaped segment.now) }
{
    for byte in segment {
        push_byte(out, *byte)?;
    }
    Ok(())
}

// A segment behind its slash.
fn push_segment(out: &mut Vec<u8>, segment: &str) -> Result<(), NoMemory>
    ensures { OnOk result (out.new.items ≡ out.old.items ++ behind_slash segment.now) }
{
    out.extend_from_slice(b"/")?;
    push_escaped(out, segment.as_bytes())
}

// The path of these segments.
fn path_text(alloc: Global, segments: &[&str]) -> Result<Vec<u8>, NoMemory>
    ensures { IfOk result (λ path. path.items ≡ path_text (map (λ segment. segment.now) segments.now)) }
{
    let mut out = Vec::new(alloc);
    out.extend_from_slice(b"/api/v1/repositories")?;
    for segment in segments {
        push_segment(&mut out, segment)?;
    }
    Ok(out)
}

/// The path of a verb's request.
pub(crate) fn path_of(
    alloc: Global,
    verb: Verb,
    at: Place<'_>,
    other: Place<'_>,
) -> Result<Vec<u8>, NoMemory>
    ensures { IfOk result (λ path. path.items
        ≡ path_text (segments_of verb (place_seen at.entry) (place_seen other.entry))) }
{
    let repo = at.repo;
    let name = at.reference;
    let second = other.reference;
    match verb {
        Verb::RepoCreate => path_text(alloc, &[]),
        Verb::RepoList => path_text(alloc, &[]),
        Verb::BranchCreate => path_text(alloc, &[repo, "branches"]),
        Verb::BranchList => path_text(alloc, &[repo, "branches"]),
        Verb::BranchShow => path_text(alloc, &[repo, "branches", name]),
        Verb::BranchDelete => path_text(alloc, &[repo, "branches", name]),
        Verb::BranchReset => path_text(alloc, &[repo, "branches", name]),
        Verb::BranchRevert => path_text(alloc, &[repo, "branches", name, "revert"]),
        Verb::TagCreate => path_text(alloc, &[repo, "tags"]),
        Verb::TagList => path_text(alloc, &[repo, "tags"]),
        Verb::TagShow => path_text(alloc, &[repo, "tags", name]),
        Verb::TagDelete => path_text(alloc, &[repo, "tags", name]),
        Verb::Commit => path_text(alloc, &[repo, "branches", name, "commits"]),
        Verb::Log => path_text(alloc, &[repo, "refs", name, "commits"]),
        Verb::Merge => path_text(alloc, &[repo, "refs", name, "merge", second]),
        Verb::CherryPick => path_text(alloc, &[repo, "branches", second, "cherry-pick"]),
        Verb::FsLs => path_text(alloc, &[repo, "refs", name, "objects", "ls"]),
        Verb::FsStat => path_text(alloc, &[repo, "refs", name, "objects", "stat"]),
        Verb::FsCat => path_text(alloc, &[repo, "refs", name, "objects"]),
        Verb::FsUpload => path_text(alloc, &[repo, "branches", name, "objects"]),
        Verb::FsDownload => path_text(alloc, &[repo, "refs", name, "objects"]),
        Verb::FsRm => path_text(alloc, &[repo, "branches", name, "objects"]),
        Verb::FsStage => path_text(alloc, &[repo, "branches", name, "objects"]),
    }
}
