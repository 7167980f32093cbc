//! What was done, as it is sent: each form once.
use crate::replies::told;
use lake_base::{Digest, Sequence};
use lake_calls::{CallReply, Done, KnownCommit, NamedCommit, ObjectStatistics};
use lake_model::RepoInfo;
use lake_pages::{Item, Page};
use lake_values::{Pairs, Place};
use std::alloc::Global;
use std::process::Abort;
use std::test::Fail;
use test_values::{
    digest, entry_of, hooks, id, pairs, path, protection, record, ref_name, repo_name, text,
};

// A repository.
fn repository(alloc: Global) -> Result<RepoInfo, Fail> {
    Ok(RepoInfo {
        name: repo_name(alloc, "demo")?,
        default_branch: ref_name(alloc, "main")?,
        created: 7,
    })
}

// A branch or a tag at the commit of a letter.
fn reference(alloc: Global, name: &str, letter: u8) -> Result<NamedCommit, Fail> {
    Ok(NamedCommit {
        name: ref_name(alloc, name)?,
        commit: id(letter),
    })
}

// A commit with the id of a letter and one parent.
fn commit(alloc: Global, letter: u8) -> Result<KnownCommit, Fail> {
    let mut parents = Vec::new(alloc);
    parents.push(id(b'p'))?;
    let mut record = record(alloc, digest(0x11), 2, 9, parents)?;
    record.metadata = pairs(alloc, "k", "v\"")?;
    Ok(KnownCommit {
        id: id(letter),
        record,
    })
}

// The object `hello` of number 171 at a path, with two pairs of metadata.
fn own(alloc: Global, at: &str) -> Result<ObjectStatistics, Fail> {
    let place = Place::Own {
        number: 171,
        digest: Digest::of(b"hello"),
    };
    let mut metadata = pairs(alloc, "k", "v")?;
    metadata.set(text(alloc, "a")?, text(alloc, "")?)?;
    Ok(ObjectStatistics {
        path: path(alloc, at)?,
        entry: entry_of(alloc, place, 5, metadata)?,
    })
}

// An object outside.
fn outside(alloc: Global, at: &str) -> Result<ObjectStatistics, Fail> {
    let place = Place::External {
        at: text(alloc, "s3://x")?,
        checksum: text(alloc, "c")?,
    };
    Ok(ObjectStatistics {
        path: path(alloc, at)?,
        entry: entry_of(alloc, place, 18446744073709551615, Pairs::new(alloc))?,
    })
}

// An object's bytes under a content type.
fn bytes(alloc: Global, content_type: &str) -> Result<Done, Fail> {
    Ok(Done::Object {
        content_type: text(alloc, content_type)?,
        body: Sequence::of(Vec::from_slice(alloc, b"hello")?),
    })
}

// Of repositories, branches and tags.
fn names(alloc: Global) -> Result<Vec<Done>, Fail> {
    let mut list = Vec::new(alloc);
    list.push(Done::Repositories {
        repositories: Sequence::of(vec![in alloc; repository(alloc)?]?),
        has_more: false,
    })?;
    list.push(Done::RepositoryCreated(repository(alloc)?))?;
    list.push(Done::Branches {
        branches: Sequence::of(vec![in alloc; reference(alloc, "b", b'a')?]?),
        has_more: true,
    })?;
    list.push(Done::BranchCreated(id(b'a')))?;
    list.push(Done::Branch(reference(alloc, "b", b'a')?))?;
    list.push(Done::BranchDeleted)?;
    list.push(Done::BranchReset)?;
    list.push(Done::Tags {
        tags: Sequence::of(Vec::new(alloc)),
        has_more: true,
    })?;
    list.push(Done::TagCreated(reference(alloc, "v1", b'a')?))?;
    list.push(Done::Tag(reference(alloc, "v1", b'a')?))?;
    list.push(Done::TagDeleted)?;
    Ok(list)
}

// Of objects.
fn objects(alloc: Global) -> Result<Vec<Done>, Fail> {
    let mut list = Vec::new(alloc);
    list.push(Done::Uploaded(own(alloc, "a")?))?;
    list.push(Done::Linked(outside(alloc, "far")?))?;
    list.push(Done::ObjectDeleted)?;
    list.push(Done::Copied(own(alloc, "b")?))?;
    list.push(Done::Statistics(outside(alloc, "c")?))?;
    list.push(bytes(alloc, "text/plain; charset=utf-8")?)?;
    list.push(bytes(alloc, "")?)?;
    list.push(bytes(alloc, "a/b\r")?)?;
    list.push(bytes(alloc, "a/\u{e9}")?)?;
    list.push(Done::Listing(Page {
        items: Sequence::of(vec![in alloc; Item::Prefix(text(alloc, "a/")?)]?),
        has_more: true,
    }))?;
    Ok(list)
}

// Of commits and settings.
fn heads(alloc: Global) -> Result<Vec<Done>, Fail> {
    let mut list = Vec::new(alloc);
    list.push(Done::Committed(commit(alloc, b'a')?))?;
    list.push(Done::Merged(id(b'a')))?;
    list.push(Done::Reverted(commit(alloc, b'a')?))?;
    list.push(Done::CherryPicked(commit(alloc, b'a')?))?;
    list.push(Done::Log {
        commits: Sequence::of(vec![in alloc; commit(alloc, b'a')?]?),
        has_more: true,
    })?;
    list.push(Done::Commit(commit(alloc, b'a')?))?;
    list.push(Done::Protection(protection(alloc)?))?;
    list.push(Done::ProtectionSet)?;
    list.push(Done::Hooks(hooks(alloc)?))?;
    list.push(Done::HooksSet)?;
    Ok(list)
}

// What is sent of repositories, branches and tags.
static NAMES: [&str; 11] = [
    "200 application/json {\"pagination\":{\"has_more\":false,\"max_per_page\":1000,\"next_offset\":\"\",\
    \"results\":1},\"results\":[{\"creation_date\":7,\"default_branch\":\"main\",\"id\":\"demo\"}]}",
    "201 application/json {\"creation_date\":7,\"default_branch\":\"main\",\"id\":\"demo\"}",
    "200 application/json {\"pagination\":{\"has_more\":true,\"max_per_page\":1000,\"next_offset\":\"b\",\
    \"results\":1},\
    \"results\":[{\"commit_id\":\"6161616161616161616161616161616161616161616161616161616161616161\",\"id\":\"b\"}]}",
    "201 text/plain 6161616161616161616161616161616161616161616161616161616161616161",
    "200 application/json {\"commit_id\":\"6161616161616161616161616161616161616161616161616161616161616161\",\
    \"id\":\"b\"}",
    "204  ",
    "204  ",
    "200 application/json {\"pagination\":{\"has_more\":true,\"max_per_page\":1000,\"next_offset\":\"\",\
    \"results\":0},\"results\":[]}",
    "201 application/json {\"commit_id\":\"6161616161616161616161616161616161616161616161616161616161616161\",\
    \"id\":\"v1\"}",
    "200 application/json {\"commit_id\":\"6161616161616161616161616161616161616161616161616161616161616161\",\
    \"id\":\"v1\"}",
    "204  ",
];

// What is sent of objects.
static OBJECTS: [&str; 10] = [
    "201 application/json {\"checksum\":\"2cf24dba5fb0a30e26e83b2ac5b9e29e1b161e5c1fa7425e73043362938b9824\",\
    \"content_type\":\"a/b\",\"metadata\":{\"a\":\"\",\"k\":\"v\"},\"mtime\":7,\"path\":\"a\",\"path_type\":\"object\",\
    \"physical_address\":\"lake://objects/00000000000000ab\",\"size_bytes\":5}",
    "201 application/json {\"checksum\":\"c\",\"content_type\":\"a/b\",\"metadata\":{},\"mtime\":7,\"path\":\"far\",\
    \"path_type\":\"object\",\"physical_address\":\"s3://x\",\"size_bytes\":18446744073709551615}",
    "204  ",
    "201 application/json {\"checksum\":\"2cf24dba5fb0a30e26e83b2ac5b9e29e1b161e5c1fa7425e73043362938b9824\",\
    \"content_type\":\"a/b\",\"metadata\":{\"a\":\"\",\"k\":\"v\"},\"mtime\":7,\"path\":\"b\",\"path_type\":\"object\",\
    \"physical_address\":\"lake://objects/00000000000000ab\",\"size_bytes\":5}",
    "200 application/json {\"checksum\":\"c\",\"content_type\":\"a/b\",\"metadata\":{},\"mtime\":7,\"path\":\"c\",\
    \"path_type\":\"object\",\"physical_address\":\"s3://x\",\"size_bytes\":18446744073709551615}",
    "200 text/plain; charset=utf-8 hello",
    "200 application/octet-stream hello",
    "200 application/octet-stream hello",
    "200 application/octet-stream hello",
    "200 application/json {\"pagination\":{\"has_more\":true,\"max_per_page\":1000,\"next_offset\":\"a/\",\
    \"results\":1},\"results\":[{\"path\":\"a/\",\"path_type\":\"common_prefix\"}]}",
];

// What is sent of commits and settings.
static HEADS: [&str; 10] = [
    "201 application/json {\"committer\":\"me\",\"creation_date\":9,\"generation\":2,\
    \"id\":\"6161616161616161616161616161616161616161616161616161616161616161\",\"message\":\"hi\",\
    \"meta_range_id\":\"1111111111111111111111111111111111111111111111111111111111111111\",\
    \"metadata\":{\"k\":\"v\\\"\"},\
    \"parents\":[\"7070707070707070707070707070707070707070707070707070707070707070\"]}",
    "200 application/json {\"reference\":\"6161616161616161616161616161616161616161616161616161616161616161\"}",
    "201 application/json {\"committer\":\"me\",\"creation_date\":9,\"generation\":2,\
    \"id\":\"6161616161616161616161616161616161616161616161616161616161616161\",\"message\":\"hi\",\
    \"meta_range_id\":\"1111111111111111111111111111111111111111111111111111111111111111\",\
    \"metadata\":{\"k\":\"v\\\"\"},\
    \"parents\":[\"7070707070707070707070707070707070707070707070707070707070707070\"]}",
    "201 application/json {\"committer\":\"me\",\"creation_date\":9,\"generation\":2,\
    \"id\":\"6161616161616161616161616161616161616161616161616161616161616161\",\"message\":\"hi\",\
    \"meta_range_id\":\"1111111111111111111111111111111111111111111111111111111111111111\",\
    \"metadata\":{\"k\":\"v\\\"\"},\
    \"parents\":[\"7070707070707070707070707070707070707070707070707070707070707070\"]}",
    "200 application/json {\"pagination\":{\"has_more\":true,\"max_per_page\":1000,\
    \"next_offset\":\"6161616161616161616161616161616161616161616161616161616161616161\",\"results\":1},\
    \"results\":[{\"committer\":\"me\",\"creation_date\":9,\"generation\":2,\
    \"id\":\"6161616161616161616161616161616161616161616161616161616161616161\",\"message\":\"hi\",\
    \"meta_range_id\":\"1111111111111111111111111111111111111111111111111111111111111111\",\
    \"metadata\":{\"k\":\"v\\\"\"},\
    \"parents\":[\"7070707070707070707070707070707070707070707070707070707070707070\"]}]}",
    "200 application/json {\"committer\":\"me\",\"creation_date\":9,\"generation\":2,\
    \"id\":\"6161616161616161616161616161616161616161616161616161616161616161\",\"message\":\"hi\",\
    \"meta_range_id\":\"1111111111111111111111111111111111111111111111111111111111111111\",\
    \"metadata\":{\"k\":\"v\\\"\"},\
    \"parents\":[\"7070707070707070707070707070707070707070707070707070707070707070\"]}",
    "200 application/json [{\"pattern\":\"dev\"},{\"pattern\":\"ma*\"}]",
    "204  ",
    "200 application/json [{\"branch\":\"*\",\"bytes\":9,\"type\":\"max_size\"}]",
    "204  ",
];

// Each is told as the table has it.
fn are_told(rt: &impl Abort, alloc: Global, done: Vec<Done>, table: &[&str]) -> Result<(), Fail> {
    assert_eq!(rt; done.len(), table.len());
    for (done, due) in done.into_iter().zip(table) {
        let line = told(alloc, CallReply::Done(done))?;
        assert_eq!(rt; line.as_str(), *due);
    }
    Ok(())
}

#[test]
fn what_was_done_is_told_by_its_form(rt: HostRuntime) -> Result<(), Fail> {
    are_told(&rt, rt.alloc(), names(rt.alloc())?, &NAMES)?;
    are_told(&rt, rt.alloc(), objects(rt.alloc())?, &OBJECTS)?;
    are_told(&rt, rt.alloc(), heads(rt.alloc())?, &HEADS)?;
    Ok(())
}
