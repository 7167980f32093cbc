//! What clients ask of objects.

ghost use Rattle.std.specs.Prelude.{◌↔◌, IsTrue};
ghost use Rattle.lake_values.specs.Entry.{CanHold};
ghost use Rattle.lake_values.specs.declared.entry.Place.TheVariants.{External};
ghost use Rattle.lake_calls.specs.Calls.{IsUpload};

use crate::expression::Expression;
use lake_base::{Path, RefName, RepoName, Sequence, Text};
use lake_pages::PageQuery;
use lake_values::Pairs;
use std::marker::Model;

/// A body is to become an object at a path of a branch. The content type has at most 255 bytes, the body at most
/// 67,108,864. Contracts see its fields.
#[derive(Debug, Drop)]
pub struct UploadCall {
    pub repo: RepoName,
    pub branch: RefName,
    pub path: Path,
    pub content_type: Text,
    pub body: Sequence<u8>,
}

impl Model for UploadCall {
    ghost use Rattle.lake_calls.specs.Calls.{UploadCall as Upload, IsUpload};

    ghost Value = { Upload };

    ghost view = { λ u. record {
      repo = u.repo;
      branch = u.branch;
      path = u.path;
      content_type = u.content_type;
      body = u.body;
    } };

    ghost invariant = { λ u. IsUpload u.content_type u.body };
}

impl UploadCall {
    /// Whether a call may have this content type and this body. It takes no memory.
    pub fn fits(content_type: &Text, body: &[u8]) -> bool
        ensures { IsTrue result ↔ IsUpload content_type.now body.now }
    {
        content_type.as_slice().len() <= 255 && body.len() <= 67_108_864
    }
}

/// An object outside is to stand at a path of a branch: its address, checksum and content type are within the limits
/// of an entry. Without a time of change it has the request's moment. Contracts see its fields.
#[derive(Debug, Drop)]
pub struct LinkCall {
    pub repo: RepoName,
    pub branch: RefName,
    pub path: Path,
    pub address: Text,
    pub checksum: Text,
    /// In bytes.
    pub size: u64,
    /// Seconds since 1970.
    pub mtime: Option<u64>,
    pub content_type: Text,
    pub metadata: Pairs,
}

impl Model for LinkCall {
    ghost use Rattle.lake_values.specs.Entry.{CanHold};
    ghost use Rattle.lake_values.specs.declared.entry.Place.TheVariants.{External};
    ghost use Rattle.lake_calls.specs.Calls.{LinkCall as Link};

    ghost Value = { Link };

    ghost view = { λ c. record {
      repo = c.repo;
      branch = c.branch;
      path = c.path;
      address = c.address;
      checksum = c.checksum;
      size = c.size;
      mtime = c.mtime;
      content_type = c.content_type;
      metadata = c.metadata;
    } };

    ghost invariant = { λ c. CanHold (External c.address c.checksum) c.content_type };
}

impl LinkCall {
    /// Whether a call may have this address, checksum and content type: an address of 1 to 2,048 bytes that doesn't
    /// begin with `lake://`, a checksum of at most 128, a content type of at most 255. It takes no memory.
    pub fn fits(address: &Text, checksum: &Text, content_type: &Text) -> bool
        ensures { IsTrue result ↔ CanHold (External address.now checksum.now) content_type.now }
    {
        let at = address.as_slice();
        1 <= at.len()
            && at.len() <= 2_048
            && !at.starts_with(b"lake://")
            && checksum.as_slice().len() <= 128
            && content_type.as_slice().len() <= 255
    }
}

/// What stands at a path of a branch is to go.
#[derive(Debug, Drop)]
pub struct DeleteCall {
    pub repo: RepoName,
    pub branch: RefName,
    pub path: Path,
}

/// The entry at a path of an expression is to stand at another path of a branch. Without a source it is one of the
/// branch itself.
#[derive(Debug, Drop)]
pub struct CopyCall {
    pub repo: RepoName,
    pub branch: RefName,
    pub path: Path,
    pub source_path: Path,
    pub source: Option<Expression>,
}

/// What stands at a path of an expression is asked for.
#[derive(Debug, Drop)]
pub struct ReadCall {
    pub repo: RepoName,
    pub at: Expression,
    pub path: Path,
}

/// A page of what an expression leads to is asked for.
#[derive(Debug, Drop)]
pub struct ListCall {
    pub repo: RepoName,
    pub at: Expression,
    pub query: PageQuery,
}

/// A call of objects.
#[derive(Debug)]
pub enum ObjectCall {
    Upload(UploadCall),
    Link(LinkCall),
    Delete(DeleteCall),
    Copy(CopyCall),
    /// The object's bytes.
    Read(ReadCall),
    /// What is known of the object.
    Stat(ReadCall),
    List(ListCall),
}

/// A call is let go part by part, written out: what is above proves it once, and not anew for each variant.
impl Drop for ObjectCall {
    fn drop(self) {
        match self {
            ObjectCall::Upload(_) => {}
            ObjectCall::Link(_) => {}
            ObjectCall::Delete(_) => {}
            ObjectCall::Copy(_) => {}
            ObjectCall::Read(_) => {}
            ObjectCall::Stat(_) => {}
            ObjectCall::List(_) => {}
        }
    }
}
