//! The table of verbs: the arguments of each, in their order.
ghost use Rattle.std.specs.Prelude.{◌≡◌, map};
ghost use Rattle.lakectl_verbs.specs.ArgumentForms.{form_of};
ghost use Rattle.lakectl_verbs.specs.VerbTable.{arguments_of};

use crate::argument::{Argument, Kind, Shape, UriParts};
use crate::verb::Verb;

const REPO_URI: Argument = Argument {
    name: "uri",
    shape: Shape::Positional,
    needed: true,
    kind: Kind::Uri(UriParts::Repo),
};

const REF_URI: Argument = Argument {
    name: "uri",
    shape: Shape::Positional,
    needed: true,
    kind: Kind::Uri(UriParts::Ref),
};

const PATH_URI: Argument = Argument {
    name: "uri",
    shape: Shape::Positional,
    needed: true,
    kind: Kind::Uri(UriParts::Path),
};

const PREFIX_URI: Argument = Argument {
    name: "uri",
    shape: Shape::Positional,
    needed: true,
    kind: Kind::Uri(UriParts::Prefix),
};

const OTHER_URI: Argument = Argument {
    name: "other",
    shape: Shape::Positional,
    needed: true,
    kind: Kind::Uri(UriParts::Ref),
};

const SOURCE_URI: Argument = Argument {
    name: "source",
    shape: Shape::Long,
    needed: true,
    kind: Kind::Uri(UriParts::Ref),
};

const NAMESPACE: Argument = Argument {
    name: "namespace",
    shape: Shape::Positional,
    needed: true,
    kind: Kind::Any,
};

const REF: Argument = Argument {
    name: "ref",
    shape: Shape::Positional,
    needed: true,
    kind: Kind::Any,
};

const FILE: Argument = Argument {
    name: "file",
    shape: Shape::Positional,
    needed: true,
    kind: Kind::Any,
};

const AFTER: Argument = Argument {
    name: "after",
    shape: Shape::Long,
    needed: false,
    kind: Kind::Any,
};

const AMOUNT: Argument = Argument {
    name: "amount",
    shape: Shape::Long,
    needed: false,
    kind: Kind::Number,
};

const SINCE: Argument = Argument {
    name: "since",
    shape: Shape::Long,
    needed: false,
    kind: Kind::Any,
};

const OBJECT: Argument = Argument {
    name: "object",
    shape: Shape::Long,
    needed: false,
    kind: Kind::Any,
};

const PREFIX: Argument = Argument {
    name: "prefix",
    shape: Shape::Long,
    needed: false,
    kind: Kind::Any,
};

const PARENT_NUMBER: Argument = Argument {
    name: "parent-number",
    shape: Shape::LongOrShort,
    needed: false,
    kind: Kind::Number,
};

const MESSAGE: Argument = Argument {
    name: "message",
    shape: Shape::Short,
    needed: false,
    kind: Kind::Any,
};

const NEEDED_MESSAGE: Argument = Argument {
    name: "message",
    shape: Shape::Short,
    needed: true,
    kind: Kind::Any,
};

const META: Argument = Argument {
    name: "meta",
    shape: Shape::Long,
    needed: false,
    kind: Kind::Meta,
};

const STRATEGY: Argument = Argument {
    name: "strategy",
    shape: Shape::Long,
    needed: false,
    kind: Kind::Any,
};

const RECURSIVE: Argument = Argument {
    name: "recursive",
    shape: Shape::Flag,
    needed: false,
    kind: Kind::Any,
};

const TEXT: Argument = Argument {
    name: "text",
    shape: Shape::Long,
    needed: false,
    kind: Kind::Any,
};

const SOURCE: Argument = Argument {
    name: "source",
    shape: Shape::Long,
    needed: false,
    kind: Kind::Any,
};

const LOCATION: Argument = Argument {
    name: "location",
    shape: Shape::Long,
    needed: true,
    kind: Kind::Any,
};

const SIZE: Argument = Argument {
    name: "size",
    shape: Shape::Long,
    needed: true,
    kind: Kind::Number,
};

const CHECKSUM: Argument = Argument {
    name: "checksum",
    shape: Shape::Long,
    needed: true,
    kind: Kind::Any,
};

const MTIME: Argument = Argument {
    name: "mtime",
    shape: Shape::Long,
    needed: false,
    kind: Kind::Number,
};

const CONTENT_TYPE: Argument = Argument {
    name: "content-type",
    shape: Shape::Long,
    needed: false,
    kind: Kind::Any,
};

static REPO_CREATE: [Argument; 2] = [REPO_URI, NAMESPACE];

static REPO_LIST: [Argument; 2] = [AFTER, AMOUNT];

static BRANCH_CREATE: [Argument; 2] = [REF_URI, SOURCE_URI];

static BRANCH_LIST: [Argument; 3] = [REPO_URI, AFTER, AMOUNT];

static BRANCH_SHOW: [Argument; 1] = [REF_URI];

static BRANCH_RESET: [Argument; 3] = [REF_URI, OBJECT, PREFIX];

static BRANCH_REVERT: [Argument; 3] = [REF_URI, REF, PARENT_NUMBER];

static TAG_CREATE: [Argument; 2] = [REF_URI, OTHER_URI];

static TAG_LIST: [Argument; 1] = [REPO_URI];

static COMMIT: [Argument; 3] = [REF_URI, NEEDED_MESSAGE, META];

static LOG: [Argument; 4] = [REF_URI, AMOUNT, AFTER, SINCE];

static MERGE: [Argument; 5] = [REF_URI, OTHER_URI, STRATEGY, MESSAGE, META];

static CHERRY_PICK: [Argument; 3] = [REF_URI, OTHER_URI, PARENT_NUMBER];

static FS_LS: [Argument; 4] = [PREFIX_URI, AFTER, AMOUNT, RECURSIVE];

static FS_STAT: [Argument; 1] = [PATH_URI];

static FS_UPLOAD: [Argument; 3] = [PATH_URI, TEXT, SOURCE];

static FS_DOWNLOAD: [Argument; 2] = [PATH_URI, FILE];

static FS_STAGE: [Argument; 7] = [
    PATH_URI,
    LOCATION,
    SIZE,
    CHECKSUM,
    MTIME,
    CONTENT_TYPE,
    META,
];

/// The arguments of a verb, in the order of its line. It takes no memory.
pub fn arguments(verb: Verb) -> &'static [Argument]
    ensures { map form_of result.now ≡ arguments_of verb }
{
    match verb {
        Verb::RepoCreate => REPO_CREATE.as_slice(),
        Verb::RepoList => REPO_LIST.as_slice(),
        Verb::BranchCreate => BRANCH_CREATE.as_slice(),
        Verb::BranchList => BRANCH_LIST.as_slice(),
        Verb::BranchShow => BRANCH_SHOW.as_slice(),
        Verb::BranchDelete => BRANCH_SHOW.as_slice(),
        Verb::BranchReset => BRANCH_RESET.as_slice(),
        Verb::BranchRevert => BRANCH_REVERT.as_slice(),
        Verb::TagCreate => TAG_CREATE.as_slice(),
        Verb::TagList => TAG_LIST.as_slice(),
        Verb::TagShow => BRANCH_SHOW.as_slice(),
        Verb::TagDelete => BRANCH_SHOW.as_slice(),
        Verb::Commit => COMMIT.as_slice(),
        Verb::Log => LOG.as_slice(),
        Verb::Merge => MERGE.as_slice(),
        Verb::CherryPick => CHERRY_PICK.as_slice(),
        Verb::FsLs => FS_LS.as_slice(),
        Verb::FsStat => FS_STAT.as_slice(),
        Verb::FsCat => FS_STAT.as_slice(),
        Verb::FsUpload => FS_UPLOAD.as_slice(),
        Verb::FsDownload => FS_DOWNLOAD.as_slice(),
        Verb::FsRm => FS_STAT.as_slice(),
        Verb::FsStage => FS_STAGE.as_slice(),
    }
}
