//! The verbs of `lakectl`.
ghost use Rattle.std.specs.Prelude.{◌≡◌};
ghost use Rattle.lakectl_verbs.specs.VerbNames.{repo_verb, branch_verb, tag_verb, fs_verb, lone_verb, verb_under};

/// What a command does: its noun and its verb. Four nouns are commands by themselves.
#[derive(Clone, Copy, Debug, Drop, PartialEq, Eq)]
pub enum Verb {
    RepoCreate,
    RepoList,
    BranchCreate,
    BranchList,
    BranchShow,
    BranchDelete,
    BranchReset,
    BranchRevert,
    TagCreate,
    TagList,
    TagShow,
    TagDelete,
    Commit,
    Log,
    Merge,
    CherryPick,
    FsLs,
    FsStat,
    FsCat,
    FsUpload,
    FsDownload,
    FsRm,
    FsStage,
}

/// The command of a noun without a verb.
pub fn lone_verb(noun: &str) -> Option<Verb>
    ensures { result ≡ lone_verb noun.now }
{
    match noun {
        "commit" => Some(Verb::Commit),
        "log" => Some(Verb::Log),
        "merge" => Some(Verb::Merge),
        "cherry-pick" => Some(Verb::CherryPick),
        _ => None,
    }
}

fn repo_verb(verb: &str) -> Option<Verb>
    ensures { result ≡ repo_verb verb.now }
{
    match verb {
        "create" => Some(Verb::RepoCreate),
        "list" => Some(Verb::RepoList),
        _ => None,
    }
}

fn branch_verb(verb: &str) -> Option<Verb>
    ensures { result ≡ branch_verb verb.now }
{
    match verb {
        "create" => Some(Verb::BranchCreate),
        "list" => Some(Verb::BranchList),
        "show" => Some(Verb::BranchShow),
        "delete" => Some(Verb::BranchDelete),
        "reset" => Some(Verb::BranchReset),
        "revert" => Some(Verb::BranchRevert),
        _ => None,
    }
}

fn tag_verb(verb: &str) -> Option<Verb>
    ensures { result ≡ tag_verb verb.now }
{
    match verb {
        "create" => Some(Verb::TagCreate),
        "list" => Some(Verb::TagList),
        "show" => Some(Verb::TagShow),
        "delete" => Some(Verb::TagDelete),
        _ => None,
    }
}

fn fs_verb(verb: &str) -> Option<Verb>
    ensures { result ≡ fs_verb verb.now }
{
    match verb {
        "ls" => Some(Verb::FsLs),
        "stat" => Some(Verb::FsStat),
        "cat" => Some(Verb::FsCat),
        "upload" => Some(Verb::FsUpload),
        "download" => Some(Verb::FsDownload),
        "rm" => Some(Verb::FsRm),
        "stage" => Some(Verb::FsStage),
        _ => None,
    }
}

/// The command of a noun with a verb.
pub fn verb_under(noun: &str, verb: &str) -> Option<Verb>
    ensures { result ≡ verb_under noun.now verb.now }
{
    match noun {
        "repo" => repo_verb(verb),
        "branch" => branch_verb(verb),
        "tag" => tag_verb(verb),
        "fs" => fs_verb(verb),
        _ => None,
    }
}
