//! The layouts of replies.
ghost use Rattle.std.specs.Prelude.{◌≡◌};
ghost use Rattle.lakectl_shown.specs.ShownReplies.{due_status};

use lake_base::Text;

/// How the reply to a command is shown: one variant for each command.
#[derive(Debug, Drop)]
pub enum Layout {
    RepoCreate,
    RepoList,
    /// The branch of this name.
    BranchCreate { name: Text },
    BranchList,
    BranchShow,
    BranchDelete,
    BranchReset,
    BranchRevert,
    TagCreate,
    TagList,
    TagShow,
    TagDelete,
    Commit,
    Log,
    Merge,
    CherryPick,
    FsLs,
    FsStat,
    FsCat,
    FsUpload,
    FsDownload,
    FsRm,
    FsStage,
}

/// The status that the command's route answers where all went well. It takes no memory.
pub fn due_status(layout: &Layout) -> u16
    ensures { result ≡ due_status layout.now }
{
    match layout {
        Layout::RepoCreate => 201,
        Layout::RepoList => 200,
        Layout::BranchCreate { .. } => 201,
        Layout::BranchList => 200,
        Layout::BranchShow => 200,
        Layout::BranchDelete => 204,
        Layout::BranchReset => 204,
        Layout::BranchRevert => 201,
        Layout::TagCreate => 201,
        Layout::TagList => 200,
        Layout::TagShow => 200,
        Layout::TagDelete => 204,
        Layout::Commit => 201,
        Layout::Log => 200,
        Layout::Merge => 200,
        Layout::CherryPick => 201,
        Layout::FsLs => 200,
        Layout::FsStat => 200,
        Layout::FsCat => 200,
        Layout::FsUpload => 201,
        Layout::FsDownload => 200,
        Layout::FsRm => 204,
        Layout::FsStage => 201,
    }
}
