//! The paths of the interface, with their named segments.
ghost use Rattle.std.specs.Prelude.{◌≡◌, ◌==◌, ◌<◌, length, position, option_map, IfSome};
ghost use Rattle.std.specs.Str.{bytes_eq};
ghost use Rattle.api_routes.specs.ApiPaths.{after_word, after_name, named_front, seen_place, end_place};
ghost use Rattle.api_routes.specs.ApiPaths.{branch_place, ref_place, other_place, below_repository, place_of};

/// A path of the interface, without its named segments. Below `/api/v1`, in the order of the variants:
///
/// `/repositories`, `/repositories/{r}/branches`, `/repositories/{r}/branches/{b}`,
/// `/repositories/{r}/branches/{b}/commits`, `../objects`, `../objects/copy`, `../revert`, `../cherry-pick`,
/// `/repositories/{r}/refs/{ref}/commits`, `../objects`, `../objects/stat`, `../objects/ls`,
/// `/repositories/{r}/refs/{src}/merge/{dst}`, `/repositories/{r}/commits/{id}`, `/repositories/{r}/tags`,
/// `/repositories/{r}/tags/{t}`, `/repositories/{r}/settings/branch_protection`, `/repositories/{r}/settings/hooks`.
#[derive(Clone, Copy, Debug)]
pub enum ApiPath {
    Repositories,
    Branches,
    Branch,
    BranchCommits,
    BranchObjects,
    BranchCopy,
    BranchRevert,
    BranchCherryPick,
    RefCommits,
    RefObjects,
    RefStat,
    RefList,
    Merge,
    Commit,
    Tags,
    Tag,
    Protection,
    Hooks,
}

/// A path with its named segments, as they were sent: the repository, the second and the third; each is empty where the
/// path has none.
#[derive(Clone, Copy, Debug)]
pub struct Place<'a> {
    pub path: ApiPath,
    pub repo: &'a [u8],
    pub second: &'a [u8],
    pub third: &'a [u8],
}

// Whether the bytes are this text.
pub(crate) fn is_text(bytes: &[u8], text: &str) -> bool
    ensures { result ≡ bytes_eq bytes.now text.now }
{
    bytes == text.as_bytes()
}

// What follows a word at the front of a path.
fn after_word<'a>(path: &'a [u8], word: &str) -> Option<&'a [u8]>
    ensures { option_map (λ rest. rest.now) result ≡ after_word word.now path.now }
{
    path.strip_prefix(word.as_bytes())
}

// The segment at the front of a path, which isn't empty, and what follows it.
fn after_name(path: &[u8]) -> Option<(&[u8], &[u8])>
    ensures { option_map (λ x. (x.0.now, x.1.now)) result ≡ after_name path.now }
{
    match path {
        [b'/', rest @ ..] => named_front(rest),
        _ => None,
    }
}

// Where the first slash stands.
fn slash_at(path: &[u8]) -> Option<usize>
    ensures place { result ≡ position (λ byte. byte == 47) path.now }
    ensures within { IfSome result (λ at. at < length path.now) }
{
    path.iter().position(|byte| *byte == b'/')
}

// The bytes before the first slash, where there are any, and the others.
fn named_front(path: &[u8]) -> Option<(&[u8], &[u8])>
    ensures { option_map (λ x. (x.0.now, x.1.now)) result ≡ named_front path.now }
{
    let end = slash_at(path).unwrap_or(path.len());
    if end == 0 {
        return None;
    }
    Some(path.split_at(end))
}

// The place of a branch, by what follows its name.
fn branch_place<'a>(repo: &'a [u8], branch: &'a [u8], rest: &[u8]) -> Option<Place<'a>>
    ensures { option_map seen_place result ≡ branch_place repo.now branch.now rest.now }
{
    let path = if rest.is_empty() {
        ApiPath::Branch
    } else if is_text(rest, "/commits") {
        ApiPath::BranchCommits
    } else if is_text(rest, "/objects") {
        ApiPath::BranchObjects
    } else if is_text(rest, "/objects/copy") {
        ApiPath::BranchCopy
    } else if is_text(rest, "/revert") {
        ApiPath::BranchRevert
    } else if is_text(rest, "/cherry-pick") {
        ApiPath::BranchCherryPick
    } else {
        return None;
    };
    Some(Place {
        path,
        repo,
        second: branch,
        third: &[],
    })
}

// The place of an expression, by what follows it.
fn ref_place<'a>(repo: &'a [u8], at: &'a [u8], rest: &'a [u8]) -> Option<Place<'a>>
    ensures { option_map seen_place result ≡ ref_place repo.now at.now rest.now }
{
    if let Some((branch, rest)) = after_word(rest, "/merge").and_then(after_name) {
        return end_place(ApiPath::Merge, repo, at, branch, rest);
    }
    let path = if is_text(rest, "/commits") {
        ApiPath::RefCommits
    } else if is_text(rest, "/objects") {
        ApiPath::RefObjects
    } else if is_text(rest, "/objects/stat") {
        ApiPath::RefStat
    } else if is_text(rest, "/objects/ls") {
        ApiPath::RefList
    } else {
        return None;
    };
    Some(Place {
        path,
        repo,
        second: at,
        third: &[],
    })
}

// The place where nothing is left of a path.
fn end_place<'a>(
    path: ApiPath,
    repo: &'a [u8],
    second: &'a [u8],
    third: &'a [u8],
    rest: &[u8],
) -> Option<Place<'a>>
    ensures { option_map seen_place result ≡ end_place path repo.now second.now third.now rest.now }
{
    if !rest.is_empty() {
        return None;
    }
    Some(Place {
        path,
        repo,
        second,
        third,
    })
}

// The place of what a repository has beside branches and expressions.
fn other_place<'a>(repo: &'a [u8], rest: &'a [u8]) -> Option<Place<'a>>
    ensures { option_map seen_place result ≡ other_place repo.now rest.now }
{
    if let Some((id, rest)) = after_word(rest, "/commits").and_then(after_name) {
        return end_place(ApiPath::Commit, repo, id, &[], rest);
    }
    if let Some((tag, rest)) = after_word(rest, "/tags").and_then(after_name) {
        return end_place(ApiPath::Tag, repo, tag, &[], rest);
    }
    let path = if is_text(rest, "/branches") {
        ApiPath::Branches
    } else if is_text(rest, "/tags") {
        ApiPath::Tags
    } else if is_text(rest, "/settings/branch_protection") {
        ApiPath::Protection
    } else if is_text(rest, "/settings/hooks") {
        ApiPath::Hooks
    } else {
        return None;
    };
    end_place(path, repo, &[], &[], &[])
}

// The place of what a repository has.
fn below_repository<'a>(repo: &'a [u8], rest: &'a [u8]) -> Option<Place<'a>>
    ensures { option_map seen_place result ≡ below_repository repo.now rest.now }
{
    if let Some((branch, rest)) = after_word(rest, "/branches").and_then(after_name) {
        return branch_place(repo, branch, rest);
    }
    if let Some((at, rest)) = after_word(rest, "/refs").and_then(after_name) {
        return ref_place(repo, at, rest);
    }
    other_place(repo, rest)
}

/// The place of a path; None where the interface has no such path. It takes no memory.
pub fn place_of(path: &[u8]) -> Option<Place<'_>>
    ensures { option_map seen_place result ≡ place_of path.now }
{
    let rest = after_word(path, "/api/v1/repositories")?;
    if rest.is_empty() {
        return end_place(ApiPath::Repositories, &[], &[], &[], rest);
    }
    let (repo, rest) = after_name(rest)?;
    below_repository(repo, rest)
}
