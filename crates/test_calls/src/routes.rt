//! Each route once, from its bytes to its call.
use crate::asked::{Row, ask_what_is_due};
use std::test::Fail;

// Of repositories, branches and tags.
static NAMES: [Row; 11] = [
    [
        "GET /api/v1/repositories?after=a&amount=7",
        "",
        "",
        "Names(ListRepositories { after: Text { text: \"a\" }, amount: 7 })",
    ],
    [
        "POST /api/v1/repositories",
        "",
        "{\"name\":\"demo\",\"storage_namespace\":\"s3://b\",\"name\":\"other\"}",
        "Names(CreateRepository(NewRepositoryCall { name: RepoName { text: Text { text: \"other\" } }, \
        default_branch: RefName { text: Text { text: \"main\" } } }))",
    ],
    [
        "GET /api/v1/repositories/demo/branches",
        "",
        "",
        "Names(ListBranches(NamesCall { repo: RepoName { text: Text { text: \"demo\" } }, after: Text { text: \
        \"\" }, amount: 100 }))",
    ],
    [
        "POST /api/v1/repositories/demo/branches",
        "",
        "{\"name\":\"dev\",\"source\":\"main~2\"}",
        "Names(CreateBranch(NewNameCall { repo: RepoName { text: Text { text: \"demo\" } }, name: RefName { text: \
        Text { text: \"dev\" } }, source: Expression { e: RefExpr { name: RefName { text: Text { text: \"main\" \
        } }, at: false, moves: Sequence { items: [Back(2)] } }, text: Text { text: \"main~2\" } } }))",
    ],
    [
        "GET /api/v1/repositories/demo/branches/dev",
        "",
        "",
        "Names(GetBranch(NameCall { repo: RepoName { text: Text { text: \"demo\" } }, name: RefName { text: Text \
        { text: \"dev\" } } }))",
    ],
    [
        "DELETE /api/v1/repositories/demo/branches/de%76",
        "",
        "",
        "Names(DeleteBranch(NameCall { repo: RepoName { text: Text { text: \"demo\" } }, name: RefName { text: \
        Text { text: \"dev\" } } }))",
    ],
    [
        "PUT /api/v1/repositories/demo/branches/dev",
        "",
        "{\"type\":\"object\",\"path\":\"a/1\"}",
        "Names(ResetBranch(ResetCall { repo: RepoName { text: Text { text: \"demo\" } }, branch: RefName { text: \
        Text { text: \"dev\" } }, what: Object(Path { text: Text { text: \"a/1\" } }) }))",
    ],
    [
        "GET /api/v1/repositories/demo/tags?amount=1000",
        "",
        "",
        "Names(ListTags(NamesCall { repo: RepoName { text: Text { text: \"demo\" } }, after: Text { text: \"\" }, \
        amount: 1000 }))",
    ],
    [
        "POST /api/v1/repositories/demo/tags",
        "",
        "{\"id\":\"v1\",\"ref\":\"main\"}",
        "Names(CreateTag(NewNameCall { repo: RepoName { text: Text { text: \"demo\" } }, name: RefName { text: \
        Text { text: \"v1\" } }, source: Expression { e: RefExpr { name: RefName { text: Text { text: \"main\" } \
        }, at: false, moves: Sequence { items: [] } }, text: Text { text: \"main\" } } }))",
    ],
    [
        "GET /api/v1/repositories/demo/tags/v1",
        "",
        "",
        "Names(GetTag(NameCall { repo: RepoName { text: Text { text: \"demo\" } }, name: RefName { text: Text { \
        text: \"v1\" } } }))",
    ],
    [
        "DELETE /api/v1/repositories/demo/tags/v1",
        "",
        "",
        "Names(DeleteTag(NameCall { repo: RepoName { text: Text { text: \"demo\" } }, name: RefName { text: Text \
        { text: \"v1\" } } }))",
    ],
];

// Of objects.
static OBJECTS: [Row; 7] = [
    [
        "POST /api/v1/repositories/demo/branches/dev/objects?path=a+b%2Fc",
        "content-type: text/plain\r\nContent-Type: x\r\n",
        "hello",
        "Objects(Upload(UploadCall { repo: RepoName { text: Text { text: \"demo\" } }, branch: RefName { text: \
        Text { text: \"dev\" } }, path: Path { text: Text { text: \"a b/c\" } }, content_type: Text { text: \
        \"text/plain\" }, body: Sequence { items: [104, 101, 108, 108, 111] } }))",
    ],
    [
        "PUT /api/v1/repositories/demo/branches/dev/objects?path=far",
        "",
        "{\"physical_address\":\"s3://x\",\"checksum\":\"\",\"size_bytes\":5,\"metadata\":{\"k\":\"v\"}}",
        "Objects(Link(LinkCall { repo: RepoName { text: Text { text: \"demo\" } }, branch: RefName { text: Text { \
        text: \"dev\" } }, path: Path { text: Text { text: \"far\" } }, address: Text { text: \"s3://x\" }, \
        checksum: Text { text: \"\" }, size: 5, mtime: None, content_type: Text { text: \
        \"application/octet-stream\" }, metadata: Pairs { pairs: [(Text { text: \"k\" }, Text { text: \"v\" })] \
        } }))",
    ],
    [
        "DELETE /api/v1/repositories/demo/branches/dev/objects?path=a&path=b",
        "",
        "",
        "Objects(Delete(DeleteCall { repo: RepoName { text: Text { text: \"demo\" } }, branch: RefName { text: \
        Text { text: \"dev\" } }, path: Path { text: Text { text: \"a\" } } }))",
    ],
    [
        "POST /api/v1/repositories/demo/branches/dev/objects/copy?dest_path=b",
        "",
        "{\"src_path\":\"a\",\"src_ref\":\"v1\"}",
        "Objects(Copy(CopyCall { repo: RepoName { text: Text { text: \"demo\" } }, branch: RefName { text: Text { \
        text: \"dev\" } }, path: Path { text: Text { text: \"b\" } }, source_path: Path { text: Text { text: \
        \"a\" } }, source: Some(Expression { e: RefExpr { name: RefName { text: Text { text: \"v1\" } }, at: \
        false, moves: Sequence { items: [] } }, text: Text { text: \"v1\" } }) }))",
    ],
    [
        "GET /api/v1/repositories/demo/refs/main/objects?path=a",
        "",
        "",
        "Objects(Read(ReadCall { repo: RepoName { text: Text { text: \"demo\" } }, at: Expression { e: RefExpr { \
        name: RefName { text: Text { text: \"main\" } }, at: false, moves: Sequence { items: [] } }, text: Text \
        { text: \"main\" } }, path: Path { text: Text { text: \"a\" } } }))",
    ],
    [
        "GET /api/v1/repositories/demo/refs/main%5E2/objects/stat?path=a",
        "",
        "",
        "Objects(Stat(ReadCall { repo: RepoName { text: Text { text: \"demo\" } }, at: Expression { e: RefExpr { \
        name: RefName { text: Text { text: \"main\" } }, at: false, moves: Sequence { items: [Parent(2)] } }, \
        text: Text { text: \"main^2\" } }, path: Path { text: Text { text: \"a\" } } }))",
    ],
    [
        "GET /api/v1/repositories/demo/refs/main/objects/ls?delimiter=/&after=b&prefix=a/&amount=1",
        "",
        "",
        "Objects(List(ListCall { repo: RepoName { text: Text { text: \"demo\" } }, at: Expression { e: RefExpr { \
        name: RefName { text: Text { text: \"main\" } }, at: false, moves: Sequence { items: [] } }, text: Text \
        { text: \"main\" } }, query: PageQuery { prefix: Text { text: \"a/\" }, after: Text { text: \"b\" }, \
        amount: 1, delimiter: Text { text: \"/\" } } }))",
    ],
];

// Of commits and settings.
static HEADS: [Row; 10] = [
    [
        "POST /api/v1/repositories/demo/branches/dev/commits",
        "Lake-User: me\r\n",
        "{\"message\":\"first\",\"metadata\":{\"k\":\"v\"}}",
        "Heads(Commit(CommitCall { repo: RepoName { text: Text { text: \"demo\" } }, branch: RefName { text: Text \
        { text: \"dev\" } }, committer: Text { text: \"me\" }, message: Text { text: \"first\" }, metadata: \
        Pairs { pairs: [(Text { text: \"k\" }, Text { text: \"v\" })] } }))",
    ],
    [
        "POST /api/v1/repositories/demo/refs/dev@/merge/main",
        "",
        "{\"strategy\":\"source-wins\"}",
        "Heads(Merge(MergeCall { repo: RepoName { text: Text { text: \"demo\" } }, source: Expression { e: \
        RefExpr { name: RefName { text: Text { text: \"dev\" } }, at: true, moves: Sequence { items: [] } }, \
        text: Text { text: \"dev@\" } }, branch: RefName { text: Text { text: \"main\" } }, committer: Text { \
        text: \"anonymous\" }, message: None, metadata: Pairs { pairs: [] }, strategy: SourceWins }))",
    ],
    [
        "POST /api/v1/repositories/demo/branches/dev/revert",
        "",
        "{\"ref\":\"main\",\"parent_number\":0}",
        "Heads(Revert(PickCall { repo: RepoName { text: Text { text: \"demo\" } }, branch: RefName { text: Text { \
        text: \"dev\" } }, committer: Text { text: \"anonymous\" }, at: Expression { e: RefExpr { name: RefName \
        { text: Text { text: \"main\" } }, at: false, moves: Sequence { items: [] } }, text: Text { text: \
        \"main\" } }, parent: None }))",
    ],
    [
        "POST /api/v1/repositories/demo/branches/dev/cherry-pick",
        "",
        "{\"ref\":\"main\",\"parent_number\":4294967295}",
        "Heads(CherryPick(PickCall { repo: RepoName { text: Text { text: \"demo\" } }, branch: RefName { text: \
        Text { text: \"dev\" } }, committer: Text { text: \"anonymous\" }, at: Expression { e: RefExpr { name: \
        RefName { text: Text { text: \"main\" } }, at: false, moves: Sequence { items: [] } }, text: Text { \
        text: \"main\" } }, parent: Some(4294967295) }))",
    ],
    [
        "GET /api/v1/repositories/demo/refs/main/commits?since=2023-11-14T22:13:20Z",
        "",
        "",
        "Heads(Log(LogCall { repo: RepoName { text: Text { text: \"demo\" } }, at: Expression { e: RefExpr { \
        name: RefName { text: Text { text: \"main\" } }, at: false, moves: Sequence { items: [] } }, text: Text \
        { text: \"main\" } }, after: None, amount: 100, since: Some(1700000000) }))",
    ],
    [
        "GET /api/v1/repositories/demo/commits/0000000000000000000000000000000000000000000000000000000000000001",
        "",
        "",
        "Heads(GetCommit { repo: RepoName { text: Text { text: \"demo\" } }, id: Digest([0, 0, 0, 0, 0, 0, 0, 0, \
        0, 0, 0, 0, 0, 0, 0, 0, 0, 0, 0, 0, 0, 0, 0, 0, 0, 0, 0, 0, 0, 0, 0, 1]) })",
    ],
    [
        "GET /api/v1/repositories/demo/settings/branch_protection",
        "",
        "",
        "Settings(GetProtection(RepoName { text: Text { text: \"demo\" } }))",
    ],
    [
        "PUT /api/v1/repositories/demo/settings/branch_protection",
        "",
        "[{\"pattern\":\"ma*\"}]",
        "Settings(SetProtection { repo: RepoName { text: Text { text: \"demo\" } }, protection: Protection { \
        patterns: Sequence { items: [Text { text: \"ma*\" }] } } })",
    ],
    [
        "GET /api/v1/repositories/demo/settings/hooks",
        "",
        "",
        "Settings(GetHooks(RepoName { text: Text { text: \"demo\" } }))",
    ],
    [
        "PUT /api/v1/repositories/demo/settings/hooks",
        "",
        "[{\"type\":\"require_meta\",\"branch\":\"ma*\",\"key\":\"owner\"}]",
        "Settings(SetHooks { repo: RepoName { text: Text { text: \"demo\" } }, hooks: HookRules { rules: Sequence \
        { items: [HookRule { branch: Text { text: \"ma*\" }, deny: RequireMeta(Text { text: \"owner\" }) }] } } \
        })",
    ],
];

#[test]
fn each_route_is_its_call(rt: HostRuntime) -> Result<(), Fail> {
    ask_what_is_due(&rt, rt.alloc(), &NAMES)?;
    ask_what_is_due(&rt, rt.alloc(), &OBJECTS)?;
    ask_what_is_due(&rt, rt.alloc(), &HEADS)?;
    Ok(())
}
