//! Commands that change heads, and the first cause of those that are refused.

use crate::demo::check_came;
use machine_runs::{SURE, run_over};
use std::test::Fail;

static AT: [&str; 3] = ["batch", "--at", "1700000000"];

static COMMANDS: &[u8] = b"fs upload lakefs://quickstart/main/a --text 1\n\
commit lakefs://quickstart/main -m one\n\
commit lakefs://quickstart/main -m again\n\
branch create lakefs://quickstart/dev --source lakefs://quickstart/main\n\
fs upload lakefs://quickstart/dev/a --text 2\n\
commit lakefs://quickstart/dev -m two\n\
fs upload lakefs://quickstart/main/a --text 3\n\
merge lakefs://quickstart/dev lakefs://quickstart/main\n\
commit lakefs://quickstart/main -m three\n\
merge lakefs://quickstart/dev lakefs://quickstart/main\n\
merge lakefs://quickstart/dev lakefs://quickstart/main --strategy source-wins\n\
fs cat lakefs://quickstart/main/a\n\
merge lakefs://quickstart/dev lakefs://quickstart/main\n\
branch revert lakefs://quickstart/main main\n\
branch revert lakefs://quickstart/main main -m 1\n\
fs cat lakefs://quickstart/main/a\n\
branch revert lakefs://quickstart/main main~9\n\
cherry-pick lakefs://quickstart/dev~2 lakefs://quickstart/main\n\
branch delete lakefs://quickstart/main\n\
branch create lakefs://quickstart/dev --source lakefs://quickstart/main\n\
branch create lakefs://quickstart/new --source lakefs://quickstart/none\n\
tag create lakefs://quickstart/v lakefs://quickstart/dev\n\
tag create lakefs://quickstart/v lakefs://quickstart/main\n\
repo create lakefs://quickstart s3://b\n\
fs rm lakefs://quickstart/main/none\n\
fs stat lakefs://none/main/a\n\
commit lakefs://quickstart/v -m x\n";

static SHOWN: &[u8] = b"Path: a\n\
Size: 1\n\
Checksum: 6b86b273ff34fce19d6b804eff5a3f5747ada4eaa22f1d49c01e52ddb7875b4b\n\
Commit: 71380be38cfff1cb3551303d7a373850264e8ba227a8e7f60f9bc3cd82bd08d6\n\
Error: no changes [400]\n\
Created branch 'dev' 71380be38cfff1cb3551303d7a373850264e8ba227a8e7f60f9bc3cd82bd08d6\n\
Path: a\n\
Size: 1\n\
Checksum: d4735e3a265e16eee03f59718b9b5d03019c07d8b6c51f90da3a666eec13ab35\n\
Commit: f7b477c7b946711ffe3b3606055287f757a37c5d9d5688e1bf8c4244fd2f0d26\n\
Path: a\n\
Size: 1\n\
Checksum: 4e07408562bedb8b60ce05c1decfe3ad16b72230967de01f640b7e4729b49fce\n\
Error: uncommitted changes: a [400]\n\
Commit: 5926e139e9927aad2d2d94d365ced9b2d62c2023ac5330b4399573d6950c82c1\n\
Error: conflicts: 1 [409]\n\
Merged: bae8f7ec0ceba3b64554120d5a4e4179a83766ef9bb5248bc33620cc57832824\n\
2Error: no changes [400]\n\
Error: parent number needed [400]\n\
Commit: 30bb2ce41e685c98db157b66a2567acca2e8d2ae1c0a5e828b689f51c8edb767\n\
3Error: no such parent: main~9 [404]\n\
Error: no such parent: 1 [404]\n\
Error: default branch can't be deleted [400]\n\
Error: already exists: dev [409]\n\
Error: reference not found: none [404]\n\
Created tag 'v' f7b477c7b946711ffe3b3606055287f757a37c5d9d5688e1bf8c4244fd2f0d26\n\
Error: already exists: v [409]\n\
Error: already exists: quickstart [409]\n\
Error: repository not found: none [404]\n\
Error: reference not found: v [404]\n";

#[test]
fn commits_and_merges_show_what_came_of_them(rt: HostRuntime) -> Result<(), Fail> {
    let came = run_over(&rt, rt.alloc(), &AT, COMMANDS, &SURE)?;
    check_came(&rt, &came, 1, SHOWN, b"");
    Ok(())
}
