//! Each fault of words once, and which of two comes first.
use crate::told::{table, told};
use std::process::Abort;
use std::test::Fail;

// Each line, and behind it its fault.
const TABLE: &str = "\
\x20  \n\
no command\n\
--user\n\
bad words\n\
--user \"\"\n\
bad value for user\n\
--user \"a b\" fs\n\
bad value for user\n\
--user ü\n\
bad value for user\n\
--user xxxxxxxxxxxxxxxxxxxxxxxxxxxxxxxxxxxxxxxxxxxxxxxxxxxxxxxxxxxxxxxxxxxxxxxxxxxxxxxxxxxxxxxxxxxxxxxxxxxxxxxxx\
xxxxxxxxxxxxxxxxxxxxxxxx repo list\n\
bad value for user\n\
--user al!ce\n\
no command\n\
--user a --user b repo list\n\
unknown command\n\
--user=a repo list\n\
unknown command\n\
nothing\n\
unknown command\n\
repo\n\
unknown command\n\
repo show lakefs://demo\n\
unknown command\n\
gc run\n\
unknown command\n\
--help\n\
unknown command\n\
repo list x\n\
bad words\n\
repo list --help\n\
bad words\n\
repo list -h\n\
bad words\n\
repo list --amount\n\
bad words\n\
repo list --amount 1 --amount 2\n\
bad words\n\
repo list --after -x\n\
bad words\n\
repo list --recursive\n\
bad words\n\
repo create lakefs://demo\n\
bad words\n\
commit lakefs://quickstart/main\n\
bad words\n\
commit lakefs://quickstart/main --message m\n\
bad words\n\
commit lakefs://quickstart/main -m \"a\" \"b\"\n\
bad words\n\
commit -m x -m y lakefs://quickstart/main\n\
bad words\n\
tag list lakefs://quickstart --amount 1\n\
bad words\n\
branch reset lakefs://quickstart/dev --object a --prefix b\n\
bad words\n\
fs upload lakefs://quickstart/main/a\n\
bad words\n\
fs upload lakefs://quickstart/main/a --text t --source f\n\
bad words\n\
fs ls lakefs://quickstart/main --recursive --recursive\n\
bad words\n\
fs ls lakefs://quickstart/main --recursive=true\n\
bad words\n\
branch delete -\n\
bad URI\n\
branch list quickstart\n\
bad URI\n\
branch list lakefs://\n\
bad URI\n\
branch list lakefs://quickstart/\n\
bad URI\n\
branch list lakefs://quickstart/main\n\
bad URI\n\
branch show lakefs://quickstart\n\
bad URI\n\
branch show lakefs:///main\n\
bad URI\n\
branch show lakefs://quickstart/\n\
bad URI\n\
branch show lakefs://quickstart/main/\n\
bad URI\n\
branch create lakefs://quickstart/dev --source lakefs://demo/main\n\
bad URI\n\
merge lakefs://quickstart/dev lakefs://demo/main\n\
bad URI\n\
merge lakefs://quickstart/dev main\n\
bad URI\n\
fs stat lakefs://quickstart/main\n\
bad URI\n\
fs stat lakefs://quickstart/main/\n\
bad URI\n\
fs stat lakefs://quickstart//a\n\
bad URI\n\
fs ls lakefs://quickstart\n\
bad URI\n\
fs ls lakefs://quickstart/\n\
bad URI\n\
repo list --amount \"\"\n\
bad value for amount\n\
repo list --amount +1\n\
bad value for amount\n\
repo list --amount 00000000000000000001\n\
bad value for amount\n\
branch revert lakefs://quickstart/main main -m x\n\
bad value for parent-number\n\
commit lakefs://quickstart/main -m x --meta a=1,a=2\n\
bad value for meta\n\
commit lakefs://quickstart/main -m x --meta =1\n\
bad value for meta\n\
commit lakefs://quickstart/main -m x --meta a\n\
bad value for meta\n\
commit lakefs://quickstart/main -m x --meta \"\"\n\
bad value for meta\n\
commit lakefs://quickstart/main -m x --meta a=1,\n\
bad value for meta\n\
fs stage lakefs://quickstart/main/a --location x --size y --checksum c --mtime z\n\
bad value for size\n\
fs stage lakefs://quickstart/main/a --location x --size 1 --checksum c --mtime z --meta a\n\
bad value for mtime\n\
--user \"\" nothing\n\
bad value for user\n\
nothing --amount x\n\
unknown command\n\
repo list x --amount y\n\
bad words\n\
branch list quickstart --amount y\n\
bad URI\n\
branch reset dev --object a --prefix b\n\
bad words\n\
commit quickstart -m x --meta a\n\
bad URI\n\
";

#[test]
fn each_fault_comes_in_its_order(rt: HostRuntime) -> Result<(), Fail> {
    let again = table(rt.alloc(), TABLE)?;
    for (line, due) in again.lines().zip(TABLE.lines()) {
        assert!(rt; line == due, "{line}");
    }
    assert!(rt; again.as_str() == TABLE);
    Ok(())
}

// A line of so many bytes that begins with these.
fn long(alloc: std::alloc::Global, front: &[u8], size: usize) -> Result<Vec<u8>, Fail> {
    let mut line = Vec::new(alloc);
    line.extend_from_slice(front)?;
    for _ in front.len()..size {
        line.push(b'x')?;
    }
    Ok(line)
}

#[test]
fn a_line_has_at_most_65536_bytes_of_utf8(rt: HostRuntime) -> Result<(), Fail> {
    let alloc = rt.alloc();
    let whole = long(alloc, b"nothing ", 65536)?;
    assert!(rt; told(alloc, whole.as_slice())?.as_str() == "unknown command");
    let longer = long(alloc, b"nothing ", 65537)?;
    assert!(rt; told(alloc, longer.as_slice())?.as_str() == "bad line");
    let passed_over = long(alloc, b"#", 65537)?;
    assert!(rt; told(alloc, passed_over.as_slice())?.as_str() == "skipped");
    assert!(rt; told(alloc, b"repo \xff")?.as_str() == "bad line");
    assert!(rt; told(alloc, b"# \xff")?.as_str() == "skipped");
    Ok(())
}
