//! Batches in memory: what lines print, and their status.

use crate::demo::{check_came, run_batch};
use std::test::Fail;

// What some input prints, and the status.
static LINES: [(&[u8], &[u8], u8); 14] = [
    (
        b"fs cat lakefs://quickstart/main/b\n",
        b"Error: path not found: b [404]\n",
        1,
    ),
    (b"fs ls lakefs://quickstart/main/\n", b"", 0),
    (b"", b"", 0),
    (b"\n# fs ls\n\r\n", b"", 0),
    (b"# \xff\n", b"", 0),
    (b"\xff\n", b"Error: bad line\n", 1),
    (b"  \n", b"Error: no command\n", 1),
    (
        b"  fs   cat  lakefs://quickstart/main/b \r\n",
        b"Error: path not found: b [404]\n",
        1,
    ),
    (
        b"fs cat lakefs://quickstart/main/b\r",
        b"Error: path not found: b\r [404]\n",
        1,
    ),
    (
        b"fs cat lakefs://quickstart/main/b",
        b"Error: path not found: b [404]\n",
        1,
    ),
    (
        b"fs cat lakefs://quickstart/main/\n",
        b"Error: bad URI\n",
        1,
    ),
    (
        b"fs download lakefs://quickstart/main/b c\n",
        b"Error: path not found: b [404]\n",
        1,
    ),
    (
        b"fs upload lakefs://quickstart/main/a --source c\n",
        b"Error: no such file: c\n",
        1,
    ),
    (
        b"fs upload lakefs://quickstart/main/a --text\n",
        b"Error: bad words\n",
        1,
    ),
];

#[test]
fn lines_show_what_they_ask_for(rt: HostRuntime) -> Result<(), Fail> {
    for (input, out, status) in &LINES {
        let came = run_batch(&rt, rt.alloc(), input)?;
        check_came(&rt, &came, *status, out, b"");
    }
    Ok(())
}

static UPLOADS: &[u8] = b"fs upload lakefs://quickstart/main/a --text hello\n\
fs upload lakefs://quickstart/main/b --text=-x\n\
fs upload lakefs://quickstart/main/a --text hello-world\n\
fs cat lakefs://quickstart/main/a\n\
fs cat lakefs://quickstart/main/b";

static LAST_BODIES: &[u8] = b"\nhello-world-x";

#[test]
fn a_path_shows_what_was_uploaded_last(rt: HostRuntime) -> Result<(), Fail> {
    let came = run_batch(&rt, rt.alloc(), UPLOADS)?;
    assert_eq!(rt; came.status, 0);
    assert!(rt; came.out.as_slice().ends_with(LAST_BODIES));
    Ok(())
}
