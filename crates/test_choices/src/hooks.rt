//! Hooks and protection that are read and kept, and patterns that would cost a walk much.
use crate::settings::fault_told;
use hook_rules::pattern::matches;
use hook_rules::{read_hooks, read_protection, write_hooks, write_protection};
use serde_json::Value;
use std::alloc::Global;
use std::test::Fail;

// Texts of hooks, with what is kept of them or the fault.
static HOOKS: [(&str, &str); 7] = [
    (
        "[{\"type\": \"require_meta\", \"branch\": \"ma*\", \"key\": \"owner\", \"more\": 1}]",
        "[{\"branch\":\"ma*\",\"key\":\"owner\",\"type\":\"require_meta\"}]",
    ),
    (
        "[{\"type\":\"deny_prefix\",\"branch\":\"*\",\"prefix\":\"s/\"},{\"type\":\"max_size\",\"branch\":\"a\",\"byte\
        s\":5}]",
        "[{\"branch\":\"*\",\"prefix\":\"s/\",\"type\":\"deny_prefix\"},{\"branch\":\"a\",\"bytes\":5,\"type\":\"max_s\
        ize\"}]",
    ),
    (
        "[{\"type\":\"max_changes\",\"branch\":\"*-*\",\"count\":18446744073709551615}]",
        "[{\"branch\":\"*-*\",\"count\":18446744073709551615,\"type\":\"max_changes\"}]",
    ),
    ("{\"type\":\"max_size\"}", "NotList"),
    ("[{\"type\":\"max_sizes\",\"branch\":\"/\"}]", "0 type"),
    (
        "[{\"type\":\"max_size\",\"branch\":\"a/b\",\"bytes\":null}]",
        "0 branch",
    ),
    (
        "[{\"type\":\"max_changes\",\"branch\":\"a\",\"count\":1},{\"type\":\"max_changes\",\"branch\":\"a\",\"count\"\
        :1.0}]",
        "1 count",
    ),
];

// The same of protection.
static PROTECTION: [(&str, &str); 3] = [
    (
        "[{\"pattern\": \"ma*\", \"type\": 1}, {\"pattern\": \"a_b-9\"}]",
        "[{\"pattern\":\"ma*\"},{\"pattern\":\"a_b-9\"}]",
    ),
    ("[{\"pattern\":\"a\"},\"b\",{}]", "NotObject 1"),
    ("[{\"pattern\":\"é\"}]", "0 pattern"),
];

// What is kept of a text as hooks, or its fault.
fn hooks_kept(alloc: Global, text: &str) -> Result<String, Fail> {
    let value = Value::from_str(alloc, text)?;
    match read_hooks(alloc, &value) {
        Ok(rules) => Ok(String::from_utf8(write_hooks(alloc, &rules)?)?),
        Err(fault) => fault_told(alloc, fault),
    }
}

// What is kept of a text as protection, or its fault.
fn protection_kept(alloc: Global, text: &str) -> Result<String, Fail> {
    let value = Value::from_str(alloc, text)?;
    match read_protection(alloc, &value) {
        Ok(protection) => Ok(String::from_utf8(write_protection(alloc, &protection)?)?),
        Err(fault) => fault_told(alloc, fault),
    }
}

#[test]
fn settings_are_read_and_kept(rt: HostRuntime) -> Result<(), Fail> {
    for (text, kept) in &HOOKS {
        assert_eq!(rt; hooks_kept(rt.alloc(), text)?.as_str(), *kept);
    }
    for (text, kept) in &PROTECTION {
        assert_eq!(rt; protection_kept(rt.alloc(), text)?.as_str(), *kept);
    }
    Ok(())
}

// `*a` 126 times, and `*b*`: 255 bytes, of which 128 are stars.
fn hostile(alloc: Global) -> Result<Vec<u8>, Fail> {
    let mut pattern = Vec::new(alloc);
    for _ in 0..126 {
        pattern.extend_from_slice(b"*a")?;
    }
    pattern.extend_from_slice(b"*b*")?;
    Ok(pattern)
}

#[test]
fn a_hostile_pattern_takes_no_long_time(rt: HostRuntime) -> Result<(), Fail> {
    let pattern = hostile(rt.alloc())?;
    let mut name = [b'a'; 255];
    assert!(rt; !matches(pattern.as_slice(), name.as_slice()));
    name[254] = b'b';
    assert!(rt; matches(pattern.as_slice(), name.as_slice()));
    Ok(())
}
