//! Patterns, and the branches that they protect.
use plain_reference::hooks::{matches, protected_by};
use std::test::Fail;
use test_values::{protection, ref_name};

// A pattern, a name, and whether it matches.
static PATTERNS: [(&str, &str, bool); 15] = [
    ("ma*", "main", true),
    ("ma*", "ma", true),
    ("ma*", "dev", false),
    ("*in", "main", true),
    ("*in", "inn", false),
    ("*", "", true),
    ("**", "x", true),
    ("a*b*", "ab", true),
    ("a*b*", "ba", false),
    ("a*b*c", "aXbYbc", true),
    ("a*b*c", "abb", false),
    ("main", "mai", false),
    ("main", "mains", false),
    ("", "", true),
    ("", "x", false),
];

// A branch, and the place of the first pattern that matches it.
static PROTECTED: [(&str, Option<usize>); 3] = [
    ("main", Some(1)),
    ("dev", Some(0)),
    ("test", None),
];

#[test]
fn a_star_stands_for_any_bytes(rt: HostRuntime) -> Result<(), Fail> {
    for (pattern, name, due) in &PATTERNS {
        assert_eq!(rt;
            matches(pattern.as_bytes(), name.as_bytes()),
            *due,
            "{pattern} {name}"
        );
    }
    let protection = protection(rt.alloc())?;
    for (branch, due) in &PROTECTED {
        assert_eq!(rt;
            protected_by(&protection, &ref_name(rt.alloc(), branch)?),
            *due
        );
    }
    Ok(())
}
