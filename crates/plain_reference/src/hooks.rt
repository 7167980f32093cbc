//! Patterns of branches, and the branches that a repository protects.
ghost use Rattle.std.specs.Prelude.{◌≡◌};
ghost use Rattle.lake_values.specs.HookDecisions.{matches, protecting_pattern};

use lake_base::names::RefName;
use lake_values::settings::Protection;

/// Whether a pattern matches a name: a star stands for any bytes, none included, and every other byte for
/// itself. So `ma*` matches `ma` and `main`, `*in` matches `main`, and `m*` doesn't match `dev`. It takes no
/// memory.
pub fn matches(pattern: &[u8], name: &[u8]) -> bool
    ensures { result ≡ matches pattern.now name.now }
{
    match pattern.split_first() {
        None => name.is_empty(),
        Some((b'*', rest)) => {
            for skipped in 0..=name.len() {
                if matches(rest, name.split_at(skipped).1) {
                    return true;
                }
            }
            false
        }
        Some((byte, rest)) => match name.split_first() {
            Some((c, left)) => c == byte && matches(rest, left),
            None => false,
        },
    }
}

/// The place of the first pattern that matches the branch, counted from 0. It takes no memory.
pub fn protected_by(protection: &Protection, branch: &RefName) -> Option<usize>
    ensures { result ≡ protecting_pattern protection.now branch.now }
{
    protection
        .patterns
        .as_slice()
        .iter()
        .position(|pattern| matches(pattern.as_slice(), branch.as_slice()))
}
