//! The two sides of a target.
ghost use Rattle.std.specs.Prelude.{◌≡◌};
ghost use Rattle.form_urlencoded.specs.Form.{split_once};

/// The path and the query of a target: what stands before its first `?`, and what stands behind it. It takes no memory.
pub fn split_target(target: &[u8]) -> (&[u8], &[u8])
    ensures path { result.0.now ≡ (split_once 63 target.now).0 }
    ensures query { result.1.now ≡ (split_once 63 target.now).1 }
{
    match target.iter().position(|byte| *byte == b'?') {
        Some(at) => (&target[..at], &target[at + 1..]),
        None => (target, &[]),
    }
}
