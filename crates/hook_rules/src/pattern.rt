//! Patterns of branches: how they are read, and which names they match.
ghost use Rattle.std.specs.Prelude.{◌≡◌, ◌∷◌, ℕ, false, MatchOption};
ghost use Rattle.std.specs.List.{list_all};
ghost use Rattle.serde_json.specs.View.{view};
ghost use Rattle.lake_values.specs.HookDecisions.{matches};
ghost use Rattle.lake_values.specs.Settings.{is_pattern_byte};
ghost use Rattle.setting_forms.specs.Forms.{IsReadAs, field_of};
ghost use Rattle.hook_rules.specs.HookForms.{pattern};

use lake_base::text::Text;
use setting_forms::{RuleFault, RuleObject, text_of};
use std::alloc::Global;

// Whether a pattern may have the byte: a letter, a digit, an underscore, a star or a hyphen.
fn is_pattern_byte(byte: u8) -> bool
    ensures { result ≡ is_pattern_byte byte }
{
    byte.is_ascii_alphanumeric() || byte == b'_' || byte == b'*' || byte == b'-'
}

// Whether it may have all of them.
fn are_pattern_bytes(bytes: &[u8]) -> bool
    ensures { result ≡ list_all is_pattern_byte bytes.now }
{
    bytes.iter().all(|byte| is_pattern_byte(*byte))
}

// The field of this name, a pattern: 1 to 255 bytes of `[A-Za-z0-9_*-]`.
pub(crate) fn read_pattern(
    alloc: Global,
    object: &RuleObject<'_>,
    name: &str,
) -> Result<Text, RuleFault>
    ensures { IsReadAs (λ text. text) result
        (field_of pattern name.now object.now.rule (view object.now.object.now)) }
{
    let text = object.text(alloc, name, 1, 255)?;
    if !are_pattern_bytes(text.as_bytes()) {
        return Err(object.fault(alloc, name));
    }
    Ok(text_of(alloc, text)?)
}

// What was left of a pattern and of a name behind the last star.
#[derive(Clone, Copy)]
struct Star<'a> {
    pattern: &'a [u8],
    name: &'a [u8],
}

// What is left of a pattern and of a name, and where to go on if they don't match.
#[derive(Clone, Copy)]
struct Walk<'a> {
    pattern: &'a [u8],
    name: &'a [u8],
    star: Option<Star<'a>>,
}

impl<'a> Walk<'a> {
    ghost use Rattle.hook_rules.specs.Matching.{outcome, matches_again, IsWalk, Leads};

    // Back to the last star, which then stands for one byte more.
    fn again(&self) -> Option<Walk<'a>>
        ensures { (most longest : ℕ) → IsWalk most longest self.now
            → MatchOption result (matches_again self.now.star ≡ false)
            (Leads most longest self.now (matches_again self.now.star)) }
    {
        let star = self.star?;
        let (_, name) = star.name.split_first()?;
        Some(Walk {
            pattern: star.pattern,
            name,
            star: Some(Star {
                pattern: star.pattern,
                name,
            }),
        })
    }

    // One step, at a byte of the name and the rest behind it: over a star, over the same byte in both, or back
    // to the last star.
    fn step(&self, byte: u8, rest: &'a [u8]) -> Option<Walk<'a>>
        requires { self.now.name.now ≡ byte ∷ rest.now }
        ensures { (most longest : ℕ) → IsWalk most longest self.now
            → MatchOption result (outcome self.now ≡ false)
            (Leads most longest self.now (outcome self.now)) }
    {
        match self.pattern.split_first() {
            Some((b'*', pattern)) => Some(Walk {
                pattern,
                name: self.name,
                star: Some(Star {
                    pattern,
                    name: self.name,
                }),
            }),
            Some((wanted, pattern)) => {
                if *wanted == byte {
                    Some(Walk {
                        pattern,
                        name: rest,
                        star: self.star,
                    })
                } else {
                    self.again()
                }
            }
            None => self.again(),
        }
    }
}

/// Whether a pattern matches a name: a star stands for any bytes, none included, and every other byte for
/// itself. It takes no memory. A star is passed once, and only the bytes behind the last one are gone over again: for
/// a pattern of p bytes, q of them no star, and a name of n bytes that is at most n (q + 1) + p steps. A pattern of
/// 255 bytes, 128 of them stars, takes at most 32,895 steps on a name of 255.
pub fn matches<'a>(pattern: &'a [u8], name: &'a [u8]) -> bool
    ensures { result ≡ matches pattern.now name.now }
{
    let mut walk = Walk {
        pattern,
        name,
        star: None,
    };
    while let Some((byte, rest)) = walk.name.split_first() {
        match walk.step(*byte, rest) {
            Some(next) => walk = next,
            None => return false,
        }
    }
    walk.pattern.iter().all(|byte| *byte == b'*')
}
