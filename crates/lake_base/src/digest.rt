//! SHA-256 digests, by which objects, files and commits are known.
ghost use Rattle.std.specs.Prelude.{◌≡◌, length, Some, None, IfOk, MatchResult};
ghost use Rattle.hex.specs.Hex.{encode_lower};
ghost use Rattle.lake_base.specs.Names.{digest_fault, stray_hex};
ghost use Rattle.sha2.specs.Sha256.{sha256};

use crate::copying::TryCopy;
use crate::names::stray_hex_byte;
use crate::outside::NoMemory;
use crate::text::Text;
use sha2::Sha256;
use std::alloc::Global;

/// The SHA-256 of some bytes (FIPS 180-4).
#[derive(Clone, Copy, Debug, PartialEq, Eq, PartialOrd, Ord)]
pub struct Digest(pub [u8; 32]);

impl Digest {
    /// The SHA-256 of these bytes. It takes no memory.
    pub fn of(bytes: &[u8]) -> Digest
        ensures { result.0 ≡ sha256 bytes.now }
    {
        Digest(<Sha256 as sha2::Digest>::digest(bytes))
    }

    /// Reads 64 lower-case hex digits. The error is the least place that is bad: a shorter text's length,
    /// 64 for a longer one. It takes no memory.
    pub fn read(text: &[u8]) -> Result<Digest, usize>
        ensures { MatchResult result
            (λ digest. (digest_fault text.now ≡ None) × (text.now ≡ encode_lower digest.0))
            (λ place. digest_fault text.now ≡ Some place) }
    {
        let front = &text[..text.len().min(64)];
        if let Some(place) = stray_hex_byte(front) {
            return Err(place);
        }
        if text.len() != 64 {
            return Err(front.len());
        }
        Ok(Digest(bytes_of(text)))
    }

    /// The digest as 64 lower-case hex digits.
    pub fn hex(&self, alloc: Global) -> Result<Text, NoMemory>
        ensures { IfOk result (λ text. text ≡ encode_lower self.now.0) }
    {
        let text = hex::encode(alloc, self.0.as_slice())?;
        Ok(Text::of(text))
    }
}

impl TryCopy for Digest {
    fn copy(&self, _alloc: Global) -> Result<Digest, NoMemory> {
        Ok(*self)
    }
}

// The bytes of 64 lower-case hex digits.
fn bytes_of(text: &[u8]) -> [u8; 32]
    requires long { length text.now ≡ 64 }
    requires digits { stray_hex text.now ≡ None }
    ensures { text.now ≡ encode_lower result }
{
    let mut bytes = [0; 32];
    match hex::decode_to_slice(text, &mut bytes) {
        Ok(()) => bytes,
        Err(_) => unreachable!(),
    }
}
