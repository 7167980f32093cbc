//! Texts: UTF-8 bytes.
ghost use Rattle.std.specs.Prelude.{◌≡◌, IfOk, MatchOption, true, false, string_bytes};
ghost use Rattle.std.specs.Str.{is_utf8};
ghost use Rattle.lake_base.specs.Names.{ReadsName, text_fault};

use crate::copying::TryCopy;
use crate::names::NameFault;
use crate::outside::NoMemory;
use std::alloc::Global;
use std::marker::Model;

/// A text in UTF-8. Contracts see its bytes.
#[derive(Debug, Drop)]
pub struct Text {
    text: String,
}

impl Model for Text {
    ghost use Rattle.std.specs.Prelude.{List, ℕ, string_bytes};

    ghost Value = { List ℕ };

    ghost view = { λ t. string_bytes t.text };
}

// The bytes as text, where they are UTF-8.
pub(crate) fn utf8(bytes: &[u8]) -> Option<&str>
    ensures { MatchOption result (is_utf8 bytes.now ≡ false)
        (λ text. (text.now ≡ bytes.now) × (is_utf8 bytes.now ≡ true)) }
{
    match str::from_utf8(bytes) {
        Ok(text) => Some(text),
        Err(_) => None,
    }
}

/// Whether the bytes are UTF-8. It takes no memory.
pub fn is_utf8(bytes: &[u8]) -> bool
    ensures { result ≡ is_utf8 bytes.now }
{
    utf8(bytes).is_some()
}

impl Text {
    /// The text of these bytes: UTF-8, at most `most` of them. Refused as TooLong, else as NotUtf8.
    pub fn read(alloc: Global, bytes: &[u8], most: usize) -> Result<Text, NameFault>
        ensures { ReadsName result (text_fault most bytes.now) (λ text. text ≡ bytes.now) }
    {
        if bytes.len() > most {
            return Err(NameFault::TooLong);
        }
        if !is_utf8(bytes) {
            return Err(NameFault::NotUtf8);
        }
        Ok(Text::of_utf8(alloc, bytes)?)
    }

    /// The text of a vector of UTF-8 bytes: `is_utf8` tells. It takes no memory.
    pub fn from_vec(bytes: Vec<u8>) -> Text
        requires { is_utf8 bytes.items ≡ true }
        ensures { result ≡ bytes.items }
    {
        match String::from_utf8(bytes) {
            Ok(text) => Text { text },
            Err(_) => unreachable!(),
        }
    }

    // The text of bytes that are UTF-8.
    pub(crate) fn of_utf8(alloc: Global, bytes: &[u8]) -> Result<Text, NoMemory>
        requires { is_utf8 bytes.now ≡ true }
        ensures { IfOk result (λ text. text ≡ bytes.now) }
    {
        match utf8(bytes) {
            Some(text) => Ok(Text {
                text: String::from_str(alloc, text)?,
            }),
            None => unreachable!(),
        }
    }

    /// The text of a string. It takes no memory.
    pub fn of(text: String) -> Text
        ensures { result ≡ string_bytes text }
    {
        Text { text }
    }

    /// Its bytes. It takes no memory.
    pub fn as_slice(&self) -> &[u8]
        ensures { result.now ≡ self.now }
    {
        self.text.as_bytes()
    }

    /// It as a string. It takes no memory.
    pub fn as_str(&self) -> &str
        ensures bytes { result.now ≡ self.now }
        ensures utf8 { is_utf8 self.now ≡ true }
    {
        self.text.as_str()
    }

    /// The vector of its bytes. It takes no memory.
    pub fn into_vec(self) -> Vec<u8>
        ensures bytes { result.items ≡ self }
        ensures utf8 { is_utf8 result.items ≡ true }
    {
        self.text.into_bytes()
    }
}

impl TryCopy for Text {
    fn copy(&self, alloc: Global) -> Result<Text, NoMemory> {
        let text = String::from_str(alloc, self.text.as_str())?;
        Ok(Text { text })
    }
}
