//! Words of commands.

use lake_base::{Text, Trouble};
use std::alloc::Global;

/// The words as texts.
pub(crate) fn texts_of(alloc: Global, words: &[&str]) -> Result<Vec<Text>, Trouble> {
    let mut texts = Vec::new(alloc);
    for word in words {
        texts.push(Text::of(String::from_str(alloc, word)?))?;
    }
    Ok(texts)
}
