//! A line as the request that it sends, or its fault, on one line.
use lake_base::Text;
use lakectl_words::{LineWords, UsageFault, WireCall, line_words, request_of, request_text};
use std::alloc::Global;
use std::test::Fail;

// The bytes that are sent, with `|` for each end of a line, and the files that the program reads or writes.
fn sent(alloc: Global, call: &WireCall) -> Result<String, Fail> {
    let bytes = request_text(alloc, &call.request)?;
    let text = str::from_utf8(bytes.as_slice())?;
    let mut line = String::new(alloc);
    for part in text.split("\r\n") {
        if !line.is_empty() {
            line.push('|')?;
        }
        line.push_str(part)?;
    }
    if let Some(file) = &call.body_file {
        line.push_str(" <")?;
        line.push_str(file.as_str())?;
    }
    if let Some(file) = &call.save {
        line.push_str(" >")?;
        line.push_str(file.as_str())?;
    }
    Ok(line)
}

// The fault of a line, as it is named.
fn fault(alloc: Global, fault: UsageFault) -> Result<String, Fail> {
    let text = match &fault {
        UsageFault::NoCommand => String::from_str(alloc, "no command")?,
        UsageFault::Unknown => String::from_str(alloc, "unknown command")?,
        UsageFault::Words => String::from_str(alloc, "bad words")?,
        UsageFault::Uri => String::from_str(alloc, "bad URI")?,
        UsageFault::Value(name) => format!(in alloc; "bad value for {}", name.as_str())?,
        UsageFault::NoMemory => String::from_str(alloc, "no memory")?,
    };
    Ok(text)
}

/// What the words ask for.
pub(crate) fn words_told(alloc: Global, words: &[Text]) -> Result<String, Fail> {
    match request_of(alloc, words) {
        Ok(call) => sent(alloc, &call),
        Err(refusal) => fault(alloc, refusal),
    }
}

/// What a line asks for.
pub(crate) fn told(alloc: Global, line: &[u8]) -> Result<String, Fail> {
    match line_words(alloc, line)? {
        LineWords::Skipped => Ok(String::from_str(alloc, "skipped")?),
        LineWords::Bad => Ok(String::from_str(alloc, "bad line")?),
        LineWords::Words(words) => words_told(alloc, words.as_slice()),
    }
}

/// A table of lines, each followed by what it asks for: the same with what the lines ask for now.
pub(crate) fn table(alloc: Global, table: &str) -> Result<String, Fail> {
    let mut again = String::new(alloc);
    let mut asks = true;
    for line in table.lines() {
        if asks {
            again.push_str(line)?;
            again.push('\n')?;
            let answer = told(alloc, line.as_bytes())?;
            again.push_str(answer.as_str())?;
            again.push('\n')?;
        }
        asks = !asks;
    }
    Ok(again)
}
