//! Pages of what is read on a branch: its changes under a staging token and three sealed ones, over its head's entries.
use branch_record::{BranchRecord, LayerCursor, Tokens};
use lake_base::{Digest, TryCopy};
use lake_pages::{Item, Page, PageQuery, page_over};
use lake_values::KeyMap;
use std::alloc::Global;
use std::test::Fail;
use test_values::{changes, key_map, text};

const HEAD: &str = "a1 b1 c1 d/x1 d/y1 e1 g1";

// What each token hides or deletes of what stands below it, and puts: the oldest first.
const SEALED: [&str; 3] = ["a2 b- d/z2 f2", "a- c3 d/x- h3", "b4 d/w4 f- i-"];

const STAGED: &str = "c- e5 h- i5";

// A row: whether changes are staged too; the prefix, `after`, the delimiter and the amount of a query; and its page,
// with `more` where an item is left. The first four are all pages of one listing, each behind the one before.
type Row = (
    bool,
    &'static str,
    &'static str,
    &'static str,
    usize,
    &'static str,
);

static ROWS: [Row; 15] = [
    (false, "", "", "", 2, "b4 c3 more "),
    (false, "", "c", "", 2, "d/w4 d/y1 more "),
    (false, "", "d/y", "", 2, "d/z2 e1 more "),
    (false, "", "e", "", 2, "g1 h3 "),
    (false, "", "", "/", 2, "b4 c3 more "),
    (false, "", "c", "/", 2, "d/ e1 more "),
    (false, "", "e", "/", 2, "g1 h3 "),
    (false, "d/", "", "/", 2, "d/w4 d/y1 more "),
    (false, "d/", "d/y", "/", 2, "d/z2 "),
    (true, "", "", "", 3, "b4 d/w4 d/y1 more "),
    (true, "", "d/y", "", 3, "d/z2 e5 g1 more "),
    (true, "", "g", "", 3, "i5 "),
    (true, "", "c", "/", 1, "d/ more "),
    (true, "", "d/", "/", 1, "e5 more "),
    (true, "c", "", "", 1, ""),
];

// Stages the changes of these words.
fn stage(
    alloc: Global,
    record: &BranchRecord,
    tokens: &mut Tokens,
    words: &str,
) -> Result<(), Fail> {
    for (path, change) in changes(alloc, words)?.as_slice() {
        record.stage(tokens, path.copy(alloc)?, change.copy(alloc)?)?;
    }
    Ok(())
}

// Seals what is staged, and takes the next token for what comes.
fn seal(record: &mut BranchRecord, tokens: &Tokens) -> Result<(), Fail> {
    let fresh = record.staging().saturating_add(1);
    if record.names(fresh) || tokens.has_changes(fresh) {
        return Err("the next token is in use")?;
    }
    record.seal(tokens, fresh)?;
    Ok(())
}

// A branch with the sealed changes, and with the staged ones where these are asked.
fn begun(alloc: Global, staged: bool) -> Result<(BranchRecord, Tokens), Fail> {
    let mut tokens = Tokens::new(alloc);
    let mut record = BranchRecord::fresh(alloc, 1, Digest([0; 32]), 10);
    for words in SEALED {
        stage(alloc, &record, &mut tokens, words)?;
        seal(&mut record, &tokens)?;
    }
    if staged {
        stage(alloc, &record, &mut tokens, STAGED)?;
    }
    Ok((record, tokens))
}

// The words of a page behind others.
fn add_page(alloc: Global, told: &mut String, page: &Page) -> Result<(), Fail> {
    for item in page.items.as_slice() {
        let word = match item {
            Item::Object { path, entry } => format!(in alloc; "{}{} ", path.as_str(), entry.size)?,
            Item::Prefix(prefix) => format!(in alloc; "{} ", prefix.as_str())?,
        };
        told.push_str(word.as_str())?;
    }
    if page.has_more {
        told.push_str("more ")?;
    }
    Ok(())
}

// What a row asks for.
fn query(alloc: Global, row: &Row) -> Result<PageQuery, Fail> {
    let (_, prefix, after, delimiter, amount, _) = *row;
    Ok(PageQuery {
        prefix: text(alloc, prefix)?,
        after: text(alloc, after)?,
        amount,
        delimiter: text(alloc, delimiter)?,
    })
}

// A page of what is read on the branch.
fn page_on(
    alloc: Global,
    record: &BranchRecord,
    tokens: &Tokens,
    head: &KeyMap,
    query: &PageQuery,
) -> Result<Page, Fail> {
    let rows = LayerCursor::new(record.walk(alloc, tokens)?, head.cursor());
    Ok(page_over(alloc, rows, query)?)
}

// The page of a row.
fn told(alloc: Global, row: &Row) -> Result<String, Fail> {
    let (record, tokens) = begun(alloc, row.0)?;
    let head = key_map(alloc, HEAD)?;
    let query = query(alloc, row)?;
    let page = page_on(alloc, &record, &tokens, &head, &query)?;
    let mut told = String::new(alloc);
    add_page(alloc, &mut told, &page)?;
    Ok(told)
}

#[test]
fn pages_go_over_sealed_changes(rt: HostRuntime) -> Result<(), Fail> {
    for row in &ROWS {
        let told = told(rt.alloc(), row)?;
        assert!(rt; told.as_str() == row.5, "{} {told}", row.5);
    }
    Ok(())
}
