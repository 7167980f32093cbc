//! Pages under prefixes and delimiters, after names and of several amounts.
use lake_base::TryCopy;
use lake_pages::{Item, Page, PageQuery, page_of};
use std::alloc::Global;
use std::test::Fail;
use test_values::{key_map, text};

// A map; the prefix, `after`, the amount and the delimiter of a query; and the page: each object with `;` after it,
// each common prefix with `:`, and then `more` where an item is left.
type Row = (
    &'static str,
    &'static str,
    &'static str,
    usize,
    &'static str,
    &'static str,
);

const SLASHES: &str = "a/x1 a/y1 b1";

static ROWS: [Row; 15] = [
    (SLASHES, "", "", 1, "/", "a/:more"),
    (SLASHES, "", "a/", 1, "/", "b;"),
    (SLASHES, "", "", 3, "", "a/x;a/y;b;"),
    (SLASHES, "", "", 2, "", "a/x;a/y;more"),
    (SLASHES, "a/", "", 9, "/", "a/x;a/y;"),
    (SLASHES, "a", "", 9, "/", "a/:"),
    (SLASHES, "", "a/x", 9, "/", "b;"),
    (SLASHES, "", "a", 9, "/", "a/:b;"),
    (SLASHES, "a/", "b", 9, "/", ""),
    (SLASHES, "b", "a/y", 9, "/", "b;"),
    (SLASHES, "", "", 0, "/", "more"),
    (SLASHES, "c", "", 0, "/", ""),
    ("a--x1 a--y1 a-b1", "", "", 9, "--", "a--:a-b;"),
    ("a--x1 a--y1 a-b1", "", "a--", 9, "--", "a-b;"),
    ("", "", "", 9, "/", ""),
];

fn query(alloc: Global, row: &Row) -> Result<PageQuery, Fail> {
    let (_, prefix, after, amount, delimiter, _) = *row;
    Ok(PageQuery {
        prefix: text(alloc, prefix)?,
        after: text(alloc, after)?,
        amount,
        delimiter: text(alloc, delimiter)?,
    })
}

// A page as the table writes it.
fn told(alloc: Global, page: &Page) -> Result<Vec<u8>, Fail> {
    let mut told = Vec::new(alloc);
    for item in page.items.as_slice() {
        told.extend_from_slice(item.name())?;
        match item {
            Item::Object { .. } => told.push(b';')?,
            Item::Prefix(_) => told.push(b':')?,
        }
    }
    if page.has_more {
        told.extend_from_slice(b"more")?;
    }
    Ok(told)
}

#[test]
fn pages_are_those_of_the_table(rt: HostRuntime) -> Result<(), Fail> {
    let alloc = rt.alloc();
    for row in &ROWS {
        let query = query(alloc, row)?.copy(alloc)?;
        let page = page_of(alloc, &key_map(alloc, row.0)?, &query)?.copy(alloc)?;
        assert!(rt;
            told(alloc, &page)?.as_slice() == row.5.as_bytes(),
            "{}",
            row.5
        );
    }
    Ok(())
}
