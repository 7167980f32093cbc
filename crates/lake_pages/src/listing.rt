//! Listings: the items of a key map under a prefix and a delimiter, page by page.
//!
//! A key that begins with the prefix is listed as the part up to and including the first delimiter after the
//! prefix, or as itself where the delimiter is empty or doesn't occur there. Under the prefix `` and the
//! delimiter `/` the keys `a/1`, `a/2` and `b` are listed as the common prefix `a/` and the object `b`.
//!
//! A page is a walk over a cursor. The first page of one item of these keys seeks the byte 0, the least bytes above
//! an empty `after`, takes `a/1`, lists `a/` and seeks `a0`, the least bytes above all that begin with `a/`. There
//! it takes `b`, so that an item is left. The page after `a/` seeks `a0` at once.
ghost use Rattle.std.specs.Prelude.{◌≡◌, ◌<◌, ◌≤◌, ◌↔◌, ℕ, true, [], ◌∷◌, length, map, take, Some, None, IfOk, IfSome};
ghost use Rattle.std.specs.Prelude.{MatchOption, option_copied, nat_eq, nat_lt};
ghost use Rattle.std.specs.List.{starts_with, Contains};
ghost use Rattle.std.specs.FinMap.{entries};
ghost use Rattle.std.specs.declared.cmp.Ordering.TheVariants.{Less};
ghost use Rattle.std.specs.Str.{is_utf8};
ghost use Rattle.lake_base.specs.Maps.{IsAscending, byte_order};
ghost use Rattle.lake_values.specs.KeyMap.{KeyMapValue, HasPathKeys};
ghost use Rattle.lake_pages.specs.declared.listing.PageQuery.{PageQuery as Query};
ghost use Rattle.lake_pages.specs.declared.listing.Item.{Item as Line};
ghost use Rattle.lake_pages.specs.Listing.{front_through, common_prefix, IsItem, item_name, items_of, items_left};
ghost use Rattle.lake_pages.specs.Listing.{items_above, page_items, has_more, pages};
ghost use Rattle.lake_pages.specs.ListingSteps.{page_start, name_end, IsRest, ListsFirst};

use lake_base::copying::TryCopy;
use lake_base::names::{NameFault, Path};
use lake_base::outside::NoMemory;
use lake_base::sequence::Sequence;
use lake_base::text::Text;
use lake_values::cursor::{EntryCursor, is_below};
use lake_values::entry::Entry;
use lake_values::key_map::KeyMap;
use std::alloc::Global;

/// What is to be listed: at most `amount` items above `after` of the keys that begin with `prefix`.
#[derive(Debug, Drop)]
pub struct PageQuery {
    pub prefix: Text,
    pub after: Text,
    pub amount: usize,
    pub delimiter: Text,
}

/// One line of a listing.
#[derive(Debug, Drop)]
pub enum Item {
    /// A key in which no delimiter stands after the prefix, or any key where the delimiter is empty.
    Object { path: Path, entry: Entry },
    /// What keys have in common up to the first delimiter after the prefix.
    Prefix(Text),
}

/// Items in byte order, each once, and whether one is left after them.
#[derive(Debug, Drop)]
pub struct Page {
    pub items: Sequence<Item>,
    pub has_more: bool,
}

impl TryCopy for PageQuery {
    fn copy(&self, alloc: Global) -> Result<PageQuery, NoMemory> {
        Ok(PageQuery {
            prefix: self.prefix.copy(alloc)?,
            after: self.after.copy(alloc)?,
            amount: self.amount,
            delimiter: self.delimiter.copy(alloc)?,
        })
    }
}

impl Item {
    /// The path, or the common prefix. It takes no memory.
    pub fn name(&self) -> &[u8]
        ensures { result.now ≡ item_name self.now }
    {
        match self {
            Item::Object { path, .. } => path.as_slice(),
            Item::Prefix(text) => text.as_slice(),
        }
    }
}

impl TryCopy for Item {
    fn copy(&self, alloc: Global) -> Result<Item, NoMemory> {
        match self {
            Item::Object { path, entry } => Ok(Item::Object {
                path: path.copy(alloc)?,
                entry: entry.copy(alloc)?,
            }),
            Item::Prefix(text) => Ok(Item::Prefix(text.copy(alloc)?)),
        }
    }
}

impl TryCopy for Page {
    fn copy(&self, alloc: Global) -> Result<Page, NoMemory> {
        Ok(Page {
            items: self.items.copy(alloc)?,
            has_more: self.has_more,
        })
    }
}

/// The page of a map: of its items in byte order, each once, those above `after`, at most `amount` of them. It
/// passes over the keys before it, and over those with one common prefix, by a search.
pub fn page_of(alloc: Global, map: &KeyMap, query: &PageQuery) -> Result<Page, NoMemory>
    ensures items { IfOk result (λ page. page.items ≡ page_items query.now map.now) }
    ensures more { IfOk result (λ page. page.has_more ≡ has_more query.now map.now) }
{
    page_over(alloc, map.cursor(), query)
}

/// The page of the entries that a cursor still has: of their items in byte order, each once, those above `after`,
/// at most `amount` of them. For n items it takes at most n + 1 entries and seeks at most n + 1 times.
pub fn page_over<'a, C: EntryCursor<'a>>(
    alloc: Global,
    mut cursor: C,
    query: &PageQuery,
) -> Result<Page, NoMemory>
    ensures items { IfOk result (λ page.
        page.items ≡ take query.now.amount (items_left query.now (C.left cursor))) }
    ensures more { IfOk result (λ page.
        page.has_more ≡ nat_lt query.now.amount (length (items_left query.now (C.left cursor)))) }
{
    let mut items = Vec::new(alloc);
    cursor.seek(page_start(alloc, query)?.as_slice());
    while let Some((path, entry)) = next_listed(&mut cursor, query) {
        if items.as_slice().len() >= query.amount {
            return Ok(Page {
                items: Sequence::of(items),
                has_more: true,
            });
        }
        items.push(item_at(alloc, &mut cursor, path, entry, query)?)?;
    }
    Ok(Page {
        items: Sequence::of(items),
        has_more: false,
    })
}

/// Pages of an amount above 0, each taken after the last item of the one before, give all items above the first
/// query's `after`, each once, in order. (A law: it does nothing.)
pub fn law_of_pages()
    ensures { (n : ℕ) (query : Query) (objects : KeyMapValue) → 0 < query.amount
        → length (items_above query objects) ≤ n → pages n query objects ≡ items_above query objects }
{}

/// What is listed: the item of each key that begins with the prefix, each once, in ascending order of name,
/// and nothing else. (A law: it does nothing.)
pub fn law_of_items()
    ensures listed { (query : Query) (objects : KeyMapValue) (item : Line)
        → Contains (map (λ i. i.1) (items_of query (entries objects))) item ↔ IsItem query objects item }
    ensures ascending { (query : Query) (objects : KeyMapValue)
        → IsAscending (map item_name (items_above query objects)) }
    // Pages give those of them whose name is above `after`.
    ensures above { (query : Query) (objects : KeyMapValue) (item : Line)
        → Contains (items_above query objects) item
        ↔ (IsItem query objects item × (byte_order query.after (item_name item) ≡ Less)) }
    // Those are all items where `after` is empty and each key is a path, as in each `KeyMap`.
    ensures all { (query : Query) (objects : KeyMapValue) → query.after ≡ [] → HasPathKeys (entries objects)
        → items_above query objects ≡ map (λ i. i.1) (items_of query (entries objects)) }
{}

// The entry that comes next, where it begins with the prefix. Where it doesn't, no later one does.
fn next_listed<'a, C: EntryCursor<'a>>(
    cursor: &mut C,
    query: &PageQuery,
) -> Option<(&'a Path, &'a Entry)>
    requires { IsRest query.now (C.left cursor.old) }
    ensures { MatchOption result (items_left query.now (C.left cursor.old) ≡ [])
        (λ row. (C.left cursor.old ≡ (row.0.now, row.1.now) ∷ C.left cursor.new)
        × (starts_with nat_eq row.0.now query.now.prefix ≡ true)) }
{
    let Some((path, entry)) = cursor.next() else {
        return None;
    };
    if !path.as_slice().starts_with(query.prefix.as_slice()) {
        return None;
    }
    Some((path, entry))
}

// The item of an entry that the cursor has passed. It passes over those with the same item too.
fn item_at<'a, C: EntryCursor<'a>>(
    alloc: Global,
    cursor: &mut C,
    path: &Path,
    entry: &Entry,
    query: &PageQuery,
) -> Result<Item, NoMemory>
    requires rest { IsRest query.now ((path.now, entry.now) ∷ C.left cursor.old) }
    requires under { starts_with nat_eq path.now query.now.prefix ≡ true }
    ensures { IfOk result (λ item.
        ListsFirst query.now ((path.now, entry.now) ∷ C.left cursor.old) item (C.left cursor.new)) }
{
    let Some(name) = common_prefix(path.as_slice(), query) else {
        let (path, entry) = (path.copy(alloc)?, entry.copy(alloc)?);
        return Ok(Item::Object { path, entry });
    };
    let text = text_of(alloc, name)?;
    cursor.seek(name_end(alloc, name)?.as_slice());
    Ok(Item::Prefix(text))
}

// The least bytes at which a key of the page can stand.
fn page_start(alloc: Global, query: &PageQuery) -> Result<Vec<u8>, NoMemory>
    ensures { IfOk result (λ start. start.items ≡ page_start query.now) }
{
    let prefix = query.prefix.as_slice();
    let after = query.after.as_str().as_bytes();
    if !after.starts_with(prefix) {
        let start = if is_below(after, prefix) {
            prefix
        } else {
            after
        };
        return Ok(Vec::from_slice(alloc, start)?);
    }
    if let Some(name) = common_prefix(after, query) {
        return name_end(alloc, name);
    }
    let mut start = Vec::from_slice(alloc, after)?;
    start.push(0)?;
    Ok(start)
}

// The least bytes above all that begin with a name.
fn name_end(alloc: Global, name: &[u8]) -> Result<Vec<u8>, NoMemory>
    requires some { 0 < length name.now }
    requires utf8 { is_utf8 name.now ≡ true }
    ensures { IfOk result (λ end. end.items ≡ name_end name.now) }
{
    let mut end = Vec::from_slice(alloc, name)?;
    let last = name.len() - 1;
    end[last] += 1;
    Ok(end)
}

// The common prefix of a key that begins with the prefix.
fn common_prefix<'a>(key: &'a [u8], query: &PageQuery) -> Option<&'a [u8]>
    requires utf8 { is_utf8 key.now ≡ true }
    requires under { starts_with nat_eq key.now query.now.prefix ≡ true }
    ensures name { option_copied result ≡ common_prefix query.now.prefix query.now.delimiter key.now }
    ensures utf8 { IfSome result (λ name. is_utf8 name.now ≡ true) }
    ensures some { IfSome result (λ name. 0 < length name.now) }
{
    let start = query.prefix.as_slice().len();
    let delimiter = query.delimiter.as_str().as_bytes();
    if delimiter.is_empty() {
        return None;
    }
    match through(key.split_at(start).1, delimiter) {
        Some(end) => Some(key.split_at(start + end).0),
        None => None,
    }
}

// How many bytes there are up to and including the first delimiter.
fn through(bytes: &[u8], delimiter: &[u8]) -> Option<usize>
    requires { 0 < length delimiter.now }
    ensures { MatchOption result (front_through delimiter.now bytes.now ≡ None)
        (λ end. (end ≤ length bytes.now) × (front_through delimiter.now bytes.now ≡ Some (take end bytes.now))) }
{
    for at in 0..bytes.len() {
        if bytes.split_at(at).1.starts_with(delimiter) {
            return Some(at + delimiter.len());
        }
    }
    None
}

// A text of UTF-8.
fn text_of(alloc: Global, bytes: &[u8]) -> Result<Text, NoMemory>
    requires { is_utf8 bytes.now ≡ true }
    ensures { IfOk result (λ text. text ≡ bytes.now) }
{
    match Text::read(alloc, bytes, bytes.len()) {
        Ok(text) => Ok(text),
        Err(NameFault::NoMemory) => Err(NoMemory),
        Err(_) => unreachable!(),
    }
}
