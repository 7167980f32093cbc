//! Listings: the items of a key map, or of any cursor over entries, under a prefix and a delimiter, page by page.
//!
//! The promise to the layer above: a page is the items above a name, each once and in order, and whether one is
//! left after them; pages taken one after the other are the whole listing.
#![tactic(auto)]

pub mod listing;

pub use listing::{Item, Page, PageQuery, page_of, page_over};
