//! New heads of a branch, drafted of what `Lake::prepare` hands out: the tree that `Lake::swap` asks for. Maps are
//! made, merged, asked about by hooks and cut into trees; `draft` does so without the lake.
//!
//! - `maps`: the map of a tree, and the least path of changes.
//! - `drafting`: the tree of a draft, or why it isn't worth making.
//! - `heads`: a draft of a branch of a lake, with the versions by which it is guarded; and whether they are old.
//! - `waiting`: what refuses a new head at its reading, and that a draft stays ready while the lake goes on; `fault`:
//!   why there is none.
//!
//! The promise to the layer above: of a head that was drafted the condition of `Lake::swap` holds, now and whatever
//! legal entries follow; and a draft that is refused is refused by the first cause against it, unless memory ran out.
#![tactic(auto)]

mod drafting;
mod fault;
mod heads;
mod maps;
mod waiting;

pub use drafting::draft;
pub use fault::{DraftFault, HeadFault};
pub use heads::{HeadDraft, draft_head, is_outdated, sides_of, strategy_of};
pub use waiting::{law_of_later_swaps, law_of_readings, law_of_waiting};
