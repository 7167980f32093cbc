//! What the steps of a new head tell of the call that asks for it, whatever other seats do between them: a commit, a
//! merge or a pick.
//!
//! - `specs/NewHeads`: what refuses a new head, and what is drafted for it; `specs/HeadTries`: one try;
//!   `specs/HeadSeals`: the seal before the tries, and the expression that is resolved before that;
//!   `specs/HeadPauses`: how often a try pauses.
//! - `tries`: one try, its draft made outside of the turn; `seals`: the steps before it.
//!
//! The promise to the layer above: what came of each step, as the law of calls asks of it.
#![tactic(auto)]

mod seals;
mod tries;

pub use seals::{resolve_for, seal_for};
pub use tries::head_once;
