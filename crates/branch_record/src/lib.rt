//! The uncommitted changes of a branch, under tokens, and changes laid over the entries below them.
//!
//! - `record`: a branch's version and head, the token under which its changes are staged, and the sealed tokens.
//! - `tokens`: the changes under each token; `cursor`: those under one, in order of path; `ordered`, `placed`: how they
//!   are kept.
//! - `looking`: what a branch's changes say of a path; `overlaying`: they are made one.
//! - `changing`: staging, sealing, resetting, and the room that is made for a change before it is made.
//! - `joined`: the changes under a branch's tokens, walked as one where they stand.
//! - `layer`: a cursor over the entries that changes leave of those below, so that a page of a branch is a walk over
//!   its changes and the tree of its head; `changes`: changes, one by one; `ahead`: a cursor's entries, the first at
//!   hand.
//! - `laws`, `layer_laws`: what holds of all of these; `threads`: records and tokens may go from thread to thread.
//!
//! The promise to the layer above: what is read of a path is the staged change over the sealed ones; each call changes
//! just the tokens that its record names; after `ready` a stage or a seal can't be refused; and a walk over changes
//! over a cursor is a walk over the map that they make of its entries.
#![tactic(auto)]

mod ahead;
mod changes;
mod changing;
mod cursor;
mod joined;
mod laws;
mod layer;
mod layer_laws;
mod looking;
mod ordered;
mod overlaying;
mod placed;
mod record;
mod threads;
mod tokens;

pub use changes::{ChangeCursor, ChangesLeft, SliceChanges};
pub use cursor::ChangesCursor;
pub use joined::JoinedCursor;
pub use lake_values::commit::ResetWhat;
pub use laws::{
    law_of_drops, law_of_resets, law_of_sealing, law_of_staging, laws_of_layers, laws_of_tokens,
};
pub use layer::LayerCursor;
pub use layer_laws::law_of_layers;
pub use looking::Looked;
pub use record::{BranchRecord, are_distinct};
pub use threads::tokens_cross;
pub use tokens::Tokens;
