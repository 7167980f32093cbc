//! Every call of the interface, answered over a lake that seats share.
//!
//! - `calls`: a call's function, chosen by the call.
//!
//! The promise to the layer above: a call is one placed course, whatever other seats do meanwhile; of the store of
//! objects it met what that counted; and bodies that fitted what its seat had seen fit still.
#![tactic(auto)]

mod calls;

pub use call_heads::{Answered, Client, LakeSeat, NoPause, Shared};
pub use calls::answer;
