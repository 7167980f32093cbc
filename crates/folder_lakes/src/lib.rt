//! The lake of a folder, and the seats at it.
//!
//! - `fault`: why a folder isn't opened; `status`: how a run ends then.
//! - `opening`: a folder's keeper is taken, and the lake for which its pairs stand is opened, with so many seats; and
//!   it is closed again.
//!
//! The promise to the layer above: each seat goes out from the lake for which the folder's pairs stand, and has seen
//! nothing; a refusal has its cause, and the keeper is given back.
#![tactic(auto)]

pub mod fault;
mod opening;
pub mod status;

pub use fault::FolderFault;
pub use opening::{close_folder, open_folder};
pub use status::{status_by, status_of_trouble};
