//! The lines of a batch, over whatever serves them.
//!
//! - `server`: the trait of what serves a line. `lines`: the call that serves the lines of a source.
//! - `status`: how that ends. `stop`: how the reading of a source ends, and what may stop it.
//! - `line_buffer`, `batch`: the source read piece by piece and cut into lines.
//! - `results`: how the lines went. `output`: what they showed is held back, and written. `texts`: what a batch shows
//!   beside that.
//!
//! The promise to the layer above: what `serve_lines` shows is what is answered to the lines one after the other,
//! however the source is cut and whatever fails, and each status has its cause.
#![tactic(auto)]

mod batch;
mod line_buffer;
mod lines;
pub mod output;
mod results;
mod server;
mod status;
mod stop;
mod texts;

pub use lines::serve_lines;
pub use server::LineServer;
pub use status::ExitStatus;
