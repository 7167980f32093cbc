//! Tests of lakes in folders: what no clause says.
//!
//! - `machine`: a run of the program over a folder in memory, and what it comes to.
//! - `stops`: a batch whose keeper fails at each of its calls, and what the folder has then.
//! - `forms`: a command and a server on the lake of a folder.
#![tactic(auto)]

#[cfg(test)]
mod forms;
#[cfg(test)]
mod machine;
#[cfg(test)]
mod stops;
