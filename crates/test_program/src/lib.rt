//! Tests of the program: what no clause says. Calls succeed where there is memory, lines print the texts that they
//! should, and real files and the real clock answer.
//!
//! - `demo`: the demonstration, and batches at one moment.
//! - `batches`, `commands`, `failures`, `words`: tables of runs over streams in memory.
//! - `limits`: how long lines, texts and batches may be.
//! - `adapters`: the real streams, files and clock.
#![tactic(auto)]

#[cfg(test)]
mod adapters;
#[cfg(test)]
mod batches;
#[cfg(test)]
mod commands;
#[cfg(test)]
mod demo;
#[cfg(test)]
mod failures;
#[cfg(test)]
mod limits;
#[cfg(test)]
mod words;
