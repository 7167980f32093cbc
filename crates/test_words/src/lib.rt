//! Tests of the words: what no clause says. Calls that may find no memory answer where there is enough, definitions say
//! what was meant of worked values and of the values of other programs, and errors are printed as they are.
//!
//! - `names`, `copies`, `faults`: texts, names and digests; copies of words and of lines of ranges; what errors print.
//! - `maps`, `pages`: changes, maps of two kinds, and listings.
//! - `formats`, `files`: entries and fields as bytes; trees and commits as files.
//! - `merges`, `graphs`, `patterns`: the plain reference.
#![tactic(auto)]

#[cfg(test)]
mod copies;
#[cfg(test)]
mod faults;
#[cfg(test)]
mod files;
#[cfg(test)]
mod formats;
#[cfg(test)]
mod graphs;
#[cfg(test)]
mod maps;
#[cfg(test)]
mod merges;
#[cfg(test)]
mod names;
#[cfg(test)]
mod pages;
#[cfg(test)]
mod patterns;
