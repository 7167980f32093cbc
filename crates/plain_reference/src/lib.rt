//! The reference: merges, commit graphs, retention, patterns and the files of trees, plainly and slowly.
//!
//! - `ancestry`: ancestors, the merge base and the walk of first parents, over a list of commits. Laws say what the
//!   functions of the definition mean in a graph, and that generations fall along every way back.
//! - `merge`: the answer of a merge, and the paths that conflict, with the laws of both.
//! - `retention`: which commits the rules keep, one by one and as a list, with its law.
//! - `hooks`: patterns and protected branches.
//! - `segments`, `files`: the runs of rows between break keys, and the files of a tree and of a commit.
//!
//! The promise to the layer above: each function's contract is a definition of `lake_values` or `lake_format`, and its
//! body looks at all that there is, in the order of the definition. The tests of the words run it on worked values,
//! which shows that the definitions say what was meant; a reader holds a faster function of the crates above against
//! it. No program runs them; their laws may be cited.
#![tactic(auto)]

pub mod ancestry;
pub mod files;
pub mod hooks;
pub mod merge;
pub mod retention;
pub mod segments;
