//! Tests of the generator: what no clause says. The four lines are those of other programs, for some numbers.
#![tactic(auto)]

#[cfg(test)]
mod generated;
