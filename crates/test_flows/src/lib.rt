//! Tests of calls of several steps over a lake that seats share: what no clause says.
//!
//! - `sealer`: a pause in which a second seat seals or commits a branch, or moves another one.
//! - `desk`: a seat with what its calls need, and a call answered in words; `head_desk`: its calls of new heads.
//! - `flows`: tables of what is asked beside the sealer, with what is answered: of objects and of heads.
//! - `merges`: one path, merged by its three entries and by each strategy.
#![tactic(auto)]

#[cfg(test)]
mod desk;
#[cfg(test)]
mod flows;
#[cfg(test)]
mod head_desk;
#[cfg(test)]
mod merges;
#[cfg(test)]
mod sealer;
