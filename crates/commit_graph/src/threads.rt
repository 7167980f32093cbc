//! Graphs may go from thread to thread. The function is proved only where its bounds hold.
use crate::graph::Graph;

fn may_move<T: Send>() {}

fn may_be_shared<T: Sync>() {}

/// Threads may share a graph, and hand it over.
pub fn graphs_cross() {
    may_move::<Graph>();
    may_be_shared::<Graph>();
}
