//! What faults are told as that no table of this crate meets.
use commit_graph::{CommitFault, ExprFault, GraphFault};
use lake_base::{Digest, Sequence};
use meta_range::{MetaFault, TreeFault};
use pair_format::PairFault;
use range_file::RangeFault;
use std::alloc::Global;
use std::test::Fail;

// Each fault that tells that memory ran out.
fn memory_told(alloc: Global) -> Result<String, Fail> {
    Ok(format!(in alloc;
        "{}, {}, {}, {}, {}, {}, {}",
        RangeFault::NoMemory,
        MetaFault::NoMemory,
        TreeFault::NoMemory,
        CommitFault::NoMemory,
        ExprFault::NoMemory,
        GraphFault::NoMemory,
        PairFault::NoMemory
    )?)
}

// The clash of two commits that have one id.
fn clash_told(alloc: Global) -> Result<String, Fail> {
    let clash = GraphFault::NameClash {
        name: Digest([0; 32]),
        kept: Sequence::of(Vec::new(alloc)),
        new: Sequence::of(Vec::new(alloc)),
    };
    Ok(format!(in alloc; "{clash}")?)
}

#[test]
fn faults_of_no_table_are_told(rt: HostRuntime) -> Result<(), Fail> {
    let alloc = rt.alloc();
    assert_eq!(rt;
        memory_told(alloc)?.as_str(),
        "out of memory, out of memory, out of memory, out of memory, out of memory, out of memory, out of memory"
    );
    assert_eq!(rt; clash_told(alloc)?.as_str(), "two commits have one id");
    let fault = MetaFault::Trailing(2);
    assert_eq!(rt;
        format!(in alloc; "{fault}")?.as_str(),
        "2 bytes follow the last range"
    );
    Ok(())
}
