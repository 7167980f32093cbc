//! What holds of every lake in memory. A law is the contract of a function that does nothing.
ghost use Rattle.core_state.specs.Counts.{HasVersions, versions_of};
ghost use Rattle.core_state.specs.LakeStates.{LakeStateValue};

/// The versions that a lake in memory tells of are those that it has.
pub fn law_of_versions()
    ensures { (l : LakeStateValue) → HasVersions (versions_of l) l }
{}
