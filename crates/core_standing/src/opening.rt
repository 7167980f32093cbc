//! A lake that was just opened.
ghost use Rattle.std.specs.Prelude.{◌≡◌, ◌<◌, []};
ghost use Rattle.lake_model.specs.Soundness.{IsSound};
ghost use Rattle.lake_model.specs.Versions.{AreBelowNext, VersionsGiven};
ghost use Rattle.core_state.specs.Counts.{AreCounted, HasVersions, versions_of};
ghost use Rattle.core_state.specs.Index.{HasIndex};
ghost use Rattle.core_state.specs.LakeStates.{LakeStateValue, state_of};
ghost use Rattle.core_changes.specs.FreshTokens.{AreTokensBelow};
ghost use Rattle.core_standing.specs.Standing.{HasNoHistory, Stands};
ghost use Rattle.core_standing.specs.Ties.{AreTied};

use core_state::law_of_versions;

/// A sound lake in which nothing has happened stands for no entries, where its versions are below the next one, its
/// tokens are fresh, its counts are small, its index tells of just what is kept, and the modulus of its cut is above 0.
pub fn law_of_opening()
    ensures { (l : LakeStateValue) → IsSound (state_of l) → HasNoHistory l → AreBelowNext (versions_of l)
        → AreTokensBelow l → AreCounted l → HasIndex l → 0 < l.cut.modulus → Stands l [] l }
{
    law_of_versions();
}

/// The versions of a lake are below the next one where they are those that were given, and those are.
pub fn law_of_versions_below()
    ensures { (given : VersionsGiven) (l : LakeStateValue) → HasVersions given l → AreBelowNext given
        → AreBelowNext (versions_of l) }
{}

/// Where the pairs from which a lake was read agree with one another, its versions are below the next one, its tokens
/// are fresh, and its counts are small, as `law_of_opening` asks.
pub fn law_of_ties()
    ensures { (l : LakeStateValue) → HasNoHistory l → AreTied l
        → AreBelowNext (versions_of l) × AreTokensBelow l × AreCounted l }
{}
