//! The number that the definitions cite.
ghost use Rattle.std.specs.Prelude.{◌≡◌};
ghost use Rattle.lake_model.specs.declared.history.TheConstants.{HISTORY_LIMIT};

/// The limit that the definitions cite is the profile's.
pub fn limit_is_pinned()
    ensures { HISTORY_LIMIT ≡ 4194304 }
{}
