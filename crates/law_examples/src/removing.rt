//! Numbers that are condemned.
ghost use Rattle.std.specs.Prelude.{[], ◌∷◌};
ghost use Rattle.lake_base.specs.declared.digest.Digest.{Digest};
ghost use Rattle.lake_format.specs.declared.cut.Cut.{Cut};
ghost use Rattle.lake_model.specs.declared.history.Operation.TheVariants.{Condemn};
ghost use Rattle.lake_model.specs.History.{Allows};
ghost use Rattle.lake_model.specs.Soundness.{fresh};
ghost use Rattle.law_examples.specs.HistoryWords.{entry_of};
ghost use Rattle.law_examples.specs.TakenBack.{lake_of_deletion, lake_of_upload};

/// Garbage is condemned, once; a number that is named isn't, nor one that wasn't given out.
pub fn condemned()
    ensures allowed { (cut : Cut) (digest : Digest)
        → Allows (lake_of_deletion cut digest) (entry_of (Condemn (0 ∷ []))) }
    ensures twice { (cut : Cut) (digest : Digest)
        → Allows (lake_of_deletion cut digest) (entry_of (Condemn (0 ∷ 0 ∷ []))) → ⊥ }
    ensures named { (cut : Cut) (digest : Digest)
        → Allows (lake_of_upload cut digest) (entry_of (Condemn (0 ∷ []))) → ⊥ }
    ensures unknown { (cut : Cut) → Allows (fresh cut) (entry_of (Condemn (0 ∷ []))) → ⊥ }
{}
