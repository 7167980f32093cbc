//! The commits of a lake expire, and a number is condemned.
ghost use Rattle.std.specs.Prelude.{◌≡◌, [], ◌∷◌, ℕ, Option, Some, true, IsOk};
ghost use Rattle.lake_base.specs.declared.digest.Digest.{Digest};
ghost use Rattle.lake_format.specs.declared.cut.Cut.{Cut};
ghost use Rattle.lake_values.specs.Commit.{AboutValue};
ghost use Rattle.lake_values.specs.Retention.{cutoff};
ghost use Rattle.lake_values.specs.declared.commit.Strategy.{Strategy};
ghost use Rattle.lake_model.specs.History.{Allows, IsLegal};
ghost use Rattle.lake_model.specs.Naming.{IsGarbage, IsNamed};
ghost use Rattle.lake_model.specs.Preparing.{prepare_reply};
ghost use Rattle.lake_model.specs.Refusals.{Clash, first_cause};
ghost use Rattle.lake_model.specs.Soundness.{fresh};
ghost use Rattle.lake_model.specs.Steps.{is_current, swap_causes, swap_rule};
ghost use Rattle.lake_model.specs.Versions.{VersionsGiven};
ghost use Rattle.lake_model.specs.declared.fault.StepFault.TheVariants.{Expired};
ghost use Rattle.lake_model.specs.declared.reply.Sides.TheVariants as sides;
ghost use Rattle.lake_model.specs.declared.reply.SwapKind.TheVariants.{Pick};
ghost use Rattle.law_examples.specs.HistoryWords.{first, main, quickstart, IsCommitAdmissible};
ghost use Rattle.law_examples.specs.Days.{AreApart, commit, expire_entry, first_commit, lake_after, lake_of_days};
ghost use Rattle.law_examples.specs.Days.{lake_before_first, lake_before_second, older_commits, quiet_lake};
ghost use Rattle.law_examples.specs.Days.{quiet_lake_after, said_at, second_commit, two_days};

/// Commits are kept for a day. At the moment 1,300,000 those expire that are no branch's head, as all are dated before
/// the moment 1,213,600. Then the number 0, of an object that was deleted in the second commit, is garbage and is
/// condemned; the numbers in the head's map, among the sealed changes and on a ticket aren't. The premises are that the
/// ids of the three commits differ, and that no file of the new ones shares its name with other bytes.
pub fn expiry()
    ensures moment { cutoff 1300000 1 ≡ 1213600 }
    ensures legal { (cut : Cut) (digest : Digest) → IsCommitAdmissible (lake_before_first cut digest) (said_at 1000000)
        → IsCommitAdmissible (lake_before_second cut digest) (said_at 1100000) → AreApart cut digest
        → IsLegal (fresh cut) (two_days cut digest) }
    ensures named_before { (cut : Cut) (digest : Digest) → AreApart cut digest → IsNamed (lake_of_days cut digest) 0 }
    ensures garbage { (cut : Cut) (digest : Digest) → IsGarbage (lake_after cut digest) 0 }
    ensures named_by_head { (cut : Cut) (digest : Digest) → AreApart cut digest → IsNamed (lake_after cut digest) 1 }
    ensures named_by_seal { (cut : Cut) (digest : Digest) → IsNamed (lake_after cut digest) 2 }
    ensures named_by_ticket { (cut : Cut) (digest : Digest) → IsNamed (lake_after cut digest) 3 }
{}

/// All that can expire do, each once, and nothing else does.
pub fn expiry_of_others()
    ensures allowed { (cut : Cut) (digest : Digest) → AreApart cut digest
        → Allows (lake_of_days cut digest) (expire_entry (commit (first_commit cut digest) ∷ commit (first cut) ∷ [])) }
    ensures one_left { (cut : Cut) (digest : Digest) → AreApart cut digest
        → Allows (lake_of_days cut digest) (expire_entry (commit (first_commit cut digest) ∷ [])) → ⊥ }
    ensures twice { (cut : Cut) (digest : Digest)
        → Allows (lake_of_days cut digest)
        (expire_entry (commit (first_commit cut digest) ∷ commit (first cut) ∷ commit (first cut) ∷ [])) → ⊥ }
    ensures head { (cut : Cut) (digest : Digest)
        → Allows (lake_of_days cut digest)
        (expire_entry (commit (first_commit cut digest) ∷ commit (first cut) ∷ commit (second_commit cut digest) ∷ []))
        → ⊥ }
    ensures no_commit { (cut : Cut) (digest id : Digest)
        → (first cut ≡ id → ⊥) → (first_commit cut digest ≡ id → ⊥) → (second_commit cut digest ≡ id → ⊥)
        → Allows (lake_of_days cut digest)
        (expire_entry (commit (first_commit cut digest) ∷ commit (first cut) ∷ commit id ∷ [])) → ⊥ }
{}

/// After the two older commits expired nothing is left to expire: a list of none is allowed, and one with an expired
/// commit isn't.
pub fn expiry_again()
    ensures allowed { (cut : Cut) (digest : Digest) → Allows (lake_after cut digest) (expire_entry []) }
    ensures refused { (cut : Cut) (digest : Digest)
        → Allows (lake_after cut digest) (expire_entry (commit (first cut) ∷ [])) → ⊥ }
{}

/// Nothing is sealed on `main` and the commit of the first day isn't expired, so what a pick of it is made from is
/// handed out. It expires in the pause before the swap, and by versions that are those now the swap is refused: the
/// first cause is that this commit is expired. The premise of the expiry is that the ids of the three commits differ.
pub fn pick_in_the_pause()
    ensures handed { (cut : Cut) (digest : Digest) (given : VersionsGiven)
        → IsOk (prepare_reply (quiet_lake cut digest) given quickstart main
        (Some (sides.Pick (first cut) (first_commit cut digest)))) }
    ensures expires { (cut : Cut) (digest : Digest) → AreApart cut digest
        → Allows (quiet_lake cut digest) (expire_entry (older_commits cut digest)) }
    ensures refused { (cut : Cut) (digest : Digest) (given : VersionsGiven) (version settings : ℕ) (strategy : Strategy)
        (about : AboutValue) (clash : Option Clash) → is_current given quickstart main version settings ≡ true
        → first_cause (swap_causes (quiet_lake_after cut digest) given quickstart main version settings
        (swap_rule (Pick (first cut) (first_commit cut digest) strategy) about) clash)
        ≡ Some (Expired (first_commit cut digest)) }
{}
