//! Repositories, branches, tags and commits by their names.
ghost use Rattle.std.specs.Prelude.{◌≡◌};
ghost use Rattle.lake_base.specs.declared.digest.Digest.{Digest};
ghost use Rattle.lake_format.specs.declared.cut.Cut.{Cut};
ghost use Rattle.lake_model.specs.declared.history.Operation.TheVariants.{RepoCreate, BranchCreate, BranchDelete};
ghost use Rattle.lake_model.specs.declared.history.Operation.TheVariants.{TagCreate, TagDelete, Seal};
ghost use Rattle.lake_model.specs.declared.history.SealFor.TheVariants as seal;
ghost use Rattle.lake_model.specs.Commits.{IsAdmissible, bare_repository, first_draft};
ghost use Rattle.lake_model.specs.History.{Allows, after};
ghost use Rattle.lake_model.specs.Soundness.{fresh};
ghost use Rattle.law_examples.specs.HistoryWords.{quickstart, main, first, entry_of, seal_entry};
ghost use Rattle.law_examples.specs.RefusedLakes.{elsewhere, mail, one, two, like_id, protect_entry, branched_lake};
ghost use Rattle.law_examples.specs.RefusedLakes.{tagged_lake, expired_lake};

/// There is no such repository.
pub fn no_repository()
    ensures allowed { (cut : Cut) → Allows (fresh cut) seal_entry }
    ensures refused { (cut : Cut) → Allows (fresh cut) (entry_of (Seal elsewhere main seal.Commit)) → ⊥ }
{}

/// There is no such branch.
pub fn no_branch()
    ensures allowed { (cut : Cut) → Allows (fresh cut) seal_entry }
    ensures refused { (cut : Cut) → Allows (fresh cut) (entry_of (Seal quickstart mail seal.Commit)) → ⊥ }
{}

/// There is no such tag.
pub fn no_tag()
    ensures allowed { (cut : Cut) → Allows (tagged_lake cut) (entry_of (TagDelete quickstart one)) }
    ensures refused { (cut : Cut) → Allows (tagged_lake cut) (entry_of (TagDelete quickstart two)) → ⊥ }
{}

/// There is no such commit: a branch and a tag may be made at the first one alone.
pub fn no_commit()
    ensures allowed_branch { (cut : Cut) → Allows (fresh cut) (entry_of (BranchCreate quickstart mail (first cut))) }
    ensures refused_branch { (cut : Cut) (id : Digest) → (first cut ≡ id → ⊥)
        → Allows (fresh cut) (entry_of (BranchCreate quickstart mail id)) → ⊥ }
    ensures allowed_tag { (cut : Cut) → Allows (fresh cut) (entry_of (TagCreate quickstart one (first cut))) }
    ensures refused_tag { (cut : Cut) (id : Digest) → (first cut ≡ id → ⊥)
        → Allows (fresh cut) (entry_of (TagCreate quickstart one id)) → ⊥ }
{}

/// The commit is expired. (In a lake where it isn't, the same entries are allowed: `no_commit`.)
pub fn expired_commit()
    ensures refused_branch { (cut : Cut)
        → Allows (expired_lake cut) (entry_of (BranchCreate quickstart mail (first cut))) → ⊥ }
    ensures refused_tag { (cut : Cut)
        → Allows (expired_lake cut) (entry_of (TagCreate quickstart one (first cut))) → ⊥ }
{}

/// The name stands already. Of a new repository the premise is that no file of its first commit shares its name with
/// other bytes.
pub fn name_that_stands()
    ensures allowed_repository { (cut : Cut) → IsAdmissible (fresh cut) (bare_repository 0 main) (first_draft 0)
        → Allows (fresh cut) (entry_of (RepoCreate elsewhere main 0)) }
    ensures refused_repository { (cut : Cut) → Allows (fresh cut) (entry_of (RepoCreate quickstart main 0)) → ⊥ }
    ensures allowed_branch { (cut : Cut) → Allows (fresh cut) (entry_of (BranchCreate quickstart mail (first cut))) }
    ensures refused_branch { (cut : Cut)
        → Allows (fresh cut) (entry_of (BranchCreate quickstart main (first cut))) → ⊥ }
    ensures allowed_tag { (cut : Cut) → Allows (tagged_lake cut) (entry_of (TagCreate quickstart two (first cut))) }
    ensures refused_tag { (cut : Cut) → Allows (tagged_lake cut) (entry_of (TagCreate quickstart one (first cut))) → ⊥ }
{}

/// The name is like an id: 64 hex digits. (Another name is allowed: `name_that_stands`.)
pub fn name_like_an_id()
    ensures refused_repository { (cut : Cut) → Allows (fresh cut) (entry_of (RepoCreate elsewhere like_id 0)) → ⊥ }
    ensures refused_branch { (cut : Cut)
        → Allows (fresh cut) (entry_of (BranchCreate quickstart like_id (first cut))) → ⊥ }
    ensures refused_tag { (cut : Cut) → Allows (fresh cut) (entry_of (TagCreate quickstart like_id (first cut))) → ⊥ }
{}

/// The default branch doesn't go, and neither does a protected one.
pub fn branch_that_stays()
    ensures allowed { (cut : Cut) → Allows (branched_lake cut) (entry_of (BranchDelete quickstart mail)) }
    ensures default { (cut : Cut) → Allows (branched_lake cut) (entry_of (BranchDelete quickstart main)) → ⊥ }
    ensures protected { (cut : Cut)
        → Allows (after (branched_lake cut) protect_entry) (entry_of (BranchDelete quickstart mail)) → ⊥ }
{}
