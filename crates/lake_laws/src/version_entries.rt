//! Where a version differs between two positions of a history, an entry between them gave it.
ghost use Rattle.std.specs.Prelude.{◌≡◌, ◌≢◌, ◌≤◌, ◌+◌, ◌++◌, List, ℕ, Bool, length};
ghost use Rattle.lake_model.specs.declared.history.HistoryEntry.{HistoryEntry};
ghost use Rattle.lake_model.specs.Versions.{VersionsGiven, branch_version, count_versions, settings_version};
ghost use Rattle.lake_laws.specs.OtherSeats.{AreOfOtherSeats};
ghost use Rattle.lake_laws.specs.VersionGivers.{AreOthersBetween, EachFoundAnother, Try};
ghost use Rattle.lake_laws.specs.VersionGivers.{branch_and_settings, count_of, entries_of_tries, gives_branch};
ghost use Rattle.lake_laws.specs.VersionGivers.{gives_branch_or_settings, gives_settings, of_other_seat};
ghost use Rattle.lake_laws.specs.VersionGivers.{raises_references};

/// Where a branch has another version at a later position of a history, one of the entries between gave it a version.
/// So do the settings of a repository, a branch or its repository's settings where either has another version, and the
/// references.
pub fn law_of_version_entries()
    ensures branch { (given : VersionsGiven) (seen history more : List HistoryEntry) (repo branch : List ℕ)
        → seen ≡ history ++ more
        → branch_version (count_versions given seen) repo branch
        ≢ branch_version (count_versions given history) repo branch
        → 1 ≤ count_of (gives_branch repo branch) more }
    ensures settings { (given : VersionsGiven) (seen history more : List HistoryEntry) (repo : List ℕ)
        → seen ≡ history ++ more
        → settings_version (count_versions given seen) repo ≢ settings_version (count_versions given history) repo
        → 1 ≤ count_of (gives_settings repo) more }
    ensures branch_or_settings { (given : VersionsGiven) (seen history more : List HistoryEntry) (repo branch : List ℕ)
        → seen ≡ history ++ more
        → branch_and_settings repo branch (count_versions given seen)
        ≢ branch_and_settings repo branch (count_versions given history)
        → 1 ≤ count_of (gives_branch_or_settings repo branch) more }
    ensures references { (given : VersionsGiven) (seen history more : List HistoryEntry)
        → seen ≡ history ++ more
        → (count_versions given seen).references ≢ (count_versions given history).references
        → 1 ≤ count_of raises_references more }
{}

/// The versions after entries and more entries are those after the first, and then the others. As many pass a test
/// among both as among the one and among the other; and among entries of other seats all that pass are of other seats.
pub fn law_of_counted_entries()
    ensures versions { (given : VersionsGiven) (entries more : List HistoryEntry)
        → count_versions given (entries ++ more) ≡ count_versions (count_versions given entries) more }
    ensures sum { (test : HistoryEntry → Bool) (entries more : List HistoryEntry)
        → count_of test (entries ++ more) ≡ count_of test entries + count_of test more }
    ensures others { (seat : ℕ) (test : HistoryEntry → Bool) (entries : List HistoryEntry)
        → AreOfOtherSeats seat entries
        → count_of (of_other_seat seat test) entries ≡ count_of test entries }
{}

/// Where each of some tries found another version than its reading, there are at least as many entries that gave one:
/// of a branch, of it or its repository's settings, and of the references.
pub fn law_of_tries()
    ensures branch { (given : VersionsGiven) (tries : List Try) (repo branch : List ℕ)
        → EachFoundAnother (λ versions. branch_version versions repo branch) given tries
        → length tries ≤ count_of (gives_branch repo branch) (entries_of_tries tries) }
    ensures branch_or_settings { (given : VersionsGiven) (tries : List Try) (repo branch : List ℕ)
        → EachFoundAnother (branch_and_settings repo branch) given tries
        → length tries ≤ count_of (gives_branch_or_settings repo branch) (entries_of_tries tries) }
    ensures references { (given : VersionsGiven) (tries : List Try)
        → EachFoundAnother (λ versions. versions.references) given tries
        → length tries ≤ count_of raises_references (entries_of_tries tries) }
{}

/// Where only entries of other seats came between the reading and the step of each try, so many of those that gave a
/// version are of other seats.
pub fn law_of_tries_among_others()
    ensures branch { (given : VersionsGiven) (tries : List Try) (seat : ℕ) (repo branch : List ℕ)
        → AreOthersBetween seat tries
        → EachFoundAnother (λ versions. branch_version versions repo branch) given tries
        → length tries ≤ count_of (of_other_seat seat (gives_branch repo branch)) (entries_of_tries tries) }
    ensures branch_or_settings { (given : VersionsGiven) (tries : List Try) (seat : ℕ) (repo branch : List ℕ)
        → AreOthersBetween seat tries
        → EachFoundAnother (branch_and_settings repo branch) given tries
        → length tries ≤ count_of (of_other_seat seat (gives_branch_or_settings repo branch)) (entries_of_tries tries) }
    ensures references { (given : VersionsGiven) (tries : List Try) (seat : ℕ)
        → AreOthersBetween seat tries
        → EachFoundAnother (λ versions. versions.references) given tries
        → length tries ≤ count_of (of_other_seat seat raises_references) (entries_of_tries tries) }
{}
