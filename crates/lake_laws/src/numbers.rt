//! How numbers of objects become live, and that a condemned number is named neither then nor later.
ghost use Rattle.std.specs.Prelude.{◌≡◌, ◌⊎◌, ◌++◌, ◌∷◌, List, ℕ};
ghost use Rattle.std.specs.List.{Contains};
ghost use Rattle.lake_model.specs.declared.history.By.{By};
ghost use Rattle.lake_model.specs.declared.history.HistoryEntry.{HistoryEntry};
ghost use Rattle.lake_model.specs.declared.history.Operation.TheVariants.{Condemn};
ghost use Rattle.lake_model.specs.State.{State};
ghost use Rattle.lake_model.specs.History.{Allows, IsLegal, accepted_entry, after, replay};
ghost use Rattle.lake_model.specs.Naming.{IsGarbage, IsNamed};
ghost use Rattle.lake_model.specs.Soundness.{IsSound};
ghost use Rattle.lake_laws.specs.LiveNumbers.{IsLive, IsStagedIn, StagesNumber};

/// In a sound lake a number that is live after a legal entry was live before, or the entry staged it. In a legal
/// history a number that is live at a later position was live at the earlier one, or an entry between staged it.
pub fn law_of_live_numbers()
    ensures after { (state : State) (entry : HistoryEntry) (number : ℕ)
        → IsSound state → Allows state entry → IsLive (after state entry) number
        → IsLive state number ⊎ StagesNumber number entry }
    ensures replay { (state : State) (seen history more : List HistoryEntry) (number : ℕ)
        → IsSound state → seen ≡ history ++ more → IsLegal state seen → IsLive (replay state seen) number
        → IsLive (replay state history) number ⊎ IsStagedIn more number }
{}

/// In a legal history a number on a list that is condemned is garbage before that entry, so it isn't named there. From
/// a sound state it is garbage after the entry and at every later position, so it isn't named there either.
pub fn law_of_condemned()
    ensures before { (state : State) (seen before later : List HistoryEntry) (by : By) (numbers : List ℕ) (number : ℕ)
        → seen ≡ before ++ accepted_entry by (Condemn numbers) ∷ later → IsLegal state seen → Contains numbers number
        → IsGarbage (replay state before) number }
    ensures unnamed { (state : State) (seen before later : List HistoryEntry) (by : By) (numbers : List ℕ) (number : ℕ)
        → seen ≡ before ++ accepted_entry by (Condemn numbers) ∷ later → IsLegal state seen → Contains numbers number
        → IsNamed (replay state before) number → ⊥ }
    ensures later { (state : State) (seen before between later : List HistoryEntry) (by : By) (numbers : List ℕ)
        (number : ℕ)
        → IsSound state → seen ≡ before ++ (accepted_entry by (Condemn numbers) ∷ (between ++ later))
        → IsLegal state seen → Contains numbers number
        → IsGarbage (replay state (before ++ accepted_entry by (Condemn numbers) ∷ between)) number }
    ensures unnamed_later { (state : State) (seen before between later : List HistoryEntry) (by : By)
        (numbers : List ℕ) (number : ℕ)
        → IsSound state → seen ≡ before ++ (accepted_entry by (Condemn numbers) ∷ (between ++ later))
        → IsLegal state seen → Contains numbers number
        → IsNamed (replay state (before ++ accepted_entry by (Condemn numbers) ∷ between)) number → ⊥ }
{}
