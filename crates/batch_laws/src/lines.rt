//! The same lines come to the same.
ghost use Rattle.std.specs.Prelude.{List, ℕ};
ghost use Rattle.lake_batch.specs.CommandWords.{CommandView, LineEnds};
ghost use Rattle.batch_lines.specs.ServedLines.{AreServed, LineEffect};
ghost use Rattle.lake_batch.specs.BatchViews.{BatchView};
ghost use Rattle.lake_batch.specs.Batches.{AreAtMoment, IsBegun, IsTimed};
ghost use Rattle.program_words.specs.declared.batch.Timing.{Timing};
ghost use Rattle.batch_laws.specs.LikeRuns.{IsOnlyRun, TookAlike};

/// The same lines that are served twice, each time on a fresh lake in memory, from the same files, and at one moment or
/// at the same readings of the clock, come to the same, where neither time anything failed, and where no two contents
/// have one name: each line to the same effect, and all of them to the same files and to the same history.
pub fn law_of_one_output()
    ensures { (timing : Timing) (lines : List (List ℕ)) (before after : BatchView) (begin : CommandView)
        (effects : List LineEffect) (end : CommandView) (run : AreServed LineEnds lines begin effects end)
        → IsBegun before begin → IsTimed timing before after begin end
        → IsOnlyRun timing lines before begin effects end run }
{}

/// Two runs whose requests were all made at one moment took the same readings of the clock, as far as both took any,
/// and both tell which.
pub fn law_of_one_moment()
    ensures { (moment : ℕ) (begin end other_begin other_end : CommandView)
        → AreAtMoment moment begin end → AreAtMoment moment other_begin other_end
        → TookAlike begin end other_begin other_end }
{}
