//! What two runs of one batch have in common, and two of the generator.
ghost use Rattle.std.specs.Prelude.{List, ℕ};
ghost use Rattle.batch_lines.specs.declared.status.ExitStatus.{ExitStatus as AnyStatus};
ghost use Rattle.folder_batch.specs.BatchWords.{BatchView};
ghost use Rattle.program_words.specs.declared.batch.Timing.{Timing};
ghost use Rattle.program_words.specs.declared.generator.Generator.{Generator as AnyGenerator};
ghost use Rattle.lake_program.specs.OneBatches.{AreOneBatch, IsRunTwice};
ghost use Rattle.lake_program.specs.OneGenerations.{HasOneText};
ghost use Rattle.lake_program.specs.Run.{IsBatchRun};

/// The output of a batch is one function of its lines, of the files and of its moment or the clock's readings: two runs
/// of one input in which nothing failed have the same output and status, the same files and lakes of the same history.
pub fn law_of_one_batch()
    ensures { (timing other_timing : Timing) (input written : List ℕ)
        (before after other_before other_after : BatchView) (status other_status : AnyStatus)
        (run : IsBatchRun timing input written before after status)
        (other : IsBatchRun other_timing input written other_before other_after other_status)
        → IsRunTwice timing other_timing input written before after other_before other_after status other_status
        run other
        → AreOneBatch timing other_timing input written before after other_before other_after status other_status
        run other }
{}

/// What the generator tells is one function of its number and its count of objects: two runs at whose lines memory never
/// ran out tell the same, where no two contents have one name.
pub fn law_of_one_generation()
    ensures { (asked : AnyGenerator) → HasOneText asked }
{}
