//! What serves the lines of a batch.
ghost use Rattle.std.specs.Prelude.{◌≡◌, ◌≤◌, ℕ, List};
ghost use Rattle.lake_base.specs.Outside.{Rose};
ghost use Rattle.batch_lines.specs.ServedLines.{LineReply, AreToldByFronts};

use lake_base::Trouble;
use lakectl_shown::Shown;

/// What serves the lines of a batch.
pub trait LineServer: Drop {
    /// Whether it may be called.
    ghost ready: { Self → Type 0 };

    /// What may be answered to a line, between what the server was and what it is then.
    ghost serves: { (line : List ℕ) → (old now : Self) → LineReply → Type 0 };

    /// How often a file or the machine has failed.
    ghost faults: { Self → ℕ };

    /// Serves a line, and answers what is shown of it. Refused where a file or the machine failed, or no memory was
    /// left.
    fn serve(&mut self, line: &[u8]) -> Result<Shown, Trouble>
        requires { ready self.old }
        ensures serves { serves line.now self.old self.new result }
        ensures ready { ready self.new }
        ensures cause { (faults self.old ≤ faults self.new)
            × (result ≡ Err Trouble.Failed → Rose (faults self.old) (faults self.new)) };

    /// A line of more than 65,536 bytes is told by any front of it that has more than so many: its server may be given
    /// that front. (A law.)
    ghost long_lines: { AreToldByFronts serves };
}
