//! How the lines of a batch went, and what they showed.
ghost use Rattle.std.specs.Prelude.{◌≡◌, ◌≤◌, ◌&&◌, Ok, IfOk, IfErr};
ghost use Rattle.std.specs.Prelude.{Option, List, ℕ};
ghost use Rattle.lake_base.specs.Outside.{HasCause, Rose};
ghost use Rattle.batch_lines.specs.ServedLines.{effect_of};
ghost use Rattle.batch_lines.specs.Progress.{start};
ghost use Rattle.batch_lines.specs.Serving.{Tells, ServesLine};
ghost use Rattle.batch_lines.specs.Status.{status_of};

use crate::output::PendingOutput;
use crate::server::LineServer;
use crate::status::ExitStatus;
use crate::stop::Stop;
use crate::texts::OUT_OF_MEMORY;
use lake_base::{NoMemory, Sink, Trouble};
use lakectl_shown::Shown;
use std::alloc::Global;

/// How the lines of a batch went so far, and what they showed and isn't written yet.
#[derive(Drop)]
pub struct Results {
    /// Whether each was done, or passed over.
    pub done: bool,
    /// Whether memory ran out at one.
    pub starved: bool,
    pub output: PendingOutput,
}

impl Results {
    ghost use Rattle.batch_lines.specs.ResultsView.{progress_of, state_of};

    /// The results of a batch of which no line was served.
    pub fn new(alloc: Global) -> Result<Results, NoMemory>
        ensures { IfOk result (λ results. (written : Option (List ℕ)) → progress_of results written ≡ start written) }
    {
        Ok(Results {
            done: true,
            starved: false,
            output: PendingOutput::new(alloc)?,
        })
    }

    /// The status of a batch of which all was served and written, and which was within its limit or not.
    pub fn status(&self, within: bool) -> ExitStatus
        ensures { result ≡ status_of self.now.starved (self.now.done && within) }
    {
        if self.starved {
            ExitStatus::OutOfMemory
        } else if self.done && within {
            ExitStatus::Done
        } else {
            ExitStatus::Refused
        }
    }

    /// Serves a line, and shows what it comes to.
    pub fn serve<L: LineServer, W: Sink>(
        &mut self,
        lines: &mut L,
        sink: &mut W,
        line: &[u8],
    ) -> Result<(), Stop>
        requires { L.ready lines.old }
        ensures serves { ServesLine L.serves (state_of self.old lines.old (W.written sink.old))
            (state_of self.new lines.new (W.written sink.new)) line.now result }
        ensures ready { L.ready lines.new }
        ensures sink { (W.faults sink.old ≤ W.faults sink.new)
            × IfErr result (λ stop. stop ≡ Stop.SinkFailed → Rose (W.faults sink.old) (W.faults sink.new)) }
        ensures host { (L.faults lines.old ≤ L.faults lines.new)
            × IfErr result (λ stop. stop ≡ Stop.HostFailed → Rose (L.faults lines.old) (L.faults lines.new)) }
    {
        let reply = lines.serve(line);
        self.tell(sink, reply)
    }

    // Shows what a line came to, unless the server failed.
    fn tell<W: Sink>(&mut self, sink: &mut W, reply: Result<Shown, Trouble>) -> Result<(), Stop>
        ensures tells { Tells (progress_of self.old (W.written sink.old)) (progress_of self.new (W.written sink.new))
            (effect_of reply) result }
        ensures sink { (W.faults sink.old ≤ W.faults sink.new)
            × IfErr result (λ stop. stop ≡ Stop.SinkFailed → Rose (W.faults sink.old) (W.faults sink.new)) }
        ensures host { IfErr result (λ stop. stop ≡ Stop.HostFailed → reply ≡ Err Trouble.Failed) }
    {
        match reply {
            Ok(shown) => self.show(sink, &shown),
            Err(Trouble::NoMemory) => self.show_starved(sink),
            Err(Trouble::Failed) => Err(Stop::HostFailed),
        }
    }

    // Shows a line that was served.
    fn show<W: Sink>(&mut self, sink: &mut W, shown: &Shown) -> Result<(), Stop>
        ensures tells { Tells (progress_of self.old (W.written sink.old)) (progress_of self.new (W.written sink.new))
            (effect_of (Ok shown.now)) result }
        ensures cause { HasCause (W.faults sink.old) (W.faults sink.new) result }
        ensures sink_only { IfErr result (λ stop. stop ≡ Stop.SinkFailed) }
    {
        self.done = self.done && shown.status == 0;
        self.starved = self.starved || shown.status == 7;
        match self
            .output
            .show_both(sink, shown.out.as_slice(), shown.err.as_slice())
        {
            Ok(()) => Ok(()),
            Err(_) => Err(Stop::SinkFailed),
        }
    }

    // Shows a line at which memory ran out.
    fn show_starved<W: Sink>(&mut self, sink: &mut W) -> Result<(), Stop>
        ensures tells { Tells (progress_of self.old (W.written sink.old)) (progress_of self.new (W.written sink.new))
            (effect_of (Err Trouble.NoMemory)) result }
        ensures cause { HasCause (W.faults sink.old) (W.faults sink.new) result }
        ensures sink_only { IfErr result (λ stop. stop ≡ Stop.SinkFailed) }
    {
        self.done = false;
        self.starved = true;
        match self.output.show(sink, OUT_OF_MEMORY) {
            Ok(()) => Ok(()),
            Err(_) => Err(Stop::SinkFailed),
        }
    }
}
