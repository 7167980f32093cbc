//! What hands out connections.
ghost use Rattle.std.specs.Prelude.{◌≡◌, ◌++◌, ◌∷◌, [], ℕ, List, Option, Some, IfOk, IfSome, OnErr};
ghost use Rattle.lake_base.specs.Outside.{HasCause};
ghost use Rattle.http_wire.specs.Streams.{Streams};
ghost use Rattle.lake_server.specs.Connections.{IsOneOut, Returned};

use lake_base::{Failed, Sink, Source};
use lake_session::SessionReport;

/// What accepts connections, each a source of requests and a sink for the replies, and is given them back. It may tell
/// contracts which they were. It counts its faults.
pub trait Listen: Drop {
    /// Where the requests of a connection come from.
    type In: Source + Send;

    /// Where its replies go.
    type Out: Sink + Send;

    /// The connections that it handed out, in order, as they were then, where it tells them.
    ghost accepted: { Self → Option (List Streams) };

    /// The connections that it was given back, in order, where it tells them.
    ghost returned: { Self → Option (List Returned) };

    /// How often it has failed.
    ghost faults: { Self → ℕ };

    /// The next connection. It may wait for a client. A failed call hands out none.
    fn accept(&mut self) -> Result<(Self::In, Self::Out), Failed>
        ensures accepted { IfOk result (λ c. IfSome (accepted self.old)
            (λ before. accepted self.new ≡ Some (before ++ (record {
              unread = Self.In.left c.0;
              read_faults = Self.In.faults c.0;
              written = Self.Out.written c.1;
              write_faults = Self.Out.faults c.1;
            }) ∷ []))) }
        ensures none { OnErr result (accepted self.new ≡ accepted self.old) }
        ensures out { IfOk result (λ _. IsOneOut (accepted self.new) (returned self.new)) }
        ensures returned { returned self.new ≡ returned self.old }
        ensures cause { HasCause (faults self.old) (faults self.new) result };

    /// Takes back a connection that it handed out, with the report of its session. It takes no memory, and can't fail.
    fn done(&mut self, input: Self::In, output: Self::Out, report: SessionReport)
        requires out { IsOneOut (accepted self.old) (returned self.old) }
        ensures returned { IfSome (returned self.old) (λ before. returned self.new ≡ Some (before ++ (record {
          streams = record {
            unread = Self.In.left input;
            read_faults = Self.In.faults input;
            written = Self.Out.written output;
            write_faults = Self.Out.faults output;
          };
          report = report;
        }) ∷ [])) }
        ensures accepted { accepted self.new ≡ accepted self.old }
        ensures faults { faults self.new ≡ faults self.old };
}
