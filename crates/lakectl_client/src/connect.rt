//! What gives connections to servers.
ghost use Rattle.std.specs.Prelude.{◌≡◌, ◌++◌, ◌∷◌, [], ℕ, List, Option, Some, IfOk, IfSome, OnErr};
ghost use Rattle.block_store.specs.Blocks.{FailsByFault};
ghost use Rattle.http_wire.specs.Streams.{Streams};
ghost use Rattle.lakectl_client.specs.Dialing.{Dialed, IsOneOpen};

use lake_base::{Sink, Source, Text, Trouble};

/// What connects to servers, each connection a sink of what is sent and a source of what comes back, and is given them
/// back. It may tell contracts which they were. It counts its failures.
pub trait Connect: Drop {
    /// What comes back over a connection.
    type In: Source;

    /// Where what is sent goes.
    type Out: Sink;

    /// The connections that it gave, in order, as they were then, where it tells them.
    ghost dialed: { Self → Option (List Dialed) };

    /// The streams of the connections that it was given back, in order, as they were then, where it tells them.
    ghost hung_up: { Self → Option (List Streams) };

    /// How often it has failed.
    ghost faults: { Self → ℕ };

    /// A connection to an address, which is a name or a number, a colon, and a port. A call that is Failed is counted.
    fn connect(&mut self, at: &Text) -> Result<(Self::In, Self::Out), Trouble>
        ensures dialed { IfOk result (λ c. IfSome (dialed self.old)
            (λ before. dialed self.new ≡ Some (before ++ (record {
              at = at.now;
              streams = record {
                unread = Self.In.left c.0;
                read_faults = Self.In.faults c.0;
                written = Self.Out.written c.1;
                write_faults = Self.Out.faults c.1;
              };
            }) ∷ []))) }
        ensures none { OnErr result (dialed self.new ≡ dialed self.old) }
        ensures open { IfOk result (λ _. IsOneOpen (dialed self.new) (hung_up self.new)) }
        ensures hung_up { hung_up self.new ≡ hung_up self.old }
        ensures cause { FailsByFault (faults self.old) (faults self.new) result };

    /// Takes back a connection that it gave. It takes no memory, and can't fail.
    fn hang_up(&mut self, input: Self::In, output: Self::Out)
        requires open { IsOneOpen (dialed self.old) (hung_up self.old) }
        ensures hung_up { IfSome (hung_up self.old) (λ before. hung_up self.new ≡ Some (before ++ (record {
          unread = Self.In.left input;
          read_faults = Self.In.faults input;
          written = Self.Out.written output;
          write_faults = Self.Out.faults output;
        }) ∷ [])) }
        ensures dialed { dialed self.new ≡ dialed self.old }
        ensures faults { faults self.new ≡ faults self.old };
}
