//! Batches: the source is read piece by piece and cut into lines, each of which is served.
ghost use Rattle.std.specs.Prelude.{◌≡◌, ◌+◌, ◌≤◌, ◌<◌, ◌^◌, ◌≢◌, ◌↔◌, ◌∷◌, []};
ghost use Rattle.std.specs.Prelude.{ℕ, List, Option, IfOk, IfErr, IfSome, OnErr, MatchResult};
ghost use Rattle.std.specs.Prelude.{length, nat_le, take};
ghost use Rattle.lake_base.specs.Outside.{HasCause, Reads, Rose};
ghost use Rattle.batch_lines.specs.ServedLines.{LineEffect};
ghost use Rattle.batch_lines.specs.Lines.{batch_lines, end_text};
ghost use Rattle.batch_lines.specs.Progress.{start};
ghost use Rattle.batch_lines.specs.Outcome.{Trace, Outcome};
ghost use Rattle.batch_lines.specs.Feeding.{HasServed, Feeds, ShowsLines};
ghost use Rattle.batch_lines.specs.ResultsView.{progress_of, state_of};
ghost use Rattle.batch_lines.specs.SourceReading.{NextPiece, Reaches, IsFed, Ends};

use crate::line_buffer::LineBuffer;
use crate::output::PendingOutput;
use crate::results::Results;
use crate::server::LineServer;
use crate::status::ExitStatus;
use crate::stop::{End, Stop};
use crate::texts::TOO_LONG;
use lake_base::{Failed, NoMemory, Sink, Source};
use std::alloc::Global;

/// A batch under way.
#[derive(Drop)]
pub struct Batch {
    pub line: LineBuffer,
    pub results: Results,
}

impl Batch {
    /// A batch of which nothing was read.
    pub fn new(alloc: Global) -> Result<Batch, NoMemory>
        ensures start { IfOk result
            (λ batch. (written : Option (List ℕ)) → progress_of batch.results written ≡ start written) }
        ensures line { IfOk result (λ batch. batch.line ≡ []) }
    {
        Ok(Batch {
            line: LineBuffer::new(alloc)?,
            results: Results::new(alloc)?,
        })
    }

    // Takes one byte of the source: a line feed ends a line, which is served.
    fn feed_byte<L: LineServer, W: Sink>(
        &mut self,
        lines: &mut L,
        sink: &mut W,
        byte: u8,
    ) -> Result<(), Stop>
        requires { L.ready lines.old }
        ensures feeds { (before : Trace L) (first : List LineEffect) (given : List ℕ)
            → HasServed L.serves before first given
            (state_of self.old.results lines.old (W.written sink.old)) self.old.line
            → Feeds L.serves before first given (byte ∷ [])
            (state_of self.new.results lines.new (W.written sink.new)) self.new.line result }
        ensures ready { L.ready lines.new }
        ensures sink { (W.faults sink.old ≤ W.faults sink.new)
            × IfErr result (λ stop. stop ≡ Stop.SinkFailed → Rose (W.faults sink.old) (W.faults sink.new)) }
        ensures host { (L.faults lines.old ≤ L.faults lines.new)
            × IfErr result (λ stop. stop ≡ Stop.HostFailed → Rose (L.faults lines.old) (L.faults lines.new)) }
    {
        if byte != b'\n' {
            self.line.push(byte);
            return Ok(());
        }
        let served = self.results.serve(lines, sink, self.line.ended());
        self.line.clear();
        served
    }

    /// Takes the next bytes of the source.
    pub fn feed<L: LineServer, W: Sink>(
        &mut self,
        lines: &mut L,
        sink: &mut W,
        chunk: &[u8],
    ) -> Result<(), Stop>
        requires { L.ready lines.old }
        ensures feeds { (before : Trace L) (first : List LineEffect) (given : List ℕ)
            → HasServed L.serves before first given
            (state_of self.old.results lines.old (W.written sink.old)) self.old.line
            → Feeds L.serves before first given chunk.now
            (state_of self.new.results lines.new (W.written sink.new)) self.new.line result }
        ensures ready { L.ready lines.new }
        ensures sink { (W.faults sink.old ≤ W.faults sink.new)
            × IfErr result (λ stop. stop ≡ Stop.SinkFailed → Rose (W.faults sink.old) (W.faults sink.new)) }
        ensures host { (L.faults lines.old ≤ L.faults lines.new)
            × IfErr result (λ stop. stop ≡ Stop.HostFailed → Rose (L.faults lines.old) (L.faults lines.new)) }
    {
        for byte in chunk {
            match self.feed_byte(lines, sink, *byte) {
                Ok(()) => {}
                Err(stop) => return Err(stop),
            }
        }
        Ok(())
    }

    // Feeds a piece behind so many bytes, or what of it the limit allows: how many were fed then, or how the reading
    // ended.
    fn feed_piece<L: LineServer, W: Sink>(
        &mut self,
        limit: u64,
        total: u64,
        lines: &mut L,
        sink: &mut W,
        piece: &[u8],
    ) -> Result<u64, End>
        requires within { (total ≤ limit) × (limit < 2 ^ 63) }
        requires ready { L.ready lines.old }
        ensures feeds { (before : Trace L) (most : ℕ) (input : List ℕ) (left : Option (List ℕ))
            → Reaches L.serves before most input left total piece.now
            (state_of self.old.results lines.old (W.written sink.old)) self.old.line
            → let now = state_of self.new.results lines.new (W.written sink.new) in MatchResult result
            (λ fed. Reaches L.serves before most input left fed [] now self.new.line)
            (λ end. Ends L.serves before most input left limit now self.new.line end) }
        ensures all { IfOk result (λ fed. (fed ≡ total + length piece.now) × (fed ≤ limit)) }
        ensures ready { L.ready lines.new }
        ensures source { IfErr result (λ end. end ≢ End.SourceFailed) }
        ensures sink { (W.faults sink.old ≤ W.faults sink.new) × IfErr result
            (λ end. end ≡ End.SinkFailed → Rose (W.faults sink.old) (W.faults sink.new)) }
        ensures host { (L.faults lines.old ≤ L.faults lines.new) × IfErr result
            (λ end. end ≡ End.HostFailed → Rose (L.faults lines.old) (L.faults lines.new)) }
    {
        let allowed = (limit - total) as usize;
        let (fed, _) = piece.split_at(piece.len().min(allowed));
        match self.feed(lines, sink, fed) {
            Ok(()) => {}
            Err(Stop::SinkFailed) => return Err(End::SinkFailed),
            Err(Stop::HostFailed) => return Err(End::HostFailed),
        }
        if fed.len() < piece.len() {
            return Err(End::TooLong);
        }
        Ok(total + fed.len() as u64)
    }

    /// Reads the source to its end, and serves the lines that end in the first `limit` bytes of it. What lines
    /// showed is written before more is read.
    pub fn read<L: LineServer, S: Source, W: Sink>(
        &mut self,
        limit: u64,
        lines: &mut L,
        source: &mut S,
        sink: &mut W,
        room: &mut [u8],
    ) -> End
        requires room { 0 < length room.old }
        requires limit { limit < 2 ^ 63 }
        requires start { progress_of self.old.results (W.written sink.old) ≡ start (W.written sink.old) }
        requires line { self.old.line ≡ [] }
        requires ready { L.ready lines.old }
        ensures ends { IfSome (S.left source.old) (λ input. Ends L.serves
            (record { server = lines.old; written = W.written sink.old; faults = W.faults sink.old })
            (length room.old) input (S.left source.new) limit
            (state_of self.new.results lines.new (W.written sink.new)) self.new.line result) }
        ensures ready { L.ready lines.new }
        ensures source { (S.faults source.old ≤ S.faults source.new)
            × (result ≡ End.SourceFailed → Rose (S.faults source.old) (S.faults source.new)) }
        ensures sink { (W.faults sink.old ≤ W.faults sink.new)
            × (result ≡ End.SinkFailed → Rose (W.faults sink.old) (W.faults sink.new)) }
        ensures host { (L.faults lines.old ≤ L.faults lines.new)
            × (result ≡ End.HostFailed → Rose (L.faults lines.old) (L.faults lines.new)) }
    {
        let mut total = 0;
        'reading: loop {
            let count = match next_piece(&mut self.results, source, sink, room) {
                Ok(count) => count,
                Err(end) => return end,
            };
            let (piece, _) = room.split_at(count);
            total = match self.feed_piece(limit, total, lines, sink, piece) {
                Ok(fed) => fed,
                Err(end) => return end,
            };
        }
    }

    // Shows what comes last: what the line comes to that nothing ends, where there is one, or that the batch isn't
    // within its limit.
    fn show_last<L: LineServer, W: Sink>(
        &mut self,
        within: bool,
        lines: &mut L,
        sink: &mut W,
    ) -> Result<(), Stop>
        requires { L.ready lines.old }
        ensures shows { (before : Trace L) (first : List LineEffect) (limit : ℕ) (input : List ℕ)
            → nat_le (length input) limit ≡ within → HasServed L.serves before first (take limit input)
            (state_of self.old.results lines.old (W.written sink.old)) self.old.line
            → ShowsLines L.serves before first (batch_lines limit input) (end_text limit input [])
            (state_of self.new.results lines.new (W.written sink.new)) result }
        ensures ready { L.ready lines.new }
        ensures sink { (W.faults sink.old ≤ W.faults sink.new)
            × IfErr result (λ stop. stop ≡ Stop.SinkFailed → Rose (W.faults sink.old) (W.faults sink.new)) }
        ensures host { (L.faults lines.old ≤ L.faults lines.new)
            × IfErr result (λ stop. stop ≡ Stop.HostFailed → Rose (L.faults lines.old) (L.faults lines.new)) }
    {
        if !within {
            return match self.results.output.show(sink, TOO_LONG) {
                Ok(()) => Ok(()),
                Err(_) => Err(Stop::SinkFailed),
            };
        }
        let line = self.line.as_slice();
        if line.is_empty() {
            return Ok(());
        }
        self.results.serve(lines, sink, line)
    }

    // Shows what comes last, writes what is pending, and answers the status.
    fn close<L: LineServer, W: Sink>(
        &mut self,
        within: bool,
        lines: &mut L,
        sink: &mut W,
    ) -> ExitStatus
        requires { L.ready lines.old }
        ensures outcome { (before : Trace L) (limit most : ℕ) (input : List ℕ) (left : Option (List ℕ))
            → nat_le (length input) limit ≡ within → before.faults ≤ W.faults sink.old
            → IsFed L.serves before most input left limit (take limit input)
            (state_of self.old.results lines.old (W.written sink.old)) self.old.line
            → Outcome L.serves limit most before
            (record { server = lines.new; written = W.written sink.new; faults = W.faults sink.new })
            input left result }
        ensures ready { L.ready lines.new }
        ensures sink { (W.faults sink.old ≤ W.faults sink.new)
            × (result ≡ ExitStatus.SinkFailed → Rose (W.faults sink.old) (W.faults sink.new)) }
        ensures host { (L.faults lines.old ≤ L.faults lines.new)
            × (result ≡ ExitStatus.HostFailed → Rose (L.faults lines.old) (L.faults lines.new)) }
        ensures statuses { (result ≢ ExitStatus.Usage) × (result ≢ ExitStatus.SourceFailed) }
        ensures pairs { result ≢ ExitStatus.PairsRefused }
    {
        match self.show_last(within, lines, sink) {
            Ok(()) => match self.results.output.flush(sink) {
                Ok(()) => self.results.status(within),
                Err(_) => ExitStatus::SinkFailed,
            },
            Err(Stop::SinkFailed) => ExitStatus::SinkFailed,
            Err(Stop::HostFailed) => {
                self.results.output.give_up(sink);
                ExitStatus::HostFailed
            }
        }
    }

    /// Ends a batch whose reading ended so: the line that nothing ends is served, or it is shown that the batch is
    /// too long, what is pending is written, and the status is answered.
    pub fn finish<L: LineServer, W: Sink>(
        &mut self,
        end: End,
        lines: &mut L,
        sink: &mut W,
    ) -> ExitStatus
        requires { L.ready lines.old }
        ensures outcome { (before : Trace L) (limit most : ℕ) (input : List ℕ) (left : Option (List ℕ))
            → before.faults ≤ W.faults sink.old → Ends L.serves before most input left limit
            (state_of self.old.results lines.old (W.written sink.old)) self.old.line end
            → Outcome L.serves limit most before
            (record { server = lines.new; written = W.written sink.new; faults = W.faults sink.new })
            input left result }
        ensures ready { L.ready lines.new }
        ensures source { (result ≡ ExitStatus.SourceFailed) ↔ (end ≡ End.SourceFailed) }
        ensures sink { (W.faults sink.old ≤ W.faults sink.new) × (result ≡ ExitStatus.SinkFailed
            → (end ≢ End.SinkFailed) → Rose (W.faults sink.old) (W.faults sink.new)) }
        ensures host { (L.faults lines.old ≤ L.faults lines.new) × (result ≡ ExitStatus.HostFailed
            → (end ≢ End.HostFailed) → Rose (L.faults lines.old) (L.faults lines.new)) }
        ensures statuses { result ≢ ExitStatus.Usage }
        ensures pairs { result ≢ ExitStatus.PairsRefused }
    {
        match end {
            End::Source => self.close(true, lines, sink),
            End::TooLong => self.close(false, lines, sink),
            End::SourceFailed => ExitStatus::SourceFailed,
            End::SinkFailed => ExitStatus::SinkFailed,
            End::HostFailed => {
                self.results.output.give_up(sink);
                ExitStatus::HostFailed
            }
        }
    }
}

// Writes what is pending, and reads the next piece: how many bytes it has, or how the reading ended.
fn next_piece<S: Source, W: Sink>(
    results: &mut Results,
    source: &mut S,
    sink: &mut W,
    room: &mut [u8],
) -> Result<usize, End>
    requires { 0 < length room.old }
    ensures reads { NextPiece
        (progress_of results.old (W.written sink.old)) (progress_of results.new (W.written sink.new))
        (S.left source.old) (S.left source.new) room.old room.new result }
    ensures within { IfOk result (λ count. count ≤ length room.old) }
    ensures some { IfOk result (λ count. 0 < count) }
    ensures source { (S.faults source.old ≤ S.faults source.new) × IfErr result
        (λ end. end ≡ End.SourceFailed → Rose (S.faults source.old) (S.faults source.new)) }
    ensures sink { (W.faults sink.old ≤ W.faults sink.new) × IfErr result
        (λ end. end ≡ End.SinkFailed → Rose (W.faults sink.old) (W.faults sink.new)) }
    ensures host { IfErr result (λ end. end ≢ End.HostFailed) }
{
    match results.output.flush(sink) {
        Ok(()) => {}
        Err(_) => return Err(End::SinkFailed),
    }
    match read_piece(source, room, &results.output) {
        Ok(0) => Err(End::Source),
        Ok(count) => Ok(count),
        Err(_) => Err(End::SourceFailed),
    }
}

// Reads a piece of the source. All that lines showed was written before, so that nobody waits for it while the source
// does.
fn read_piece<S: Source>(
    source: &mut S,
    room: &mut [u8],
    pending: &PendingOutput,
) -> Result<usize, Failed>
    requires { pending.now ≡ [] }
    ensures within { IfOk result (λ n. n ≤ length room.old) }
    ensures reads { IfOk result (λ n. IfSome (S.left source.old)
        (λ bytes. Reads bytes (S.left source.new) room.old room.new n)) }
    ensures failed { OnErr result (S.left source.new ≡ S.left source.old) }
    ensures cause { HasCause (S.faults source.old) (S.faults source.new) result }
{
    let _ = pending;
    source.read(room)
}
