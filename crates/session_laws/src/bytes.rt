//! The bytes of the objects that a session is asked for are had.
ghost use Rattle.std.specs.Prelude.{All};
ghost use Rattle.lake_session.specs.SessionViews.{SessionView};
ghost use Rattle.lake_session.specs.WholeSessions.{IsSession};
ghost use Rattle.lake_session.specs.declared.report.SessionReport.{SessionReport};
ghost use Rattle.session_laws.specs.LikeSessions.{HasBytes, HoldsAll};

/// Who asked a session for an object's bytes isn't told that these weren't had, where its seat was alone, where the
/// store of objects tells what it holds, and this fits what the seat had seen, and where no commit of the lake is
/// expired.
pub fn law_of_bytes_had()
    ensures { (old now : SessionView) (report : SessionReport) (session : IsSession old now report)
        → HoldsAll old → All HasBytes session.items }
{}
