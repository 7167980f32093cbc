//! However the input of a session is cut, it writes the same.
ghost use Rattle.lake_session.specs.SessionViews.{SessionView};
ghost use Rattle.lake_session.specs.WholeSessions.{IsSession};
ghost use Rattle.lake_session.specs.declared.report.SessionReport.{SessionReport};
ghost use Rattle.seat_laws.specs.Clashes.{NoneClashes};
ghost use Rattle.session_laws.specs.LikeSessions.{AreOneSession, BeginAlike, HaveOneClock, WentWell, tolds};

/// Two sessions that begin alike, at the same readings of the clock, came to the same, where neither time anything
/// failed, and where no two contents have one name: however the bytes of their sources were cut as they were given,
/// both sinks got the same, both ended for the same reason, and both left the same history.
pub fn law_of_cut_sessions()
    ensures { (old now other other_now : SessionView) (report other_report : SessionReport)
        (one : IsSession old now report) (two : IsSession other other_now other_report)
        → BeginAlike old other → HaveOneClock old now other other_now → WentWell old now report one
        → WentWell other other_now other_report two → NoneClashes (tolds one.items) (tolds two.items)
        → AreOneSession old now report one other other_now other_report two }
{}
