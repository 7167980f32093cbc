//! What a flow answers.
ghost use Rattle.std.specs.Prelude.{◌≡◌, ◌==◌, if◌then◌else◌};

/// What a flow answers: what came of it, the position of that in the history, and the edge of the call, the greater of
/// the position and the place of the call's last own entry.
#[derive(Debug, Drop)]
pub struct FlowAnswer<T, E> {
    pub outcome: Result<T, E>,
    pub position: u64,
    pub edge: u64,
}

/// The version that the first of a flow's tries found, where so many had found another before this one did. It takes no
/// memory.
pub fn first_found(changed: u32, first: u64, version: u64) -> u64
    ensures { result ≡ (if changed == 0 then version else first) }
{
    if changed == 0 { version } else { first }
}
