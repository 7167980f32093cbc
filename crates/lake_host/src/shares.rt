//! How connections are dealt out to workers.
ghost use Rattle.std.specs.Prelude.{◌≡◌, ◌<◌};
ghost use Rattle.lake_host.specs.Shares.{share_of};

/// How many of all connections the worker of a number is to serve, of so many workers: as many as the others, and the
/// first ones one more, where they can't be parted evenly.
pub fn share_of(connections: Option<u64>, workers: u64, number: u64) -> Option<u64>
    requires { 0 < workers }
    ensures { result ≡ share_of connections workers number }
{
    match connections {
        Some(all) => Some(share(all, workers, number)),
        None => None,
    }
}

// The share of one of so many workers.
fn share(all: u64, workers: u64, number: u64) -> u64
    requires { 0 < workers }
    ensures { Some result ≡ share_of (Some all) workers number }
{
    let each = all / workers;
    if number < all % workers {
        each + 1
    } else {
        each
    }
}
