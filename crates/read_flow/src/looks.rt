//! What stands at a path, and whether its bytes are to be got.
ghost use Rattle.std.specs.Prelude.{◌≡◌, Some, IsSome};
ghost use Rattle.lake_calls.specs.CallExceptions.{number_at};
ghost use Rattle.read_flow.specs.ObjectLooks.{HasLooked, digest_at, gettable, object_of};

use commit_graph::RefExpr;
use keeper::Keeper;
use lake_base::{Digest, Path, RepoName};
use lake_model::{Seen, StepFault};
use lake_values::{Entry, Place};
use shared_lake::{LakeSeat, Shared};
use std::sync::Wait;
use write_flow::FlowFault;

/// What is asked for: the object at a path of what an expression leads to.
#[derive(Clone, Copy)]
pub(crate) struct Wanted<'a> {
    pub(crate) repo: &'a RepoName,
    pub(crate) e: &'a RefExpr,
    pub(crate) path: &'a Path,
}

/// Looks once: the entry whose bytes are to be got, or why there is none.
pub(crate) fn look_for<K: Keeper, W: Wait>(
    rt: &W,
    lake: &Shared<K>,
    seat: &mut LakeSeat,
    wanted: &Wanted<'_>,
) -> Result<Entry, FlowFault>
    requires { seat.old.turn ≡ lake.now }
    ensures { HasLooked wanted.now.repo.now wanted.now.path.now wanted.now.e.now seat.old seat.new result }
{
    let looked = lake.look(rt, seat, wanted.repo, wanted.e, wanted.path);
    told_apart(looked)
}

// What a look told, told apart.
fn told_apart(looked: Result<Seen, StepFault>) -> Result<Entry, FlowFault>
    ensures { result ≡ object_of looked }
{
    match looked {
        Ok(seen) => {
            let Seen { found, gone, .. } = seen;
            match found {
                Some(entry) => own_alone(entry, gone),
                None => Err(FlowFault::NoPath),
            }
        }
        Err(fault) => Err(FlowFault::of_step(fault)),
    }
}

// An entry, unless it stands outside or its object is gone.
fn own_alone(entry: Entry, gone: bool) -> Result<Entry, FlowFault>
    ensures { result ≡ gettable entry.place entry gone }
{
    let Entry {
        place,
        size,
        mtime,
        content_type,
        metadata,
    } = entry;
    match place {
        Place::Own { number, digest } => {
            if gone {
                Err(FlowFault::Gone(number))
            } else {
                let place = Place::Own { number, digest };
                Ok(Entry {
                    place,
                    size,
                    mtime,
                    content_type,
                    metadata,
                })
            }
        }
        Place::External { at, .. } => Err(FlowFault::NotHeld(at)),
    }
}

/// The number of an own object.
pub(crate) fn number_of(entry: &Entry) -> u64
    requires { IsSome (number_at entry.now.place) }
    ensures { number_at entry.now.place ≡ Some result }
{
    match &entry.place {
        Place::Own { number, .. } => *number,
        Place::External { .. } => unreachable!(),
    }
}

/// The SHA-256 that an own object is named by.
pub(crate) fn digest_of(entry: &Entry) -> Digest
    requires { IsSome (number_at entry.now.place) }
    ensures { digest_at entry.now.place ≡ Some result }
{
    match &entry.place {
        Place::Own { digest, .. } => *digest,
        Place::External { .. } => unreachable!(),
    }
}
