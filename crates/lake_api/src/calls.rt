//! A call is answered, whatever it is: by its step or by its flow.
ghost use Rattle.std.specs.Prelude.{◌≡◌};
ghost use Rattle.lake_calls.specs.declared.call.Call.TheVariants as any;
ghost use Rattle.call_heads.specs.AnswerWords.{IsCallAnswered, counted_between};

use block_store::Blocks;
use call_changes::{
    create_branch, create_repository, create_tag, delete_branch, delete_tag, set_hooks,
    set_protection,
};
use call_heads::{
    Answered, Client, LakeSeat, Pause, Shared, cherry_pick, commit, copy, delete, get_branch,
    get_commit, get_hooks, get_protection, get_tag, link, list_branches, list_objects,
    list_repositories, list_tags, log, merge, read, reset, revert, stat_object, upload,
};
use keeper::Keeper;
use lake_calls::{Call, HeadCall, NamingCall, ObjectCall, SettingCall};
use std::alloc::Global;
use std::sync::Wait;

/// Answers a call of a seat: it makes the call's course in the lake, by the client's store of objects, moment and
/// number.
/// What each refusal means, and when it comes, is the call's. Of the reply, its position and its edge the clause says
/// that the call was served so, whatever other seats do meanwhile. It waits.
pub fn answer<K: Keeper, B: Blocks, P: Pause, W: Wait>(
    rt: &W,
    alloc: Global,
    lake: &Shared<K>,
    seat: &mut LakeSeat,
    client: &mut Client<'_, '_, B, P>,
    call: &Call,
) -> Answered
    requires { seat.old.turn ≡ lake.now }
    ensures served { IsCallAnswered seat.old seat.new client.old.call (call.now) client.old.now
        (counted_between (B.faults client.old.blocks.now) (B.misses client.old.blocks.now)
        (B.faults client.new.blocks.now) (B.misses client.new.blocks.now) (B.missed client.new.blocks.now))
        (B.held client.old.blocks.now) (B.held client.new.blocks.now) result }
    ensures blocks { client.new.blocks.ghost_name ≡ client.old.blocks.ghost_name }
    ensures pause { client.new.pause.ghost_name ≡ client.old.pause.ghost_name }
    ensures call { (client.new.call ≡ client.old.call) × (client.new.now ≡ client.old.now) }
{
    match call {
        Call::Names(call) => answer_naming(rt, alloc, lake, seat, client, call),
        Call::Objects(call) => answer_object(rt, alloc, lake, seat, client, call),
        Call::Heads(call) => answer_head(rt, alloc, lake, seat, client, call),
        Call::Settings(call) => answer_setting(rt, alloc, lake, seat, client, call),
    }
}

// A call of repositories, branches or tags.
fn answer_naming<K: Keeper, B: Blocks, P: Pause, W: Wait>(
    rt: &W,
    alloc: Global,
    lake: &Shared<K>,
    seat: &mut LakeSeat,
    client: &mut Client<'_, '_, B, P>,
    call: &NamingCall,
) -> Answered
    requires { seat.old.turn ≡ lake.now }
    ensures served { IsCallAnswered seat.old seat.new client.old.call (any.Names call.now) client.old.now
        (counted_between (B.faults client.old.blocks.now) (B.misses client.old.blocks.now)
        (B.faults client.new.blocks.now) (B.misses client.new.blocks.now) (B.missed client.new.blocks.now))
        (B.held client.old.blocks.now) (B.held client.new.blocks.now) result }
    ensures blocks { client.new.blocks.ghost_name ≡ client.old.blocks.ghost_name }
    ensures pause { client.new.pause.ghost_name ≡ client.old.pause.ghost_name }
    ensures call { (client.new.call ≡ client.old.call) × (client.new.now ≡ client.old.now) }
{
    let number = client.call;
    match call {
        NamingCall::ListRepositories { after, amount } => {
            list_repositories(rt, lake, seat, after, *amount)
        }
        NamingCall::CreateRepository(call) => {
            create_repository(rt, alloc, lake, seat, number, client.now, call)
        }
        NamingCall::ListBranches(call) => list_branches(rt, alloc, lake, seat, call),
        NamingCall::CreateBranch(call) => create_branch(rt, alloc, lake, seat, number, call),
        NamingCall::GetBranch(call) => get_branch(rt, alloc, lake, seat, call),
        NamingCall::DeleteBranch(call) => delete_branch(rt, alloc, lake, seat, number, call),
        NamingCall::ResetBranch(call) => reset(rt, alloc, lake, seat, client, call),
        NamingCall::ListTags(call) => list_tags(rt, alloc, lake, seat, call),
        NamingCall::CreateTag(call) => create_tag(rt, alloc, lake, seat, number, call),
        NamingCall::GetTag(call) => get_tag(rt, alloc, lake, seat, call),
        NamingCall::DeleteTag(call) => delete_tag(rt, alloc, lake, seat, number, call),
    }
}

// A call of objects.
fn answer_object<K: Keeper, B: Blocks, P: Pause, W: Wait>(
    rt: &W,
    alloc: Global,
    lake: &Shared<K>,
    seat: &mut LakeSeat,
    client: &mut Client<'_, '_, B, P>,
    call: &ObjectCall,
) -> Answered
    requires { seat.old.turn ≡ lake.now }
    ensures served { IsCallAnswered seat.old seat.new client.old.call (any.Objects call.now) client.old.now
        (counted_between (B.faults client.old.blocks.now) (B.misses client.old.blocks.now)
        (B.faults client.new.blocks.now) (B.misses client.new.blocks.now) (B.missed client.new.blocks.now))
        (B.held client.old.blocks.now) (B.held client.new.blocks.now) result }
    ensures blocks { client.new.blocks.ghost_name ≡ client.old.blocks.ghost_name }
    ensures pause { client.new.pause.ghost_name ≡ client.old.pause.ghost_name }
    ensures call { (client.new.call ≡ client.old.call) × (client.new.now ≡ client.old.now) }
{
    match call {
        ObjectCall::Upload(call) => upload(rt, alloc, lake, seat, client, call),
        ObjectCall::Link(call) => link(rt, alloc, lake, seat, client, call),
        ObjectCall::Delete(call) => delete(rt, alloc, lake, seat, client, call),
        ObjectCall::Copy(call) => copy(rt, alloc, lake, seat, client, call),
        ObjectCall::Read(call) => read(rt, alloc, lake, seat, client, call),
        ObjectCall::Stat(call) => stat_object(rt, alloc, lake, seat, call),
        ObjectCall::List(call) => list_objects(rt, alloc, lake, seat, call),
    }
}

// A call of commits.
fn answer_head<K: Keeper, B: Blocks, P: Pause, W: Wait>(
    rt: &W,
    alloc: Global,
    lake: &Shared<K>,
    seat: &mut LakeSeat,
    client: &mut Client<'_, '_, B, P>,
    call: &HeadCall,
) -> Answered
    requires { seat.old.turn ≡ lake.now }
    ensures served { IsCallAnswered seat.old seat.new client.old.call (any.Heads call.now) client.old.now
        (counted_between (B.faults client.old.blocks.now) (B.misses client.old.blocks.now)
        (B.faults client.new.blocks.now) (B.misses client.new.blocks.now) (B.missed client.new.blocks.now))
        (B.held client.old.blocks.now) (B.held client.new.blocks.now) result }
    ensures blocks { client.new.blocks.ghost_name ≡ client.old.blocks.ghost_name }
    ensures pause { client.new.pause.ghost_name ≡ client.old.pause.ghost_name }
    ensures call { (client.new.call ≡ client.old.call) × (client.new.now ≡ client.old.now) }
{
    match call {
        HeadCall::Commit(call) => commit(rt, alloc, lake, seat, client, call),
        HeadCall::Merge(call) => merge(rt, alloc, lake, seat, client, call),
        HeadCall::Revert(call) => revert(rt, alloc, lake, seat, client, call),
        HeadCall::CherryPick(call) => cherry_pick(rt, alloc, lake, seat, client, call),
        HeadCall::Log(call) => log(rt, alloc, lake, seat, call),
        HeadCall::GetCommit { repo, id } => get_commit(rt, alloc, lake, seat, repo, id),
    }
}

// A call of settings.
fn answer_setting<K: Keeper, B: Blocks, P: Pause, W: Wait>(
    rt: &W,
    alloc: Global,
    lake: &Shared<K>,
    seat: &mut LakeSeat,
    client: &mut Client<'_, '_, B, P>,
    call: &SettingCall,
) -> Answered
    requires { seat.old.turn ≡ lake.now }
    ensures served { IsCallAnswered seat.old seat.new client.old.call (any.Settings call.now) client.old.now
        (counted_between (B.faults client.old.blocks.now) (B.misses client.old.blocks.now)
        (B.faults client.new.blocks.now) (B.misses client.new.blocks.now) (B.missed client.new.blocks.now))
        (B.held client.old.blocks.now) (B.held client.new.blocks.now) result }
    ensures blocks { client.new.blocks.ghost_name ≡ client.old.blocks.ghost_name }
    ensures pause { client.new.pause.ghost_name ≡ client.old.pause.ghost_name }
    ensures call { (client.new.call ≡ client.old.call) × (client.new.now ≡ client.old.now) }
{
    let number = client.call;
    match call {
        SettingCall::GetProtection(repo) => get_protection(rt, alloc, lake, seat, repo),
        SettingCall::SetProtection { repo, protection } => {
            set_protection(rt, alloc, lake, seat, number, repo, protection)
        }
        SettingCall::GetHooks(repo) => get_hooks(rt, alloc, lake, seat, repo),
        SettingCall::SetHooks { repo, hooks } => {
            set_hooks(rt, alloc, lake, seat, number, repo, hooks)
        }
    }
}
