//! The lines of the generator are served one after the other, and what was done is counted.
ghost use Rattle.std.specs.Prelude.{◌≡◌, ◌==◌, ◌||◌, ◌%◌, ◌+◌, ◌≤◌, ◌<◌, ◌^◌, ◌++◌, ◌∷◌};
ghost use Rattle.std.specs.Prelude.{[], ℕ, List, Ok, Err, IfOk, if◌then◌else◌};
ghost use Rattle.std.specs.Str.{bytes_eq};
ghost use Rattle.batch_lines.specs.ServedLines.{effect_of};
ghost use Rattle.lake_generator.specs.Counting.{no_changes_text};
ghost use Rattle.lake_generator.specs.GeneratedLines.{commit_lines, commits_at, generated_lines, lines_to, upload_line};
ghost use Rattle.lake_generator.specs.Serving.{Goes, HasServed, MakesHead, ServesOne, Tells};

use crate::lines::{begin_line, commit_line, merge_line, next, upload_line};
use batch_lines::{ExitStatus, LineServer};
use lake_base::{NoMemory, Trouble};
use lakectl_shown::Shown;
use program_words::Generator;
use std::alloc::Global;

/// How many uploads were done, and how many commits and merges.
#[derive(Clone, Copy, Debug)]
pub(crate) struct Counts {
    pub uploads: u64,
    pub heads: u64,
}

// What a commit or a merge shows that found no changes.
const NO_CHANGES: &[u8] = b"Error: no changes [400]\n";

// Whether two texts are the same.
fn are_same(text: &[u8], other: &[u8]) -> bool
    ensures { result ≡ bytes_eq text.now other.now }
{
    text == other
}

// Whether what is shown says so.
fn found_no_changes(shown: &Shown) -> bool
    ensures { result ≡ bytes_eq (shown.now.out ++ shown.now.err) no_changes_text }
{
    match NO_CHANGES.strip_prefix(shown.out.as_slice()) {
        Some(rest) => are_same(rest, shown.err.as_slice()),
        None => false,
    }
}

// What is told of what a line showed: whether it was done, where it didn't fail.
fn told_of_shown(shown: &Shown) -> Result<bool, ExitStatus>
    ensures { Tells (effect_of (Ok shown.now)) result }
{
    if shown.status == 0 {
        Ok(true)
    } else if found_no_changes(shown) {
        Ok(false)
    } else if shown.status == 7 {
        Err(ExitStatus::OutOfMemory)
    } else {
        Err(ExitStatus::Refused)
    }
}

// What is told of what was answered to a line.
fn told(reply: Result<Shown, Trouble>) -> Result<bool, ExitStatus>
    ensures { Tells (effect_of reply) result }
{
    match reply {
        Ok(shown) => told_of_shown(&shown),
        Err(Trouble::NoMemory) => Err(ExitStatus::OutOfMemory),
        Err(Trouble::Failed) => Err(ExitStatus::Refused),
    }
}

// Serves a line, for which memory may have run out. (So it may have behind its words, before anything is sent.)
fn serve<L: LineServer>(lines: &mut L, line: Result<Vec<u8>, NoMemory>) -> Result<bool, ExitStatus>
    requires ready { L.ready lines.old }
    requires starves { (text : List ℕ) (server : L) → L.serves text server server (Err Trouble.NoMemory) }
    ensures serves { (text : List ℕ) → IfOk line (λ made. made.items ≡ text)
        → ServesOne L.serves text lines.old lines.new result }
    ensures ready { L.ready lines.new }
{
    match line {
        Ok(line) => told(lines.serve(line.as_slice())),
        Err(_) => Err(ExitStatus::OutOfMemory),
    }
}

// One more, where it was done.
fn count_with(count: u64, done: bool) -> u64
    requires { count < 2 ^ 63 }
    ensures { result ≡ count + (if done then 1 else 0) }
{
    if done { count + 1 } else { count }
}

// Uploads a number.
fn upload<L: LineServer>(
    alloc: Global,
    lines: &mut L,
    counts: Counts,
    number: u64,
) -> Result<Counts, ExitStatus>
    requires ready { L.ready lines.old }
    requires starves { (text : List ℕ) (server : L) → L.serves text server server (Err Trouble.NoMemory) }
    requires few { counts.uploads < 2 ^ 63 }
    ensures goes { (first : L) (before : List (List ℕ)) → HasServed L.serves first before counts lines.old
        → Goes L.serves first (before ++ upload_line number ∷ []) result lines.new }
    ensures ready { L.ready lines.new }
    ensures uploads { IfOk result (λ now. now.uploads ≤ counts.uploads + 1) }
    ensures heads { IfOk result (λ now. now.heads ≡ counts.heads) }
{
    match serve(lines, upload_line(alloc, number)) {
        Ok(done) => Ok(Counts {
            uploads: count_with(counts.uploads, done),
            heads: counts.heads,
        }),
        Err(status) => Err(status),
    }
}

// Serves a line that makes a commit or a merge.
fn make_head<L: LineServer>(
    lines: &mut L,
    counts: Counts,
    line: Result<Vec<u8>, NoMemory>,
) -> Result<Counts, ExitStatus>
    requires ready { L.ready lines.old }
    requires starves { (text : List ℕ) (server : L) → L.serves text server server (Err Trouble.NoMemory) }
    requires few { counts.heads < 2 ^ 63 }
    ensures goes { (first : L) (before : List (List ℕ)) (text : List ℕ) → MakesHead text
        → IfOk line (λ made. made.items ≡ text) → HasServed L.serves first before counts lines.old
        → Goes L.serves first (before ++ text ∷ []) result lines.new }
    ensures ready { L.ready lines.new }
    ensures uploads { IfOk result (λ now. now.uploads ≡ counts.uploads) }
    ensures heads { IfOk result (λ now. now.heads ≤ counts.heads + 1) }
{
    match serve(lines, line) {
        Ok(done) => Ok(Counts {
            uploads: counts.uploads,
            heads: count_with(counts.heads, done),
        }),
        Err(status) => Err(status),
    }
}

// Commits both branches behind the upload at a place.
fn commit_both<L: LineServer>(
    alloc: Global,
    lines: &mut L,
    counts: Counts,
    at: u32,
) -> Result<Counts, ExitStatus>
    requires ready { L.ready lines.old }
    requires starves { (text : List ℕ) (server : L) → L.serves text server server (Err Trouble.NoMemory) }
    requires few { counts.heads < 2 ^ 62 }
    ensures goes { (first : L) (before : List (List ℕ)) → HasServed L.serves first before counts lines.old
        → Goes L.serves first (before ++ commits_at at) result lines.new }
    ensures ready { L.ready lines.new }
    ensures uploads { IfOk result (λ now. now.uploads ≡ counts.uploads) }
    ensures heads { IfOk result (λ now. now.heads ≤ counts.heads + 2) }
{
    match make_head(lines, counts, commit_line(alloc, b"main", at)) {
        Ok(counts) => make_head(lines, counts, commit_line(alloc, b"dev", at)),
        Err(status) => Err(status),
    }
}

// Whether commits are due behind the upload at a place: behind each thousandth, and behind the last.
fn is_due(objects: u32, at: u32) -> bool
    ensures { result ≡ (at % 1000 == 0 || at == objects) }
{
    at % 1_000 == 0 || at == objects
}

// The same where it is due.
fn commit_due<L: LineServer>(
    alloc: Global,
    lines: &mut L,
    counts: Counts,
    objects: u32,
    at: u32,
) -> Result<Counts, ExitStatus>
    requires ready { L.ready lines.old }
    requires starves { (text : List ℕ) (server : L) → L.serves text server server (Err Trouble.NoMemory) }
    requires few { counts.heads < 2 ^ 62 }
    ensures goes { (first : L) (before : List (List ℕ)) → HasServed L.serves first before counts lines.old
        → Goes L.serves first (before ++ commit_lines objects at) result lines.new }
    ensures ready { L.ready lines.new }
    ensures uploads { IfOk result (λ now. now.uploads ≡ counts.uploads) }
    ensures heads { IfOk result (λ now. now.heads ≤ counts.heads + 2) }
{
    if is_due(objects, at) {
        commit_both(alloc, lines, counts, at)
    } else {
        Ok(counts)
    }
}

// Uploads a number at a place, and commits where it is due.
fn step<L: LineServer>(
    alloc: Global,
    lines: &mut L,
    counts: Counts,
    objects: u32,
    at: u32,
    number: u64,
) -> Result<Counts, ExitStatus>
    requires ready { L.ready lines.old }
    requires starves { (text : List ℕ) (server : L) → L.serves text server server (Err Trouble.NoMemory) }
    requires few { (counts.uploads < 2 ^ 62) × (counts.heads < 2 ^ 62) }
    ensures goes { (first : L) (before : List (List ℕ)) → HasServed L.serves first before counts lines.old
        → Goes L.serves first (before ++ upload_line number ∷ commit_lines objects at) result lines.new }
    ensures ready { L.ready lines.new }
    ensures uploads { IfOk result (λ now. now.uploads ≤ counts.uploads + 1) }
    ensures heads { IfOk result (λ now. now.heads ≤ counts.heads + 2) }
{
    match upload(alloc, lines, counts, number) {
        Ok(counts) => commit_due(alloc, lines, counts, objects, at),
        Err(status) => Err(status),
    }
}

// Makes dev, so that objects can be uploaded to it.
fn begin<L: LineServer>(alloc: Global, lines: &mut L) -> Result<Counts, ExitStatus>
    requires ready { L.ready lines.old }
    requires starves { (text : List ℕ) (server : L) → L.serves text server server (Err Trouble.NoMemory) }
    ensures goes { (number objects : ℕ) → Goes L.serves lines.old (lines_to number objects 0) result lines.new }
    ensures ready { L.ready lines.new }
    ensures none { IfOk result (λ counts. counts ≡ record { uploads = 0; heads = 0 }) }
{
    match serve(lines, begin_line(alloc)) {
        Ok(_) => Ok(Counts {
            uploads: 0,
            heads: 0,
        }),
        Err(status) => Err(status),
    }
}

/// Serves the lines of the generator, up to one that fails: how much was done, or the status of the run.
pub(crate) fn serve_lines<L: LineServer>(
    alloc: Global,
    lines: &mut L,
    asked: Generator,
) -> Result<Counts, ExitStatus>
    requires ready { L.ready lines.old }
    requires starves { (text : List ℕ) (server : L) → L.serves text server server (Err Trouble.NoMemory) }
    ensures goes { Goes L.serves lines.old (generated_lines asked.number asked.objects) result lines.new }
    ensures ready { L.ready lines.new }
{
    let mut counts = match begin(alloc, lines) {
        Ok(counts) => counts,
        Err(status) => return Err(status),
    };
    let mut number = asked.number;
    let mut at: u32 = 0;
    while at < asked.objects {
        at += 1;
        number = next(number);
        counts = match step(alloc, lines, counts, asked.objects, at, number) {
            Ok(counts) => counts,
            Err(status) => return Err(status),
        };
    }
    make_head(lines, counts, merge_line(alloc))
}
