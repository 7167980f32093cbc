//! Merges of one path: three entries or none, and what the branch has there afterwards, by each strategy.

use crate::flows::answers;
use std::alloc::Global;
use std::sync::Wait;
use std::test::Fail;

// What is asked to bring a branch from one entry at the path, by its size, to another one, and to commit that.
fn bring(asks: &mut String, branch: &str, from: &str, to: &str) -> Result<(), Fail> {
    if from == to {
        return Ok(());
    }
    if to == "-" {
        asks.push_str("delete ")?;
        asks.push_str(branch)?;
    } else {
        asks.push_str("link ")?;
        asks.push_str(branch)?;
        asks.push(' ')?;
        asks.push_str(to)?;
    }
    asks.push_str("\ncommit ")?;
    asks.push_str(branch)?;
    asks.push('\n')?;
    Ok(())
}

// What is asked to merge `dev` into `main`, on a lake where they have the second and the third of these entries over the
// first, and to tell then what `main` has. What `dev` commits goes by a size of its own: two branches that commit the same
// over the same head have one commit.
fn asks(alloc: Global, case: &str, merge: &str) -> Result<String, Fail> {
    let (base, sides) = case.split_once(' ').ok_or("three entries")?;
    let (source, dest) = sides.split_once(' ').ok_or("three entries")?;
    let mut asks = String::new(alloc);
    bring(&mut asks, "main", "-", base)?;
    asks.push_str("branch dev\n")?;
    if base != source {
        bring(&mut asks, "dev", base, "7")?;
        bring(&mut asks, "dev", "7", source)?;
    }
    bring(&mut asks, "main", base, dest)?;
    asks.push_str(merge)?;
    asks.push_str(" dev\ncopy a\n")?;
    Ok(asks)
}

// The rows but for the last one, and that.
fn last_of(rows: &str) -> (&str, &str) {
    rows.rsplit_once('\n').unwrap_or(("", rows))
}

// The first word of what a row is answered.
fn word_of(row: &str) -> &str {
    let (_, answer) = row.rsplit_once(" | ").unwrap_or(("", row));
    let (word, _) = answer.split_once(' ').unwrap_or((answer, ""));
    word
}

// The size in a word like `Some(9)`; `-` where there is none.
fn size_in(word: &str) -> &str {
    let (_, rest) = word.split_once('(').unwrap_or(("", "-"));
    let (size, _) = rest.split_once(')').unwrap_or((rest, ""));
    size
}

// The size of what `main` has at the path behind such a merge, or why it was refused.
fn merged<W: Wait>(rt: &W, alloc: Global, case: &str, merge: &str) -> Result<String, Fail> {
    let asked = asks(alloc, case, merge)?;
    let told = answers(rt, alloc, asked.as_str())?;
    let (front, has) = last_of(told.as_str().trim_end());
    let (_, merged) = last_of(front);
    let (merged, has) = (word_of(merged), word_of(has));
    if merged == "NoChanges" || merged == "Conflicts" {
        return Ok(String::from_str(alloc, merged)?);
    }
    Ok(String::from_str(alloc, size_in(has))?)
}

// The rows with what comes of each by the three strategies.
fn all_merged<W: Wait>(rt: &W, alloc: Global, rows: &str) -> Result<String, Fail> {
    let mut again = String::new(alloc);
    for row in rows.lines() {
        let (case, _) = row.split_once(" | ").ok_or("a row")?;
        again.push_str(case)?;
        for merge in ["merge", "merge-source", "merge-dest"] {
            again.push_str(" | ")?;
            again.push_str(merged(rt, alloc, case, merge)?.as_str())?;
        }
        again.push('\n')?;
    }
    Ok(again)
}

// The entries of the base, of the source and of the branch that is merged into, by their sizes; `-` is none. Then what
// that branch has where a conflict is refused, where the source wins, and where the branch does.
const MERGES: &str = "\
1 1 2 | NoChanges | NoChanges | NoChanges\n\
1 2 1 | 2 | 2 | 2\n\
1 - 1 | - | - | -\n\
1 2 2 | 2 | 2 | 2\n\
- 1 1 | 1 | 1 | 1\n\
1 2 3 | Conflicts | 2 | 3\n\
1 - 2 | Conflicts | - | 2\n\
- 1 2 | Conflicts | 1 | 2\n\
1 2 - | Conflicts | 2 | -\n\
";

#[test]
fn a_path_is_merged_by_its_three_entries(rt: HostRuntime) -> Result<(), Fail> {
    let again = all_merged(&rt, rt.alloc(), MERGES)?;
    assert_eq!(rt; again.as_str(), MERGES);
    Ok(())
}
