//! The full outer join of two lists whose paths ascend: one walk over both, path by path.
ghost use Rattle.std.specs.Prelude.{◌≡◌, ◌++◌, ℕ, List, Option, None, [], OnOk, IfOk, MatchOption, option_copied};
ghost use Rattle.std.specs.FinMap.{find};
ghost use Rattle.lake_values.specs.Join.{IsFront, rows_at};
ghost use Rattle.lake_values.specs.KeyMap.{HasPathKeys};
ghost use Rattle.lake_base.specs.Maps.{HasAscendingKeys, byte_order};

use lake_base::copying::TryCopy;
use lake_base::names::Path;
use lake_base::outside::NoMemory;
use std::alloc::Global;
use std::cmp::Ordering;

// What a join leaves at a path, from what the two lists have there.
pub(crate) trait Join {
    type Left;

    type Right;

    type Value: Drop;

    ghost value: { Option Self.Left → Option Self.Right → Option Self.Value };

    fn join(
        alloc: Global,
        left: Option<&Self::Left>,
        right: Option<&Self::Right>,
    ) -> Result<Option<Self::Value>, NoMemory>
        ensures { IfOk result (λ joined.
            joined ≡ value (option_copied left.entry) (option_copied right.entry)) };

    // Where neither list has the path, nothing is left.
    ghost nothing: { value None None ≡ None };
}

// The least path of two lists, what each has there, and what each has after it.
#[derive(Drop)]
struct Front<'a, A, B> {
    path: &'a Path,
    left: Option<&'a A>,
    right: Option<&'a B>,
    left_rest: &'a [(Path, A)],
    right_rest: &'a [(Path, B)],
}

// The front of two lists.
fn front_of<'a, A, B>(left: &'a [(Path, A)], right: &'a [(Path, B)]) -> Option<Front<'a, A, B>>
    requires left { HasAscendingKeys left.now }
    requires right { HasAscendingKeys right.now }
    ensures { MatchOption result ((left.now ≡ []) × (right.now ≡ [])) (λ front.
        IsFront left.now right.now front.path.now (option_copied front.left)
        (option_copied front.right) front.left_rest.now front.right_rest.now) }
{
    match (left, right) {
        ([], []) => None,
        ([item, ..], []) => Some(Front {
            path: &item.0,
            left: Some(&item.1),
            right: None,
            left_rest: &left[1..],
            right_rest: right,
        }),
        ([], [item, ..]) => Some(Front {
            path: &item.0,
            left: None,
            right: Some(&item.1),
            left_rest: left,
            right_rest: &right[1..],
        }),
        ([item, ..], [other, ..]) => match item.0.cmp(&other.0) {
            Ordering::Less => Some(Front {
                path: &item.0,
                left: Some(&item.1),
                right: None,
                left_rest: &left[1..],
                right_rest: right,
            }),
            Ordering::Equal => Some(Front {
                path: &item.0,
                left: Some(&item.1),
                right: Some(&other.1),
                left_rest: &left[1..],
                right_rest: &right[1..],
            }),
            Ordering::Greater => Some(Front {
                path: &other.0,
                left: None,
                right: Some(&other.1),
                left_rest: left,
                right_rest: &right[1..],
            }),
        },
    }
}

// Appends the value at the path, where there is one.
fn push<T: Drop>(
    alloc: Global,
    items: &mut Vec<(Path, T)>,
    path: &Path,
    value: Option<T>,
) -> Result<(), NoMemory>
    ensures pushed { OnOk result (items.new.items ≡ items.old.items ++ rows_at path.now value) }
    ensures paths { OnOk result (HasPathKeys (rows_at path.now value)) }
{
    if let Some(value) = value {
        items.push((path.copy(alloc)?, value))?;
    }
    Ok(())
}

// The join of two lists: each path of either, with what the join leaves there.
pub(crate) fn joined<J: Join>(
    alloc: Global,
    left: &[(Path, J::Left)],
    right: &[(Path, J::Right)],
) -> Result<Vec<(Path, J::Value)>, NoMemory>
    requires left { HasAscendingKeys left.now }
    requires right { HasAscendingKeys right.now }
    ensures ascend { IfOk result (λ items. HasAscendingKeys items.items) }
    ensures paths { IfOk result (λ items. HasPathKeys items.items) }
    ensures values { IfOk result (λ items. (path : List ℕ) → find byte_order path items.items
        ≡ J.value (find byte_order path left.now) (find byte_order path right.now)) }
{
    let mut items = Vec::new(alloc);
    let (mut left_rest, mut right_rest) = (left, right);
    while let Some(front) = front_of(left_rest, right_rest) {
        let value = J::join(alloc, front.left, front.right)?;
        push(alloc, &mut items, front.path, value)?;
        left_rest = front.left_rest;
        right_rest = front.right_rest;
    }
    Ok(items)
}

// An equal value, where there is one.
pub(crate) fn copy_of<T: TryCopy>(alloc: Global, value: Option<&T>) -> Result<Option<T>, NoMemory>
    ensures { IfOk result (λ copy. copy ≡ option_copied value.entry) }
{
    match value {
        Some(value) => Ok(Some(value.copy(alloc)?)),
        None => Ok(None),
    }
}
