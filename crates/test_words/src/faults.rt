//! What errors print.
use lake_base::NameFault;
use lake_format::{EntryFault, FieldFault};
use lake_values::PairsFault;
use std::alloc::Global;
use std::fmt::Display;
use std::process::Abort;
use std::test::Fail;

static NAMES: [(NameFault, &str); 6] = [
    (NameFault::Empty, "it is empty"),
    (NameFault::TooShort, "it is too short"),
    (NameFault::TooLong, "it is too long"),
    (NameFault::NotUtf8, "it is not UTF-8"),
    (NameFault::BadByte(7), "byte 7 may not stand there"),
    (NameFault::NoMemory, "out of memory"),
];

static PAIRS: [(PairsFault, &str); 4] = [
    (PairsFault::Key, "the key has no bytes or too many"),
    (PairsFault::Value, "the value is too long"),
    (PairsFault::Full, "there are 64 pairs"),
    (PairsFault::NoMemory, "out of memory"),
];

static FIELDS: [(FieldFault, &str); 3] = [
    (
        FieldFault::Short { left: 7 },
        "the input ends inside a field that begins 7 bytes before its end",
    ),
    (
        FieldFault::Bad { left: 7 },
        "a field that begins 7 bytes before the end is outside its limits",
    ),
    (FieldFault::NoMemory, "out of memory"),
];

static ENTRIES: [(EntryFault, &str); 3] = [
    (EntryFault::Short, "the input ends inside a field"),
    (EntryFault::Bad, "a field is outside its limits"),
    (EntryFault::NoMemory, "out of memory"),
];

fn are_printed<E: Display>(
    rt: &impl Abort,
    alloc: Global,
    rows: &[(E, &'static str)],
) -> Result<(), Fail> {
    for (fault, due) in rows {
        assert_eq!(rt; format!(in alloc; "{fault}")?.as_str(), *due);
    }
    Ok(())
}

#[test]
fn errors_print_what_is_wrong(rt: HostRuntime) -> Result<(), Fail> {
    are_printed(&rt, rt.alloc(), &NAMES)?;
    are_printed(&rt, rt.alloc(), &PAIRS)?;
    are_printed(&rt, rt.alloc(), &FIELDS)?;
    are_printed(&rt, rt.alloc(), &ENTRIES)
}
