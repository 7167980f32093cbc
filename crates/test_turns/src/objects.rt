//! A block store: what was put is got, and what was removed is missed; in memory it fails where it is told to.

use block_store::{BlockFail, Blocks, MemoryBlocks, SureBlocks};
use lake_base::Trouble;
use std::alloc::Global;
use std::test::Fail;

// Puts, puts over it, and gets; the store may have come from another thread.
fn second_body<B: Blocks + Send>(blocks: &mut B) -> Result<Option<Vec<u8>>, Trouble> {
    blocks.put(7, &[1, 2])?;
    blocks.put(3, &[4])?;
    blocks.put(7, &[5])?;
    blocks.get(7)
}

#[test]
fn a_store_gives_what_was_put(rt: HostRuntime) -> Result<(), Fail> {
    let mut blocks = SureBlocks::new(rt.alloc());
    let body = second_body(&mut blocks).ok().ok_or("no memory")?;
    let body = body.ok_or("it isn't held")?;
    assert_eq!(rt; body.as_slice(), [5].as_slice());
    let numbers = blocks.list().ok().ok_or("no memory")?;
    assert_eq!(rt; numbers.as_slice(), [3, 7].as_slice());
    assert_eq!(rt; blocks.remove(7), Ok(true));
    assert_eq!(rt; blocks.remove(7), Ok(false));
    let missed = blocks.get(7).ok().ok_or("no memory")?;
    assert!(rt; missed.is_none());
    Ok(())
}

#[derive(Clone, Copy)]
enum Call {
    // A letter under a number.
    Put(u64, u8),
    Get(u64),
    Remove(u64),
    // The numbers are 1 and 2.
    List,
}

// What the store answers to a call.
fn told(alloc: Global, blocks: &mut MemoryBlocks, call: Call) -> Result<String, Trouble> {
    let mut words = String::new(alloc);
    match call {
        Call::Put(number, letter) => {
            blocks.put(number, &[letter])?;
            words.push_str("put")?;
        }
        Call::Get(number) => match blocks.get(number)? {
            Some(bytes) => {
                for byte in bytes.as_slice() {
                    words.push(char::from(*byte))?;
                }
            }
            None => words.push_str("missed")?,
        },
        Call::Remove(number) => {
            let word = if blocks.remove(number)? {
                "removed"
            } else {
                "none"
            };
            words.push_str(word)?;
        }
        Call::List => {
            for number in blocks.list()?.as_slice() {
                words.push(if *number == 1 { '1' } else { '2' })?;
            }
        }
    }
    Ok(words)
}

static FAILS: [BlockFail; 6] = [
    BlockFail::Put {
        call: 2,
        lands: false,
    },
    BlockFail::Put {
        call: 3,
        lands: true,
    },
    BlockFail::Get(2),
    BlockFail::Remove {
        call: 2,
        lands: false,
    },
    BlockFail::Remove {
        call: 3,
        lands: true,
    },
    BlockFail::List(2),
];

// Calls, and what is answered to them by a store with these failures.
static CALLS: [(Call, &str); 17] = [
    (Call::Put(1, b'a'), "put"),
    (Call::Put(1, b'b'), "failed"),
    (Call::Get(1), "missed"),
    (Call::Put(1, b'c'), "failed"),
    (Call::Get(1), "failed"),
    (Call::Get(1), "c"),
    (Call::Put(2, b'd'), "put"),
    (Call::List, "12"),
    (Call::List, "failed"),
    (Call::List, "12"),
    (Call::Remove(2), "removed"),
    (Call::Remove(1), "failed"),
    (Call::Get(1), "c"),
    (Call::Remove(1), "failed"),
    (Call::Get(1), "missed"),
    (Call::Remove(1), "none"),
    (Call::List, ""),
];

#[test]
fn a_store_fails_where_it_is_told(rt: HostRuntime) -> Result<(), Fail> {
    let alloc = rt.alloc();
    let fails = Vec::from_slice(alloc, &FAILS)?;
    let mut blocks = MemoryBlocks::new(alloc, fails);
    for (call, due) in &CALLS {
        match told(alloc, &mut blocks, *call) {
            Ok(words) => assert_eq!(rt; words.as_str(), *due),
            Err(Trouble::Failed) => assert_eq!(rt; "failed", *due),
            Err(Trouble::NoMemory) => return Err("no memory")?,
        }
    }
    Ok(())
}
