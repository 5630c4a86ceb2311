//! Want of memory.

use no_memory::NoMemory;
use std::alloc::{AllocError, AllocFailed, Global};
use std::test::Fail;

fn pair(alloc: Global) -> Result<Vec<u8>, NoMemory> {
    let mut items = vec![in alloc; 1]?;
    items.push(2)?;
    Ok(items)
}

#[test]
fn comes_of_both_errors(rt: HostRuntime) -> Result<(), Fail> {
    assert_eq!(rt; pair(rt.alloc())?.as_slice(), [1, 2].as_slice());
    assert_eq!(rt; NoMemory::from(AllocError), NoMemory);
    assert_eq!(rt; NoMemory::from(AllocFailed { value: 7 }), NoMemory);
    Ok(())
}
