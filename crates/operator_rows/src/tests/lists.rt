//! A worked example of a list in chunks.

use chunk_list::ChunkList;
use std::alloc::Global;
use std::test::Fail;
use surge_outside::NoMemory;

/// The numbers from 0 to 99, in room that was reserved.
fn hundred(alloc: Global) -> Result<ChunkList<u64>, NoMemory> {
    let mut list = ChunkList::new(alloc);
    list.reserve(100)?;
    for number in 0..100u64 {
        if list.spare() > 0 {
            list.push(number);
        }
    }
    Ok(list)
}

/// Whether a list has the numbers from 0 on.
fn counts_up(list: &ChunkList<u64>) -> bool {
    let mut wanted: u64 = 0;
    for number in list.iter() {
        if number != wanted {
            return false;
        }
        wanted = wanted.wrapping_add(1);
    }
    wanted == list.len() as u64
}

fn is_bare(list: &ChunkList<u64>) -> bool {
    list.is_empty() && list.spare() == 0
}

#[test]
fn a_hundred_numbers(rt: HostRuntime) -> Result<(), Fail> {
    assert!(rt; is_bare(&ChunkList::new(rt.alloc())));
    let mut list = hundred(rt.alloc())?;
    assert!(rt; counts_up(&list));
    // room comes by whole chunks
    assert!(rt; list.len() == 100 && list.spare() < 64);
    list.clear();
    assert!(rt; is_bare(&list));
    Ok(())
}
