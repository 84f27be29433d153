// Each test tries a call at its last good value and one past it.
use block::packing::{PackFault, pack};
use block::unpacking::{UnpackFault, unpack};
use common::list::List;
use register::entry::Entry;
use std::alloc::Global;
use std::process::Abort;
use std::test::*;

// Some entries, each with numbers of its own.
fn some_entries(alloc: Global, count: u16) -> Result<Vec<Entry>, Fail> {
    let mut entries = Vec::new(alloc);
    for i in 0..count {
        entries.push(Entry {
            place: u64::MAX - i as u64,
            len: i,
            kind: 2,
            series: 0xA0,
            verdict: i.wrapping_mul(257),
            fault: u16::MAX - i,
        })?;
    }
    Ok(entries)
}

// Packs some entries into a space of exactly these bytes, and unpacks them into a table of exactly that many.
fn goes_there_and_back(
    rt: &impl Abort,
    alloc: Global,
    count: u16,
    bytes: usize,
) -> Result<(), Fail> {
    let entries = some_entries(alloc, count)?;
    let mut space = vec![in alloc; 7u8; bytes]?;
    assert_eq!(rt; pack(&entries, &mut space), Ok(bytes));
    let mut table = vec![in alloc; Entry::default(); entries.len()]?;
    let mut list = List::new(&mut table);
    assert_eq!(rt; unpack(&space, &mut list), Ok(()));
    assert!(rt; list.as_slice() == entries.as_slice());
    Ok(())
}

#[test]
fn no_entry_one_and_one_block_more_or_less(rt: HostRuntime) -> Result<(), Fail> {
    goes_there_and_back(&rt, rt.alloc(), 0, 0)?;
    goes_there_and_back(&rt, rt.alloc(), 1, 512)?;
    goes_there_and_back(&rt, rt.alloc(), 30, 512)?;
    goes_there_and_back(&rt, rt.alloc(), 31, 512)?;
    goes_there_and_back(&rt, rt.alloc(), 32, 1024)
}

#[test]
fn the_most_entries_and_one_past_them(rt: HostRuntime) -> Result<(), Fail> {
    goes_there_and_back(&rt, rt.alloc(), 3967, 65536)?;
    goes_there_and_back(&rt, rt.alloc(), 3968, 65536)?;
    let entries = some_entries(rt.alloc(), 3969)?;
    let mut space = vec![in rt.alloc(); 7u8; 66048]?;
    assert_eq!(rt; pack(&entries, &mut space), Err(PackFault::NoSpace));
    Ok(())
}

#[test]
fn a_space_one_byte_short(rt: HostRuntime) -> Result<(), Fail> {
    let entries = some_entries(rt.alloc(), 32)?;
    let before = vec![in rt.alloc(); 7u8; 1023]?;
    let mut space = vec![in rt.alloc(); 7u8; 1023]?;
    assert_eq!(rt; pack(&entries, &mut space), Err(PackFault::NoSpace));
    assert!(rt; space.as_slice() == before.as_slice());
    Ok(())
}

#[test]
fn a_table_one_entry_short(rt: HostRuntime) -> Result<(), Fail> {
    let entries = some_entries(rt.alloc(), 32)?;
    let mut space = vec![in rt.alloc(); 0u8; 1024]?;
    assert_eq!(rt; pack(&entries, &mut space), Ok(1024));
    let mut table = vec![in rt.alloc(); Entry::default(); 31]?;
    let mut list = List::new(&mut table);
    assert_eq!(rt; unpack(&space, &mut list), Err(UnpackFault::TableShort));
    assert_eq!(rt; list.len(), 0);
    Ok(())
}

#[test]
fn the_first_wrong_block(rt: HostRuntime) -> Result<(), Fail> {
    let entries = some_entries(rt.alloc(), 63)?;
    let mut space = vec![in rt.alloc(); 0u8; 1536]?;
    assert_eq!(rt; pack(&entries, &mut space), Ok(1536));
    let mut table = vec![in rt.alloc(); Entry::default(); 63]?;
    let mut list = List::new(&mut table);
    assert_eq!(rt;
        unpack(&space[512..1536], &mut list),
        Err(UnpackFault::WrongForm(0))
    );
    assert_eq!(rt;
        unpack(&space[0..1535], &mut list),
        Err(UnpackFault::NotBlocks)
    );
    space[1024] ^= 1;
    assert_eq!(rt; unpack(&space, &mut list), Err(UnpackFault::WrongSum(2)));
    space[512] ^= 1;
    assert_eq!(rt; unpack(&space, &mut list), Err(UnpackFault::WrongSum(1)));
    Ok(())
}
