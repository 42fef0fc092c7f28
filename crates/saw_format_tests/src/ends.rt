//! Sources, sinks, frames and shelves.

use saw_io::{
    DirShelf, FrameFault, MemoryShelf, MemorySink, MemorySource, Shelf, ShelfFault, Sink,
    SinkFault, Source, StdSink, StdSource, fill, read_frame, write_all,
};
use saw_wire::Text;
use std::collections::BTreeMap;
use std::test::Fail;

const BYTES: [u8; 9] = [0, 0, 0, 2, 104, 105, 0, 0, 0];

#[test]
fn frames_are_read_until_the_source_ends(rt: HostRuntime) -> Result<(), Fail> {
    let alloc = rt.alloc();
    let mut source = MemorySource::new(BYTES.to_vec(alloc)?, vec![in alloc; 2]?);
    let content = read_frame(alloc, &mut source, 2)?.ok_or("a frame")?;
    assert!(rt; content.as_slice() == b"hi".as_slice());
    assert!(rt; read_frame(alloc, &mut source, 2) == Err(FrameFault::ReadFailed));
    // A failed read takes nothing, so the rest is read.
    let cut = FrameFault::Truncated { have: 3, want: 4 };
    assert!(rt; read_frame(alloc, &mut source, 2) == Err(cut));
    assert!(rt; read_frame(alloc, &mut source, 2) == Ok(None));
    Ok(())
}

#[test]
fn frames_that_are_cut_or_too_long_are_told(rt: HostRuntime) -> Result<(), Fail> {
    let alloc = rt.alloc();
    let faults: [(&[u8], u32, FrameFault); 3] = [
        (&BYTES, 1, FrameFault::TooLong { length: 2 }),
        (&BYTES[..5], 2, FrameFault::Truncated { have: 1, want: 2 }),
        (&BYTES[6..], 2, FrameFault::Truncated { have: 3, want: 4 }),
    ];
    for (bytes, limit, fault) in faults {
        let mut source = MemorySource::new(bytes.to_vec(alloc)?, Vec::new(alloc));
        assert!(rt; read_frame(alloc, &mut source, limit) == Err(fault));
    }
    Ok(())
}

#[test]
fn a_failed_write_appends_nothing(rt: HostRuntime) -> Result<(), Fail> {
    let alloc = rt.alloc();
    let mut sink = MemorySink::new(alloc, vec![in alloc; 1]?);
    write_all(&mut sink, b"hi")?;
    assert!(rt; write_all(&mut sink, b"ho") == Err(SinkFault::Failed));
    write_all(&mut sink, b"!")?;
    assert!(rt; sink.bytes() == b"hi!".as_slice());
    Ok(())
}

#[test]
fn a_reader_of_std_is_a_source(rt: HostRuntime) -> Result<(), Fail> {
    let mut source = StdSource::new(BYTES.as_slice());
    let mut head = [0u8; 4];
    assert!(rt; source.read(&mut head) == Ok(4));
    assert!(rt; head == [0, 0, 0, 2]);
    let mut rest = [0u8; 8];
    assert!(rt; fill(&mut source, &mut rest) == Ok(5));
    assert!(rt; &rest[..5] == &BYTES[4..]);
    Ok(())
}

#[test]
fn a_writer_of_std_is_a_sink(rt: HostRuntime) -> Result<(), Fail> {
    let mut room = [0u8; 3];
    let mut sink = StdSink::new(room.as_mut_slice());
    assert!(rt; sink.write(b"ab") == Ok(2));
    assert!(rt; sink.write(b"cd") == Ok(1));
    // A write that takes nothing is a fault.
    assert!(rt; sink.write(b"d") == Err(SinkFault::Failed));
    assert!(rt; sink.write(b"") == Ok(0));
    Ok(())
}

#[test]
fn a_shelf_in_memory_gives_whole_files(rt: HostRuntime) -> Result<(), Fail> {
    let alloc = rt.alloc();
    let mut files = BTreeMap::new(alloc);
    let _ = files.insert(Text::from_str(alloc, "a")?, b"hi".to_vec(alloc)?)?;
    let mut shelf = MemoryShelf::new(files, vec![in alloc; 1]?);
    assert!(rt; shelf.fetch(alloc, "a", 2)?.as_slice() == b"hi".as_slice());
    let faults = [
        ("a", 2, ShelfFault::Failed),
        ("a", 1, ShelfFault::TooLong),
        ("A", 2, ShelfFault::Missing),
    ];
    for (name, limit, fault) in faults {
        assert!(rt; shelf.fetch(alloc, name, limit).err() == Some(fault));
    }
    Ok(())
}

#[test]
fn a_shelf_of_the_system_gives_files_and_tells_what_is_wrong(rt: HostRuntime) -> Result<(), Fail> {
    let mut shelf = DirShelf::new(&rt);
    let told = shelf.fetch(rt.alloc(), "/proc/sys/kernel/ostype", 6)?;
    assert!(rt; told.as_slice() == b"Linux\n".as_slice());
    // A folder is opened and not read.
    let faults = [
        ("no_such_file", ShelfFault::Missing),
        ("/dev/zero", ShelfFault::TooLong),
        ("/", ShelfFault::Failed),
    ];
    for (name, fault) in faults {
        assert!(rt; shelf.fetch(rt.alloc(), name, 2).err() == Some(fault));
    }
    Ok(())
}
