//! What no clause says: that calls succeed with ample memory, and that the real edge runs.
use std::alloc::Global;
use std::test::Fail;
use x5_port::{FileFault, Files, MemoryFiles, MemorySink, RealFiles, RealSink, Sink, put_all};

/// How a whole file is read: whether it has this content, or the fault.
fn reads<F: Files>(
    alloc: Global,
    files: &mut F,
    name: &str,
    limit: usize,
    wanted: &str,
) -> Result<bool, FileFault> {
    match files.read_whole(alloc, name, limit) {
        Ok(octets) => Ok(octets.as_slice() == wanted.as_bytes()),
        Err(fault) => Err(fault),
    }
}

/// A file under a name that an older one has; the second read fails.
fn two_files(alloc: Global) -> Result<MemoryFiles, Fail> {
    let mut files = MemoryFiles::new(alloc, &[2])?;
    files.add("a", b"old")?;
    files.add("a", b"four")?;
    Ok(files)
}

#[test]
fn memory_files_answer_each_case(rt: HostRuntime) -> Result<(), Fail> {
    let alloc = rt.alloc();
    let mut files = two_files(alloc)?;
    for (name, limit, wanted) in [
        ("a", 4, Ok(true)),
        ("a", 4, Err(FileFault::Failed)),
        ("a", 3, Err(FileFault::TooLong)),
        ("b", 9, Err(FileFault::Failed)),
    ] {
        let found = reads(alloc, &mut files, name, limit, "four");
        assert_eq!(rt; found, wanted, "{name} {limit}");
    }
    assert_eq!(rt; files.faults(), 2);
    assert_eq!(rt; files.failed().unwrap_or(""), "b");
    assert_eq!(rt; files.asked().unwrap_or(""), "b");
    Ok(())
}

#[test]
fn a_memory_sink_takes_pieces_until_it_is_full(rt: HostRuntime) -> Result<(), Fail> {
    let alloc = rt.alloc();
    for (room, most, failing, whole, taken) in [
        (5, 1, 9, true, "abcde"),
        (9, 2, 9, true, "abcde"),
        (3, 9, 9, false, "abc"),
        (9, 2, 2, false, "ab"),
        (0, 1, 9, false, ""),
    ] {
        let mut sink = MemorySink::new(alloc, room, most, &[failing])?;
        assert_eq!(rt; put_all(&mut sink, b"abcde").is_ok(), whole, "room {room}");
        assert_eq!(rt; sink.taken(), taken.as_bytes(), "room {room}");
        assert_eq!(rt; sink.faults() == 0, whole, "room {room}");
    }
    Ok(())
}

#[test]
fn real_files_read_what_is_there(rt: HostRuntime) -> Result<(), Fail> {
    let alloc = rt.alloc();
    let name = "real_files.txt";
    std::fs::write(&rt, name, "some octets")?;
    let mut files = RealFiles::new(alloc, rt.clone()?);
    for (limit, wanted) in [(11, Ok(true)), (10, Err(FileFault::TooLong))] {
        let found = reads(alloc, &mut files, name, limit, "some octets");
        assert_eq!(rt; found, wanted, "{limit}");
    }
    assert_eq!(rt; files.faults(), 0);
    assert!(rt; std::fs::remove_file(&rt, name).is_ok());
    let found = reads(alloc, &mut files, name, 11, "");
    assert_eq!(rt; found, Err(FileFault::Failed));
    assert_eq!(rt; files.faults(), 1);
    assert_eq!(rt; files.failed().unwrap_or(""), name);
    assert_eq!(rt; files.asked().unwrap_or(""), name);
    Ok(())
}

#[test]
fn a_real_sink_writes(rt: HostRuntime) -> Result<(), Fail> {
    let name = "real_sink.txt";
    let mut sink = RealSink::new(std::fs::create(&rt, name)?);
    assert!(rt; put_all(&mut sink, b"some ").is_ok());
    assert!(rt; put_all(&mut sink, b"octets").is_ok());
    assert_eq!(rt; sink.faults(), 0);
    let text = std::fs::read_to_string(&rt, name)?;
    assert_eq!(rt; text.as_str(), "some octets");
    assert!(rt; std::fs::remove_file(&rt, name).is_ok());
    Ok(())
}

#[test]
fn a_sink_that_is_only_read_fails(rt: HostRuntime) -> Result<(), Fail> {
    let name = "read_only.txt";
    std::fs::write(&rt, name, "some octets")?;
    let mut closed = RealSink::new(std::fs::open(&rt, name)?);
    assert!(rt; put_all(&mut closed, b"more").is_err());
    assert_eq!(rt; closed.faults(), 1);
    assert!(rt; std::fs::remove_file(&rt, name).is_ok());
    Ok(())
}
