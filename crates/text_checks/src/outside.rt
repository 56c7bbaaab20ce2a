ghost use Rattle.std.specs.Prelude.{◌≡◌, ◌≤◌, ◌+◌, ◌++◌, [], length, codes, Some, IfOk, IsSomeAnd};
ghost use Rattle.rl_io.specs.Files.{file_under};

use rl_io::{
    Fetched, FileShelf, LARGEST_LIMIT, LoadError, MemShelf, MemSink, Put, Shelf, Sink, SinkFault,
    StdSink, are_distinct, load, put_all,
};
use std::alloc::{AllocError, Global};
use std::io::Write;
use std::os::fd::AsRawFd;
use std::process::Abort;
use std::test::Fail;
use std::{fs, io};

// From the contracts only: where no call is to fail, a file that is held and is short enough is loaded.
fn loaded(
    alloc: Global,
    shelf: &mut MemShelf,
    name: &str,
    limit: u64,
) -> Result<Vec<u8>, AllocError>
    requires limit { limit ≤ LARGEST_LIMIT }
    requires fails { shelf.old.fails ≡ [] }
    requires held { IsSomeAnd (file_under name.now shelf.old.files) (λ file. length file ≤ limit) }
    ensures { IfOk result (λ text. IsSomeAnd (file_under name.now shelf.old.files) (λ file. file ≡ text.items)) }
{
    match load(alloc, shelf, name, limit) {
        Ok(text) => Ok(text),
        Err(LoadError::NoMemory) => Err(AllocError),
        Err(LoadError::Fault) => unreachable!(),
        Err(LoadError::TooLong) => unreachable!(),
    }
}

// From the contracts only: where no call is to fail and there is room, the whole text is put.
fn put_whole(sink: &mut MemSink, text: &[u8])
    requires fails { sink.old.fails ≡ [] }
    requires room { length sink.old.written + length text.now ≤ sink.old.room }
    ensures { sink.new.written ≡ sink.old.written ++ text.now }
{
    sink.rules();
    let result = put_all(sink, text);
    sink.rules();
    match result {
        Ok(()) => (),
        Err(SinkFault) => unreachable!(),
    }
}

// A shelf of the files "a", with these bytes, and "b", with none.
fn shelf_of(
    rt: &impl Abort,
    alloc: Global,
    bytes: &[u8],
    chunk: usize,
    fails: &[u64],
) -> Result<MemShelf, AllocError>
    ensures fails { IfOk result (λ s. s.fails ≡ fails.now) }
    ensures a { IfOk result (λ s. file_under (codes "a") s.files ≡ Some bytes.now) }
{
    let mut files = Vec::new(alloc);
    files.push((String::from_str(alloc, "a")?, bytes.to_vec(alloc)?))?;
    files.push((String::from_str(alloc, "b")?, Vec::new(alloc)))?;
    let fails = fails.to_vec(alloc)?;
    assert!(rt; are_distinct(&files));
    assert!(rt; chunk >= 1);
    assert!(rt; fails.iter().all(|f| *f < u64::MAX));
    Ok(MemShelf::new(files, chunk, fails))
}

#[test]
fn fetches_by_chunks(rt: HostRuntime) -> Result<(), Fail> {
    let mut shelf = shelf_of(&rt, rt.alloc(), b"abcdefg", 3, &[])?;
    let cases = [
        ("a", 0, 8, Fetched::Got(3), b"abc".as_slice()),
        ("a", 7, 8, Fetched::End, b"".as_slice()),
        ("c", 0, 8, Fetched::Failed, b"".as_slice()),
    ];
    for (name, at, room, want, bytes) in cases {
        let mut buf = [0u8; 8];
        assert!(rt; 0 < room && room <= buf.len());
        let got = shelf.fetch(name, at, &mut buf[..room]);
        assert_eq!(rt; got, want, "{name} at {at}");
        assert!(rt; bytes.len() <= buf.len());
        assert_eq!(rt; &buf[..bytes.len()], bytes, "{name} at {at}");
    }
    Ok(())
}

#[test]
fn fetches_fail_by_number(rt: HostRuntime) -> Result<(), Fail> {
    let mut shelf = shelf_of(&rt, rt.alloc(), b"xy", 1, &[4, 2, 4])?;
    let wants = [
        Fetched::Got(1),
        Fetched::Failed,
        Fetched::Got(1),
        Fetched::Failed,
        Fetched::Got(1),
    ];
    for want in wants {
        let mut buf = [0u8; 4];
        assert_eq!(rt; shelf.fetch("a", 0, &mut buf), want);
    }
    Ok(())
}

#[test]
fn loads_up_to_the_limit(rt: HostRuntime) -> Result<(), Fail> {
    let cases = [
        ("a", 5, [].as_slice(), Ok(b"abcde".as_slice())),
        ("a", 4, [].as_slice(), Err(LoadError::TooLong)),
        ("c", 9, [].as_slice(), Err(LoadError::Fault)),
        // Two bytes a fetch: three fetches and one that finds the end.
        ("a", 6, [4].as_slice(), Err(LoadError::Fault)),
        ("a", 6, [5].as_slice(), Ok(b"abcde".as_slice())),
    ];
    for (name, limit, fails, want) in cases {
        let mut shelf = shelf_of(&rt, rt.alloc(), b"abcde", 2, fails)?;
        assert!(rt; limit <= LARGEST_LIMIT);
        match load(rt.alloc(), &mut shelf, name, limit) {
            Ok(text) => assert_eq!(rt; Ok(text.as_slice()), want, "{name} up to {limit}"),
            Err(error) => assert_eq!(rt; Err(error), want, "{name} up to {limit}"),
        }
    }
    Ok(())
}

#[test]
fn loads_by_large_pieces(rt: HostRuntime) -> Result<(), Fail> {
    let bytes = vec![in rt.alloc(); 7u8; 2_200_000]?;
    // Three fetches for the bytes, and one that finds the end.
    for (fails, want) in [(4, Err(LoadError::Fault)), (5, Ok(2_200_000))] {
        let mut shelf = shelf_of(&rt, rt.alloc(), &bytes, 2_000_000, &[fails])?;
        match load(rt.alloc(), &mut shelf, "a", 3_000_000) {
            Ok(text) => assert_eq!(rt; Ok(text.len()), want),
            Err(error) => assert_eq!(rt; Err(error), want),
        }
    }
    Ok(())
}

#[test]
fn puts_by_chunk_room_and_number(rt: HostRuntime) -> Result<(), Fail> {
    let cases = [
        (
            3,
            9,
            [].as_slice(),
            Put::Took(3),
            Put::Failed,
            b"abc".as_slice(),
        ),
        (
            9,
            9,
            [2].as_slice(),
            Put::Took(5),
            Put::Failed,
            b"abcde".as_slice(),
        ),
    ];
    for (room, chunk, fails, first, second, written) in cases {
        assert!(rt; chunk >= 1);
        let fails = fails.to_vec(rt.alloc())?;
        let mut sink = MemSink::new(rt.alloc(), room, chunk, fails)?;
        assert_eq!(rt; sink.put(b"abcde"), first, "room {room}");
        assert_eq!(rt; sink.put(b"abcde"), second, "room {room}");
        assert_eq!(rt; sink.written(), written, "room {room}");
    }
    Ok(())
}

#[test]
fn puts_all_or_a_prefix(rt: HostRuntime) -> Result<(), Fail> {
    let cases = [
        (20, 4, [].as_slice(), Ok(()), b"abcdefghij".as_slice()),
        (
            20,
            4,
            [3].as_slice(),
            Err(SinkFault),
            b"abcdefgh".as_slice(),
        ),
        (9, 4, [].as_slice(), Err(SinkFault), b"abcdefghi".as_slice()),
    ];
    for (room, chunk, fails, want, written) in cases {
        assert!(rt; chunk >= 1);
        let fails = fails.to_vec(rt.alloc())?;
        let mut sink = MemSink::new(rt.alloc(), room, chunk, fails)?;
        assert_eq!(rt; put_all(&mut sink, b"abcdefghij"), want, "room {room}");
        assert_eq!(rt; sink.written(), written, "room {room}");
    }
    Ok(())
}

#[test]
fn puts_no_empty_text(rt: HostRuntime) -> Result<(), Fail> {
    let fails = [1].to_vec(rt.alloc())?;
    let mut sink = MemSink::new(rt.alloc(), 0, 1, fails)?;
    assert_eq!(rt; put_all(&mut sink, b""), Ok(()));
    Ok(())
}

#[test]
fn knows_doubled_names(rt: HostRuntime) -> Result<(), Fail> {
    let alloc = rt.alloc();
    for (names, want) in [
        (["a", "b", "c"], true),
        (["a", "b", "a"], false),
        (["a", "b", "b"], false),
    ] {
        let mut files = Vec::new(alloc);
        for name in names {
            files.push((String::from_str(alloc, name)?, Vec::new(alloc)))?;
        }
        assert_eq!(rt; are_distinct(&files), want);
    }
    Ok(())
}

#[test]
fn reads_a_real_file(rt: HostRuntime) -> Result<(), Fail> {
    fs::write(&rt, "here", "some text\n")?;
    let mut shelf = FileShelf::new(&rt);
    let text = load(rt.alloc(), &mut shelf, "here", 100)
        .ok()
        .ok_or("no text")?;
    assert_eq!(rt; text.as_slice(), b"some text\n".as_slice());
    match load(rt.alloc(), &mut shelf, "nowhere", 100) {
        Ok(_) => assert!(rt; false, "a file that is nowhere"),
        Err(error) => assert_eq!(rt; error, LoadError::Fault),
    }
    Ok(())
}

#[test]
fn reads_on_in_the_file_that_it_opened(rt: HostRuntime) -> Result<(), Fail> {
    fs::write(&rt, "changed", "old text\n")?;
    let mut shelf = FileShelf::new(&rt);
    let mut buf = [0u8; 4];
    assert_eq!(rt; shelf.fetch("changed", 0, &mut buf), Fetched::Got(4));
    fs::remove_file(&rt, "changed")?;
    fs::write(&rt, "changed", "NEW TEXT\n")?;
    assert_eq!(rt; shelf.fetch("changed", 4, &mut buf), Fetched::Got(4));
    assert_eq!(rt; &buf, b"text");
    // Another place is one of the new file, and so is the beginning.
    assert_eq!(rt; shelf.fetch("changed", 5, &mut buf), Fetched::Got(4));
    assert_eq!(rt; &buf, b"EXT\n");
    assert_eq!(rt; shelf.fetch("changed", 0, &mut buf), Fetched::Got(4));
    assert_eq!(rt; &buf, b"NEW ");
    fs::remove_file(&rt, "changed")?;
    Ok(())
}

#[test]
fn reads_a_pipe(rt: HostRuntime) -> Result<(), Fail> {
    let alloc = rt.alloc();
    let (reader, mut writer) = io::pipe(&rt)?;
    writer.write_all(b"some text\n")?;
    drop(writer);
    let fd = reader.as_raw_fd();
    let name = format!(in alloc; "/proc/self/fd/{fd}")?;
    let mut shelf = FileShelf::new(&rt);
    let text = load(alloc, &mut shelf, name.as_str(), 100)
        .ok()
        .ok_or("no text")?;
    assert_eq!(rt; text.as_slice(), b"some text\n".as_slice());
    Ok(())
}

#[test]
fn writes_to_both_streams(rt: HostRuntime) {
    let mut out = StdSink::out(&rt);
    let mut err = StdSink::err(&rt);
    assert_eq!(rt; put_all(&mut out, b"to standard output\n"), Ok(()));
    assert_eq!(rt; put_all(&mut err, b"to standard error\n"), Ok(()));
}

#[test]
fn holds_by_the_contracts(rt: HostRuntime) -> Result<(), Fail> {
    let mut shelf = shelf_of(&rt, rt.alloc(), b"abc", 1, &[])?;
    let text = loaded(rt.alloc(), &mut shelf, "a", 3)?;
    assert_eq!(rt; text.as_slice(), b"abc".as_slice());
    let mut sink = MemSink::new(rt.alloc(), 3, 1, Vec::new(rt.alloc()))?;
    put_whole(&mut sink, b"abc");
    assert_eq!(rt; sink.written(), b"abc".as_slice());
    Ok(())
}
