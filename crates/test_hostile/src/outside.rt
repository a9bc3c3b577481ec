//! Files and outputs, of the host and in memory, and their failures.

use std::alloc::Global;
use std::io;
use std::io::{Read, Write};
use std::process::Abort;
use tool_io::{
    Counted, Files, HostFiles, HostSink, MemFiles, MemSink, OutEnd, ReadEnd, Sink, read_within,
};

/// A source that fills each buffer, so often, and then fails.
#[derive(Drop)]
struct Source {
    left: u32,
}

impl Read for Source {
    fn read(&mut self, buf: &mut [u8]) -> io::Result<usize> {
        if self.left == 0 {
            return Err(io::Error::from(io::ErrorKind::Other));
        }
        self.left -= 1;
        for byte in buf.iter_mut() {
            *byte = 7;
        }
        Ok(buf.len())
    }
}

/// A writer that takes at most this many bytes in all, and then none.
#[derive(Drop)]
struct Narrow {
    left: usize,
    flushes: bool,
}

impl Write for Narrow {
    fn write(&mut self, buf: &[u8]) -> io::Result<usize> {
        let taken = buf.len().min(self.left);
        self.left -= taken;
        Ok(taken)
    }

    fn flush(&mut self) -> io::Result<()> {
        if self.flushes {
            return Ok(());
        }
        Err(io::Error::from(io::ErrorKind::Other))
    }
}

/// The letter of an end: `F` for a failure, `w` for a write or a put that was done.
fn letter(end: &Result<(), OutEnd>) -> u8 {
    match end {
        Ok(()) => b'w',
        Err(OutEnd::Failed) => b'F',
        Err(OutEnd::NoMemory) => b'N',
    }
}

/// A call of files, by a name: bytes to write and the letter of the end, or how long the file may be that
/// is read, and what the read gives.
enum Call {
    Write(&'static str, &'static [u8], u8),
    Read(&'static str, u64, Result<&'static [u8], ReadEnd>),
}

/// Whether a call gives what it should.
fn gives<F: Files>(files: &mut F, alloc: Global, call: &Call) -> bool {
    match *call {
        Call::Write(name, bytes, wanted) => letter(&files.write(name, bytes)) == wanted,
        Call::Read(name, limit, wanted) => match files.read(alloc, name, limit) {
            Ok(bytes) => wanted == Ok(bytes.as_slice()),
            Err(end) => wanted == Err(end),
        },
    }
}

/// Makes calls one after the other.
fn check<F: Files>(rt: &impl Abort, alloc: Global, files: &mut F, calls: &[Call]) {
    for (at, call) in calls.iter().enumerate() {
        assert!(rt; gives(files, alloc, call), "call {at}");
    }
}

/// Files in memory, one of which has three letters; the calls with these numbers fail.
fn memory(alloc: Global, failing: &[u64]) -> Option<MemFiles> {
    let Ok(failing) = Vec::from_slice(alloc, failing) else {
        return None;
    };
    let mut files = MemFiles::new(alloc, failing);
    let Ok(()) = files.insert("a", b"abc") else {
        return None;
    };
    Some(files)
}

/// Reads in memory, of which the call with number 4 fails.
static READS: [Call; 6] = [
    Call::Read("a", 3, Ok(b"abc")),
    Call::Read("a", 2, Err(ReadEnd::TooLong)),
    Call::Read("b", 9, Err(ReadEnd::Failed)),
    Call::Read("a", 4, Ok(b"abc")),
    Call::Read("a", 9, Err(ReadEnd::Failed)),
    Call::Read("a", 9, Ok(b"abc")),
];

#[test]
fn memory_is_read(rt: HostRuntime) {
    let mut files = memory(rt.alloc(), &[4]).expect(&rt, "memory");
    check(&rt, rt.alloc(), &mut files, &READS);
}

/// Whether a file is got whole, and none by a name that no file has.
fn is_got(alloc: Global) -> bool {
    let Some(files) = memory(alloc, &[]) else {
        return false;
    };
    files.get("a") == Some(b"abc".as_slice()) && files.get("b").is_none()
}

#[test]
fn memory_is_got(rt: HostRuntime) {
    assert!(rt; is_got(rt.alloc()));
}

/// The byte that a file has, or the letter of the end of its read.
fn byte_of(files: &mut MemFiles, alloc: Global) -> u8 {
    match files.read(alloc, "a", 1) {
        Ok(bytes) => *bytes.first().unwrap_or(&b'-'),
        Err(ReadEnd::Failed) => b'F',
        Err(ReadEnd::TooLong | ReadEnd::NoMemory) => b'N',
    }
}

/// The number of a call that fails, and what becomes of a write, a read, another write and another read.
static FOUR_CALLS: [(u64, [u8; 4]); 5] = [
    (0, *b"FFw2"),
    (1, *b"wFw2"),
    (2, *b"w1F1"),
    (3, *b"w1wF"),
    (4, *b"w1w2"),
];

/// Whether four calls end as their row says.
fn four_calls(alloc: Global, row: &(u64, [u8; 4])) -> bool {
    let Ok(failing) = Vec::from_slice(alloc, &[row.0]) else {
        return false;
    };
    let mut files = MemFiles::new(alloc, failing);
    let first = letter(&files.write("a", b"1"));
    let then = byte_of(&mut files, alloc);
    let second = letter(&files.write("a", b"2"));
    [first, then, second, byte_of(&mut files, alloc)] == row.1
}

#[test]
fn each_call_in_memory_fails(rt: HostRuntime) {
    for row in &FOUR_CALLS {
        assert!(rt; four_calls(rt.alloc(), row), "call {}", row.0);
    }
}

/// A put that fails, what becomes of each of three puts, and what was written.
static PUTS: [(u64, [u8; 3], &[u8]); 4] = [
    (0, *b"Fww", b"bc"),
    (1, *b"wFw", b"ac"),
    (2, *b"wwF", b"ab"),
    (3, *b"www", b"abc"),
];

/// Whether three puts end, and what was written is, as a row says.
fn puts(alloc: Global, row: &(u64, [u8; 3], &[u8])) -> bool {
    let Ok(failing) = Vec::from_slice(alloc, &[row.0]) else {
        return false;
    };
    let mut sink = MemSink::new(alloc, failing);
    let first = letter(&sink.put(b"a"));
    let second = letter(&sink.put(b"b"));
    [first, second, letter(&sink.put(b"c"))] == row.1 && sink.bytes() == row.2
}

#[test]
fn each_put_in_memory_fails(rt: HostRuntime) {
    for row in &PUTS {
        assert!(rt; puts(rt.alloc(), row), "put {}", row.0);
    }
}

const LONG: &[u8] = &[5; 10_000];

static HOST_CALLS: [Call; 8] = [
    Call::Write("old.bin", b"was longer", b'w'),
    Call::Write("old.bin", b"now", b'w'),
    Call::Write("long.bin", LONG, b'w'),
    Call::Write("no folder/x", b"", b'F'),
    Call::Read("old.bin", 3, Ok(b"now")),
    Call::Read("long.bin", 10_000, Ok(LONG)),
    Call::Read("long.bin", 9_999, Err(ReadEnd::TooLong)),
    Call::Read("absent", 9, Err(ReadEnd::Failed)),
];

/// `old.bin` and `long.bin` stay in the folder where the test runs: no call of the host's files removes
/// one.
#[test]
fn host_files(rt: HostRuntime) {
    let mut files = HostFiles::new(rt.alloc(), &rt);
    check(&rt, rt.alloc(), &mut files, &HOST_CALLS);
}

/// How often a source fills a buffer, a limit, and the end of the read within it.
static SOURCES: [(u32, u64, ReadEnd); 6] = [
    (u32::MAX, 0, ReadEnd::TooLong),
    (u32::MAX, 4_095, ReadEnd::TooLong),
    (u32::MAX, 4_096, ReadEnd::TooLong),
    (u32::MAX, 100_000, ReadEnd::TooLong),
    (0, 10, ReadEnd::Failed),
    (2, 100_000, ReadEnd::Failed),
];

fn source_ends(alloc: Global, row: &(u32, u64, ReadEnd)) -> bool {
    let mut source = Counted::new(Source { left: row.0 });
    let end = read_within(alloc, &mut source, row.1);
    end.err() == Some(row.2)
}

#[test]
fn sources_end(rt: HostRuntime) {
    for row in &SOURCES {
        assert!(rt;
            source_ends(rt.alloc(), row),
            "{} reads, limit {}",
            row.0,
            row.1
        );
    }
}

/// Whether a put fails in a writer with room for one byte more, and the others do not.
fn is_filled() -> bool {
    let mut sink = HostSink::new(Narrow {
        left: 5,
        flushes: true,
    });
    sink.put(b"1234").is_ok() && sink.put(b"5678") == Err(OutEnd::Failed) && sink.put(b"").is_ok()
}

/// Whether a put fails that cannot be flushed.
fn is_unflushed() -> bool {
    let mut sink = HostSink::new(Narrow {
        left: 5,
        flushes: false,
    });
    sink.put(b"x") == Err(OutEnd::Failed)
}

#[test]
fn host_sink(rt: HostRuntime) {
    assert!(rt; HostSink::new(io::writer(&rt)).put(b"out\n").is_ok());
    assert!(rt; is_filled());
    assert!(rt; is_unflushed());
}
