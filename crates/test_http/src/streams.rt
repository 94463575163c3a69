//! What no clause says: that calls succeed with ample memory, each fault in turn, and the real streams.

use std::alloc::Global;
use std::io;
use std::io::{ErrorKind, Read, Write};
use std::test::Fail;
use test_support::{Counting, wrong_rows};
use tk_io::{
    Failed, MemIntake, MemSink, PIECE, Put, ReadError, Sink, StdIntake, StdSink, Writer, read_text,
    write_text,
};

const TEXT: &[u8] = b"list A\n1,900\n";

/// What comes of reading.
#[derive(Clone, Copy, Debug, PartialEq, Eq)]
enum Came {
    TheText,
    Other,
    Fault(ReadError),
}

/// The most bytes of a piece, the calls that fail, and the most bytes that are read.
type Reading = (u32, &'static [u64], u64);

static READS: &[(&str, Reading, Came)] = &[
    ("byte by byte", (1, &[], 13), Came::TheText),
    ("in three pieces", (5, &[], 13), Came::TheText),
    ("in one piece", (100, &[], 13), Came::TheText),
    (
        "the first call fails",
        (5, &[1], 100),
        Came::Fault(ReadError::Failed),
    ),
    (
        "the second call fails",
        (5, &[2], 100),
        Came::Fault(ReadError::Failed),
    ),
    (
        "the third call fails",
        (5, &[3], 100),
        Came::Fault(ReadError::Failed),
    ),
    (
        "a byte too many",
        (5, &[], 12),
        Came::Fault(ReadError::Long),
    ),
];

/// What comes of a text that was read.
fn came_of(read: Result<Vec<u8>, ReadError>) -> Came {
    match read {
        Ok(text) => {
            let is_so = text.as_slice() == TEXT;
            drop(text);
            if is_so { Came::TheText } else { Came::Other }
        }
        Err(fault) => Came::Fault(fault),
    }
}

/// What comes of reading the text in pieces of so many bytes, where these calls fail.
fn read_in_pieces(alloc: Global, given: &Reading) -> Came {
    let (piece, fails, limit) = given;
    let Ok(mut input) = MemIntake::make(alloc, TEXT, (*piece).max(1), *fails) else {
        return Came::Other;
    };
    let read = read_text(alloc, &mut input, *limit);
    drop(input);
    came_of(read)
}

/// Whether the text is written once, and then what there is room for.
fn writes_until_full(alloc: Global) -> bool {
    let Ok(mut out) = MemSink::make(alloc, 20, &[]) else {
        return false;
    };
    let is_whole = write_text(&mut out, TEXT).is_ok() && out.taken() == TEXT;
    let is_full = write_text(&mut out, TEXT).is_err();
    let is_filled = out.taken() == b"list A\n1,900\nlist A\n".as_slice();
    drop(out);
    is_whole && is_full && is_filled
}

/// Whether nothing is written where the first call fails.
fn writes_nothing(alloc: Global) -> bool {
    let Ok(mut out) = MemSink::make(alloc, 20, &[1]) else {
        return false;
    };
    let fails = write_text(&mut out, TEXT).is_err();
    let is_empty = out.taken().is_empty() && out.write(b"").is_ok();
    drop(out);
    fails && is_empty
}

/// 60,000 words of 8 bytes and a space each.
fn put_words(out: &mut Counting) -> Result<(), Failed> {
    let mut writer = Writer::make(out);
    for number in 0..60_000 {
        writer.put_number(10_000_000 + number);
        writer.put(b" ");
    }
    writer.end()
}

/// A longer text than a piece.
const LONG: &[u8] = &[b'x'; 20_000];

/// These texts one behind another.
fn put_all(out: &mut MemSink, texts: &[&[u8]]) -> Result<(), Failed> {
    let mut writer = Writer::make(out);
    for text in texts {
        writer.put(text);
    }
    writer.end()
}

/// How putting these texts ends where such calls fail, and how many bytes of the long text were written. None without memory, or where
/// others were.
fn ends(alloc: Global, fails: &[u64], texts: &[&[u8]]) -> Option<(Result<(), Failed>, usize)> {
    let mut out = MemSink::make(alloc, 40_000, fails).ok()?;
    let ended = put_all(&mut out, texts);
    let length = out.taken().len();
    let is_front = Some(out.taken()) == LONG.get(..length);
    drop(out);
    if is_front {
        Some((ended, length))
    } else {
        None
    }
}

/// A text goes out whole, and once: what there is no room for, and what stands behind a failed write, doesn't. 60,000 words of 8 bytes and as
/// many spaces go out in 66 writes.
#[test]
fn texts_are_written(rt: HostRuntime) {
    let alloc = rt.alloc();
    assert_eq!(rt;
        [writes_until_full(alloc), writes_nothing(alloc)],
        [true, true]
    );
    let mut out = Counting::make();
    let is_put = put_words(&mut out).is_ok();
    assert_eq!(rt; (is_put, out.bytes, out.writes), (true, 540_000, 66));
    assert_eq!(rt;
        ends(alloc, &[2], &[LONG, b"y"]),
        Some((Err(Failed), PIECE))
    );
    assert_eq!(rt; ends(alloc, &[], &[LONG]), Some((Ok(()), 20_000)));
}

/// A reader and writer of one byte a call, whose every other call is interrupted, and which fails from
/// some call on.
#[derive(Drop)]
struct Halting {
    calls: u32,
    good: u32,
}

impl Halting {
    /// What becomes of a call.
    fn call(&mut self) -> io::Result<()> {
        self.calls = self.calls.saturating_add(1);
        if self.calls % 2 == 1 {
            return Err(io::Error::from(ErrorKind::Interrupted));
        }
        if self.calls > self.good {
            return Err(io::Error::from(ErrorKind::BrokenPipe));
        }
        Ok(())
    }
}

impl Read for Halting {
    fn read(&mut self, buf: &mut [u8]) -> io::Result<usize> {
        self.call()?;
        match buf.first_mut() {
            Some(first) => {
                *first = b'x';
                Ok(1)
            }
            None => Ok(0),
        }
    }
}

impl Write for Halting {
    fn write(&mut self, buf: &[u8]) -> io::Result<usize> {
        self.call()?;
        Ok(buf.len().min(1))
    }

    fn flush(&mut self) -> io::Result<()> {
        Ok(())
    }
}

/// How writing the text ends; closes the stream.
fn written_to<W: Write + Drop>(writer: W) -> Result<(), Failed> {
    let mut out = StdSink::make(writer);
    let wrote = write_text(&mut out, TEXT);
    drop(out);
    wrote
}

/// What comes of reading at most so many bytes; closes the stream.
fn read_of<R: Read + Drop>(alloc: Global, reader: R, limit: u64) -> Came {
    let mut input = StdIntake::make(reader);
    let read = read_text(alloc, &mut input, limit);
    drop(input);
    came_of(read)
}

/// A stream of which so many calls are good.
fn stream_with(good: u32) -> Halting {
    Halting { calls: 0, good }
}

/// Texts are read in pieces, up to a limit, and on after interruptions.
#[test]
fn texts_are_read(rt: HostRuntime) {
    let alloc = rt.alloc();
    assert_eq!(rt; wrong_rows(&rt, alloc, READS, read_in_pieces), 0);
    let long = Came::Fault(ReadError::Long);
    let failed = Came::Fault(ReadError::Failed);
    assert_eq!(rt; read_of(alloc, stream_with(100), 9), long);
    assert_eq!(rt; read_of(alloc, stream_with(6), 9), failed);
    assert_eq!(rt; written_to(stream_with(100)), Ok(()));
    assert_eq!(rt; written_to(stream_with(6)), Err(Failed));
}

#[test]
fn moves_through_a_pipe(rt: HostRuntime) -> Result<(), Fail> {
    let (reader, writer) = io::pipe(&rt)?;
    let written = written_to(writer);
    let read = read_of(rt.alloc(), reader, 100);
    assert_eq!(rt; (written, read), (Ok(()), Came::TheText));
    Ok(())
}
