use std::alloc::{AllocError, Global};
use std::io;
use std::io::{ErrorKind, Read, Write};
use std::test::Fail;
use streams::{
    BufferedSink, Gave, MemSink, MemSource, NullSink, PlainSource, ReadEnd, Sink, Source, StdSink,
    StdSource, Took, WriteFault, read_all, write_all,
};

// 48 bytes.
const TEXT: &[u8] = b"      PROGRAM ABCDEF\n      PRINT *, 1\n      END\n";

// Whether a source that is asked for four bytes a call answers so, and gives these bytes.
fn gives<S: Source>(
    alloc: Global,
    source: &mut S,
    wanted: &[Took],
    text: &[u8],
) -> Result<bool, AllocError> {
    let mut bytes = Vec::new(alloc);
    let mut buffer = [0; 4];
    let mut is_so = true;
    for want in wanted {
        let took = source.take(&mut buffer);
        is_so = is_so && took == *want;
        if let Took::Bytes(n) = took {
            bytes.extend_from_slice(buffer.get(..n).unwrap_or(&[]))?;
        }
    }
    Ok(is_so && bytes.as_slice() == text)
}

// At its calls it gives one byte, fails, gives one byte and gives none.
#[derive(Drop)]
struct FlakyReader {
    calls: u8,
}

impl Read for FlakyReader {
    fn read(&mut self, buf: &mut [u8]) -> io::Result<usize> {
        self.calls = self.calls.saturating_add(1);
        if self.calls == 2 {
            return Err(io::Error::from(ErrorKind::Interrupted));
        }
        if self.calls > 3 || buf.is_empty() {
            return Ok(0);
        }
        buf[0] = b'0' + self.calls;
        Ok(1)
    }
}

// At its calls it takes one byte, fails, takes none and takes all.
#[derive(Drop)]
struct FlakyWriter {
    calls: u8,
}

impl Write for FlakyWriter {
    fn write(&mut self, buf: &[u8]) -> io::Result<usize> {
        self.calls = self.calls.saturating_add(1);
        match self.calls {
            1 => Ok(buf.len().min(1)),
            2 => Err(io::Error::from(ErrorKind::Interrupted)),
            3 => Ok(0),
            _ => Ok(buf.len()),
        }
    }

    fn flush(&mut self) -> io::Result<()> {
        Ok(())
    }
}

#[test]
fn readers_are_sources(rt: HostRuntime) -> Result<(), Fail> {
    let mut source = StdSource::new(io::Cursor::new(&TEXT[6..16]));
    let wanted = [
        Took::Bytes(4),
        Took::Bytes(4),
        Took::Bytes(2),
        Took::End,
        Took::End,
    ];
    assert!(rt; gives(rt.alloc(), &mut source, &wanted, b"PROGRAM AB")?);
    let mut source = StdSource::new(FlakyReader { calls: 0 });
    let wanted = [Took::Bytes(1), Took::Failed, Took::Bytes(1), Took::End];
    assert!(rt; gives(rt.alloc(), &mut source, &wanted, b"13")?);
    let mut source = StdSource::new(FlakyReader { calls: 0 });
    let ended = read_all(rt.alloc(), &mut source, 9).err();
    assert!(rt; ended == Some(ReadEnd::Fault));
    Ok(())
}

#[test]
fn writers_are_sinks(rt: HostRuntime) -> Result<(), Fail> {
    let mut written = Vec::new(rt.alloc());
    let mut sink = StdSink::new(&mut written);
    let answer = write_all(&mut sink, TEXT);
    drop(sink);
    assert!(rt; answer == Ok(()) && written.as_slice() == TEXT);
    let mut sink = StdSink::new(FlakyWriter { calls: 0 });
    for want in [Gave::Bytes(1), Gave::Failed, Gave::Failed, Gave::Bytes(48)] {
        assert!(rt; sink.give(TEXT) == want);
    }
    let mut sink = StdSink::new(FlakyWriter { calls: 0 });
    assert!(rt; write_all(&mut sink, TEXT) == Err(WriteFault));
    Ok(())
}

// The sizes of texts round those of buffers.
const SIZES: [usize; 5] = [1, 4095, 4096, 4097, 65536];

// Reads and writes at most `piece` bytes a call, and fails at the call `fails` (from 1; 0 for none).
#[derive(Drop)]
struct Pipe {
    bytes: Vec<u8>,
    at: usize,
    piece: usize,
    calls: u32,
    fails: u32,
}

impl Pipe {
    fn begin(&mut self) -> io::Result<()> {
        self.calls = self.calls.saturating_add(1);
        if self.calls == self.fails {
            return Err(io::Error::from(ErrorKind::Other));
        }
        Ok(())
    }
}

impl Read for Pipe {
    fn read(&mut self, buf: &mut [u8]) -> io::Result<usize> {
        self.begin()?;
        let left = self.bytes.get(self.at..).unwrap_or(&[]);
        let n = self.piece.min(buf.len()).min(left.len());
        buf[..n].copy_from_slice(&left[..n]);
        self.at = self.at.saturating_add(n);
        Ok(n)
    }
}

impl Write for Pipe {
    fn write(&mut self, buf: &[u8]) -> io::Result<usize> {
        self.begin()?;
        let n = self.piece.min(buf.len());
        if self.bytes.extend_from_slice(&buf[..n]).is_err() {
            return Err(io::Error::from(ErrorKind::OutOfMemory));
        }
        Ok(n)
    }

    fn flush(&mut self) -> io::Result<()> {
        Ok(())
    }
}

// A text of this size in which neighbours differ.
fn text_of(alloc: Global, size: usize) -> Result<Vec<u8>, AllocError> {
    let mut text = Vec::new(alloc);
    for at in 0..size {
        text.push(b'A' + (at % 23) as u8)?;
    }
    Ok(text)
}

// How the reading of a text of this size ends, in pieces of so many bytes and with this call failing; without an end
// where all of it is read.
fn read_end(alloc: Global, size: usize, piece: usize, fails: u32) -> Result<Option<ReadEnd>, Fail> {
    let text = text_of(alloc, size)?;
    let pipe = Pipe {
        bytes: text.clone()?,
        at: 0,
        piece,
        calls: 0,
        fails,
    };
    let mut source = StdSource::new(pipe);
    match read_all(alloc, &mut source, size) {
        Ok(bytes) => {
            if bytes.as_slice() != text.as_slice() {
                return Err(Fail::from("another text"));
            }
            Ok(None)
        }
        Err(end) => Ok(Some(end)),
    }
}

#[test]
fn whole_texts_go_through_readers(rt: HostRuntime) -> Result<(), Fail> {
    for size in SIZES {
        for (piece, fails, end) in [
            (size, 0, None),
            (1000, 0, None),
            (size, 1, Some(ReadEnd::Fault)),
        ] {
            let got = read_end(rt.alloc(), size, piece, fails)?;
            assert!(rt; got == end, "at {size}, {piece}");
        }
    }
    Ok(())
}

// Whether a text of this size is written whole in pieces of so many bytes, with this call failing, where so many bytes
// are all of it, and whether just those are written.
fn is_written(
    alloc: Global,
    size: usize,
    piece: usize,
    fails: u32,
    held: usize,
) -> Result<bool, AllocError> {
    let text = text_of(alloc, size)?;
    let mut pipe = Pipe {
        bytes: Vec::new(alloc),
        at: 0,
        piece,
        calls: 0,
        fails,
    };
    let mut sink = StdSink::new(&mut pipe);
    let answer = write_all(&mut sink, text.as_slice());
    drop(sink);
    let front = text.get(..held).unwrap_or(&[]);
    Ok(answer.is_ok() == (held == size) && pipe.bytes.as_slice() == front)
}

#[test]
fn whole_texts_go_through_writers(rt: HostRuntime) -> Result<(), Fail> {
    for size in SIZES {
        // The most that a call writes, the call that fails, and how many bytes are written then.
        for (piece, fails, held) in [(size, 0, size), (1000, 0, size), (size, 1, 0), (1, 2, 1)] {
            let is_so = is_written(rt.alloc(), size, piece, fails, held)?;
            assert!(rt; is_so, "at {size}, {piece}, {fails}");
        }
    }
    Ok(())
}

#[test]
fn sources_fail_at_the_chosen_calls(rt: HostRuntime) -> Result<(), Fail> {
    let fails = Vec::from_slice(rt.alloc(), &[2])?;
    let mut source = MemSource::new(Vec::from_slice(rt.alloc(), b"END")?, 1, fails);
    let wanted = [
        Took::Bytes(1),
        Took::Failed,
        Took::Bytes(1),
        Took::Bytes(1),
        Took::End,
    ];
    assert!(rt; gives(rt.alloc(), &mut source, &wanted, b"END")?);
    Ok(())
}

#[test]
fn sinks_fail_at_the_chosen_calls(rt: HostRuntime) -> Result<(), Fail> {
    // The room, the piece, a call that fails, what `write_all` answers and how many bytes are held then.
    for (room, piece, call, answer, held) in [
        (100, 10, 2, Err(WriteFault), 10),
        (100, 10, 6, Ok(()), 48),
        (48, 48, 2, Ok(()), 48),
        (47, 10, 9, Err(WriteFault), 47),
        (0, 1, 9, Err(WriteFault), 0),
    ] {
        let fails = Vec::from_slice(rt.alloc(), &[call])?;
        let mut sink = MemSink::new(rt.alloc(), room, piece, fails)
            .ok()
            .ok_or("memory")?;
        let got = write_all(&mut sink, TEXT);
        let front = TEXT.get(..held).unwrap_or(&[]);
        assert!(rt;
            got == answer && sink.bytes() == front,
            "at {room}, {piece}, {call}"
        );
    }
    assert!(rt; write_all(&mut NullSink, TEXT) == Ok(()));
    Ok(())
}

// Whether 8192 of 10000 bytes have passed a buffer, and the others where they are sent; the first text has this size.
fn is_full_pieces(alloc: Global, size: usize) -> Result<bool, Fail> {
    let text = text_of(alloc, 10000)?;
    let sink = MemSink::new(alloc, 10000, 10000, Vec::new(alloc))
        .ok()
        .ok_or("memory")?;
    let mut sink = BufferedSink::new(sink);
    let first = write_all(&mut sink, text.get(..size).unwrap_or(&[]));
    let second = write_all(&mut sink, text.get(size..).unwrap_or(&[]));
    let passed = sink.inner().bytes().len();
    let sent = sink.send();
    let is_all = sink.inner().bytes() == text.as_slice();
    let are_taken = first == Ok(()) && second == Ok(()) && sent == Ok(());
    Ok(are_taken && passed == 8192 && is_all)
}

#[test]
fn buffers_give_full_pieces(rt: HostRuntime) -> Result<(), Fail> {
    for size in [1, 4095, 4096, 4097, 9999] {
        assert!(rt; is_full_pieces(rt.alloc(), size)?, "at {size}");
    }
    Ok(())
}

// Whether so many sends fail and the next one doesn't, where the sink takes pieces of this size and each second call of
// it fails.
fn is_kept(alloc: Global, piece: usize, failing: usize) -> Result<bool, Fail> {
    let fails = Vec::from_slice(alloc, &[1, 3, 5, 7])?;
    let sink = MemSink::new(alloc, 48, piece.max(1), fails)
        .ok()
        .ok_or("memory")?;
    let mut sink = BufferedSink::new(sink);
    let mut is_so = write_all(&mut sink, TEXT) == Ok(());
    for _ in 0..failing {
        is_so = sink.send() == Err(WriteFault) && is_so;
    }
    is_so = sink.send() == Ok(()) && is_so;
    Ok(is_so && sink.inner().bytes() == TEXT)
}

#[test]
fn buffers_keep_what_was_not_taken(rt: HostRuntime) -> Result<(), Fail> {
    for (piece, failing) in [(1, 4), (7, 4), (24, 2), (48, 1)] {
        assert!(rt; is_kept(rt.alloc(), piece, failing)?, "at {piece}");
    }
    Ok(())
}

#[test]
fn reads_within_the_limit(rt: HostRuntime) -> Result<(), Fail> {
    // The piece, a call that fails, the limit and how reading ends, if not at the end of the text.
    for (piece, call, limit, ending) in [
        (48, 9, 48, None),
        (7, 9, 48, None),
        (7, 9, 47, Some(ReadEnd::TooLong)),
        (48, 9, 0, Some(ReadEnd::TooLong)),
        (7, 2, 48, Some(ReadEnd::Fault)),
        (7, 8, 48, Some(ReadEnd::Fault)),
        (7, 2, 6, Some(ReadEnd::TooLong)),
    ] {
        let fails = Vec::from_slice(rt.alloc(), &[call])?;
        let mut source = MemSource::new(Vec::from_slice(rt.alloc(), TEXT)?, piece, fails);
        let is_so = match read_all(rt.alloc(), &mut source, limit) {
            Ok(bytes) => ending == None && bytes.as_slice() == TEXT,
            Err(end) => ending == Some(end),
        };
        assert!(rt; is_so, "at {piece}, {call}, {limit}");
    }
    Ok(())
}

#[test]
fn reads_more_than_one_buffer(rt: HostRuntime) -> Result<(), Fail> {
    let long = vec![in rt.alloc(); b'C'; 10000]?;
    let mut source = PlainSource::new(long.clone()?);
    let bytes = read_all(rt.alloc(), &mut source, 10000)
        .ok()
        .ok_or("not read")?;
    assert!(rt; bytes.as_slice() == long.as_slice());
    Ok(())
}
