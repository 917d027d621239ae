//! Sources and sinks of std, and faults in mid-stream.

use crate::{
    Failed, MemSink, MemSource, ReadEnd, Sink, Source, StdSink, StdSource, push_all, read_all,
};
use std::alloc::{AllocError, Global};
use std::io;
use std::io::{Read, Write};
use std::test::Fail;

/// So many bytes, each told from its neighbours.
fn numbered(alloc: Global, count: u32) -> Result<Vec<u8>, AllocError> {
    let mut bytes = Vec::new(alloc);
    for place in 0..count {
        bytes.push((place % 251) as u8)?;
    }
    Ok(bytes)
}

/// The numbers of the calls that fail: this one, or none for 0.
fn failing(alloc: Global, call: u64) -> Result<Vec<u64>, AllocError> {
    let mut calls = Vec::new(alloc);
    if call > 0 {
        calls.push(call)?;
    }
    Ok(calls)
}

/// A source of so many bytes that gives `piece` of them at a call, and fails at one call, or at none for 0.
fn source(alloc: Global, held: u32, piece: usize, call: u64) -> Result<MemSource, AllocError> {
    Ok(MemSource::new(numbered(alloc, held)?, piece.max(1), failing(alloc, call)?))
}

#[test]
fn reads_to_the_end_or_says_why_not(rt: HostRuntime) -> Result<(), Fail> {
    // held, at most, a piece, the call that fails (0: none): what comes, how many bytes are left
    let cases: [(u32, u32, usize, u64, Result<u32, ReadEnd>, u32); 14] = [
        (0, 0, 1, 0, Ok(0), 0),
        (0, 5, 64, 0, Ok(0), 0),
        (5, 5, 1, 0, Ok(5), 0),
        (5, 5, 64, 0, Ok(5), 0),
        (6, 5, 1, 0, Err(ReadEnd::TooLong), 0),
        (9, 5, 1, 0, Err(ReadEnd::TooLong), 3),
        (9, 5, 64, 0, Err(ReadEnd::TooLong), 3),
        (1, 0, 64, 0, Err(ReadEnd::TooLong), 0),
        (100, 1000, 1, 50, Err(ReadEnd::Failed), 51),
        (100, 1000, 64, 1, Err(ReadEnd::Failed), 100),
        (100, 1000, 64, 2, Err(ReadEnd::Failed), 36),
        (100, 1000, 64, 3, Err(ReadEnd::Failed), 0),
        (100, 1000, 64, 5, Ok(100), 0),
        (200_000, 200_000, 100_000, 0, Ok(200_000), 0),
    ];
    for (held, most, piece, call, want, left) in cases {
        let mut source = source(rt.alloc(), held, piece, call)?;
        let all = numbered(rt.alloc(), held)?;
        let got = read_all(rt.alloc(), &mut source, most as usize);
        match (got, want) {
            (Ok(bytes), Ok(_)) => assert_eq!(rt; bytes.as_slice(), all.as_slice()),
            (Err(end), Err(said)) => assert_eq!(rt;
                end,
                said,
                "of {held} bytes in pieces of {piece}"
            ),
            _ => assert!(rt; false, "of {held} bytes in pieces of {piece}"),
        }
        // What is left comes at the next read, in its place.
        let rest = read_all(rt.alloc(), &mut source, 1_000_000)
            .ok()
            .ok_or("a second fault")?;
        assert_eq!(rt; rest.len(), left as usize);
        assert!(rt; all.as_slice().ends_with(rest.as_slice()));
    }
    Ok(())
}

#[test]
fn pushes_all_or_a_front(rt: HostRuntime) -> Result<(), Fail> {
    // a piece, the room, at most at a call, the call that fails (0: none): what comes, how many bytes are written
    let cases: [(u32, usize, usize, u64, Result<(), Failed>, u32); 9] = [
        (0, 0, 1, 1, Ok(()), 0),
        (1, 0, 1, 0, Err(Failed), 0),
        (100, 100, 1, 0, Ok(()), 100),
        (100, 100, 64, 0, Ok(()), 100),
        (100, 99, 64, 0, Err(Failed), 99),
        (100, 1000, 1, 50, Err(Failed), 49),
        (100, 1000, 64, 1, Err(Failed), 0),
        (100, 1000, 64, 2, Err(Failed), 64),
        (100, 1000, 64, 3, Ok(()), 100),
    ];
    for (count, room, most, call, want, written) in cases {
        let calls = failing(rt.alloc(), call)?;
        let mut sink = MemSink::new(rt.alloc(), room, most.max(1), calls)
            .ok()
            .ok_or("no memory")?;
        let got = push_all(&mut sink, numbered(rt.alloc(), count)?.as_slice());
        assert_eq!(rt;
            got,
            want,
            "{count} bytes into room for {room}, {most} at a call"
        );
        assert_eq!(rt; sink.bytes(), numbered(rt.alloc(), written)?.as_slice());
    }
    Ok(())
}

#[test]
fn an_empty_piece_makes_no_call(rt: HostRuntime) -> Result<(), Fail> {
    let calls = failing(rt.alloc(), 1)?;
    let mut sink = MemSink::new(rt.alloc(), 10, 4, calls)
        .ok()
        .ok_or("no memory")?;
    assert_eq!(rt; push_all(&mut sink, &[]), Ok(()));
    assert_eq!(rt; sink.push(&[1, 2, 3]), Err(Failed));
    assert_eq!(rt; sink.push(&[1, 2, 3]), Ok(3));
    Ok(())
}

/// A reader and a writer that fail at one call, counted from 1 downwards.
#[derive(Drop)]
struct Halting<T> {
    inner: T,
    calls_left: u32,
}

impl<T> Halting<T> {
    fn turn(&mut self) -> io::Result<()> {
        let now = self.calls_left;
        self.calls_left = now.saturating_sub(1);
        if now == 1 {
            return Err(io::Error::from(io::ErrorKind::WouldBlock));
        }
        Ok(())
    }
}

impl<T: Read> Read for Halting<T> {
    fn read(&mut self, buf: &mut [u8]) -> io::Result<usize> {
        self.turn()?;
        self.inner.read(buf)
    }
}

impl<T: Write> Write for Halting<T> {
    fn write(&mut self, buf: &[u8]) -> io::Result<usize> {
        self.turn()?;
        self.inner.write(buf)
    }

    fn flush(&mut self) -> io::Result<()> {
        self.inner.flush()
    }
}

#[test]
fn a_reader_of_std_is_a_source(rt: HostRuntime) -> Result<(), Fail> {
    let all = numbered(rt.alloc(), 100_000)?;
    let mut whole = StdSource::new(all.as_slice());
    let bytes = read_all(rt.alloc(), &mut whole, 100_000)
        .ok()
        .ok_or("a fault")?;
    assert_eq!(rt; bytes.as_slice(), all.as_slice());

    let inner = all.as_slice();
    let mut halting = StdSource::new(Halting {
        inner,
        calls_left: 2,
    });
    let end = read_all(rt.alloc(), &mut halting, 100_000).err();
    assert_eq!(rt; end, Some(ReadEnd::Failed));
    let rest = read_all(rt.alloc(), &mut halting, 100_000)
        .ok()
        .ok_or("a second fault")?;
    assert_eq!(rt; rest.len(), 100_000 - 65_536);
    Ok(())
}

#[test]
fn a_writer_of_std_is_a_sink(rt: HostRuntime) -> Result<(), Fail> {
    let mut written = Vec::new(rt.alloc());
    {
        let mut sink = StdSink::new(&mut written);
        assert_eq!(rt; push_all(&mut sink, b"2+3\n"), Ok(()));
        assert_eq!(rt; push_all(&mut sink, b"5"), Ok(()));
    }
    assert_eq!(rt; written.as_slice(), b"2+3\n5".as_slice());

    let mut short = [0u8; 3];
    {
        let mut sink = StdSink::new(&mut short[..]);
        assert_eq!(rt; push_all(&mut sink, b"abcde"), Err(Failed));
    }
    assert_eq!(rt; short.as_slice(), b"abc".as_slice());

    let mut again = Vec::new(rt.alloc());
    {
        let inner = &mut again;
        let mut sink = StdSink::new(Halting {
            inner,
            calls_left: 2,
        });
        assert_eq!(rt; push_all(&mut sink, b"ab"), Ok(()));
        assert_eq!(rt; push_all(&mut sink, b"cd"), Err(Failed));
        assert_eq!(rt; push_all(&mut sink, b"ef"), Ok(()));
    }
    assert_eq!(rt; again.as_slice(), b"abef".as_slice());
    Ok(())
}

#[test]
fn a_long_script_is_read_byte_by_byte_in_a_moment(rt: HostRuntime) -> Result<(), Fail> {
    let mut source = source(rt.alloc(), 1 << 20, 1, 0)?;
    let bytes = read_all(rt.alloc(), &mut source, 1 << 20)
        .ok()
        .ok_or("a fault")?;
    assert_eq!(rt; bytes.len(), 1 << 20);
    Ok(())
}
