//! Readers and writers of std as sources and sinks.

ghost use Rattle.std.specs.Prelude.{◌≡◌, ◌<◌, ◌≤◌, None, length, take, IfOk, OnOk, OnErr};
ghost use Rattle.std.specs.Io.KnownBytes.{ReadConsumes, WriteAppends};
ghost use Rattle.apl_outside.specs.Adapters.{reader_of, source_faults, writer_of, sink_faults};
ghost use Rattle.apl_outside.specs.Bytes.{Loses, Gains};
ghost use Rattle.apl_outside.specs.Faults.{Rose, one_more};

use crate::sinks::Sink;
use crate::sources::{Failed, Source};
use std::io::{Read, Write};

/// A reader of std as a source. It tells no bytes. Its count of faults stands still at `u64::MAX`.
#[derive(Drop)]
pub struct StdSource<R> {
    inner: R,
    faults: u64,
}

impl<R: Read> StdSource<R> {
    /// A source over this reader, with no fault so far.
    pub fn new(inner: R) -> StdSource<R>
        ensures reader { reader_of result ≡ inner }
        ensures none_yet { source_faults result ≡ 0 }
    {
        StdSource { inner, faults: 0 }
    }
}

impl<R: Read> Source for StdSource<R> {
    ghost left = { λ _. None };

    ghost faults = { λ s. source_faults s };

    /// Reads from the reader; a fault of it is counted.
    fn pull(&mut self, buf: &mut [u8]) -> Result<usize, Failed>
        requires { 0 < length buf.old }
        ensures bound { IfOk result (λ n. n ≤ length buf.new) }
        ensures taken { IfOk result (λ n. Loses None None (take n buf.new)) }
        ensures failed { OnErr result (Rose (source_faults self.old) (source_faults self.new)) }
        ensures never_falls { source_faults self.old ≤ source_faults self.new }

        // Each fault is counted, and nothing else is; the reader gave these bytes.
        ensures ok { OnOk result (source_faults self.new ≡ source_faults self.old) }
        ensures err { OnErr result (source_faults self.new ≡ one_more (source_faults self.old)) }
        ensures read { ReadConsumes (R.remaining (reader_of self.old))
            (R.remaining (reader_of self.new)) result buf.new }
    {
        match self.inner.read(buf) {
            Ok(count) => Ok(count),
            Err(_) => {
                self.faults = self.faults.saturating_add(1);
                Err(Failed)
            }
        }
    }
}

/// A writer of std as a sink. It tells no bytes. Its count of faults stands still at `u64::MAX`.
#[derive(Drop)]
pub struct StdSink<W> {
    inner: W,
    faults: u64,
}

impl<W: Write> StdSink<W> {
    /// A sink over this writer, with no fault so far.
    pub fn new(inner: W) -> StdSink<W>
        ensures writer { writer_of result ≡ inner }
        ensures none_yet { sink_faults result ≡ 0 }
    {
        StdSink { inner, faults: 0 }
    }
}

impl<W: Write> Sink for StdSink<W> {
    ghost written = { λ _. None };

    ghost faults = { λ s. sink_faults s };

    /// A write that takes no byte is a fault, as one that fails.
    fn push(&mut self, piece: &[u8]) -> Result<usize, Failed>
        requires { 0 < length piece.now }
        ensures some { IfOk result (λ n. 0 < n) }
        ensures bound { IfOk result (λ n. n ≤ length piece.now) }
        ensures added { IfOk result (λ n. Gains None None (take n piece.now)) }

        ensures failed { OnErr result (Rose (sink_faults self.old) (sink_faults self.new)) }
        ensures never_falls { sink_faults self.old ≤ sink_faults self.new }

        // Each fault is counted, and nothing else is; the writer took these bytes.
        ensures ok { OnOk result (sink_faults self.new ≡ sink_faults self.old) }
        ensures err { OnErr result (sink_faults self.new ≡ one_more (sink_faults self.old)) }
        ensures wrote { WriteAppends (W.contents (writer_of self.old))
            (W.contents (writer_of self.new)) result piece.now }
    {
        match self.inner.write(piece) {
            Ok(0) | Err(_) => {
                self.faults = self.faults.saturating_add(1);
                Err(Failed)
            }
            Ok(count) => Ok(count),
        }
    }
}
