//! std's readers and writers as sources and sinks. Of the bytes of files, pipes and terminals std tells nothing.

ghost use Rattle.std.specs.Prelude.{ℕ, ◌≡◌, ◌≤◌, ◌<◌, length, take, IfOk, OnErr, None};
ghost use Rattle.std.specs.Io.{WritesAtMost};
ghost use Rattle.std.specs.Io.KnownBytes.{Appends, WriteAppends};
ghost use Rattle.rd_io.specs.Causes.{GainsPart, HasCause, one_more};
ghost use Rattle.rd_io.specs.Readers.{reader_of, faults_of};
ghost use Rattle.rd_io.specs.Writers.{writer_of, sink_faults_of};

use crate::sink::Sink;
use crate::source::{Failed, Source};
use std::io::{Read, Write};

/// A reader of std as a source, which tells of its bytes what the reader tells. Each `Err` of the reader is a fault.
#[derive(Drop)]
pub struct ReadSource<R> {
    reader: R,
    faults: u64,
}

impl<R: Read> ReadSource<R> {
    /// A source of the reader's bytes, with no fault so far.
    pub fn new(reader: R) -> ReadSource<R>
        ensures reader { reader_of result ≡ reader }
        ensures faults { faults_of result ≡ 0 }
    {
        ReadSource { reader, faults: 0 }
    }
}

impl<R: Read> Source for ReadSource<R> {
    ghost use Rattle.rd_io.specs.Readers.{reader_of, faults_of};

    ghost left = { λ s. R.remaining (reader_of s) };

    ghost faults = { λ s. faults_of s };

    fn read(&mut self, buf: &mut [u8]) -> Result<usize, Failed> {
        match self.reader.read(buf) {
            Ok(count) => Ok(count),
            Err(_) => {
                self.faults = self.faults.saturating_add(1);
                Err(Failed)
            }
        }
    }
}

/// A writer of std as a sink that flushes after each write. One fault is counted for each `Err` of the writer or of its
/// flush, and one where it takes nothing of a piece that is not empty.
#[derive(Drop)]
pub struct WriteSink<W> {
    writer: W,
    faults: u64,
}

impl<W: Write> WriteSink<W> {
    /// A sink that writes to the writer, with no fault so far.
    pub fn new(writer: W) -> WriteSink<W>
        ensures writer { writer_of result ≡ writer }
        ensures faults { sink_faults_of result ≡ 0 }
    {
        WriteSink { writer, faults: 0 }
    }

    fn fail(&mut self) -> Failed
        ensures counted { sink_faults_of self.new ≡ one_more (sink_faults_of self.old) }
        ensures writer { writer_of self.new ≡ writer_of self.old }
    {
        self.faults = self.faults.saturating_add(1);
        Failed
    }
}

impl<W: Write> Sink for WriteSink<W> {
    ghost use Rattle.std.specs.Prelude.{None};
    ghost use Rattle.rd_io.specs.Writers.{sink_faults_of};

    ghost written = { λ s. None };

    ghost faults = { λ s. sink_faults_of s };

    /// The writer has gained what is said to be taken, and after `Failed` a prefix of the piece.
    #[tactic(auto, using(crate::proofs::Bytes::gains_part))]
    fn write(&mut self, piece: &[u8]) -> Result<usize, Failed>
        ensures bound { WritesAtMost result piece.now }
        ensures some { IfOk result (λ n. 0 < length piece.now → 0 < n) }
        ensures bytes { WriteAppends None None result piece.now }
        ensures cause { HasCause (sink_faults_of self.old) (sink_faults_of self.new) result }
        ensures taken { IfOk result (λ n. Appends (W.contents (writer_of self.old))
            (W.contents (writer_of self.new)) (take n piece.now)) }
        ensures part { OnErr result (GainsPart (W.contents (writer_of self.old))
            (W.contents (writer_of self.new)) piece.now) }
    {
        match self.writer.write(piece) {
            Ok(count) => {
                if count == 0 && !piece.is_empty() {
                    return Err(self.fail());
                }
                match self.writer.flush() {
                    Ok(()) => Ok(count),
                    Err(_) => Err(self.fail()),
                }
            }
            Err(_) => Err(self.fail()),
        }
    }
}
