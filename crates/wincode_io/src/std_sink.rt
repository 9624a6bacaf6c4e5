//! std's writers as sinks.
ghost use Rattle.std.specs.Prelude.{◌≡◌, ◌≢◌, ◌≤◌, ◌<◌, [], length, IfOk, IfErr, OnOk};
ghost use Rattle.std.specs.Io.{WritesAtMost};
ghost use Rattle.std.specs.Io.KnownBytes.{Keeps, Appends, WriteAppends};
ghost use Rattle.std.specs.IoError.{error_kind};
ghost use Rattle.std.specs.declared.io.ErrorKind.TheVariants.{Other};
ghost use Rattle.wincode_io.specs.Sinks.{TookFront, TookNone, Flushed};
ghost use Rattle.wincode_io.specs.StdSinks.{std_sink_state};

use super::sink::Sink;
use super::trace::Trace;
use std::io::{self, ErrorKind, Write};
use std::marker::Model;
use std::snapshot::Snapshot;

/// One of std's writers. An interrupted call is made again; every other error of the writer is a failure, and
/// so is a write of some bytes that takes none. The count stays at `usize::MAX` once there.
///
/// To contracts it is the writer, the writer as it was when the sink was made, the bytes that the writer said it
/// took since, how many of them stood before its last flush, the count, and the kind of the last failure.
#[derive(Drop)]
pub struct StdSink<W: Write> {
    inner: W,
    first: Snapshot<W>,
    sent: Trace,
    flushed: Snapshot<Trace>,
    failures: usize,
    last: Snapshot<ErrorKind>,
}

impl<W: Write> Model for StdSink<W> {
    ghost use Rattle.std.specs.Prelude.{length};
    ghost use Rattle.std.specs.Io.KnownBytes.{Appends};
    ghost use Rattle.wincode_io.specs.StdSinks.{WrappedWriter};

    ghost Value = { WrappedWriter W };

    ghost view = { λ s. record { inner = s.inner; first = s.first.value; sent = s.sent.bytes; flushed = length s.flushed.value.bytes; failures = s.failures; last = s.last.value } };

    ghost invariant = { λ s. Appends (W.contents s.first.value) (W.contents s.inner) s.sent.bytes };
}

impl<W: Write> StdSink<W> {
    /// A sink that this writer is, and that has taken nothing.
    pub fn new(inner: W) -> Self
        ensures { result ≡ record { inner = inner; first = inner; sent = []; flushed = 0; failures = 0; last = Other } }
    {
        let first = Snapshot::of(&inner);
        let sent = Trace::new();
        let flushed = Snapshot::of(&sent);
        StdSink {
            inner,
            first,
            sent,
            flushed,
            failures: 0,
            last: Snapshot::of(&ErrorKind::Other),
        }
    }

    /// The writer. Where it tells what it holds, that is what it held when the sink was made, and then the bytes
    /// that it took.
    pub fn into_inner(self) -> W
        ensures inner { result ≡ self.inner }
        ensures holds { Appends (W.contents self.first) (W.contents result) self.sent }
    {
        let StdSink {
            inner,
            first: _,
            sent: _,
            flushed: _,
            failures: _,
            last: _,
        } = self;
        inner
    }

    /// How often it failed.
    pub fn failures(&self) -> usize
        ensures { result ≡ self.now.failures }
    {
        self.failures
    }
}

impl<W: Write> Sink for StdSink<W> {
    ghost state = { std_sink_state };

    fn write_some(&mut self, bytes: &[u8]) -> io::Result<usize>
        ensures ok { IfOk result (λ n. TookFront n bytes.now (std_sink_state self.old) (std_sink_state self.new)) }
        ensures err { IfErr result (TookNone (std_sink_state self.old) (std_sink_state self.new)) }
        ensures retried { IfErr result (λ e. error_kind e ≢ ErrorKind.Interrupted) }
        ensures first { self.new.first ≡ self.old.first }
    {
        match write_uninterrupted(&mut self.inner, bytes) {
            Ok(n) => {
                self.sent.note(&bytes[..n]);
                if n == 0 && !bytes.is_empty() {
                    self.failures = self.failures.saturating_add(1);
                    self.last = Snapshot::of(&ErrorKind::WriteZero);
                }
                Ok(n)
            }
            Err(e) => {
                self.failures = self.failures.saturating_add(1);
                self.last = Snapshot::of(&e.kind());
                Err(e)
            }
        }
    }

    fn flush(&mut self) -> io::Result<()>
        ensures ok { OnOk result (Flushed (std_sink_state self.old) (std_sink_state self.new)) }
        ensures err { IfErr result (TookNone (std_sink_state self.old) (std_sink_state self.new)) }
        ensures retried { IfErr result (λ e. error_kind e ≢ ErrorKind.Interrupted) }
        ensures first { self.new.first ≡ self.old.first }
    {
        match flush_uninterrupted(&mut self.inner) {
            Ok(()) => {
                self.flushed = Snapshot::of(&self.sent);
                Ok(())
            }
            Err(e) => {
                self.failures = self.failures.saturating_add(1);
                self.last = Snapshot::of(&e.kind());
                Err(e)
            }
        }
    }
}

/// One write, made again where it is interrupted.
fn write_uninterrupted<W: Write>(inner: &mut W, bytes: &[u8]) -> io::Result<usize>
    ensures bound { WritesAtMost result bytes.now }
    ensures bytes { WriteAppends (W.contents inner.old) (W.contents inner.new) result bytes.now }
    ensures retried { IfErr result (λ e. error_kind e ≢ ErrorKind.Interrupted) }
{
    for _ in 0..u64::MAX {
        match inner.write(bytes) {
            Ok(n) => return Ok(n),
            Err(e) => {
                if e.kind() != ErrorKind::Interrupted {
                    return Err(e);
                }
            }
        }
    }
    Err(io::Error::from(ErrorKind::Other))
}

/// One flush, made again where it is interrupted.
fn flush_uninterrupted<W: Write>(inner: &mut W) -> io::Result<()>
    ensures bytes { Keeps (W.contents inner.old) (W.contents inner.new) }
    ensures retried { IfErr result (λ e. error_kind e ≢ ErrorKind.Interrupted) }
{
    for _ in 0..u64::MAX {
        match inner.flush() {
            Ok(()) => return Ok(()),
            Err(e) => {
                if e.kind() != ErrorKind::Interrupted {
                    return Err(e);
                }
            }
        }
    }
    Err(io::Error::from(ErrorKind::Other))
}
