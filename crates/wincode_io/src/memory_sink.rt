//! A sink in memory.
ghost use Rattle.std.specs.Prelude.{◌≡◌, [], length, IfOk, IfErr, OnOk, IsOk};
ghost use Rattle.wincode_io.specs.Sinks.{TookFront, TookNone, Flushed};

use super::sink::Sink;
use std::alloc::Global;
use std::io::{self, ErrorKind};
use std::marker::Model;

/// A vector that takes all bytes, and is refused only for memory. The count of its failures stays at
/// `usize::MAX`.
///
/// To contracts it is the bytes, how many of them stood there at its last flush, and the count.
#[derive(Drop)]
pub struct MemorySink {
    bytes: Vec<u8>,
    flushed: usize,
    failures: usize,
}

impl Model for MemorySink {
    ghost use Rattle.std.specs.declared.io.ErrorKind.TheVariants.{OutOfMemory};
    ghost use Rattle.wincode_io.specs.Sinks.{SinkState};

    ghost Value = { SinkState };

    ghost view = { λ s. record { sent = s.bytes.items; flushed = s.flushed; failures = s.failures; last = OutOfMemory } };
}

impl MemorySink {
    /// A sink that has taken nothing.
    pub fn new(alloc: Global) -> MemorySink
        ensures { result ≡ record { sent = []; flushed = 0; failures = 0; last = ErrorKind.OutOfMemory } }
    {
        MemorySink {
            bytes: Vec::new(alloc),
            flushed: 0,
            failures: 0,
        }
    }

    /// The bytes that it took.
    pub fn as_slice(&self) -> &[u8]
        ensures { result.now ≡ self.now.sent }
    {
        self.bytes.as_slice()
    }

    /// How often memory was refused.
    pub fn failures(&self) -> usize
        ensures { result ≡ self.now.failures }
    {
        self.failures
    }

    /// The bytes that it took.
    pub fn into_bytes(self) -> Vec<u8>
        ensures { result.items ≡ self.sent }
    {
        let MemorySink {
            bytes,
            flushed: _,
            failures: _,
        } = self;
        bytes
    }
}

impl Sink for MemorySink {
    ghost state = { λ s. s };

    /// It takes all, or is refused for memory.
    fn write_some(&mut self, bytes: &[u8]) -> io::Result<usize>
        ensures ok { IfOk result (λ n. TookFront n bytes.now self.old self.new) }
        ensures all { IfOk result (λ n. (n ≡ length bytes.now) × (self.new.failures ≡ self.old.failures)) }
        ensures err { IfErr result (TookNone self.old self.new) }
    {
        if self.bytes.extend_from_slice(bytes).is_err() {
            self.failures = self.failures.saturating_add(1);
            return Err(io::Error::from(ErrorKind::OutOfMemory));
        }
        Ok(bytes.len())
    }

    fn flush(&mut self) -> io::Result<()>
        ensures ok { OnOk result (Flushed self.old self.new) }
        ensures err { IfErr result (TookNone self.old self.new) }
        ensures always { IsOk result }
    {
        self.flushed = self.bytes.len();
        Ok(())
    }
}
