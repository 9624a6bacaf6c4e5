//! Sinks of bytes.
ghost use Rattle.std.specs.Prelude.{IfOk, IfErr, OnOk};
ghost use Rattle.wincode_io.specs.Sinks.{SinkState, TookFront, TookNone, Flushed};

use std::io;

/// Takes bytes in pieces, of whatever lengths, until it takes no more or fails.
pub trait Sink {
    // The bytes that it took, how many of them stand before its last flush, how often it failed and as what the last time.
    ghost state: { Self → SinkState };

    /// Takes the first of these bytes, and says how many. 0 for bytes that aren't empty means that it takes
    /// no more, and counts as a failure of kind WriteZero. Where it is refused it took nothing, its count of failures is
    /// above 0, and the kind of the error is that of its last failure.
    fn write_some(&mut self, bytes: &[u8]) -> io::Result<usize>
        ensures ok { IfOk result (λ n. TookFront n bytes.now (state self.old) (state self.new)) }
        ensures err { IfErr result (TookNone (state self.old) (state self.new)) };

    /// Passes on what it keeps itself. It takes nothing.
    fn flush(&mut self) -> io::Result<()>
        ensures ok { OnOk result (Flushed (state self.old) (state self.new)) }
        ensures err { IfErr result (TookNone (state self.old) (state self.new)) };
}

/// A sink that is lent.
impl<S: Sink> Sink for &mut S {
    ghost state = { λ s. S.state s.now };

    fn write_some(&mut self, bytes: &[u8]) -> io::Result<usize> {
        Sink::write_some(&mut **self, bytes)
    }

    fn flush(&mut self) -> io::Result<()> {
        Sink::flush(&mut **self)
    }
}
