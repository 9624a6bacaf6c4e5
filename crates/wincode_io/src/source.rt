//! Sources of bytes.
ghost use Rattle.std.specs.Prelude.{◌≤◌, length, take, IfOk, IfErr};
ghost use Rattle.wincode_io.specs.Sources.{SourceState, of_memory, Gave, Failed};

use std::io::{self, Read};

/// Gives bytes in pieces, of whatever lengths, until it ends or fails.
pub trait Source {
    // The bytes that will come, how often it failed and as what the last time, and whether what is said of its bytes holds.
    ghost state: { Self → SourceState };

    /// Puts the next bytes at the front of `buf`, and says how many. 0 for a buffer that isn't empty
    /// means the end. Where it fails no byte is lost, its count of failures is above 0, and
    /// the kind of the error is that of its last failure.
    fn read_some(&mut self, buf: &mut [u8]) -> io::Result<usize>
        ensures within { IfOk result (λ n. n ≤ length buf.new) }
        ensures ok { IfOk result (λ n. Gave (length buf.old) (take n buf.new) (state self.old) (state self.new)) }
        ensures err { IfErr result (Failed (state self.old) (state self.new)) };
}

/// Bytes of memory, in one piece or as many as they are asked for in. It never fails.
impl<'a> Source for &'a [u8] {
    ghost state = { λ s. of_memory s.now };

    fn read_some(&mut self, buf: &mut [u8]) -> io::Result<usize> {
        self.read(buf)
    }
}
