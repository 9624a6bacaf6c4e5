//! A writer of std's that takes few bytes at a time.
use std::alloc::Global;
use std::io::{self, ErrorKind, Write};

/// Keeps what it takes: at most so many bytes a call, after so many calls none, and it may be interrupted before each.
#[derive(Drop)]
pub struct Few {
    pub bytes: Vec<u8>,
    pub calls: usize,
    pub flushes: usize,
    size: usize,
    sound: usize,
    interrupts: bool,
    was_interrupted: bool,
}

impl Few {
    /// Takes `size` bytes a call.
    pub fn new(alloc: Global, size: usize) -> Few {
        Few::failing(alloc, size, usize::MAX)
    }

    /// Takes `size` bytes a call, and fails behind `sound` calls, as a pipe that is closed.
    pub fn failing(alloc: Global, size: usize, sound: usize) -> Few {
        Few {
            bytes: Vec::new(alloc),
            calls: 0,
            flushes: 0,
            size,
            sound,
            interrupts: false,
            was_interrupted: false,
        }
    }

    /// Takes `size` bytes a call, and is interrupted before each.
    pub fn interrupted(alloc: Global, size: usize) -> Few {
        let mut few = Few::new(alloc, size);
        few.interrupts = true;
        few
    }
}

impl Write for Few {
    fn write(&mut self, buf: &[u8]) -> io::Result<usize> {
        if self.interrupts && !self.was_interrupted {
            self.was_interrupted = true;
            return Err(io::Error::from(ErrorKind::Interrupted));
        }
        self.was_interrupted = false;
        self.calls = self.calls.saturating_add(1);
        if self.sound < self.calls {
            return Err(io::Error::from(ErrorKind::BrokenPipe));
        }
        let n = self.size.min(buf.len());
        if self.bytes.extend_from_slice(&buf[..n]).is_err() {
            return Err(io::Error::from(ErrorKind::OutOfMemory));
        }
        Ok(n)
    }

    fn flush(&mut self) -> io::Result<()> {
        self.flushes = self.flushes.saturating_add(1);
        Ok(())
    }
}
