//! Writers that count: the failures of a device, and the calls of `finish`.
ghost use Rattle.std.specs.Prelude.{◌≡◌, ℕ, ◌+◌, ◌-◌, ◌<◌, ◌≤◌, Bool, true, false, [], IsTrue, min, List, length, ◌++◌, vec_capacity};
ghost use Rattle.std.specs.declared.io.ErrorKind.TheVariants.{Other};
ghost use Rattle.wincode_io.specs.Writers.{in_memory, byte_limit};
ghost use Rattle.wincode_io.specs.WriterLaws.{append_laws, min_right};

use std::io;
use wincode_io::{Trace, WriteError, WriteResult, Writer, ZeroCopy};

/// Appends to a vector, as a device does that makes room so many times and then fails each time.
#[derive(Drop)]
pub struct Counted {
    bytes: Vec<u8>,
    sound: usize,
    failures: usize,
    has_failed: bool,
}

impl Counted {
    /// A device with these bytes, which makes room `sound` times and has not failed.
    pub fn new(bytes: Vec<u8>, sound: usize) -> Counted
        ensures bytes { result.bytes ≡ bytes }
        ensures sound { result.sound ≡ sound }
        ensures failures { result.failures ≡ 0 }
        ensures has_failed { result.has_failed ≡ false }
    {
        Counted {
            bytes,
            sound,
            failures: 0,
            has_failed: false,
        }
    }

    /// The bytes that the device took.
    pub fn bytes(&self) -> &[u8]
        ensures { result.now ≡ self.now.bytes.items }
    {
        self.bytes.as_slice()
    }

    /// How often the device failed; the count stays at `usize::MAX`.
    pub fn failures(&self) -> usize
        ensures { result ≡ self.now.failures }
    {
        self.failures
    }

    /// Asks the device once. `false` is a failure, which is counted.
    fn ask(&mut self) -> bool
        ensures bytes { self.new.bytes ≡ self.old.bytes }
        ensures answer { result ≡ true → (0 < self.old.sound) × (self.new.sound + 1 ≡ self.old.sound) × (self.new.failures ≡ self.old.failures) × (self.new.has_failed ≡ self.old.has_failed) }
        ensures failure { result ≡ false → (self.old.sound ≡ 0) × (self.new.sound ≡ 0) × (self.new.failures ≡ min (self.old.failures + 1) byte_limit) × (self.new.has_failed ≡ true) }
    {
        if 0 < self.sound {
            self.sound -= 1;
            return true;
        }
        self.failures = self.failures.saturating_add(1);
        self.has_failed = true;
        false
    }
}

/// Appends. Once the device fails, so does each call that asks for room, as `Io` of kind Other.
impl Writer for Counted {
    ghost Content = { List ℕ };

    ghost put = { λ s a. s ++ a };

    ghost room = { λ s. byte_limit - length s };

    ghost Kept = { Unit };

    ghost state = { λ c. record {
      content = c.bytes.items;
      kept = tt;
      never_fails = false;
      failures = c.failures;
      has_failed = c.has_failed;
      last = Other;
      finishes = 0;
      ready = min (vec_capacity c.bytes - length c.bytes.items) (byte_limit - length c.bytes.items);
    } };

    ghost buffers = { false };

    fn make_room(&mut self, n: usize) -> WriteResult<()> {
        if usize::MAX - self.bytes.len() < n {
            return Err(WriteError::WriteSizeLimit(n));
        }
        if !self.ask() {
            return Err(WriteError::Io(io::Error::from(io::ErrorKind::Other)));
        }
        if self.bytes.reserve(n).is_err() {
            return Err(WriteError::OutOfMemory);
        }
        Ok(())
    }

    fn write_ready(&mut self, src: &[u8]) {
        let _ = self.bytes.extend_from_slice(src);
    }

    fn write_ready_t<T: ZeroCopy>(&mut self, src: &T) {
        self.bytes.write_ready_t(src);
    }

    fn finish(&mut self) -> WriteResult<()> {
        Ok(())
    }

    ghost writer_laws = { append_laws };

    ghost ready_room = { λ c. min_right (vec_capacity c.bytes - length c.bytes.items) (byte_limit - length c.bytes.items) };
}

/// Appends to a vector, as a writer does that keeps bytes back until it is finished, and counts how often
/// it was.
#[derive(Drop)]
pub struct Finishing {
    bytes: Vec<u8>,
    finished: usize,
    /// A byte for each call of `finish`.
    ends: Trace,
}

impl Finishing {
    /// A writer with these bytes, which was not finished yet.
    pub fn new(bytes: Vec<u8>) -> Finishing
        ensures bytes { result.bytes ≡ bytes }
        ensures finished { result.finished ≡ 0 }
        ensures ends { result.ends.bytes ≡ [] }
    {
        Finishing {
            bytes,
            finished: 0,
            ends: Trace::new(),
        }
    }

    /// The bytes that it took.
    pub fn bytes(&self) -> &[u8]
        ensures { result.now ≡ self.now.bytes.items }
    {
        self.bytes.as_slice()
    }

    /// How often it was finished; the count stays at `usize::MAX`.
    pub fn finished(&self) -> usize
        ensures { result ≡ self.now.finished }
    {
        self.finished
    }
}

/// Appends. A refused growth is `OutOfMemory`.
impl Writer for Finishing {
    ghost Content = { List ℕ };

    ghost put = { λ s a. s ++ a };

    ghost room = { λ s. byte_limit - length s };

    ghost Kept = { Unit };

    ghost state = { λ w. record (in_memory w.bytes.items tt (min (vec_capacity w.bytes - length w.bytes.items) (byte_limit - length w.bytes.items))) { finishes = length w.ends.bytes } };

    ghost buffers = { true };

    fn make_room(&mut self, n: usize) -> WriteResult<()> {
        self.bytes.make_room(n)
    }

    fn write_ready(&mut self, src: &[u8]) {
        self.bytes.write_ready(src);
    }

    fn write_ready_t<T: ZeroCopy>(&mut self, src: &T) {
        self.bytes.write_ready_t(src);
    }

    fn finish(&mut self) -> WriteResult<()> {
        self.finished = self.finished.saturating_add(1);
        self.ends.note(&[0]);
        Ok(())
    }

    ghost writer_laws = { append_laws };

    ghost ready_room = { λ w. min_right (vec_capacity w.bytes - length w.bytes.items) (byte_limit - length w.bytes.items) };
}
