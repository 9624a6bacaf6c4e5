//! A writer whose device fails.
ghost use Rattle.std.specs.Prelude.{◌≡◌, ◌≤◌, ◌+◌, ◌-◌, max, [], false, length, OnOk, OnErr, IfErr};
ghost use Rattle.std.specs.Borrow.{GName};
ghost use Rattle.wincode_io.specs.SliceWriters.{SliceState, slice_put, slice_room};
ghost use Rattle.wincode_io.specs.SliceWriterLaws.{slice_laws};
ghost use Rattle.wincode_io.specs.WriterLaws.{min_right};
ghost use Rattle.wincode_io.specs.Writers.{HasRoom, Took, BytesWriteRefused};
ghost use Rattle.example_schemas.specs.Faults.{HasServed, AskedWriteRefused, slice_over, sound_device};

use super::Device;
use std::io::ErrorKind;
use std::marker::Model;
use wincode::io::{SliceWriter, WriteError, WriteResult, Writer, ZeroCopy};

/// Overwrites a slice from its front, as a device does that serves so many calls and then fails each
/// time. `make_room`, which `write` and the other calls make once, asks the device, and without it no
/// room is made; windows don't.
#[derive(Drop)]
pub struct FailingWriter<'a> {
    slice: SliceWriter<'a>,
    made: usize,
    device: Device,
}

impl<'a> Model for FailingWriter<'a> {
    ghost use Rattle.example_schemas.specs.Faults.{WrittenTo};

    ghost Value = { WrittenTo };

    ghost view = { λ w. record {
      content = (⟦<SliceWriter<'static> as Writer>⟧.state w.slice).content;
      slice = (⟦<SliceWriter<'static> as Writer>⟧.state w.slice).kept;
      made = w.made;
      device = w.device;
    } };
}

impl<'a> FailingWriter<'a> {
    /// A writer that has written nothing, whose device serves `sound` calls, has not failed, and fails with this kind.
    pub fn new(bytes: &'a mut [u8], sound: usize, kind: ErrorKind) -> FailingWriter<'a>
        ensures { result ≡ record { content = record { done = []; left = bytes.old }; slice = bytes.entry.ghost_name; made = 0; device = sound_device sound kind } }
    {
        FailingWriter {
            slice: SliceWriter::new(bytes),
            made: 0,
            device: Device::new(sound, kind),
        }
    }

    /// The bytes that were written so far.
    pub fn written(&self) -> &[u8]
        ensures { result.now ≡ self.now.content.done }
    {
        self.slice.written()
    }

    /// How often the device failed; the count stays at `usize::MAX`.
    pub fn failures(&self) -> usize
        ensures { result ≡ self.now.device.failures }
    {
        self.device.failures()
    }
}

/// Once the device fails, each call that asks it is `Io`, of the caller's kind the first time and of kind Other afterwards,
/// and changes nothing else.
impl<'a> Writer for FailingWriter<'a> {
    ghost Content = { SliceState };

    ghost put = { slice_put };

    ghost room = { slice_room };

    ghost Kept = { GName };

    ghost state = { slice_over };

    ghost buffers = { false };

    fn make_room(&mut self, n: usize) -> WriteResult<()>
        ensures ok { OnOk result (HasRoom n (slice_over self.old) (slice_over self.new)) }
        ensures err { IfErr result (BytesWriteRefused n (slice_over self.old) (slice_over self.new)) }
        ensures served { OnOk result (HasServed self.old.device self.new.device) }
        ensures failed { IfErr result (AskedWriteRefused self.old.device self.new.device) }
        ensures made { OnOk result (self.new.made ≡ max self.old.made n) }
        ensures kept { OnErr result (self.new.made ≡ self.old.made) }
    {
        self.device.ask().map_err(WriteError::Io)?;
        self.slice.make_room(n)?;
        self.made = self.made.max(n);
        Ok(())
    }

    fn write_ready(&mut self, src: &[u8])
        requires { length src.now ≤ (slice_over self.old).ready }
        ensures took { Took src.now (slice_over self.old) (slice_over self.new) }
        ensures ready { (slice_over self.old).ready ≤ (slice_over self.new).ready + length src.now }
        ensures made { self.new.made ≡ self.old.made - length src.now }
    {
        self.slice.write_ready(src);
        self.made = self.made.saturating_sub(src.len());
    }

    fn write_ready_t<T: ZeroCopy>(&mut self, src: &T)
        requires { T.size ≤ (slice_over self.old).ready }
        ensures took { Took (T.form src.now) (slice_over self.old) (slice_over self.new) }
        ensures ready { (slice_over self.old).ready ≤ (slice_over self.new).ready + T.size }
        ensures is_valid { T.is_valid src.now }
        ensures made { self.new.made ≡ self.old.made - T.size }
    {
        let before = self.slice.written().len();
        self.slice.write_ready_t(src);
        let size = self.slice.written().len() - before;
        self.made = self.made.saturating_sub(size);
    }

    fn finish(&mut self) -> WriteResult<()> {
        Ok(())
    }

    ghost writer_laws = { slice_laws };

    ghost ready_room = { λ w. min_right w.made (slice_room w.content) };
}
