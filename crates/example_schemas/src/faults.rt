//! Devices that serve so many calls and then fail each time, with a kind of the caller's: a reader and a writer over one.
ghost use Rattle.std.specs.Prelude.{◌≡◌, ◌<◌, ◌≤◌, IfErr, OnOk, IsOk};
ghost use Rattle.wincode_io.specs.Failures.{IsTold};
ghost use Rattle.wincode_io.specs.SliceWriters.{slice_room};
ghost use Rattle.wincode_base.specs.Outcomes.{Front, GetOutcome, Wrote, WriteOutcome};
ghost use Rattle.example_schemas.specs.Faults.{HasServed, HasFailed, sound_device, over_device, slice_over};
ghost use Rattle.example_schemas.specs.Records.{record_size, record_read, record_write};

mod failing_reader;
mod failing_writer;
mod pieces;

pub use failing_reader::FailingReader;
pub use failing_writer::FailingWriter;
pub use pieces::Pieces;
use std::alloc::Global;
use std::io::{self, ErrorKind};
use std::marker::Model;
use wincode::io::{Lifetime, Reader, WriteWindow, Writer};
use wincode::{ReadResult, SchemaGet, SchemaWrite, WriteResult};

/// How many bytes a record has.
const RECORD_SIZE: usize = 41;

/// Reads a record over a device that may fail, which is asked once. Where it serves that call and the bytes
/// begin with a record, it is read; else it is refused as its schema says, or by the device.
pub fn read_record<'a>(
    alloc: Global,
    reader: &mut FailingReader<'a>,
) -> ReadResult<(u64, bool, [u8; 32])>
    ensures gave { GetOutcome record_read (λ v. (v.0, (v.1, v.2))) (over_device reader.old) (over_device reader.new) result }
    ensures served { OnOk result (HasServed reader.old.device reader.new.device) }
    ensures succeeds { 0 < reader.old.device.sound → Front record_read.reads reader.old.rest → IsOk result }
{
    let mut window = reader.as_trusted_for(RECORD_SIZE)?;
    <(u64, bool, [u8; 32]) as SchemaGet<Lifetime<'a>>>::get(alloc, &mut window)
}

/// Writes a record for which room was made: nothing is refused.
fn write_in_room<W: Writer>(writer: &mut W, src: (u64, bool, [u8; 32])) -> WriteResult<()>
    requires room { record_size ≤ (W.state writer.old).ready }
    ensures ok { IsOk result }
    ensures wrote { OnOk result (Wrote record_write (W.state writer.old) (W.state writer.new) (src.0, (src.1, src.2))) }
{
    let mut window = WriteWindow::new(writer, RECORD_SIZE);
    <(u64, bool, [u8; 32]) as SchemaWrite>::write(&mut window, &src)?;
    Ok(())
}

/// Writes a record over a device that may fail, which is asked once. Where it serves that call and there is
/// room, it is written; else it is refused as its schema says, or by the device.
pub fn write_record(writer: &mut FailingWriter, src: (u64, bool, [u8; 32])) -> WriteResult<()>
    ensures wrote { WriteOutcome record_write (slice_over writer.old) (slice_over writer.new) (src.0, (src.1, src.2)) (Unit {0}) result }
    ensures succeeds { 0 < writer.old.device.sound → record_size ≤ slice_room writer.old.content → IsOk result }
{
    writer.make_room(RECORD_SIZE)?;
    write_in_room(writer, src)
}

/// A device that serves so many calls more and then fails each time: with the caller's kind the first time, and with Other
/// afterwards. It counts its failures.
#[derive(Drop)]
pub(crate) struct Device {
    sound: usize,
    failures: usize,
    has_failed: bool,
    kind: ErrorKind,
}

impl Model for Device {
    ghost use Rattle.example_schemas.specs.Faults.{DeviceState};

    ghost Value = { DeviceState };

    ghost view = { λ d. record { sound = d.sound; failures = d.failures; has_failed = d.has_failed; last = d.kind } };
}

impl Device {
    /// A device that serves `sound` calls, has not failed, and fails with this kind.
    pub(crate) fn new(sound: usize, kind: ErrorKind) -> Device
        ensures { result ≡ sound_device sound kind }
    {
        Device {
            sound,
            failures: 0,
            has_failed: false,
            kind,
        }
    }

    /// How often it failed; the count stays at `usize::MAX`.
    pub(crate) fn failures(&self) -> usize
        ensures { result ≡ self.now.failures }
    {
        self.failures
    }

    /// Asks it once.
    pub(crate) fn ask(&mut self) -> io::Result<()>
        ensures ok { OnOk result (HasServed self.old self.new) }
        ensures err { IfErr result (λ e. HasFailed self.old self.new × IsTold self.old.has_failed self.new.has_failed self.new.last e) }
    {
        if 0 < self.sound {
            self.sound -= 1;
            return Ok(());
        }
        self.failures = self.failures.saturating_add(1);
        let kind = if self.has_failed {
            ErrorKind::Other
        } else {
            self.kind
        };
        self.has_failed = true;
        Err(io::Error::from(kind))
    }
}
