//! A reader whose device fails.
ghost use Rattle.std.specs.Prelude.{◌≡◌, ◌≤◌, ◌-◌, max, OnOk, OnErr, IfOk, IfErr};
ghost use Rattle.wincode_io.specs.Readers.{Readies, Loses, Windowed, WindowRefused, BytesReadRefused};
ghost use Rattle.wincode_io.specs.Windows.{window_state};
ghost use Rattle.example_schemas.specs.Faults.{HasServed, AskedReadRefused, over_device, sound_device};

use super::Device;
use std::io::ErrorKind;
use std::marker::Model;
use wincode::io::{Lifetime, ReadError, ReadResult, ReadWindow, Reader, TrustedSliceReader};

/// Reads bytes from their front, as from a device that serves so many calls and then fails each time.
/// It lends nothing, and has no byte at hand that the device didn't give. `fill`, which `fill_buf`,
/// `consume` and the other calls make once, and `as_trusted_for` ask the device; its windows don't.
#[derive(Drop)]
pub struct FailingReader<'a> {
    rest: &'a [u8],
    shown: usize,
    device: Device,
}

impl<'a> Model for FailingReader<'a> {
    ghost use Rattle.example_schemas.specs.Faults.{ReadFrom};

    ghost Value = { ReadFrom };

    ghost view = { λ r. record { rest = r.rest.now; shown = r.shown; device = r.device } };
}

impl<'a> FailingReader<'a> {
    /// A reader of these bytes, none of them at hand, whose device serves `sound` calls, has not failed, and
    /// fails with this kind.
    pub fn new(bytes: &'a [u8], sound: usize, kind: ErrorKind) -> FailingReader<'a>
        ensures { result ≡ record { rest = bytes.now; shown = 0; device = sound_device sound kind } }
    {
        FailingReader {
            rest: bytes,
            shown: 0,
            device: Device::new(sound, kind),
        }
    }

    /// How often the device failed; the count stays at `usize::MAX`.
    pub fn failures(&self) -> usize
        ensures { result ≡ self.now.device.failures }
    {
        self.device.failures()
    }

    /// The bytes that are left, at hand or not.
    pub fn left(&self) -> &[u8]
        ensures { result.now ≡ self.now.rest }
    {
        self.rest
    }
}

/// Once the device fails, each call that asks it is `Io`, of the caller's kind the first time and of kind Other afterwards,
/// and changes nothing else.
impl<'a> Reader<Lifetime<'a>> for FailingReader<'a> {
    ghost state = { over_device };

    fn fill(&mut self, n: usize) -> ReadResult<()>
        ensures ok { OnOk result (Readies n (over_device self.old) (over_device self.new)) }
        ensures err { IfErr result (BytesReadRefused ⊥ ⊥ n (over_device self.old) (over_device self.new)) }
        ensures served { OnOk result (HasServed self.old.device self.new.device) }
        ensures failed { IfErr result (AskedReadRefused self.old.device self.new.device) }
        ensures shown { OnOk result (self.new.shown ≡ max self.old.shown n) }
        ensures kept { OnErr result (self.new.shown ≡ self.old.shown) }
    {
        self.device.ask().map_err(ReadError::Io)?;
        self.shown = self.shown.max(n);
        Ok(())
    }

    fn at_hand(&self) -> &[u8] {
        &self.rest[..self.shown.min(self.rest.len())]
    }

    fn consume_unchecked(&mut self, n: usize)
        requires { n ≤ (over_device self.old).ready }
        ensures lost { Loses n (over_device self.old) (over_device self.new) }
        ensures shown { self.new.shown ≡ self.old.shown - n }
    {
        let all = self.rest;
        self.rest = &all[n..];
        self.shown = self.shown.saturating_sub(n);
    }

    fn borrow_exact(&mut self, _n: usize) -> ReadResult<&'a [u8]> {
        Err(ReadError::UnsupportedZeroCopy)
    }

    fn borrow_exact_mut(&mut self, _n: usize) -> ReadResult<&'a mut [u8]> {
        Err(ReadError::UnsupportedZeroCopy)
    }

    fn as_trusted_for(&mut self, n: usize) -> ReadResult<ReadWindow<Lifetime<'a>>>
        ensures ok { IfOk result (λ w. Windowed n (over_device self.old) (over_device self.new) (window_state w)) }
        ensures err { IfErr result (WindowRefused n (over_device self.old) (over_device self.new)) }
        ensures served { OnOk result (HasServed self.old.device self.new.device) }
        ensures failed { IfErr result (AskedReadRefused self.old.device self.new.device) }
        ensures shown { OnOk result (self.new.shown ≡ max self.old.shown n - n) }
    {
        self.fill(n)?;
        let all = self.rest;
        if n <= all.len() {
            let (front, rest) = all.split_at(n);
            self.rest = rest;
            self.shown = self.shown.saturating_sub(n);
            Ok(ReadWindow::Plain(TrustedSliceReader::<Lifetime<'a>>::new(front)))
        } else {
            Err(ReadError::ReadSizeLimit(n))
        }
    }
}
