//! The least time of many runs of a piece of work, and the row that is printed of it.
use std::alloc::{AllocError, AllocFailed, Global};
use std::io;
use std::rt::Clock;
use std::time::Instant;
use thiserror::Error;
use wincode::{ReadError, WriteError};

/// How often each piece of work is run.
const RUNS: u64 = 40;

/// Why a measurement ended early.
#[derive(Debug, Drop, Error)]
pub enum Failure {
    #[error(transparent)]
    System(#[from] io::Error),
    #[error("a value was not read")]
    Read,
    #[error("a value was not written")]
    Write,
    #[error("out of memory")]
    Memory,
    #[error("something else was made than is due")]
    Different,
}

/// The error of a read isn't kept: what holds a `'static` text can't stand beside a bound that names a lifetime.
impl From<ReadError> for Failure {
    fn from(_error: ReadError) -> Failure {
        Failure::Read
    }
}

/// So that of a write.
impl From<WriteError> for Failure {
    fn from(_error: WriteError) -> Failure {
        Failure::Write
    }
}

impl From<AllocError> for Failure {
    fn from(_refused: AllocError) -> Failure {
        Failure::Memory
    }
}

impl<T: Drop> From<AllocFailed<T>> for Failure {
    fn from(_refused: AllocFailed<T>) -> Failure {
        Failure::Memory
    }
}

/// What is measured.
pub trait Work {
    /// Does it once, and gives what is seen of what it made.
    fn run(&self, alloc: Global) -> Result<u64, Failure>;
}

/// In what a row tells its time.
#[derive(Clone, Copy)]
pub enum Unit {
    /// In microseconds of a run.
    Microseconds,
    /// In tenths of a nanosecond of each of so many values of a run.
    TenthsEach(u64),
}

/// The time of one run, in nanoseconds, where what is seen of it is due.
fn once<W: Work>(rt: &impl Clock, alloc: Global, work: &W, due: u64) -> Result<u128, Failure> {
    let start = Instant::now(rt)?;
    let seen = work.run(alloc)?;
    let taken = start.elapsed(rt)?;
    if seen == due {
        Ok(taken.as_nanos())
    } else {
        Err(Failure::Different)
    }
}

/// The least time of so many runs, in nanoseconds.
pub fn least_of<W: Work>(
    rt: &impl Clock,
    alloc: Global,
    runs: u64,
    work: &W,
    due: u64,
) -> Result<u128, Failure> {
    let mut nanoseconds = u128::MAX;
    for _i in 0..runs {
        nanoseconds = nanoseconds.min(once(rt, alloc, work, due)?);
    }
    Ok(nanoseconds)
}

/// The rows of a case: its name, in what they tell their times, and the copy's time in nanoseconds.
#[derive(Clone, Copy)]
pub struct Rows<'a> {
    name: &'a str,
    unit: Unit,
    copy: u128,
}

impl<'a> Rows<'a> {
    /// Times the copy that the case's rows are told beside, and prints its row.
    pub fn beside<W: Work>(
        rt: &(impl Clock + Print + AllocGlobal),
        name: &'a str,
        unit: Unit,
        copying: &W,
        due: u64,
    ) -> Result<Rows<'a>, Failure> {
        let copy = least_of(rt, rt.alloc(), RUNS, copying, due)?;
        let rows = Rows { name, unit, copy };
        rows.print(rt, "copied", copy)?;
        Ok(rows)
    }

    /// Times the work, and prints its row.
    pub fn time<W: Work>(
        &self,
        rt: &(impl Clock + Print + AllocGlobal),
        done: &str,
        work: &W,
        due: u64,
    ) -> Result<(), Failure> {
        let taken = least_of(rt, rt.alloc(), RUNS, work, due)?;
        self.print(rt, done, taken)
    }

    /// Prints a row: the time and, in hundredths, how many times the copy's it is.
    fn print(&self, rt: &impl Print, done: &str, taken: u128) -> Result<(), Failure> {
        let name = self.name;
        let hundredths = taken.saturating_mul(100) / self.copy.max(1);
        let (time, unit) = match self.unit {
            Unit::Microseconds => (taken / 1000, "microseconds"),
            Unit::TenthsEach(values) => {
                let tenths = taken.saturating_mul(10) / u128::from(values.max(1));
                (tenths, "tenths of a nanosecond each")
            }
        };
        println!(rt; "{name} {done}: {time} {unit}, {hundredths} hundredths of the copy")?;
        Ok(())
    }
}
