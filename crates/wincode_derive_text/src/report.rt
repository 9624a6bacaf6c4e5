//! All that is wrong with a file, in its order.
use crate::error::{DeriveError, DeriveResult, Fault, Faults, Spot};
use std::alloc::Global;

/// What is wrong with a file so far, and which of its comment lines were taken.
#[derive(Drop)]
pub struct Report {
    faults: Vec<Fault>,
    taken: Vec<usize>,
}

/// How many stand in front of this fault's spot, or at it.
fn count_before(faults: &[Fault], spot: Spot) -> usize {
    faults
        .iter()
        .take_while(|other| !spot.is_before(&other.spot))
        .count()
}

impl Report {
    pub fn new(alloc: Global) -> Report {
        Report {
            faults: Vec::new(alloc),
            taken: Vec::new(alloc),
        }
    }

    /// How much is wrong.
    pub fn count(&self) -> usize {
        self.faults.len()
    }

    /// Takes a fault, in its place.
    fn add(&mut self, fault: Fault) -> DeriveResult<()> {
        let place = count_before(self.faults.as_slice(), fault.spot);
        let place = place.min(self.faults.len());
        self.faults.insert(place, fault)?;
        Ok(())
    }

    /// Takes what is wrong there.
    pub fn tell(&mut self, spot: Spot, message: String) -> DeriveResult<()> {
        self.add(Fault { spot, message })
    }

    /// Takes the faults of an error; what is no fault is given back.
    pub fn take(&mut self, alloc: Global, error: DeriveError) -> DeriveResult<()> {
        match error {
            DeriveError::Refused(faults) => {
                for fault in faults.all {
                    self.add(fault)?;
                }
                Ok(())
            }
            DeriveError::Unsupported { line, what } => {
                let message = format!(in alloc; "no schema for {what}")?;
                self.tell(Spot { line, column: 1 }, message)
            }
            other => Err(other),
        }
    }

    /// An answer, or none where it is a fault, which is taken.
    pub fn keep<T: Drop>(
        &mut self,
        alloc: Global,
        answer: DeriveResult<T>,
    ) -> DeriveResult<Option<T>> {
        match answer {
            Ok(answer) => Ok(Some(answer)),
            Err(error) => {
                self.take(alloc, error)?;
                Ok(None)
            }
        }
    }

    /// The comment line of that token says something of what stands below it.
    pub fn take_note(&mut self, at: usize) -> DeriveResult<()> {
        self.taken.push(at)?;
        Ok(())
    }

    /// Whether the comment line of that token was taken.
    pub fn has_taken(&self, at: usize) -> bool {
        self.taken.iter().any(|taken| *taken == at)
    }

    /// All that is wrong, if anything is.
    pub fn end(self) -> DeriveResult<()> {
        if self.faults.is_empty() {
            Ok(())
        } else {
            Err(DeriveError::Refused(Faults { all: self.faults }))
        }
    }
}
