//! Tests of readers, writers, their windows and byte forms, and of writers to sinks, on fixed bytes.
#![tactic(auto)]

#[cfg(test)]
mod forms;
#[cfg(test)]
mod readers;
#[cfg(test)]
mod sinks;
#[cfg(test)]
mod writers;
