//! Values read through a buffered reader, beside the same values read from a slice, and logs that were cut.
#![tactic(auto)]

#[cfg(test)]
mod described;
#[cfg(test)]
mod logs;
#[cfg(test)]
mod messages;
#[cfg(test)]
mod pieces;
#[cfg(test)]
mod readers;
