//! Tests of lists, maps and heaps by their values in Rust, and of each short length: what rows as data can't say.
#![tactic(auto)]

#[cfg(test)]
mod hostile;
#[cfg(test)]
mod kept;
#[cfg(test)]
mod keys;
#[cfg(test)]
mod lists;
#[cfg(test)]
mod many;
#[cfg(test)]
mod maps;
#[cfg(test)]
mod mebi;
#[cfg(test)]
mod quick;
#[cfg(test)]
mod short_lengths;
