//! Tests of `wincode_recode`: shapes written and refused, inputs of every size, and devices that fail at each of their
//! calls.
#![tactic(auto)]

#[cfg(test)]
mod devices;
#[cfg(test)]
mod relaying;
#[cfg(test)]
mod shapes;
#[cfg(test)]
mod streaming;

/// The list of the list of 1 and the empty list.
#[cfg(test)]
const NESTED: [u8; 32] = [
    2, 0, 0, 0, 0, 0, 0, 0, 1, 0, 0, 0, 0, 0, 0, 0, 1, 0, 0, 0, 0, 0, 0, 0, 0, 0, 0, 0, 0, 0, 0, 0,
];
