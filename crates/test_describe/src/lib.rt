//! Tests of `wincode_describe`: types as text, and what is printed of bytes.
#![tactic(auto)]

#[cfg(test)]
mod checked;
#[cfg(test)]
mod compared;
#[cfg(test)]
mod explained;
#[cfg(test)]
mod types;
