//! Tests of the calls of `wincode`, of views and their edits, and of large values: what rows as data can't say.
#![tactic(auto)]

#[cfg(test)]
mod arrays;
#[cfg(test)]
mod bulk;
#[cfg(test)]
mod calls;
#[cfg(test)]
mod exact;
#[cfg(test)]
mod large;
#[cfg(test)]
mod leaves;
#[cfg(test)]
mod lifetimes;
#[cfg(test)]
mod limits;
#[cfg(test)]
mod methods;
#[cfg(test)]
mod parts;
#[cfg(test)]
mod paths;
#[cfg(test)]
mod tags;
#[cfg(test)]
mod tuples;
#[cfg(test)]
mod unwritten;
#[cfg(test)]
mod values;
#[cfg(test)]
mod views;
