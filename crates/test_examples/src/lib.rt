//! Tests of the schemas, forms and devices of `example_schemas`.
#![tactic(auto)]

#[cfg(test)]
mod copied;
#[cfg(test)]
mod entries;
#[cfg(test)]
mod events;
#[cfg(test)]
mod faults;
#[cfg(test)]
mod forms;
#[cfg(test)]
mod labels;
#[cfg(test)]
mod limits;
#[cfg(test)]
mod messages;
#[cfg(test)]
mod own_schemas;
#[cfg(test)]
mod recipes;
