//! Tests of the schemas that `wincode_derive` wrote.
#![tactic(auto)]

#[cfg(test)]
mod answers;
#[cfg(test)]
mod banks;
#[cfg(test)]
mod encoded;
#[cfg(test)]
mod keys;
#[cfg(test)]
mod labels;
#[cfg(test)]
mod machine;
#[cfg(test)]
mod marks;
#[cfg(test)]
mod pages;
#[cfg(test)]
mod reports;
#[cfg(test)]
mod shapes;
#[cfg(test)]
mod signals;
