// The tests of the translator to EDIF: worked rows, and calls that take memory, of which no clause can say that they succeed.
//
// There is nothing here but tests and what they read: they stand above the crates that they call, so that each of those is proved once.
#![tactic(auto)]

#[cfg(test)]
mod given;
#[cfg(test)]
mod many;
#[cfg(test)]
mod nets;
#[cfg(test)]
mod rows;
#[cfg(test)]
mod values;
