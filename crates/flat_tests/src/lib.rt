// The tests of the crates on designs over all levels, and of the translator to SPICE: worked rows, and calls that take memory, of which no
// clause can say that they succeed.
//
// There is nothing here but tests and what they read: they stand above the crates that they call, so that each of those is proved once.
#![tactic(auto)]

#[cfg(test)]
mod findings;
#[cfg(test)]
mod given;
#[cfg(test)]
mod reports;
#[cfg(test)]
mod subcircuits;
#[cfg(test)]
mod texts;
