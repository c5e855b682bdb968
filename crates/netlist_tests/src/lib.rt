// The tests of the crates on hierarchical designs and on the connections within their cells.
//
// There is nothing here but tests and what they read: they stand above the crates that they call, so that each of those is proved once.
#![tactic(auto)]

#[cfg(test)]
mod classes;
#[cfg(test)]
mod designs;
#[cfg(test)]
mod flat;
