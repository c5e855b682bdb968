// The tests of the crates at the bottom: texts, lists, numbers and places; sources and sinks; bytes that are read and written.
//
// There is nothing here but tests and what they read: they stand above the crates that they call, so that each of those is proved once.
#![tactic(auto)]

#[cfg(test)]
mod reading;
#[cfg(test)]
mod streams;
#[cfg(test)]
mod values;
#[cfg(test)]
mod writing;
