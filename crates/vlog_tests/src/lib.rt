// The tests of the crates that read and write Verilog, from the tokens to the text of a file, and of the meaning of literals and names.
//
// There is nothing here but tests and what they read: they stand above the crates that they call, so that each of those is proved once.
#![tactic(auto)]

#[cfg(test)]
mod cursor;
#[cfg(test)]
mod faults;
#[cfg(test)]
mod files;
#[cfg(test)]
mod given;
#[cfg(test)]
mod literals;
#[cfg(test)]
mod meanings;
#[cfg(test)]
mod texts;
#[cfg(test)]
mod tokens;
