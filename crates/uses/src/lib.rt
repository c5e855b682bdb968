// The library as README.md shows it: each function here stands there, and is compiled and proved here.
//
// There is nothing to call: a program that needs one of these writes it so itself.
#![tactic(auto)]

pub mod connection;
pub mod formatting;
pub mod translation;
