// The tests of the commands that work on a design: translations, reports, the flattened cell, SPICE and generated designs, from the words
// and the input of a run to its status and what is written.
//
// There is nothing here but tests and what they read: they stand above `netlist_cli`, so that it is proved once.
#![tactic(auto)]

#[cfg(test)]
mod flattened;
#[cfg(test)]
mod generated;
#[cfg(test)]
mod netlist;
#[cfg(test)]
mod reports;
#[cfg(test)]
mod spice;
#[cfg(test)]
mod translations;
