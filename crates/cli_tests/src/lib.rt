// The tests of what the program does, from its words and its input to its status and what is written, of the commands that read one language
// and check it.
//
// There is nothing here but tests and what they read: they stand above `netlist_cli`, so that it is proved once.
#![tactic(auto)]

#[cfg(test)]
mod checks;
#[cfg(test)]
mod edif;
#[cfg(test)]
mod ends;
#[cfg(test)]
mod formats;
#[cfg(test)]
mod hostile;
#[cfg(test)]
mod limits;
#[cfg(test)]
mod netlist;
#[cfg(test)]
mod round_trips;
#[cfg(test)]
mod spent;
#[cfg(test)]
mod tops;
#[cfg(test)]
mod usage;
