// Looking up what spellings mean, and the order of refusals.
//
// The public contract in plain words: a `Definitions` is a list of numbered definitions, and `find` answers what a spelling means among
// them: the first definition that is spelled alike byte for byte, or, if there is none, the only one that is alike up to case. A `NameSet`
// is a set of names, compared byte for byte. `lower` answers the first of two refusals, and the lowest of a list of refusals is the
// first object in file order that breaks the lowest broken rule (`proofs/FirstLaws.antt`).
//
// At most eight definitions are looked through one by one; more have a table by their names up to case, and one by their spellings where
// several are alike.
//
// EDIF 2 0 0 does not tell capital letters from small ones in identifiers; that a definition spelled alike byte for byte goes first is
// this project's own rule.
#![tactic(auto)]

pub mod definitions;
pub mod keys;
pub mod names;
pub mod refusals;

pub use definitions::{Definitions, Meaning};
pub use names::NameSet;
pub use refusals::{lower, one_name, refusal, two_names};
