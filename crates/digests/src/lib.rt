// Sets of digests, which tell the digests that are noted more than once.
//
// The public contract in plain words: `Digests` notes digests one after another, and answers yes for each one that was noted at least twice.
// Seldom it answers yes for another one too, since of each digest a bit is kept, which two may share. Equal things have equal digests: a
// thing whose digest was not noted again is equal to no other one, and only the rest need be compared.
#![tactic(auto)]

pub mod sets;

pub use sets::Digests;
