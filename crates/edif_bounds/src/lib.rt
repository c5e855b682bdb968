// The size of a file that was read (EDIF 2 0 0, edif).
//
// `size_within`: each item of each list of a file, at every depth, spells at least one token of its own, and each token has at least one
// byte. So a file that some bytes read as has at most as many items, in all its lists together, as the bytes have tokens, and these are at
// most as many as the bytes, which are within the limit of an input. `read_edif` says the bound itself of a file from every source, also from
// one that does not tell its bytes.
#![tactic(auto)]

pub mod laws;

pub use laws::size_within;
