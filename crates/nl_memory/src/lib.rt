// A sink in memory.
//
// The public contract in plain words: a `MemorySink` takes all the bytes that are put, or fails where memory runs out, and `into_bytes` answers
// the bytes that it took. So a text is made in memory by what writes one to a sink, and no byte of it goes out before the whole of it is made.
#![tactic(auto)]

pub mod sink;

pub use sink::MemorySink;
