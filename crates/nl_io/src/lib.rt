// Sources and sinks of bytes.
//
// A source gives its bytes in order and loses none; a sink takes bytes in order and loses none.
// Each counts its failures, and a call fails only where that count rose: where it is larger at
// the call's end than at its begin, or stands at the end of a `u64`. A call that fails moved
// nothing. `MemSource` and `MemSink` keep bytes in memory and fail exactly where they are told
// to, `CountSink` counts bytes and never fails, and `StdSource` and `StdSink` stand before any
// reader and writer of the standard library; what those move is outside the proof.
#![tactic(auto)]

pub mod count_sink;
pub mod mem_sink;
pub mod mem_source;
pub mod sink;
pub mod source;
pub mod standard;

pub use count_sink::CountSink;
pub use mem_sink::MemSink;
pub use mem_source::MemSource;
pub use sink::{Sink, put_all};
pub use source::{Failed, Source};
pub use standard::{StdSink, StdSource};
