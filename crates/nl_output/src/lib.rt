// A text on its way to a sink, through a buffer.
//
// An `Output` takes the bytes of a text piece by piece, and hands them on to a sink in large parts. It remembers a failure of the sink:
// from then on it drops what it is given, so that a writer of a text asks once, at the end, whether all went well.
// `finish` answers `Ok` exactly where the sink took the whole text. Else a put of the sink failed, and the sink took a front of the text.
// No call takes memory.
//
// A writer's contract is: whatever whole text is being written of which the writer's text and then a rest is to come, afterwards the rest is
// to come (`Puts`). So the contracts of writers that call one another fit together without a law.
#![tactic(auto)]

pub mod output;

pub use output::Output;
