//! What every reader over a source answers, in any language: one record of contract for all calls, and how calls compose.
//! There is no code to run here.
//!
//! A language says for each of its tokens the place and the stop, and which tokens some bytes are (`Language`). The tokens that
//! a reader has still to read are a stream, where the source tells its bytes. `Reads` says of a call: its value is what the part
//! of the grammar reads as on the stream before, and the stream after it is what the part leaves; an error comes exactly where
//! the part reads as that error, but for want of memory and a failing source; an error spends the reader for good; and bytes are
//! taken in their order, only where all that were taken before are used, at most 4,096 past the stop of a fault, and whatever the
//! answer at most 4,096 past the limit.
//! `ReadsText` says of a whole text: it spells the value, or has the first fault that is answered, or is longer than what is
//! looked at.
//!
//! The lemmas in `proofs/` come in sets, one for each shape of reader: `Reading.one_token` for a call that takes a token,
//! `Reading.sequences` for calls one after the other, `Choices.maybes`, `Choices.choices` and `Choices.loops` for calls that take
//! the next token where it fits. `Taking`, `Looking` and `Maybes` have the exits of the calls that stand on a reader of tokens,
//! `Whole` those of a reader of whole texts, and `Shapes` says which parts are live and closed.
#![tactic(auto)]
