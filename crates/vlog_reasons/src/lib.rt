// The reasons of first faults of Verilog texts: the first row that fits of a table (IEEE 1364-2005,
// 3 and A).
//
// `specs/Rows.antt` is the table. Whether a row fits is said by the tokens before a token and by
// the token itself, in words that know no grammar and no reader: which two tokens stand directly
// before it, and which braces are open (`specs/Context.antt`). The reason of a row is given where
// it fits and no row above it does.
//
// `reasons`: bytes of any length have a first fault exactly where they have it by this table: at
// the first token, or the end, that no file has there after the tokens before it, for the reason
// of the first row that fits; or at bytes that are no token, for theirs. So each such token is a
// first fault, for this reason and no other. The first fault that is told of an input is this one,
// exactly where its stop is within the limit of an input.
#![tactic(auto)]

pub mod reasons;
