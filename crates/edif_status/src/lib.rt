// User data, notes and statuses of EDIF 2 0 0: the forms userData, comment, status, written, timeStamp, author, program, version and
// dataOrigin.
//
// The public contract in plain words: `read_user`, `read_note` and `read_status` read on after the keyword of their form, to its `)`. The
// value that they answer is the one that the tokens spell by the productions of `specs/Grammar.antt`, and the tokens behind the form are
// left. A text fault is the first token that no text has there, or the fault of the bytes or the end in its place, with the reason for it;
// in user data the `(` of a 65th list in one another is refused as TooDeep. A source that fails and want of memory aside, they answer
// nothing else. What the tokens of a text spell keeps the limits of `edif_values`, whose types these are (lemmas in `proofs/Kept.antt`), and
// so does the value that is answered of a source that tells no bytes; its lists have together fewer items than tokens were taken.
#![tactic(auto)]

pub mod note;
pub mod status;
pub mod user;
pub mod written;

pub use edif_values::{Note, Stamp, Status, StatusItem, UserData, UserTree, Written, WrittenItem};
pub use note::read_note;
pub use status::read_status;
pub use user::read_user;
