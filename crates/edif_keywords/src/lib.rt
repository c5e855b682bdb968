// The keywords of EDIF 2 0 0, the aliases that a text gives them, and a cursor that reads the parts of a text.
//
// The public contract in plain words: a word is a keyword exactly where it is the keyword's spelling up to case; it means that keyword,
// or else the one of the alias that it is up to case. An alias is refused exactly where it means a keyword already or its known word means
// none. Each call of `Cursor` takes one part of the grammar (a token, the beginning of a form, the header, a comment) from the tokens ahead,
// whatever the pieces of the source, or answers that part's first fault with its place and reason; a source that fails and want of
// memory aside, it answers nothing else. A cursor that has answered any error answers `Spent` from then on (EDIF 2 0 0, keywordMap and
// basic syntax). Whether or not the source tells its bytes, the words, numbers and strings that it answers are such as can be written, the
// keywords are among those that are allowed, and a comment has fewer strings than tokens were taken.
#![tactic(auto)]

pub mod aliases;
pub mod comment;
pub mod cursor;
pub mod find;
pub mod header;
mod lists;
pub mod next;
pub mod parts;
mod reasons;

pub use aliases::{AliasFault, Aliases};
pub use comment::read_comment;
pub use cursor::Cursor;
pub use edif_values::{Keyword, is_among, spelling};
pub use find::find_keyword;
