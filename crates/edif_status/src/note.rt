ghost use Rattle.std.specs.Prelude.{◌+◌, ◌<◌, IfOk};
ghost use Rattle.readers.specs.Readers.{same, Reads, room};
ghost use Rattle.edif_keywords.specs.Language.{edif};
ghost use Rattle.edif_values.specs.Values.{IsNote};
ghost use Rattle.edif_values.specs.Sizes.{note_size};
ghost use Rattle.edif_status.specs.Grammar.{note};

use crate::user::read_user;
use edif_keywords::{Cursor, read_comment};
use edif_values::{Keyword, Note, same_keyword};
use nl_base::ReadError;
use nl_io::Source;
use std::alloc::Global;

/// Reads on after the keyword of a note, which is `comment` or `userData`.
#[tactic(auto, using(readers::proofs::Reading::sequences))]
pub fn read_note<S: Source>(
    alloc: Global,
    cursor: &mut Cursor,
    keyword: Keyword,
    source: &mut S,
) -> Result<Note, ReadError>
    ensures reads { Reads edif same (note keyword) result cursor.old cursor.new
        (S.supply source.old) (S.supply source.new) }
    ensures value { IfOk result IsNote }
    ensures size { IfOk result (λ n. note_size n + room cursor.new < room cursor.old) }
{
    if same_keyword(keyword, Keyword::Comment) {
        let texts = read_comment(alloc, cursor, source)?;
        return Ok(Note::Comment(texts));
    }
    let data = read_user(alloc, cursor, source)?;
    Ok(Note::User(data))
}
