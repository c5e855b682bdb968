ghost use Rattle.std.specs.Prelude.{◌+◌, ◌<◌, length, IfOk};
ghost use Rattle.edif_values.specs.Values.{AreStrings};
ghost use Rattle.readers.specs.Readers.{same, Reads, room};
ghost use Rattle.edif_keywords.specs.Language.{edif};
ghost use Rattle.edif_keywords.specs.Grammar.{comment};

use crate::cursor::Cursor;
use nl_base::{ReadError, Seq, Text};
use nl_io::Source;
use std::alloc::Global;

/// Reads on after the keyword `comment`: the strings up to the end of the form.
#[tactic(auto, using(crate::proofs::Collected::string_lists))]
pub fn read_comment<S: Source>(
    alloc: Global,
    cursor: &mut Cursor,
    source: &mut S,
) -> Result<Seq<Text>, ReadError>
    ensures reads { Reads edif same comment result cursor.old cursor.new
        (S.supply source.old) (S.supply source.new) }
    ensures value { IfOk result AreStrings }
    ensures size { IfOk result (λ ts. length ts + room cursor.new < room cursor.old) }
{
    let mut texts = Seq::empty(alloc);
    while cursor.at_string(alloc, source)? {
        let text = cursor.string(alloc, source)?;
        cursor.add(&mut texts, text)?;
    }
    cursor.finish_form(alloc, source)?;
    Ok(texts)
}
