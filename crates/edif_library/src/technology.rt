// The reader of a technology.
ghost use Rattle.std.specs.Prelude.{◌+◌, ◌<◌, [], ◌∷◌, length, IfOk};
ghost use Rattle.std.specs.List.{AllByRecursion};
ghost use Rattle.readers.specs.Readers.{same, Reads, room};
ghost use Rattle.edif_keywords.specs.Language.{edif};
ghost use Rattle.edif_values.specs.declared.keyword.Keyword.TheVariants as k;
ghost use Rattle.edif_keywords.specs.Grammar.{item};
ghost use Rattle.edif_status.specs.Grammar.{note, note_keywords};
ghost use Rattle.edif_values.specs.Values.{IsWord, IsNote, IsScale};
ghost use Rattle.edif_values.specs.Sizes.{list_size, note_size};
ghost use Rattle.edif_library.specs.Grammar.{unit, scale, scales_rest, notes_rest, number_definition, technology};

use edif_keywords::Cursor;
use edif_names::read_scaled;
use edif_status::read_note;
use edif_values::{Keyword, Note, Scale};
use nl_base::{Ident, ReadError, Seq};
use nl_io::Source;
use std::alloc::Global;

/// Reads a `technology`, from its `(` on: its scales and its notes.
pub fn read_technology<S: Source>(
    alloc: Global,
    cursor: &mut Cursor,
    source: &mut S,
) -> Result<(Seq<Scale>, Seq<Note>), ReadError>
    ensures reads { Reads edif same technology result cursor.old cursor.new
        (S.supply source.old) (S.supply source.new) }
    ensures value { IfOk result (λ t. AllByRecursion IsScale t.0 × AllByRecursion IsNote t.1) }
    ensures size { IfOk result
        (λ t. list_size note_size t.1 + length t.0 + room cursor.new < room cursor.old) }
{
    cursor.begin(alloc, &[Keyword::Technology], source)?;
    let scales = number_definition(alloc, cursor, source)?;
    let notes = notes_rest(alloc, cursor, source)?;
    Ok((scales, notes))
}

/// Reads a `numberDefinition`, from its `(` on.
fn number_definition<S: Source>(
    alloc: Global,
    cursor: &mut Cursor,
    source: &mut S,
) -> Result<Seq<Scale>, ReadError>
    ensures reads { Reads edif same number_definition result cursor.old cursor.new
        (S.supply source.old) (S.supply source.new) }
    ensures value { IfOk result (λ ss. AllByRecursion IsScale ss) }
    ensures size { IfOk result (λ ss. length ss + room cursor.new < room cursor.old) }
{
    cursor.begin(alloc, &[Keyword::NumberDefinition], source)?;
    scales_rest(alloc, cursor, source)
}

/// Reads scales up to the `)` of their form.
fn scales_rest<S: Source>(
    alloc: Global,
    cursor: &mut Cursor,
    source: &mut S,
) -> Result<Seq<Scale>, ReadError>
    ensures reads { Reads edif same (scales_rest []) result cursor.old cursor.new
        (S.supply source.old) (S.supply source.new) }
    ensures value { IfOk result (λ ss. AllByRecursion IsScale ss) }
    ensures size { IfOk result (λ ss. length ss + room cursor.new < room cursor.old) }
{
    let mut items = Seq::empty(alloc);
    while cursor.at_form(alloc, source)? {
        let item = scale_item(alloc, cursor, source)?;
        cursor.add(&mut items, item)?;
    }
    cursor.finish_form(alloc, source)?;
    Ok(items)
}

/// Reads a scale, from its `(` on.
fn scale_item<S: Source>(
    alloc: Global,
    cursor: &mut Cursor,
    source: &mut S,
) -> Result<Scale, ReadError>
    ensures reads { Reads edif same (item (k.Scale ∷ []) (λ _. scale)) result cursor.old cursor.new
        (S.supply source.old) (S.supply source.new) }
    ensures value { IfOk result IsScale }
{
    cursor.begin(alloc, &[Keyword::Scale], source)?;
    scale(alloc, cursor, source)
}

/// Reads on after the keyword `scale`.
fn scale<S: Source>(alloc: Global, cursor: &mut Cursor, source: &mut S) -> Result<Scale, ReadError>
    ensures reads { Reads edif same scale result cursor.old cursor.new
        (S.supply source.old) (S.supply source.new) }
    ensures value { IfOk result IsScale }
{
    let left = read_scaled(alloc, cursor, source)?;
    let right = read_scaled(alloc, cursor, source)?;
    let unit = unit(alloc, cursor, source)?;
    cursor.finish_form(alloc, source)?;
    Ok(Scale { left, right, unit })
}

/// Reads a `unit`, from its `(` on.
fn unit<S: Source>(alloc: Global, cursor: &mut Cursor, source: &mut S) -> Result<Ident, ReadError>
    ensures reads { Reads edif same unit result cursor.old cursor.new
        (S.supply source.old) (S.supply source.new) }
    ensures value { IfOk result IsWord }
{
    cursor.begin(alloc, &[Keyword::Unit], source)?;
    let word = cursor.word(alloc, source)?;
    cursor.finish_form(alloc, source)?;
    Ok(word)
}

/// Reads notes up to the `)` of the form around them.
fn notes_rest<S: Source>(
    alloc: Global,
    cursor: &mut Cursor,
    source: &mut S,
) -> Result<Seq<Note>, ReadError>
    ensures reads { Reads edif same (notes_rest []) result cursor.old cursor.new
        (S.supply source.old) (S.supply source.new) }
    ensures value { IfOk result (λ ns. AllByRecursion IsNote ns) }
    ensures size { IfOk result (λ ns. list_size note_size ns + room cursor.new < room cursor.old) }
{
    let mut items = Seq::empty(alloc);
    while cursor.at_form(alloc, source)? {
        let item = note_item(alloc, cursor, source)?;
        cursor.add(&mut items, item)?;
    }
    cursor.finish_form(alloc, source)?;
    Ok(items)
}

/// Reads a note, from its `(` on.
fn note_item<S: Source>(
    alloc: Global,
    cursor: &mut Cursor,
    source: &mut S,
) -> Result<Note, ReadError>
    ensures reads { Reads edif same (item note_keywords note) result cursor.old cursor.new
        (S.supply source.old) (S.supply source.new) }
    ensures value { IfOk result IsNote }
    ensures size { IfOk result (λ n. note_size n + room cursor.new < room cursor.old) }
{
    let keyword = cursor.begin(alloc, &[Keyword::Comment, Keyword::UserData], source)?;
    read_note(alloc, cursor, keyword, source)
}
