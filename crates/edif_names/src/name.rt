ghost use Rattle.std.specs.Prelude.{IfOk};
ghost use Rattle.edif_values.specs.Values.{IsNameDef, IsPortName};
ghost use Rattle.readers.specs.Readers.{same, Reads};
ghost use Rattle.edif_keywords.specs.Language.{edif};
ghost use Rattle.edif_names.specs.Grammar.{renamed, plain, name, array, port_form, port_name};

use edif_keywords::Cursor;
use edif_values::{Keyword, NameDef, PortName, same_keyword};
use nl_base::{OptionalText, ReadError};
use nl_io::Source;
use std::alloc::Global;

/// Reads a name: an identifier, or a `rename` with an identifier and a text.
#[tactic(auto, using(crate::proofs::Parts::form_or_token), unfolding(crate::specs::Grammar::name))]
pub fn read_name<S: Source>(
    alloc: Global,
    cursor: &mut Cursor,
    source: &mut S,
) -> Result<NameDef, ReadError>
    ensures reads { Reads edif same name result cursor.old cursor.new
        (S.supply source.old) (S.supply source.new) }
    ensures value { IfOk result IsNameDef }
{
    if cursor.at_form(alloc, source)? {
        cursor.begin(alloc, &[Keyword::Rename], source)?;
        return renamed(alloc, cursor, source);
    }
    plain(alloc, cursor, source)
}

/// Reads on after the keyword `rename`.
#[tactic(auto, using(readers::proofs::Reading::sequences), unfolding(crate::specs::Grammar::renamed))]
fn renamed<S: Source>(
    alloc: Global,
    cursor: &mut Cursor,
    source: &mut S,
) -> Result<NameDef, ReadError>
    ensures reads { Reads edif same renamed result cursor.old cursor.new
        (S.supply source.old) (S.supply source.new) }
    ensures value { IfOk result IsNameDef }
{
    let ident = cursor.word(alloc, source)?;
    let text = cursor.string(alloc, source)?;
    cursor.finish_form(alloc, source)?;
    Ok(NameDef {
        ident,
        text: OptionalText::some(text),
    })
}

#[tactic(auto, using(readers::proofs::Reading::sequences), unfolding(crate::specs::Grammar::plain))]
fn plain<S: Source>(
    alloc: Global,
    cursor: &mut Cursor,
    source: &mut S,
) -> Result<NameDef, ReadError>
    ensures reads { Reads edif same plain result cursor.old cursor.new
        (S.supply source.old) (S.supply source.new) }
    ensures value { IfOk result IsNameDef }
{
    let ident = cursor.word(alloc, source)?;
    Ok(NameDef {
        ident,
        text: OptionalText::none(),
    })
}

/// Reads the name of a port: a name, or an `array` with a name and a size.
#[tactic(auto, using(crate::proofs::Parts::form_or_token), unfolding(crate::specs::Grammar::port_name))]
pub fn read_port_name<S: Source>(
    alloc: Global,
    cursor: &mut Cursor,
    source: &mut S,
) -> Result<PortName, ReadError>
    ensures reads { Reads edif same port_name result cursor.old cursor.new
        (S.supply source.old) (S.supply source.new) }
    ensures value { IfOk result IsPortName }
{
    if cursor.at_form(alloc, source)? {
        let keyword = cursor.begin(alloc, &[Keyword::Rename, Keyword::Array], source)?;
        return port_form(alloc, cursor, same_keyword(keyword, Keyword::Array), source);
    }
    let name = plain(alloc, cursor, source)?;
    Ok(PortName::Single(name))
}

#[tactic(auto, using(readers::proofs::Reading::sequences))]
fn port_form<S: Source>(
    alloc: Global,
    cursor: &mut Cursor,
    is_array: bool,
    source: &mut S,
) -> Result<PortName, ReadError>
    ensures reads { Reads edif same (port_form is_array) result cursor.old cursor.new
        (S.supply source.old) (S.supply source.new) }
    ensures value { IfOk result IsPortName }
{
    if is_array {
        return array(alloc, cursor, source);
    }
    let name = renamed(alloc, cursor, source)?;
    Ok(PortName::Single(name))
}

/// Reads on after the keyword `array`.
#[tactic(auto, using(readers::proofs::Reading::sequences), unfolding(crate::specs::Grammar::array))]
fn array<S: Source>(
    alloc: Global,
    cursor: &mut Cursor,
    source: &mut S,
) -> Result<PortName, ReadError>
    ensures reads { Reads edif same array result cursor.old cursor.new
        (S.supply source.old) (S.supply source.new) }
    ensures value { IfOk result IsPortName }
{
    let name = read_name(alloc, cursor, source)?;
    let size = cursor.int(alloc, source)?;
    cursor.finish_form(alloc, source)?;
    Ok(PortName::Array(name, size))
}
