// Files that are read, and of which the text is made.
ghost use Rattle.std.specs.Prelude.{List, [], ◌∷◌, ◌++◌};
ghost use Rattle.vlog_values.specs.declared.module.ItemV.{ItemV as ItemValue};
ghost use Rattle.vlog_values.specs.declared.module.Module.{Module as ModuleValue};
ghost use Rattle.vlog_format.specs.Formats.{Formats, FormatsPieces};
ghost use Rattle.vlog_format.specs.Pieces.{FormatsItems, FormatsPiece};
ghost use Rattle.vlog_format.specs.Texts.{IsTextOf, IsTextUpTo};

use crate::text::FileText;
use nl_base::ReadError;
use nl_io::Source;
use std::alloc::Global;
use vlog_exprs::VCursor;
use vlog_items::read_item;
use vlog_modules::{Piece, at_item, at_piece, read_beginning};
use vlog_tokens::VTokens;
use vlog_values::{ItemV, Module};

/// The text so far, and whether names are nets without a declaration from here on.
#[derive(Drop)]
pub(crate) struct Made {
    pub(crate) text: FileText,
    pub(crate) implicit: bool,
}

/// The normal text of the Verilog file that the source spells. Whatever it answers, at most 4,096 bytes more than 268,435,456 are taken from
/// the source.
///
/// # Errors
/// As `read_vlog`: `Text`: the first fault, with its place, where its stop lies within so many bytes. `TooLong`: the text is longer, and it
/// has no such fault. `ReadFault`: the source failed. `NoMemory`: memory ran out. It never answers `Spent`.
pub fn format_vlog<S: Source>(alloc: Global, source: &mut S) -> Result<Vec<u8>, ReadError>
    ensures { Formats result (S.supply source.old) (S.supply source.new) }
{
    let Ok(tokens) = VTokens::new(alloc) else {
        return Err(ReadError::NoMemory);
    };
    let mut cursor = VCursor::new(alloc, tokens);
    let text = format_pieces(alloc, &mut cursor, source)?;
    cursor.end_of_input(alloc, source)?;
    match text.finish() {
        Ok(bytes) => Ok(bytes),
        Err(_) => Err(ReadError::NoMemory),
    }
}

/// Reads directives and modules, as long as one is next, and makes the text of each module.
fn format_pieces<S: Source>(
    alloc: Global,
    cursor: &mut VCursor,
    source: &mut S,
) -> Result<FileText, ReadError>
    ensures { FormatsPieces result cursor.old cursor.new
        (S.supply source.old) (S.supply source.new) }
{
    let mut made = Made {
        text: FileText::new(alloc),
        implicit: true,
    };
    while at_piece(alloc, cursor, source)? {
        made = format_piece(alloc, cursor, made, source)?;
    }
    Ok(made.text)
}

/// Reads a directive or a module, and makes the text of the module.
fn format_piece<S: Source>(
    alloc: Global,
    cursor: &mut VCursor,
    made: Made,
    source: &mut S,
) -> Result<Made, ReadError>
    ensures { FormatsPiece made result cursor.old cursor.new
        (S.supply source.old) (S.supply source.new) }
{
    let Made { mut text, implicit } = made;
    match read_beginning(alloc, cursor, implicit, source)? {
        Piece::Implicit(implicit) => Ok(Made { text, implicit }),
        Piece::Module(heading) => {
            begin_module(&mut text, heading);
            format_items(alloc, cursor, &mut text, source)?;
            Ok(Made { text, implicit })
        }
    }
}

/// Reads the items of a module up to `endmodule`, and makes the text of each item.
fn format_items<S: Source>(
    alloc: Global,
    cursor: &mut VCursor,
    text: &mut FileText,
    source: &mut S,
) -> Result<(), ReadError>
    ensures { FormatsItems text.old text.new result cursor.old cursor.new
        (S.supply source.old) (S.supply source.new) }
{
    while at_item(alloc, cursor, source)? {
        let item = read_item(alloc, cursor, source)?;
        add_item(text, item);
    }
    cursor.keyword(alloc, b"endmodule", source)?;
    text.end();
    Ok(())
}

/// Begins the text of a module, of which nothing is kept.
fn begin_module(text: &mut FileText, heading: Module)
    ensures { (ms : List ModuleValue) → IsTextOf text.old ms → IsTextUpTo text.new ms heading [] }
{
    text.begin(&heading);
}

/// Adds the text of an item, which is not kept.
fn add_item(text: &mut FileText, item: ItemV)
    ensures { (ms : List ModuleValue) (heading : ModuleValue) (items : List ItemValue)
        → IsTextUpTo text.old ms heading items
        → IsTextUpTo text.new ms heading (items ++ item ∷ []) }
{
    text.add(&item);
}
