// Libraries.
ghost use Rattle.std.specs.Prelude.{[]};
ghost use Rattle.nl_output.specs.Writing.{state, Puts};
ghost use Rattle.edif_writer.specs.Forms.{library_block, library_item_block};
ghost use Rattle.edif_writer.specs.Layout.{all, laid, lines};
ghost use Rattle.edif_writer.specs.Starts.{library_start};
ghost use Rattle.edif_library.specs.Grammar.{library, library_item, library_rest};
ghost use Rattle.edif_format.specs.Parts.{Formats};

use crate::cell::format_cell;
use crate::part::put_part;
use edif_keywords::Cursor;
use edif_library::{library_form, read_technology};
use edif_names::read_name;
use edif_values::{Keyword, Library, same_keyword};
use edif_writer::{lay_library_start, put_close};
use nl_base::{ReadError, Seq};
use nl_io::{Sink, Source};
use nl_output::Output;
use std::alloc::Global;

/// Reads on after the keyword `library`, or `external`, and puts the lines of the library.
pub(crate) fn format_library<S: Source, O: Sink>(
    alloc: Global,
    cursor: &mut Cursor,
    external: bool,
    output: &mut Output,
    sink: &mut O,
    source: &mut S,
) -> Result<(), ReadError>
    ensures { Formats (library external) (λ l. laid 2 (library_block l)) result
        cursor.old cursor.new
        (S.supply source.old) (S.supply source.new)
        (state O.receipt sink.old output.old) (state O.receipt sink.new output.new) }
{
    let name = read_name(alloc, cursor, source)?;
    cursor.level(alloc, source)?;
    let (scales, notes) = read_technology(alloc, cursor, source)?;
    put_start(
        Library {
            external,
            name,
            scales,
            notes,
            items: Seq::empty(alloc),
        },
        output,
        sink,
    );
    format_items(alloc, cursor, output, sink, source)?;
    put_close(2, output, sink);
    Ok(())
}

/// Puts the lines of a library up to the parts behind its technology.
fn put_start<O: Sink>(heading: Library, output: &mut Output, sink: &mut O)
    ensures { Puts (library_start 2 heading)
        (state O.receipt sink.old output.old) (state O.receipt sink.new output.new) }
{
    lay_library_start(&heading, 2, output, sink);
}

/// Reads the parts of a library up to its `)`, and puts the lines of each.
fn format_items<S: Source, O: Sink>(
    alloc: Global,
    cursor: &mut Cursor,
    output: &mut Output,
    sink: &mut O,
    source: &mut S,
) -> Result<(), ReadError>
    ensures { Formats (library_rest []) (λ is. lines 4 (all library_item_block is)) result
        cursor.old cursor.new
        (S.supply source.old) (S.supply source.new)
        (state O.receipt sink.old output.old) (state O.receipt sink.new output.new) }
{
    while cursor.at_form(alloc, source)? {
        let keyword = cursor.begin(
            alloc,
            &[
                Keyword::Cell,
                Keyword::Status,
                Keyword::Comment,
                Keyword::UserData,
            ],
            source,
        )?;
        format_form(alloc, cursor, keyword, output, sink, source)?;
    }
    cursor.finish_form(alloc, source)
}

/// Reads on after the keyword of a part of a library, and puts the lines of the part.
fn format_form<S: Source, O: Sink>(
    alloc: Global,
    cursor: &mut Cursor,
    keyword: Keyword,
    output: &mut Output,
    sink: &mut O,
    source: &mut S,
) -> Result<(), ReadError>
    ensures { Formats (library_item keyword) (λ i. laid 4 (library_item_block i)) result
        cursor.old cursor.new
        (S.supply source.old) (S.supply source.new)
        (state O.receipt sink.old output.old) (state O.receipt sink.new output.new) }
{
    if same_keyword(keyword, Keyword::Cell) {
        return format_cell(alloc, cursor, output, sink, source);
    }
    let item = library_form(alloc, cursor, keyword, source)?;
    put_part(item, 4, output, sink);
    Ok(())
}
