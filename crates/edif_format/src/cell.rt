// Cells.
ghost use Rattle.std.specs.Prelude.{◌≡◌, ◌||◌, []};
ghost use Rattle.nl_output.specs.Writing.{state, Puts};
ghost use Rattle.edif_values.specs.declared.keyword.Keyword.TheVariants as k;
ghost use Rattle.edif_values.specs.Keywords.{same_keyword};
ghost use Rattle.edif_values.specs.Values.{is_view};
ghost use Rattle.edif_writer.specs.Forms.{cell_block, cell_item_block};
ghost use Rattle.edif_writer.specs.Layout.{all, laid, lines};
ghost use Rattle.edif_writer.specs.Starts.{cell_start};
ghost use Rattle.edif_library.specs.Grammar.{cell, cell_item, cell_rest};
ghost use Rattle.edif_format.specs.Parts.{Formats, FormatsSuch};

use crate::part::put_part;
use crate::view::format_view;
use edif_keywords::Cursor;
use edif_library::{cell_form, cell_keywords, cell_type};
use edif_names::read_name;
use edif_values::{Cell, Keyword, same_keyword};
use edif_writer::{lay_cell_start, put_close};
use nl_base::{ReadError, Seq};
use nl_io::{Sink, Source};
use nl_output::Output;
use std::alloc::Global;

/// Reads on after the keyword `cell`, and puts the lines of the cell.
pub(crate) fn format_cell<S: Source, O: Sink>(
    alloc: Global,
    cursor: &mut Cursor,
    output: &mut Output,
    sink: &mut O,
    source: &mut S,
) -> Result<(), ReadError>
    ensures { Formats cell (λ c. laid 4 (cell_block c)) result cursor.old cursor.new
        (S.supply source.old) (S.supply source.new)
        (state O.receipt sink.old output.old) (state O.receipt sink.new output.new) }
{
    let name = read_name(alloc, cursor, source)?;
    let kind = cell_type(alloc, cursor, source)?;
    put_start(
        Cell {
            name,
            kind,
            items: Seq::empty(alloc),
        },
        output,
        sink,
    );
    format_items(alloc, cursor, output, sink, source)?;
    put_close(4, output, sink);
    Ok(())
}

/// Puts the lines of a cell up to the parts behind its type.
fn put_start<O: Sink>(heading: Cell, output: &mut Output, sink: &mut O)
    ensures { Puts (cell_start 4 heading)
        (state O.receipt sink.old output.old) (state O.receipt sink.new output.new) }
{
    lay_cell_start(&heading, 4, output, sink);
}

/// Reads the parts of a cell up to its `)`, and puts the lines of each. A view may stand there once.
fn format_items<S: Source, O: Sink>(
    alloc: Global,
    cursor: &mut Cursor,
    output: &mut Output,
    sink: &mut O,
    source: &mut S,
) -> Result<(), ReadError>
    ensures { Formats (cell_rest []) (λ is. lines 6 (all cell_item_block is)) result
        cursor.old cursor.new
        (S.supply source.old) (S.supply source.new)
        (state O.receipt sink.old output.old) (state O.receipt sink.new output.new) }
{
    let mut viewed = false;
    while cursor.at_form(alloc, source)? {
        let keyword = cursor.begin(alloc, cell_keywords(viewed), source)?;
        format_form(alloc, cursor, keyword, output, sink, source)?;
        viewed = is_viewed(viewed, keyword);
    }
    cursor.finish_form(alloc, source)
}

/// Whether a view stands among the parts of a cell, after one more with this keyword.
fn is_viewed(so_far: bool, keyword: Keyword) -> bool
    ensures { result ≡ (so_far || same_keyword keyword k.View) }
{
    so_far || same_keyword(keyword, Keyword::View)
}

/// Reads on after the keyword of a part of a cell, and puts the lines of the part.
fn format_form<S: Source, O: Sink>(
    alloc: Global,
    cursor: &mut Cursor,
    keyword: Keyword,
    output: &mut Output,
    sink: &mut O,
    source: &mut S,
) -> Result<(), ReadError>
    ensures { FormatsSuch (λ i. is_view i ≡ same_keyword keyword k.View)
        (cell_item keyword) (λ i. laid 6 (cell_item_block i)) result cursor.old cursor.new
        (S.supply source.old) (S.supply source.new)
        (state O.receipt sink.old output.old) (state O.receipt sink.new output.new) }
{
    if same_keyword(keyword, Keyword::View) {
        return format_view(alloc, cursor, output, sink, source);
    }
    let item = cell_form(alloc, cursor, keyword, source)?;
    put_part(item, 6, output, sink);
    Ok(())
}
