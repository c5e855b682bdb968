// Views and their contents.
ghost use Rattle.std.specs.Prelude.{◌≡◌, ◌||◌, []};
ghost use Rattle.nl_output.specs.Writing.{state, Puts};
ghost use Rattle.edif_values.specs.declared.keyword.Keyword.TheVariants as k;
ghost use Rattle.edif_values.specs.Keywords.{same_keyword};
ghost use Rattle.edif_values.specs.Values.{is_contents};
ghost use Rattle.edif_writer.specs.Forms.{contents_item_block, view_block, view_item_block};
ghost use Rattle.edif_writer.specs.Layout.{all, laid, lines};
ghost use Rattle.edif_writer.specs.Starts.{view_start};
ghost use Rattle.edif_library.specs.Grammar.{contents_rest, view, view_item, view_rest};
ghost use Rattle.edif_format.specs.Parts.{Formats, FormatsSuch};

use crate::part::put_part;
use edif_keywords::Cursor;
use edif_library::{contents_item, netlist, read_interface, view_form, view_keywords};
use edif_names::read_name;
use edif_values::{Keyword, View, same_keyword};
use edif_writer::{lay_contents_start, lay_view_start, put_close};
use nl_base::{InlineList, ReadError};
use nl_io::{Sink, Source};
use nl_output::Output;
use std::alloc::Global;

/// Reads on after the keyword `view`, and puts the lines of the view.
pub(crate) fn format_view<S: Source, O: Sink>(
    alloc: Global,
    cursor: &mut Cursor,
    output: &mut Output,
    sink: &mut O,
    source: &mut S,
) -> Result<(), ReadError>
    ensures { Formats view (λ v. laid 6 (view_block v)) result cursor.old cursor.new
        (S.supply source.old) (S.supply source.new)
        (state O.receipt sink.old output.old) (state O.receipt sink.new output.new) }
{
    let name = read_name(alloc, cursor, source)?;
    netlist(alloc, cursor, source)?;
    let interface = read_interface(alloc, cursor, source)?;
    put_start(
        View {
            name,
            interface,
            items: InlineList::empty(),
        },
        output,
        sink,
    );
    format_items(alloc, cursor, output, sink, source)?;
    put_close(6, output, sink);
    Ok(())
}

/// Puts the lines of a view up to the parts behind its interface, which is not kept.
fn put_start<O: Sink>(heading: View, output: &mut Output, sink: &mut O)
    ensures { Puts (view_start 6 heading)
        (state O.receipt sink.old output.old) (state O.receipt sink.new output.new) }
{
    lay_view_start(&heading, 6, output, sink);
}

/// Reads the parts of a view up to its `)`, and puts the lines of each. Contents may stand there once.
fn format_items<S: Source, O: Sink>(
    alloc: Global,
    cursor: &mut Cursor,
    output: &mut Output,
    sink: &mut O,
    source: &mut S,
) -> Result<(), ReadError>
    ensures { Formats (view_rest []) (λ is. lines 8 (all view_item_block is)) result
        cursor.old cursor.new
        (S.supply source.old) (S.supply source.new)
        (state O.receipt sink.old output.old) (state O.receipt sink.new output.new) }
{
    let mut filled = false;
    while cursor.at_form(alloc, source)? {
        let keyword = cursor.begin(alloc, view_keywords(filled), source)?;
        format_form(alloc, cursor, keyword, output, sink, source)?;
        filled = is_filled(filled, keyword);
    }
    cursor.finish_form(alloc, source)
}

/// Whether contents stand among the parts of a view, after one more with this keyword.
fn is_filled(so_far: bool, keyword: Keyword) -> bool
    ensures { result ≡ (so_far || same_keyword keyword k.Contents) }
{
    so_far || same_keyword(keyword, Keyword::Contents)
}

/// Reads on after the keyword of a part of a view, and puts the lines of the part.
fn format_form<S: Source, O: Sink>(
    alloc: Global,
    cursor: &mut Cursor,
    keyword: Keyword,
    output: &mut Output,
    sink: &mut O,
    source: &mut S,
) -> Result<(), ReadError>
    ensures { FormatsSuch (λ i. is_contents i ≡ same_keyword keyword k.Contents)
        (view_item keyword) (λ i. laid 8 (view_item_block i)) result cursor.old cursor.new
        (S.supply source.old) (S.supply source.new)
        (state O.receipt sink.old output.old) (state O.receipt sink.new output.new) }
{
    if same_keyword(keyword, Keyword::Contents) {
        lay_contents_start(8, output, sink);
        format_contents(alloc, cursor, output, sink, source)?;
        put_close(8, output, sink);
        return Ok(());
    }
    let item = view_form(alloc, cursor, keyword, source)?;
    put_part(item, 8, output, sink);
    Ok(())
}

/// Reads the parts of contents up to their `)`, and puts the lines of each.
fn format_contents<S: Source, O: Sink>(
    alloc: Global,
    cursor: &mut Cursor,
    output: &mut Output,
    sink: &mut O,
    source: &mut S,
) -> Result<(), ReadError>
    ensures { Formats (contents_rest []) (λ is. lines 10 (all contents_item_block is)) result
        cursor.old cursor.new
        (S.supply source.old) (S.supply source.new)
        (state O.receipt sink.old output.old) (state O.receipt sink.new output.new) }
{
    while cursor.at_form(alloc, source)? {
        let item = contents_item(alloc, cursor, source)?;
        put_part(item, 10, output, sink);
    }
    cursor.finish_form(alloc, source)
}
