// Files that are read, and of which the text is made.
ghost use Rattle.std.specs.Prelude.{[]};
ghost use Rattle.nl_output.specs.Writing.{state, Puts};
ghost use Rattle.edif_writer.specs.Forms.{file_block, file_item_block};
ghost use Rattle.edif_writer.specs.Layout.{all, laid, lines};
ghost use Rattle.edif_writer.specs.Starts.{file_start};
ghost use Rattle.edif_library.specs.Grammar.{file, file_body, file_item, file_rest};
ghost use Rattle.edif_format.specs.Formats.{FormatsText};
ghost use Rattle.edif_format.specs.Parts.{Formats, FormatsWhole};

use crate::library::format_library;
use crate::part::put_part;
use edif_keywords::Cursor;
use edif_library::file_form;
use edif_names::read_name;
use edif_tokens::Tokens;
use edif_values::{EdifFile, Keyword, NameDef, same_keyword};
use edif_writer::{lay_file_start, put_close};
use nl_base::{ReadError, Seq};
use nl_io::{Sink, Source};
use nl_memory::MemorySink;
use nl_output::Output;
use std::alloc::Global;

/// The normal text of the EDIF file that the source spells. Whatever it answers, at most 4,096 bytes more than 268,435,456 are taken from the
/// source.
///
/// # Errors
/// As `read_edif`: `Text`: the first fault, with its place, where its stop lies within so many bytes. `TooLong`: the text is longer, and it
/// has no such fault. `ReadFault`: the source failed. `NoMemory`: memory ran out. It never answers `Spent`.
pub fn format_edif<S: Source>(alloc: Global, source: &mut S) -> Result<Vec<u8>, ReadError>
    ensures { FormatsText result (S.supply source.old) (S.supply source.new) }
{
    let Ok(tokens) = Tokens::new(alloc) else {
        return Err(ReadError::NoMemory);
    };
    let mut cursor = Cursor::new(alloc, tokens);
    let mut output = Output::new();
    let mut sink = MemorySink::new(alloc);
    format_file(alloc, &mut cursor, &mut output, &mut sink, source)?;
    cursor.end_of_input(alloc, source)?;
    match output.finish(&mut sink) {
        Ok(()) => Ok(sink.into_bytes()),
        Err(_) => Err(ReadError::NoMemory),
    }
}

/// Reads a file, from its `(` to its `)`, and puts its lines.
fn format_file<S: Source, O: Sink>(
    alloc: Global,
    cursor: &mut Cursor,
    output: &mut Output,
    sink: &mut O,
    source: &mut S,
) -> Result<(), ReadError>
    ensures { FormatsWhole (file cursor.old.context) (λ f. laid 0 (file_block f)) result
        cursor.old cursor.new
        (S.supply source.old) (S.supply source.new)
        (state O.receipt sink.old output.old) (state O.receipt sink.new output.new) }
{
    cursor.begin(alloc, &[Keyword::Edif], source)?;
    let name = read_name(alloc, cursor, source)?;
    cursor.header(alloc, source)?;
    format_body(alloc, cursor, name, output, sink, source)
}

/// Reads on after the header of a file of this name, and puts the lines of the file.
fn format_body<S: Source, O: Sink>(
    alloc: Global,
    cursor: &mut Cursor,
    name: NameDef,
    output: &mut Output,
    sink: &mut O,
    source: &mut S,
) -> Result<(), ReadError>
    ensures { Formats (file_body name) (λ f. laid 0 (file_block f)) result
        cursor.old cursor.new
        (S.supply source.old) (S.supply source.new)
        (state O.receipt sink.old output.old) (state O.receipt sink.new output.new) }
{
    put_start(
        EdifFile {
            name,
            items: Seq::empty(alloc),
        },
        output,
        sink,
    );
    format_items(alloc, cursor, output, sink, source)?;
    put_close(0, output, sink);
    Ok(())
}

/// Puts the lines of a file up to the parts behind its keyword map.
fn put_start<O: Sink>(heading: EdifFile, output: &mut Output, sink: &mut O)
    ensures { Puts (file_start 0 heading)
        (state O.receipt sink.old output.old) (state O.receipt sink.new output.new) }
{
    lay_file_start(&heading, 0, output, sink);
}

/// Reads the parts of a file up to its `)`, and puts the lines of each.
fn format_items<S: Source, O: Sink>(
    alloc: Global,
    cursor: &mut Cursor,
    output: &mut Output,
    sink: &mut O,
    source: &mut S,
) -> Result<(), ReadError>
    ensures { Formats (file_rest []) (λ is. lines 2 (all file_item_block is)) result
        cursor.old cursor.new
        (S.supply source.old) (S.supply source.new)
        (state O.receipt sink.old output.old) (state O.receipt sink.new output.new) }
{
    while cursor.at_form(alloc, source)? {
        let keyword = cursor.begin(
            alloc,
            &[
                Keyword::Library,
                Keyword::External,
                Keyword::Design,
                Keyword::Status,
                Keyword::Comment,
                Keyword::UserData,
            ],
            source,
        )?;
        format_form(alloc, cursor, keyword, output, sink, source)?;
    }
    cursor.finish_form(alloc, source)
}

/// Reads on after the keyword of a part of a file, and puts the lines of the part.
fn format_form<S: Source, O: Sink>(
    alloc: Global,
    cursor: &mut Cursor,
    keyword: Keyword,
    output: &mut Output,
    sink: &mut O,
    source: &mut S,
) -> Result<(), ReadError>
    ensures { Formats (file_item keyword) (λ i. laid 2 (file_item_block i)) result
        cursor.old cursor.new
        (S.supply source.old) (S.supply source.new)
        (state O.receipt sink.old output.old) (state O.receipt sink.new output.new) }
{
    if same_keyword(keyword, Keyword::Library) {
        return format_library(alloc, cursor, false, output, sink, source);
    }
    if same_keyword(keyword, Keyword::External) {
        return format_library(alloc, cursor, true, output, sink, source);
    }
    let item = file_form(alloc, cursor, keyword, source)?;
    put_part(item, 2, output, sink);
    Ok(())
}
