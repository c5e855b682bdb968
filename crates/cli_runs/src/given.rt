// What a run is given, and what it is to give.
ghost use Rattle.std.specs.Prelude.{◌≡◌, flat_map, if◌then◌else◌, length, map, nat_eq, IfOk};

use nl_base::{Seq, Text, spell_u64};
use nl_io::{MemSink, MemSource};
use std::alloc::Global;
use std::test::Fail;

pub const USAGE: &[u8] =
    b"usage: netlist format or vformat or check [--top NAME] or report [--top NAME] [--zero CELL.PORT] [--one CELL.PORT] or to-verilog {--parameter NAME} or to-edif --top NAME [--zero CELL.PORT] [--one CELL.PORT] or generate SEED CELLS or lint [--top NAME] [--zero CELL.PORT] [--one CELL.PORT] or flatten [--top NAME] [--zero CELL.PORT] [--one CELL.PORT] or to-spice [--top NAME]\n";

/// What is run: the status that it ends with on words, an input, an output and errors.
pub trait Program {
    fn run(
        alloc: Global,
        words: &Seq<Text>,
        input: &mut MemSource,
        output: &mut MemSink,
        errors: &mut MemSink,
    ) -> u8;
}

/// What a run is given: its words, a text in one piece or byte by byte, the number of a take that fails, the room of the output and the
/// number of a put there that fails, and whether the first put to errors fails.
#[derive(Clone, Copy)]
pub struct Given<'a> {
    pub words: &'a [&'a [u8]],
    pub text: &'a [u8],
    pub whole: bool,
    pub failing_take: u64,
    pub room: usize,
    pub failing_put: u64,
    pub errors_fail: bool,
}

/// What a run is to give: the status, what output and errors took, and how many bytes the input gave.
#[derive(Clone, Copy)]
pub struct Wanted<'a> {
    pub status: u8,
    pub output: &'a [u8],
    pub errors: &'a [u8],
    pub taken: u64,
}

/// These words on a text in one piece, with room enough and no failure.
pub fn given_plainly<'a>(words: &'a [&'a [u8]], text: &'a [u8]) -> Given<'a> {
    Given {
        words,
        text,
        whole: true,
        failing_take: 0,
        room: 4000,
        failing_put: 0,
        errors_fail: false,
    }
}

/// What a run is to give that takes its whole text, unless its words are no command.
pub fn wanted_of<'a>(
    given: &Given<'a>,
    status: u8,
    output: &'a [u8],
    errors: &'a [u8],
) -> Wanted<'a>
    ensures status { result.status ≡ status }
    ensures output { result.output.now ≡ output.now }
    ensures errors { result.errors.now ≡ errors.now }
    ensures taken { result.taken ≡ (if nat_eq status 5 then 0 else length given.now.text.now) }
{
    let taken = if status == 5 {
        0
    } else {
        given.text.len() as u64
    };
    Wanted {
        status,
        output,
        errors,
        taken,
    }
}

/// Pieces of one byte each.
fn bytes_of(alloc: Global, text: &[u8]) -> Result<Vec<Vec<u8>>, Fail> {
    let mut pieces = Vec::new(alloc);
    for byte in text {
        pieces.push(vec![in alloc; *byte; 1]?)?;
    }
    Ok(pieces)
}

fn pieces_of(alloc: Global, given: &Given<'_>) -> Result<Vec<Vec<u8>>, Fail> {
    if given.whole {
        return Ok(vec![in alloc; Vec::from_slice(alloc, given.text)?]?);
    }
    bytes_of(alloc, given.text)
}

pub fn source_of(alloc: Global, given: &Given<'_>) -> Result<MemSource, Fail> {
    let fails = vec![in alloc; given.failing_take]?;
    Ok(MemSource::new(pieces_of(alloc, given)?, fails))
}

/// Words, in order.
pub fn words_of(alloc: Global, line: &[&[u8]]) -> Result<Seq<Text>, Fail>
    ensures { IfOk result (λ words. words ≡ map (λ word. word.now) line.now) }
{
    let mut words = Seq::empty(alloc);
    for word in line {
        words.push(Text::copy(alloc, *word)?)?;
    }
    Ok(words)
}

/// A sink of this room, whose put of this number fails.
pub fn sink_of(alloc: Global, room: usize, failing_put: u64) -> Result<MemSink, Fail> {
    let fails = vec![in alloc; failing_put]?;
    Ok(MemSink::new(vec![in alloc; 0; room]?, fails))
}

fn ends_over<P: Program>(
    alloc: Global,
    given: &Given<'_>,
    input: &mut MemSource,
    output: &mut MemSink,
    wanted: &Wanted<'_>,
) -> Result<bool, Fail> {
    let words = words_of(alloc, given.words)?;
    let mut errors = sink_of(alloc, 1000, given.errors_fail as u64)?;
    let status = P::run(alloc, &words, input, output, &mut errors);
    Ok(
        status == wanted.status
            && output.taken() == wanted.output
            && errors.taken() == wanted.errors
            && input.given() == wanted.taken,
    )
}

/// Whether a run gives what is wanted.
pub fn ends_so<P: Program>(
    alloc: Global,
    given: &Given<'_>,
    wanted: &Wanted<'_>,
) -> Result<bool, Fail> {
    let mut input = source_of(alloc, given)?;
    let mut output = sink_of(alloc, given.room, given.failing_put)?;
    ends_over::<P>(alloc, given, &mut input, &mut output, wanted)
}

/// Whether these words on a text end with this status, and put this text and this line.
pub fn answers<P: Program>(
    alloc: Global,
    words: &[&[u8]],
    text: &[u8],
    status: u8,
    output: &[u8],
    errors: &[u8],
) -> Result<bool, Fail> {
    let given = given_plainly(words, text);
    ends_so::<P>(alloc, &given, &wanted_of(&given, status, output, errors))
}

/// The words of `check` under the module m.
pub const CHECK_M: &[&[u8]] = &[b"check", b"--top", b"m"];

/// A run on a text in one piece, with room enough and no failure: its words, the text, the status, and what output and errors take.
pub type Row<'a> = (&'a [&'a [u8]], &'a [u8], u8, &'a [u8], &'a [u8]);

/// The place of the first row whose run ends in another way, if there is one.
pub fn first_wrong<P: Program>(alloc: Global, rows: &[Row<'_>]) -> Result<Option<usize>, Fail> {
    for place in 0..rows.len() {
        let (words, text, status, output, errors) = rows[place];
        if !answers::<P>(alloc, words, text, status, output, errors)? {
            return Ok(Some(place));
        }
    }
    Ok(None)
}

/// Whether these words on a text end with a text fault told by this line, after at most so many bytes.
pub fn is_refused_early<P: Program>(
    alloc: Global,
    words: &[&[u8]],
    text: &[u8],
    line: &[u8],
    most: u64,
) -> Result<bool, Fail> {
    let words = words_of(alloc, words)?;
    let mut input = source_of(alloc, &given_plainly(&[], text))?;
    let mut output = sink_of(alloc, 10, 0)?;
    let mut errors = sink_of(alloc, 100, 0)?;
    let status = P::run(alloc, &words, &mut input, &mut output, &mut errors);
    Ok(status == 1 && errors.taken() == line && input.given() <= most)
}

/// Texts behind one another.
pub fn text_of(alloc: Global, pieces: &[&[u8]]) -> Result<Vec<u8>, Fail>
    ensures { IfOk result (λ text. text.items ≡ flat_map (λ piece. piece.now) pieces.now) }
{
    let mut text = Vec::new(alloc);
    for piece in pieces {
        text.extend_from_slice(*piece)?;
    }
    Ok(text)
}

/// Adds the decimal of a number.
pub fn add_number(text: &mut Vec<u8>, number: u64) -> Result<(), Fail> {
    let mut digits = [0; 20];
    let len = spell_u64(number, &mut digits);
    text.extend_from_slice(&digits[..len])?;
    Ok(())
}

/// A text with so many of a byte in it.
pub fn text_around(
    alloc: Global,
    front: &[u8],
    byte: u8,
    count: usize,
    rest: &[u8],
) -> Result<Vec<u8>, Fail> {
    let middle = vec![in alloc; byte; count]?;
    text_of(alloc, &[front, middle.as_slice(), rest])
}
