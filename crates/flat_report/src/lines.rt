// The lines that tell terminals, leaves and counts.
ghost use Rattle.std.specs.Prelude.{ℕ, ◌≡◌, ◌<◌, ◌≤◌, List, All, Some, length, slice_get, nat_abs, ◌^◌};
ghost use Rattle.flat_classes.specs.Terminals.{AreFlatClasses};
ghost use Rattle.flat_classes.specs.declared.flat.Terminal.TheVariants.{Pin};
ghost use Rattle.flat_numbers.specs.Numbers.{CellOf};
ghost use Rattle.flat_numbers.specs.Spots.{AreSpots};
ghost use Rattle.flat_report.specs.Report.{bit_then, count_then, design_then, index_then, port_of, port_then, terminal_then, terminals_then, words_then};
ghost use Rattle.flat_classes.specs.Ways.{ArePaths};
ghost use Rattle.flat_classes.specs.Ways.{IsTerminal};
ghost use Rattle.net_hier.specs.Cells.{IsPortBit, width_of};
ghost use Rattle.net_hier.specs.Constants.{ConstantNames};
ghost use Rattle.net_hier.specs.Paths.{Path};
ghost use Rattle.net_hier.specs.declared.cells.HCell.{HCell as CellValue};
ghost use Rattle.nl_output.specs.Writing.{Puts, state};

use crate::path::put_path;
use edif_writer::string::write_string;
use flat_classes::{Flat, Spot, Terminal};
use net_hier::{HPort, Hier};
use nl_base::{Int, Range};
use nl_io::Sink;
use nl_output::Output;

/// The number that an index is.
fn int_of(index: i32) -> Int
    ensures { result ≡ index }
{
    match Int::check(index as i64) {
        Some(number) => number,
        None => unreachable!(),
    }
}

/// Puts the index of a bit, where there is a range.
fn put_index<O: Sink>(range: Option<Range>, bit: u32, output: &mut Output, sink: &mut O)
    requires { bit < width_of range }
    ensures { Puts (index_then range bit)
        (state O.receipt sink.old output.old)
        (state O.receipt sink.new output.new) }
{
    if let Some(range) = range {
        output.put(b" ", sink);
        output.put_int(&int_of(range.index(bit)), sink);
    }
}

/// Puts the name of a port, and the index of the bit where the port has a range.
fn put_bit<O: Sink>(port: &HPort, bit: u32, output: &mut Output, sink: &mut O)
    requires { bit < width_of port.now.range }
    ensures { Puts (bit_then port.now bit)
        (state O.receipt sink.old output.old)
        (state O.receipt sink.new output.new) }
{
    write_string(port.name.bytes(), output, sink);
    put_index(port.range, bit, output, sink);
}

/// The port of this number of the cell at a spot.
pub fn port_at<'a>(hier: &'a Hier, spots: &[Spot], spot: u32, port: u32) -> &'a HPort
    requires { (cell : CellValue) × CellOf hier.now.cells spots.now spot cell ×
        (port < length cell.ports) }
    ensures { port_of hier.now.cells spots.now spot port ≡ Some result.now }
{
    let cells = hier.cells();
    let cell = spots[spot as usize].cell;
    &cells[cell as usize].ports.items()[port as usize]
}

/// Puts the name of a port of the cell at a spot, and the index of the bit where it has a range.
fn put_port_bit<O: Sink>(
    hier: &Hier,
    spots: &[Spot],
    spot: u32,
    port: u32,
    bit: u32,
    output: &mut Output,
    sink: &mut O,
)
    requires { (cell : CellValue) × CellOf hier.now.cells spots.now spot cell ×
        IsPortBit cell port bit }
    ensures { Puts (port_then (port_of hier.now.cells spots.now spot port) bit)
        (state O.receipt sink.old output.old)
        (state O.receipt sink.new output.new) }
{
    let port = port_at(hier, spots, spot, port);
    put_bit(port, bit, output, sink);
}

/// Puts the words of a pin, after two blanks.
fn put_pin<O: Sink>(
    hier: &Hier,
    spots: &[Spot],
    spot: u32,
    port: u32,
    bit: u32,
    room: &mut [u32],
    output: &mut Output,
    sink: &mut O,
)
    requires spots { AreSpots hier.now spots.now }
    requires is_pin { (cell : CellValue) × CellOf hier.now.cells spots.now spot cell ×
        IsPortBit cell port bit }
    requires room { length spots.now ≤ length room.old }
    ensures { (paths : List Path) → ArePaths hier.now.cells spots.now paths →
        Puts (words_then hier.now.cells spots.now paths (Pin spot port bit))
        (state O.receipt sink.old output.old)
        (state O.receipt sink.new output.new) }
{
    output.put(b"  pin ", sink);
    put_path(hier, spots, spot, room, output, sink);
    output.put(b" ", sink);
    put_port_bit(hier, spots, spot, port, bit, output, sink);
}

/// Puts the words of a terminal, after two blanks.
fn put_words<O: Sink>(
    hier: &Hier,
    spots: &[Spot],
    terminal: Terminal,
    room: &mut [u32],
    output: &mut Output,
    sink: &mut O,
)
    requires spots { AreSpots hier.now spots.now }
    requires terminal { IsTerminal hier.now.cells spots.now terminal }
    requires room { length spots.now ≤ length room.old }
    ensures { (paths : List Path) → ArePaths hier.now.cells spots.now paths →
        Puts (words_then hier.now.cells spots.now paths terminal)
        (state O.receipt sink.old output.old)
        (state O.receipt sink.new output.new) }
{
    match terminal {
        Terminal::Port { port, bit } => {
            output.put(b"  port ", sink);
            put_port_bit(hier, spots, 0, port, bit, output, sink);
        }
        Terminal::Pin { spot, port, bit } => {
            put_pin(hier, spots, spot, port, bit, room, output, sink);
        }
        Terminal::Zero => output.put(b"  zero", sink),
        Terminal::One => output.put(b"  one", sink),
    }
}

/// Puts the line of a terminal, after two blanks.
pub fn put_terminal<O: Sink>(
    hier: &Hier,
    spots: &[Spot],
    terminal: Terminal,
    room: &mut [u32],
    output: &mut Output,
    sink: &mut O,
)
    requires spots { AreSpots hier.now spots.now }
    requires terminal { IsTerminal hier.now.cells spots.now terminal }
    requires room { length spots.now ≤ length room.old }
    ensures { (paths : List Path) → ArePaths hier.now.cells spots.now paths →
        Puts (terminal_then hier.now.cells spots.now paths (Some terminal))
        (state O.receipt sink.old output.old)
        (state O.receipt sink.new output.new) }
{
    put_words(hier, spots, terminal, room, output, sink);
    output.put(b"\n", sink);
}

/// Puts the lines of the terminals at these places.
pub fn put_terminals<O: Sink>(
    hier: &Hier,
    flat: &Flat,
    places: &[u32],
    room: &mut [u32],
    output: &mut Output,
    sink: &mut O,
)
    requires classes { (names : ConstantNames) × AreFlatClasses names hier.now flat.now }
    requires places { All (λ place. place < length flat.now.terminals) places.now }
    requires room { length flat.now.spots ≤ length room.old }
    ensures { (paths : List Path) → ArePaths hier.now.cells flat.now.spots paths →
        Puts (terminals_then hier.now.cells flat.now.spots paths flat.now.terminals places.now)
        (state O.receipt sink.old output.old)
        (state O.receipt sink.new output.new) }
{
    let spots = flat.spots();
    for place in places {
        let terminal = flat.terminals()[*place as usize];
        put_terminal(hier, spots, terminal, room, output, sink);
    }
}

/// Puts a word, a blank and a number as a line.
pub fn put_count<O: Sink>(word: &[u8], count: usize, output: &mut Output, sink: &mut O)
    ensures { Puts (count_then word.now count)
        (state O.receipt sink.old output.old)
        (state O.receipt sink.new output.new) }
{
    output.put(word, sink);
    output.put(b" ", sink);
    output.put_u64(count as u64, sink);
    output.put(b"\n", sink);
}

/// Puts the line of a design.
pub fn put_design<O: Sink>(hier: &Hier, output: &mut Output, sink: &mut O)
    ensures { Puts (design_then (slice_get hier.now.cells hier.now.top))
        (state O.receipt sink.old output.old)
        (state O.receipt sink.new output.new) }
{
    let cells = hier.cells();
    output.put(b"design ", sink);
    write_string(cells[hier.top() as usize].name.bytes(), output, sink);
    output.put(b"\n", sink);
}
