// The report.
ghost use Rattle.std.specs.Prelude.{ℕ, ◌≡◌, ◌<◌, ◌≤◌, List, [], All, IfOk, filter, length, slice_get};
ghost use Rattle.flat_classes.specs.Groups.{AreMembers};
ghost use Rattle.flat_classes.specs.Terminals.{AreFlatClasses};
ghost use Rattle.flat_numbers.specs.Spots.{AreSpots};
ghost use Rattle.flat_report.specs.Report.{has_two, leaf_then, leaves_then, net_then, nets_then, report_then};
ghost use Rattle.flat_classes.specs.Ways.{ArePaths};
ghost use Rattle.flat_report.specs.Reports.{Reports};
ghost use Rattle.flat_report.specs.declared.reporting.ReportError.TheVariants.{NoMemory};
ghost use Rattle.net_hier.specs.Constants.{ConstantNames};
ghost use Rattle.net_hier.specs.Paths.{Path};
ghost use Rattle.nl_output.specs.Writing.{Puts, Writes, state};

use crate::lines::{put_count, put_design, put_terminals};
use crate::path::put_path;
use edif_writer::string::write_string;
use flat_classes::{Flat, FlatFault, Members, Spot};
use net_hier::{Constants, Hier};
use nl_base::NoMemory;
use nl_io::{Failed, Sink};
use nl_output::Output;
use std::alloc::Global;

/// Why there is no report.
#[derive(Drop)]
pub enum ReportError {
    /// The flat count, this one or 2^64-1 where it is larger, is above 2,000,000.
    FlatTooLarge(u64),
    /// The sink failed, and a front of the text was put.
    Failed,
    /// Memory ran out, before anything was put.
    NoMemory,
}

impl From<NoMemory> for ReportError {
    ghost from_gives = { λ _ e. e ≡ NoMemory };

    fn from(_: NoMemory) -> Self {
        ReportError::NoMemory
    }
}

/// Puts the line of a leaf.
fn put_leaf<O: Sink>(
    hier: &Hier,
    spots: &[Spot],
    leaf: u32,
    room: &mut [u32],
    output: &mut Output,
    sink: &mut O,
)
    requires spots { AreSpots hier.now spots.now }
    requires leaf { leaf < length spots.now }
    requires room { length spots.now ≤ length room.old }
    ensures { (paths : List Path) → ArePaths hier.now.cells spots.now paths →
        Puts (leaf_then hier.now.cells spots.now paths leaf)
        (state O.receipt sink.old output.old)
        (state O.receipt sink.new output.new) }
{
    let cells = hier.cells();
    output.put(b"leaf ", sink);
    put_path(hier, spots, leaf, room, output, sink);
    output.put(b" ", sink);
    let cell = spots[leaf as usize].cell;
    write_string(cells[cell as usize].name.bytes(), output, sink);
    output.put(b"\n", sink);
}

/// Puts the lines of leaves.
fn put_leaves<O: Sink>(
    hier: &Hier,
    spots: &[Spot],
    leaves: &[u32],
    room: &mut [u32],
    output: &mut Output,
    sink: &mut O,
)
    requires spots { AreSpots hier.now spots.now }
    requires leaves { All (λ leaf. leaf < length spots.now) leaves.now }
    requires room { length spots.now ≤ length room.old }
    ensures { (paths : List Path) → ArePaths hier.now.cells spots.now paths →
        Puts (leaves_then hier.now.cells spots.now paths leaves.now)
        (state O.receipt sink.old output.old)
        (state O.receipt sink.new output.new) }
{
    for leaf in leaves {
        put_leaf(hier, spots, *leaf, room, output, sink);
    }
}

/// Whether there are two places or more.
fn has_two(places: &[u32]) -> bool
    ensures { result ≡ has_two places.now }
{
    2 <= places.len()
}

/// How many groups have two places or more.
fn groups_of_two(members: &Members) -> usize
    ensures { result ≡ length (filter has_two members.now) }
{
    let mut count = 0;
    for group in 0..members.count() {
        if has_two(members.of(group)) {
            count += 1;
        }
    }
    count
}

/// Puts a group of two terminals or more: the line `net` and the terminals at these places.
pub fn put_net<O: Sink>(
    hier: &Hier,
    flat: &Flat,
    places: &[u32],
    room: &mut [u32],
    output: &mut Output,
    sink: &mut O,
)
    requires classes { (names : ConstantNames) × AreFlatClasses names hier.now flat.now }
    requires places { All (λ place. place < length flat.now.terminals) places.now }
    requires room { length flat.now.spots ≤ length room.old }
    ensures { (paths : List Path) → ArePaths hier.now.cells flat.now.spots paths →
        Puts (net_then hier.now.cells flat.now.spots paths flat.now.terminals places.now)
        (state O.receipt sink.old output.old)
        (state O.receipt sink.new output.new) }
{
    if !has_two(places) {
        return;
    }
    output.put(b"net\n", sink);
    put_terminals(hier, flat, places, room, output, sink);
}

/// Puts the groups of two terminals or more.
fn put_nets<O: Sink>(
    hier: &Hier,
    flat: &Flat,
    members: &Members,
    room: &mut [u32],
    output: &mut Output,
    sink: &mut O,
)
    requires classes { (names : ConstantNames) × AreFlatClasses names hier.now flat.now }
    requires members { AreMembers flat.now.groups flat.now.count members.now }
    requires room { length flat.now.spots ≤ length room.old }
    ensures { (paths : List Path) → ArePaths hier.now.cells flat.now.spots paths →
        Puts (nets_then hier.now.cells flat.now.spots paths flat.now.terminals members.now)
        (state O.receipt sink.old output.old)
        (state O.receipt sink.new output.new) }
{
    for group in 0..members.count() {
        put_net(hier, flat, members.of(group), room, output, sink);
    }
}

/// Puts the lines of a report.
fn put_report<O: Sink>(
    hier: &Hier,
    flat: &Flat,
    members: &Members,
    room: &mut [u32],
    output: &mut Output,
    sink: &mut O,
)
    requires classes { (names : ConstantNames) × AreFlatClasses names hier.now flat.now }
    requires members { AreMembers flat.now.groups flat.now.count members.now }
    requires room { length flat.now.spots ≤ length room.old }
    ensures { (paths : List Path) → ArePaths hier.now.cells flat.now.spots paths →
        Puts (report_then hier.now flat.now paths)
        (state O.receipt sink.old output.old)
        (state O.receipt sink.new output.new) }
{
    put_design(hier, output, sink);
    put_count(b"leaves", flat.leaves().len(), output, sink);
    put_leaves(hier, flat.spots(), flat.leaves(), room, output, sink);
    put_count(b"nets", groups_of_two(members), output, sink);
    put_nets(hier, flat, members, room, output, sink);
}

/// Writes the lines of a report.
fn write_report<O: Sink>(
    hier: &Hier,
    flat: &Flat,
    members: &Members,
    room: &mut [u32],
    sink: &mut O,
) -> Result<(), Failed>
    requires classes { (names : ConstantNames) × AreFlatClasses names hier.now flat.now }
    requires members { AreMembers flat.now.groups flat.now.count members.now }
    requires room { length flat.now.spots ≤ length room.old }
    ensures { (paths : List Path) → ArePaths hier.now.cells flat.now.spots paths →
        Writes O.receipt sink.old sink.new (report_then hier.now flat.now paths [])
        result }
{
    let mut output = Output::new();
    put_report(hier, flat, members, room, &mut output, sink);
    let result = output.finish(sink);
    result
}

/// Room for a place for each spot.
pub fn room_for(alloc: Global, spots: &[Spot]) -> Result<Vec<u32>, NoMemory>
    ensures { IfOk result (λ room. length room.items ≡ length spots.now) }
{
    let room = vec![in alloc; 0; spots.len()]?;
    Ok(room)
}

/// Puts the report of a design: its leaves that are no constant cells, and the groups of two or
/// more connected terminals.
pub fn report<O: Sink>(
    alloc: Global,
    hier: &Hier,
    constants: &Constants,
    sink: &mut O,
) -> Result<(), ReportError>
    ensures { Reports O.receipt constants.now hier.now sink.old sink.new result }
{
    let _cells = hier.cells();
    let flat = match Flat::of(alloc, hier, constants) {
        Ok(flat) => flat,
        Err(FlatFault::TooLarge(count)) => return Err(ReportError::FlatTooLarge(count)),
        Err(FlatFault::NoMemory) => return Err(ReportError::NoMemory),
    };
    let members = flat.members(alloc)?;
    let mut room = room_for(alloc, flat.spots())?;
    match write_report(hier, &flat, &members, &mut room, sink) {
        Ok(()) => Ok(()),
        Err(_) => Err(ReportError::Failed),
    }
}
