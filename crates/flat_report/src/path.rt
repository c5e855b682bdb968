// Paths.
ghost use Rattle.std.specs.Prelude.{ℕ, ◌≡◌, ◌<◌, ◌≤◌, List, length, map, take};
ghost use Rattle.flat_numbers.specs.Spots.{AreSpots, IsSpotOf};
ghost use Rattle.flat_report.specs.Report.{names_then, path_then};
ghost use Rattle.flat_classes.specs.Ways.{AreInner, IsInner, IsWay, instance_name};
ghost use Rattle.net_hier.specs.Paths.{Path};
ghost use Rattle.nl_output.specs.Writing.{Puts, state};

use edif_writer::string::write_string;
use flat_classes::Spot;
use net_hier::Hier;
use nl_io::Sink;
use nl_output::Output;

/// Writes the spots from this one up to the top, without the top, to the front of the room, and
/// answers how many they are.
fn way_up(spots: &[Spot], spot: u32, room: &mut [u32]) -> usize
    requires { (way : List ℕ) × IsWay spots.now spot way × (length way ≤ length room.old) }
    ensures count { (way : List ℕ) → IsWay spots.now spot way → result ≡ length way }
    ensures way { (way : List ℕ) → IsWay spots.now spot way → take result room.new ≡ way }
{
    let mut at = spot;
    let mut count = 0;
    while at != 0 {
        room[count] = at;
        count += 1;
        at = spots[at as usize].parent;
    }
    count
}

/// The name of the instance that a spot other than the top's is.
fn instance_name<'a>(hier: &'a Hier, spots: &[Spot], spot: u32) -> &'a [u8]
    requires { IsInner hier.now.cells spots.now spot }
    ensures { result.now ≡ instance_name hier.now.cells spots.now spot }
{
    let cells = hier.cells();
    let place = spots[spot as usize];
    let above = spots[place.parent as usize].cell;
    let instance = &cells[above as usize].instances.items()[place.instance as usize];
    instance.name.bytes()
}

/// Puts the names of the spots, the last first, each with `/` behind it.
fn put_above<O: Sink>(hier: &Hier, spots: &[Spot], above: &[u32], output: &mut Output, sink: &mut O)
    requires { AreInner hier.now.cells spots.now above.now }
    ensures { Puts (names_then (map (instance_name hier.now.cells spots.now) above.now))
        (state O.receipt sink.old output.old)
        (state O.receipt sink.new output.new) }
{
    let mut place = above.len();
    while place > 0 {
        place -= 1;
        write_string(instance_name(hier, spots, above[place]), output, sink);
        output.put(b"/", sink);
    }
}

/// Puts the path of the spots from one up to the top.
fn put_way<O: Sink>(hier: &Hier, spots: &[Spot], way: &[u32], output: &mut Output, sink: &mut O)
    requires { AreInner hier.now.cells spots.now way.now }
    ensures { Puts (path_then (map (instance_name hier.now.cells spots.now) way.now))
        (state O.receipt sink.old output.old)
        (state O.receipt sink.new output.new) }
{
    if let [spot, above @ ..] = way {
        put_above(hier, spots, above, output, sink);
        write_string(instance_name(hier, spots, *spot), output, sink);
        return;
    }
    output.put(b".", sink);
}

/// Puts the path of a spot: its names as strings from the top down, with `/` between them, or `.`
/// for that of the top. The room has a place for each spot.
pub fn put_path<O: Sink>(
    hier: &Hier,
    spots: &[Spot],
    spot: u32,
    room: &mut [u32],
    output: &mut Output,
    sink: &mut O,
)
    requires spots { AreSpots hier.now spots.now }
    requires spot { spot < length spots.now }
    requires room { length spots.now ≤ length room.old }
    ensures { (path : Path) → IsSpotOf hier.now.cells spots.now path spot → Puts (path_then path)
        (state O.receipt sink.old output.old)
        (state O.receipt sink.new output.new) }
{
    let _cells = hier.cells();
    let count = way_up(spots, spot, room);
    put_way(hier, spots, &room[..count], output, sink);
}
