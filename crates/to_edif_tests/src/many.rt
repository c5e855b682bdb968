// A cell of 300,000 instances, each joined to the next by a net of its own.
use crate::given::{constants_of, design_of};
use edif_library::{CellItem, EdifFile, FileItem, LibraryItem, ViewItem};
use edif_writer::write_edif;
use net_hier::{Constants, Hier};
use nl_base::{NoMemory, spell_u64};
use nl_io::CountSink;
use std::alloc::Global;
use std::test::Fail;
use to_edif::to_edif;

/// The number of the last instance, behind 299,999 others.
const LAST: u64 = 299_999;

fn add_number(text: &mut Vec<u8>, number: u64) -> Result<(), NoMemory> {
    let mut digits = [0; 20];
    let len = spell_u64(number, &mut digits);
    text.extend_from_slice(&digits[..len])?;
    Ok(())
}

/// Adds the nets behind the first one.
fn add_nets(text: &mut Vec<u8>) -> Result<(), NoMemory> {
    for number in 1..LAST {
        text.extend_from_slice(b", n")?;
        add_number(text, number)?;
    }
    Ok(())
}

/// Adds the instances between the first and the last one, each with the net before it and its own.
fn add_instances(text: &mut Vec<u8>) -> Result<(), NoMemory> {
    for number in 1..LAST {
        text.extend_from_slice(b", i")?;
        add_number(text, number)?;
        text.extend_from_slice(b" (.I(n")?;
        add_number(text, number - 1)?;
        text.extend_from_slice(b"), .O(n")?;
        add_number(text, number)?;
        text.extend_from_slice(b"))")?;
    }
    Ok(())
}

/// The cell as a module: the output of each instance and the input of the next one are on one net.
fn module_of(alloc: Global) -> Result<Vec<u8>, NoMemory> {
    let mut text = Vec::from_slice(
        alloc,
        b"module INV (input I, output O); endmodule module top (); wire n0",
    )?;
    add_nets(&mut text)?;
    text.extend_from_slice(b"; INV i0 (.O(n0))")?;
    add_instances(&mut text)?;
    text.extend_from_slice(b", i299999 (.I(n299998)); endmodule")?;
    Ok(text)
}

/// How many items the contents of the last cell have.
fn items_of(file: &EdifFile) -> Option<usize> {
    let [FileItem::Library(library), ..] = file.items.items() else {
        return None;
    };
    let [.., LibraryItem::Cell(cell)] = library.items.items() else {
        return None;
    };
    let [CellItem::View(view)] = cell.items.items() else {
        return None;
    };
    let [ViewItem::Contents(items)] = view.items.items() else {
        return None;
    };
    Some(items.len())
}

/// How many items the contents of the top cell have, and how many bytes the file of the design is written in.
fn sizes_of(alloc: Global, hier: Hier, constants: &Constants) -> Option<(usize, u64)> {
    let file = to_edif(alloc, hier, constants).ok()?;
    let mut sink = CountSink::new();
    write_edif(&file, &mut sink).ok()?;
    Some((items_of(&file)?, sink.total()))
}

// A scan of all joins for each class would look at 180,000,000,000 of them.
#[test]
fn many_instances_are_translated(rt: HostRuntime) -> Result<(), Fail> {
    let alloc = rt.alloc();
    let text = module_of(alloc)?;
    let hier = design_of(alloc, text, b"top")?;
    let sizes = match (hier, constants_of(alloc, (b"GND", b"G"), (b"VCC", b"P"))?) {
        (Some(hier), Some(constants)) => sizes_of(alloc, hier, &constants),
        _ => None,
    };
    assert!(rt; sizes == Some((599_999, 79_655_964)));
    Ok(())
}
