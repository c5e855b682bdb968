// Designs of texts, and what a tool is given beside them.
use net_hier::{ConstName, Constants, Hier};
use netlist_cli::designs::read_design;
use nl_base::{NoMemory, Text};
use nl_io::{MemSink, MemSource};
use std::alloc::Global;

/// The design of a text in pieces: of EDIF, or of Verilog where there is the name of a top module.
pub fn hier_of(alloc: Global, text: &[&[u8]], top: &[u8]) -> Result<Option<Hier>, NoMemory> {
    let mut pieces = Vec::new(alloc);
    for piece in text {
        pieces.push(Vec::from_slice(alloc, piece)?)?;
    }
    let mut source = MemSource::new(pieces, Vec::new(alloc));
    let top = if top.is_empty() {
        None
    } else {
        Some(Text::copy(alloc, top)?)
    };
    Ok(read_design(alloc, &top, &mut source).ok())
}

/// A sink with room enough for what a test writes.
pub fn sink_of(alloc: Global) -> Result<MemSink, NoMemory> {
    let room = vec![in alloc; 0; 1000]?;
    Ok(MemSink::new(room, Vec::new(alloc)))
}

fn const_name(alloc: Global, cell: &[u8], port: &[u8]) -> Result<ConstName, NoMemory> {
    let cell = Text::copy(alloc, cell)?;
    let port = Text::copy(alloc, port)?;
    Ok(ConstName { cell, port })
}

/// The usual constants, but that the port G of this cell stands for the zero.
pub fn constants_of(alloc: Global, zero: &[u8]) -> Result<Option<Constants>, NoMemory> {
    let zero = const_name(alloc, zero, b"G")?;
    let one = const_name(alloc, b"VCC", b"P")?;
    Ok(Constants::check(zero, one))
}
