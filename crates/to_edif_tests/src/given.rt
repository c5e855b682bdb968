// Designs of Verilog texts, and the cells that stand for the constants.
use net_hier::{ConstName, Constants, Hier};
use netlist_cli::designs::read_design;
use nl_base::{NoMemory, Text};
use nl_io::MemSource;
use std::alloc::Global;

/// The design of a text under the module of this name.
pub fn design_of(alloc: Global, text: Vec<u8>, top: &[u8]) -> Result<Option<Hier>, NoMemory> {
    let mut pieces = Vec::new(alloc);
    pieces.push(text)?;
    let mut source = MemSource::new(pieces, Vec::new(alloc));
    let top = Some(Text::copy(alloc, top)?);
    Ok(read_design(alloc, &top, &mut source).ok())
}

fn const_name(alloc: Global, cell: &[u8], port: &[u8]) -> Result<ConstName, NoMemory> {
    let cell = Text::copy(alloc, cell)?;
    let port = Text::copy(alloc, port)?;
    Ok(ConstName { cell, port })
}

/// The constants for which these cells stand, with these ports.
pub fn constants_of(
    alloc: Global,
    zero: (&[u8], &[u8]),
    one: (&[u8], &[u8]),
) -> Result<Option<Constants>, NoMemory> {
    let (cell, port) = zero;
    let zero = const_name(alloc, cell, port)?;
    let (cell, port) = one;
    let one = const_name(alloc, cell, port)?;
    Ok(Constants::check(zero, one))
}
