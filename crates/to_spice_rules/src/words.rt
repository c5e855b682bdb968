// The words of port bits.
ghost use Rattle.std.specs.Prelude.{◌≡◌, ◌++◌, IfOk, OnOk};
ghost use Rattle.to_spice_rules.specs.PortWords.{bit_words, port_words};

use net_hier::units::port_width;
use net_hier::{HCell, HPort};
use net_live::bit_word;
use nl_base::{NoMemory, Seq, Text};
use std::alloc::Global;

/// Adds the words of the bits of a port.
fn push_words(alloc: Global, words: &mut Seq<Text>, port: &HPort) -> Result<(), NoMemory>
    ensures { OnOk result (words.new ≡ words.old ++ bit_words port.now) }
{
    for bit in 0..port_width(port) {
        words.push(bit_word(alloc, port, bit as u32)?)?;
    }
    Ok(())
}

/// The words of the port bits of a cell, in order.
pub fn words_of(alloc: Global, cell: &HCell) -> Result<Seq<Text>, NoMemory>
    ensures { IfOk result (λ words. words ≡ port_words cell.now) }
{
    let mut words = Seq::empty(alloc);
    for port in cell.ports.items() {
        push_words(alloc, &mut words, port)?;
    }
    Ok(words)
}
