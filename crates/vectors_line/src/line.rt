// The line of a generated file.
ghost use Rattle.std.specs.Prelude.{◌≡◌, ◌++◌, IfOk, OnOk};
ghost use Rattle.std.specs.Fmt.{decimal};
ghost use Rattle.vectors_line.specs.Lines.{generated_line as line_said, leaf_count as leaf_count_of, numbers_line};

use crate::texts::vlog_length;
use nl_base::{NoMemory, Text, spell_u64};
use std::alloc::Global;
use vectors::swapped;
use vlog_values::VlogFile;

/// How many leaves the design of so many generated cells has, or the greatest `u64` where there are more.
fn leaf_count(cells: u32) -> u64
    ensures { result ≡ leaf_count_of cells }
{
    let mut leaves: u64 = 1;
    for _below in 0..cells.saturating_sub(1) {
        leaves = leaves.saturating_mul(2);
    }
    leaves
}

/// Adds a number in decimal.
fn add_number(line: &mut Vec<u8>, number: u64) -> Result<(), NoMemory>
    ensures { OnOk result (line.new.items ≡ line.old.items ++ decimal number) }
{
    let mut digits = [0; 20];
    let len = spell_u64(number, &mut digits);
    line.extend_from_slice(&digits[..len])?;
    Ok(())
}

/// The line of these numbers.
fn line_of(
    alloc: Global,
    cells: u64,
    swapped: u64,
    leaves: u64,
    bytes: u64,
) -> Result<Text, NoMemory>
    ensures { IfOk result (λ line. line ≡ numbers_line cells swapped leaves bytes) }
{
    let mut line = Vec::from_slice(alloc, b"generated ")?;
    add_number(&mut line, cells)?;
    line.extend_from_slice(b" cells, ")?;
    add_number(&mut line, swapped)?;
    line.extend_from_slice(b" swapped, ")?;
    add_number(&mut line, leaves)?;
    line.extend_from_slice(b" leaves, ")?;
    add_number(&mut line, bytes)?;
    line.extend_from_slice(b" bytes of Verilog\n")?;
    let text = Text::of(alloc, line)?;
    Ok(text)
}

/// The line of the generated file of a seed and so many cells, of which these are the modules.
pub fn generated_line(
    alloc: Global,
    seed: u64,
    cells: u32,
    modules: &VlogFile,
) -> Result<Text, NoMemory>
    ensures { IfOk result (λ line. line ≡ line_said seed cells modules.now) }
{
    let bytes = vlog_length(modules);
    let line = line_of(
        alloc,
        cells as u64,
        swapped(seed, cells) as u64,
        leaf_count(cells),
        bytes,
    )?;
    Ok(line)
}
