// The identifiers and names of generated files.
ghost use Rattle.std.specs.Prelude.{◌≡◌, IfOk, IsTrue};
ghost use Rattle.nl_base.specs.Identifiers.{is_short_identifier};
ghost use Rattle.vectors.specs.Cells.{cell_ident as ident_of_cell, plain};

use edif_values::NameDef;
use nl_base::{Ident, NoMemory, OptionalText, Text, spell_u64};
use std::alloc::Global;

/// The identifier that these bytes are.
#[tactic(auto, using(crate::proofs::Identifiers::identifier_short, crate::proofs::Identifiers::identifier_spelled))]
pub(crate) fn ident(alloc: Global, bytes: &[u8]) -> Result<Ident, NoMemory>
    requires { IsTrue (is_short_identifier bytes.now) }
    ensures { IfOk result (λ ident. ident ≡ bytes.now) }
{
    let text = Text::copy(alloc, bytes)?;
    Ok(Ident::of(text))
}

/// The name that these bytes are.
pub(crate) fn name(alloc: Global, bytes: &[u8]) -> Result<NameDef, NoMemory>
    requires { IsTrue (is_short_identifier bytes.now) }
    ensures { IfOk result (λ name. name ≡ plain bytes.now) }
{
    let ident = ident(alloc, bytes)?;
    Ok(NameDef {
        ident,
        text: OptionalText::none(),
    })
}

/// The identifier of the cell of this number.
#[tactic(auto, using(crate::proofs::Identifiers::cell_spelled, crate::proofs::Identifiers::cell_short))]
pub(crate) fn cell_ident(alloc: Global, number: u32) -> Result<Ident, NoMemory>
    ensures { IfOk result (λ ident. ident ≡ ident_of_cell number) }
{
    let mut digits = [0; 20];
    let len = spell_u64(number as u64, &mut digits);
    let mut bytes = Vec::from_slice(alloc, b"c")?;
    bytes.extend_from_slice(&digits[..len])?;
    let text = Text::of(alloc, bytes)?;
    Ok(Ident::of(text))
}
