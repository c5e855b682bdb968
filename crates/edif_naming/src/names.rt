// Names with their identifiers.
ghost use Rattle.std.specs.Prelude.{◌≡◌, ◌++◌, ◌∷◌, true, Some, pos, IfOk, OnOk};
ghost use Rattle.std.specs.Fmt.{signed_decimal};
ghost use Rattle.nl_base.specs.Ranges.{range_bits};
ghost use Rattle.edif_values.specs.declared.name.PortName.TheVariants.{Array};
ghost use Rattle.edif_values.specs.Values.{IsString, IsWord, IsNameDef, IsPortName};
ghost use Rattle.edif_written.specs.Naming.{IsSmallRange, array_text as text_of_array, name_for, port_name_for};
ghost use Rattle.edif_written.specs.Sound.{IsShort};

use edif_values::{NameDef, PortName};
use itoa::Buffer;
use net_hier::HPort;
use nl_base::{Ident, Int, NoMemory, OptionalText, Range, Text};
use std::alloc::Global;

/// The most bytes of a range in brackets.
const RANGE_ROOM: usize = 25;

/// An identifier like this one.
pub fn copied(alloc: Global, ident: &Ident) -> Result<Ident, NoMemory>
    ensures same { IfOk result (λ made. made ≡ ident.now) }
    ensures word { IsWord ident.now }
{
    let bytes = ident.bytes();
    let text = Text::copy(alloc, bytes)?;
    Ok(Ident::of(text))
}

/// The name with this identifier and this original name.
pub(crate) fn name_by(alloc: Global, ident: Ident, name: &[u8]) -> Result<NameDef, NoMemory>
    ensures name { IfOk result (λ made. made ≡ name_for ident name.now) }
    ensures word { IsWord ident }
{
    if ident.bytes() == name {
        return Ok(NameDef {
            ident,
            text: OptionalText::none(),
        });
    }
    let text = Text::copy(alloc, name)?;
    Ok(NameDef {
        ident,
        text: OptionalText::some(text),
    })
}

/// The name with this identifier and this original name, which are not compared where it is told that they are one.
#[inline(always)]
#[tactic(auto, using(crate::proofs::NamingLaws::own_name))]
pub(crate) fn name_told(
    alloc: Global,
    is_own: bool,
    ident: Ident,
    name: &[u8],
) -> Result<NameDef, NoMemory>
    requires { is_own ≡ true → ident ≡ name.now }
    ensures name { IfOk result (λ made. made ≡ name_for ident name.now) }
    ensures word { IsWord ident }
{
    if is_own {
        // That an identifier is a word is a clause of `bytes`.
        let _bytes = ident.bytes();
        return Ok(NameDef {
            ident,
            text: OptionalText::none(),
        });
    }
    name_by(alloc, ident, name)
}

/// The name with this identifier and this original name.
fn name_with(alloc: Global, ident: &Ident, name: &[u8]) -> Result<NameDef, NoMemory>
    ensures name { IfOk result (λ made. made ≡ name_for ident.now name.now) }
    ensures word { IsWord ident.now }
{
    let own = copied(alloc, ident)?;
    let made = name_by(alloc, own, name)?;
    Ok(made)
}

/// The name with this identifier and this original name.
pub fn named(alloc: Global, ident: &Ident, name: &[u8]) -> Result<NameDef, NoMemory>
    ensures name { IfOk result (λ made. made ≡ name_for ident.now name.now) }
    ensures sound { IsString name.now → IfOk result IsNameDef }
{
    let made = name_with(alloc, ident, name)?;
    Ok(made)
}

/// Adds a number in decimal.
fn add_number(text: &mut Vec<u8>, number: i32) -> Result<(), NoMemory>
    ensures { OnOk result (text.new.items ≡ text.old.items ++ signed_decimal number) }
{
    let mut buffer = Buffer::new();
    text.extend_from_slice(buffer.format(number).as_bytes())?;
    Ok(())
}

/// The text of an array: the name of its bits, and its range in brackets.
fn array_text(alloc: Global, name: &[u8], range: Range) -> Result<Text, NoMemory>
    ensures text { IfOk result (λ made. made ≡ text_of_array name.now range) }
    ensures small { IfOk result (λ _. IsSmallRange (Some range)) }
{
    let mut text = Vec::with_capacity(alloc, name.len().saturating_add(RANGE_ROOM))?;
    text.extend_from_slice(name)?;
    text.push(b'[')?;
    add_number(&mut text, range.left)?;
    text.push(b':')?;
    add_number(&mut text, range.right)?;
    text.push(b']')?;
    let text = Text::of(alloc, text)?;
    Ok(text)
}

/// The name of an array port with this identifier, name and range.
fn array_named(
    alloc: Global,
    ident: &Ident,
    name: &[u8],
    range: Range,
) -> Result<PortName, NoMemory>
    ensures small { IfOk result (λ _. IsSmallRange (Some range)) }
    ensures word { IsWord ident.now }
    ensures name { IfOk result
        (λ made. made ≡ Array (record {
          ident = ident.now;
          text = Some (text_of_array name.now range);
        }) (pos (range_bits range))) }
{
    let ident = copied(alloc, ident)?;
    let text = array_text(alloc, name, range)?;
    let name = NameDef {
        ident,
        text: OptionalText::some(text),
    };
    Ok(PortName::Array(name, Int::signed(false, range.bits())))
}

/// The name of the port with this identifier.
fn port_name_with(alloc: Global, ident: &Ident, port: &HPort) -> Result<PortName, NoMemory>
    ensures word { IsWord ident.now }
    ensures name { IfOk result
        (λ made. made ≡ port_name_for ident.now port.now.name port.now.range) }
    ensures small { IfOk result (λ _. IsSmallRange port.now.range) }
{
    match port.range {
        None => {
            let name = name_with(alloc, ident, port.name.bytes())?;
            Ok(PortName::Single(name))
        }
        Some(range) => {
            let name = array_named(alloc, ident, port.name.bytes(), range)?;
            Ok(name)
        }
    }
}

/// The name of the port with this identifier.
pub fn port_named(alloc: Global, ident: &Ident, port: &HPort) -> Result<PortName, NoMemory>
    ensures name { IfOk result
        (λ made. made ≡ port_name_for ident.now port.now.name port.now.range) }
    ensures small { IfOk result (λ _. IsSmallRange port.now.range) }
    ensures sound { IsShort port.now.name → IfOk result IsPortName }
{
    let made = port_name_with(alloc, ident, port)?;
    Ok(made)
}
