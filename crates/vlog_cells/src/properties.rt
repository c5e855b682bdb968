// Attributes and parameters as properties.
ghost use Rattle.std.specs.Prelude.{◌≡◌, ◌++◌, map, IfOk, OnOk};
ghost use Rattle.vlog_design.specs.Design.{attr_props, attr_value, param_props, param_value};
ghost use Rattle.vlog_values.specs.Spelling.{base_letter, based_spelling, literal_spelling};
ghost use Rattle.vlog_values.specs.declared.expression.Const.TheVariants.{Lit};
ghost use Rattle.vlog_cells.specs.Instances.{set_prop, sets_of};

use itoa::Buffer;
use net_hier::HProp;
use nl_base::{NoMemory, PropValue, Seq, Text};
use std::alloc::Global;
use vlog_values::{Attr, Base, Based, Const, DefSet, Literal, ParamSet};

/// The small letter of a base.
fn base_letter(base: Base) -> u8
    ensures { result ≡ base_letter base }
{
    match base {
        Base::Binary => b'b',
        Base::Octal => b'o',
        Base::Decimal => b'd',
        Base::Hex => b'h',
    }
}

/// Adds the normal spelling of a literal without a size.
#[tactic(auto, unfolding(vlog_values::specs::Spelling::based_spelling))]
fn add_based(based: &Based, out: &mut Vec<u8>) -> Result<(), NoMemory>
    ensures added { OnOk result (out.new.items ≡ out.old.items ++ based_spelling based.now) }
{
    out.push(b'\'')?;
    if based.signed {
        out.push(b's')?;
    }
    out.push(base_letter(based.base))?;
    out.extend_from_slice(based.digits.bytes())?;
    Ok(())
}

/// The normal spelling of a literal without a size. It is made in `spelling`, whatever stands there.
fn based_text(alloc: Global, based: &Based, spelling: &mut Vec<u8>) -> Result<Text, NoMemory>
    ensures { IfOk result (λ text. text ≡ based_spelling based.now) }
{
    spelling.clear();
    add_based(based, spelling)?;
    let text = Text::copy(alloc, spelling.as_slice())?;
    Ok(text)
}

/// The normal spelling of a literal. It is made in `spelling`, whatever stands there.
#[tactic(auto, unfolding(vlog_values::specs::Spelling::literal_spelling))]
fn literal_text(alloc: Global, literal: &Literal, spelling: &mut Vec<u8>) -> Result<Text, NoMemory>
    ensures { IfOk result (λ text. text ≡ literal_spelling literal.now) }
{
    let mut buffer = Buffer::new();
    spelling.clear();
    spelling.extend_from_slice(buffer.format(literal.size).as_bytes())?;
    add_based(&literal.based, spelling)?;
    let text = Text::copy(alloc, spelling.as_slice())?;
    Ok(text)
}

/// What a constant is in a parameter. A literal is spelled in `spelling`.
#[tactic(auto, unfolding(vlog_design::specs::Design::param_value))]
fn param_value(alloc: Global, value: &Const, spelling: &mut Vec<u8>) -> Result<PropValue, NoMemory>
    ensures { IfOk result (λ made. made ≡ param_value value.now) }
{
    match value {
        Const::Str(text) => {
            let text = Text::copy(alloc, text.bytes())?;
            Ok(PropValue::Str(text))
        }
        Const::Number(number) => Ok(PropValue::Int(*number)),
        Const::Real(number) => Ok(PropValue::Scaled(*number)),
        Const::Lit(literal) => {
            let text = literal_text(alloc, literal, spelling)?;
            Ok(PropValue::Str(text))
        }
        Const::Loose(based) => {
            let text = based_text(alloc, based, spelling)?;
            Ok(PropValue::Str(text))
        }
    }
}

/// What a literal is in an attribute. It is spelled in `spelling`.
#[tactic(auto, unfolding(vlog_design::specs::Design::attr_value))]
fn literal_value(
    alloc: Global,
    literal: &Literal,
    spelling: &mut Vec<u8>,
) -> Result<PropValue, NoMemory>
    ensures { IfOk result (λ made. made ≡ attr_value (Lit literal.now)) }
{
    let text = literal_text(alloc, literal, spelling)?;
    if text.bytes() == b"1'b0".as_slice() {
        return Ok(PropValue::Flag(false));
    }
    if text.bytes() == b"1'b1".as_slice() {
        return Ok(PropValue::Flag(true));
    }
    Ok(PropValue::Str(text))
}

/// What a constant is in an attribute, where `1'b0` and `1'b1` are booleans. A literal is spelled in `spelling`.
#[tactic(auto, unfolding(vlog_design::specs::Design::attr_value))]
fn attr_value(alloc: Global, value: &Const, spelling: &mut Vec<u8>) -> Result<PropValue, NoMemory>
    ensures { IfOk result (λ made. made ≡ attr_value value.now) }
{
    match value {
        Const::Str(text) => {
            let text = Text::copy(alloc, text.bytes())?;
            Ok(PropValue::Str(text))
        }
        Const::Number(number) => Ok(PropValue::Int(*number)),
        Const::Real(number) => Ok(PropValue::Scaled(*number)),
        Const::Lit(literal) => {
            let made = literal_value(alloc, literal, spelling)?;
            Ok(made)
        }
        Const::Loose(based) => {
            let text = based_text(alloc, based, spelling)?;
            Ok(PropValue::Str(text))
        }
    }
}

/// Adds the properties that attributes are. Literals are spelled in `spelling`, whatever stands there.
pub fn add_attrs(
    alloc: Global,
    props: &mut Vec<HProp>,
    attrs: &[Attr],
    spelling: &mut Vec<u8>,
) -> Result<(), NoMemory>
    ensures added { OnOk result (props.new.items ≡ props.old.items ++ attr_props attrs.now) }
{
    for attr in attrs {
        let name = Text::copy(alloc, attr.name.bytes())?;
        let value = attr_value(alloc, &attr.value, spelling)?;
        props.push(HProp { name, value })?;
    }
    Ok(())
}

/// The properties that attributes are.
pub fn attrs_made(alloc: Global, attrs: &[Attr]) -> Result<Seq<HProp>, NoMemory>
    ensures { IfOk result (λ made. made ≡ attr_props attrs.now) }
{
    if attrs.is_empty() {
        return Ok(Seq::empty(alloc));
    }
    let mut made = Vec::with_capacity(alloc, attrs.len())?;
    let mut spelling = Vec::new(alloc);
    add_attrs(alloc, &mut made, attrs, &mut spelling)?;
    Ok(Seq::of(made))
}

/// Adds the properties that values of parameters are. Literals are spelled in `spelling`, whatever stands there.
pub fn add_params(
    alloc: Global,
    props: &mut Vec<HProp>,
    params: &[ParamSet],
    spelling: &mut Vec<u8>,
) -> Result<(), NoMemory>
    ensures added { OnOk result (props.new.items ≡ props.old.items ++ param_props params.now) }
{
    for set in params {
        let name = Text::copy(alloc, set.name.bytes())?;
        let value = param_value(alloc, &set.value, spelling)?;
        props.push(HProp { name, value })?;
    }
    Ok(())
}

/// Adds the properties that values by `defparam` are. Literals are spelled in `spelling`, whatever stands there.
pub fn add_sets(
    alloc: Global,
    props: &mut Vec<HProp>,
    sets: &[&DefSet],
    spelling: &mut Vec<u8>,
) -> Result<(), NoMemory>
    ensures added { OnOk result (props.new.items
        ≡ props.old.items ++ map set_prop (sets_of sets.now)) }
{
    for set in sets {
        let name = Text::copy(alloc, set.name.bytes())?;
        let value = param_value(alloc, &set.value, spelling)?;
        props.push(HProp { name, value })?;
    }
    Ok(())
}
