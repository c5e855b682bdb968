// Values of properties as constants.
ghost use Rattle.std.specs.Prelude.{◌≡◌, IfOk};
ghost use Rattle.vlog_written.specs.Written.{bit_literal};
ghost use Rattle.to_verilog_props.specs.Constants.{attr_const, param_const, text_const};

use nl_base::{NoMemory, PropValue, Text};
use std::alloc::Global;
use vlog_values::{Base, Based, Const, Literal, literal_of};

/// The literal `1'b0` or `1'b1`.
pub fn bit_literal(alloc: Global, one: bool) -> Result<Literal, NoMemory>
    ensures { IfOk result (λ made. made ≡ bit_literal one) }
{
    let digits = if one {
        Text::copy(alloc, b"1")?
    } else {
        Text::copy(alloc, b"0")?
    };
    Ok(Literal {
        size: 1,
        based: Based {
            signed: false,
            base: Base::Binary,
            digits,
        },
    })
}

/// The constant that has this value in an attribute.
pub fn attr_const(alloc: Global, value: &PropValue) -> Result<Const, NoMemory>
    ensures { IfOk result (λ made. made ≡ attr_const value.now) }
{
    match value {
        PropValue::Str(text) => {
            let text = Text::copy(alloc, text.bytes())?;
            Ok(Const::Str(text))
        }
        PropValue::Int(number) => Ok(Const::Number(*number)),
        PropValue::Flag(one) => {
            let literal = bit_literal(alloc, *one)?;
            Ok(Const::Lit(literal))
        }
        PropValue::Scaled(number) => Ok(Const::Real(*number)),
    }
}

/// The constant that has this text as its value in a parameter: the literal of which it is the normal spelling, if there is one.
fn text_const(alloc: Global, text: &[u8]) -> Result<Const, NoMemory>
    ensures { IfOk result (λ made. made ≡ text_const text.now) }
{
    let found = literal_of(alloc, text)?;
    if let Some(literal) = found {
        return Ok(Const::Lit(literal));
    }
    let text = Text::copy(alloc, text)?;
    Ok(Const::Str(text))
}

/// The constant that has this value in a parameter, where it is no boolean.
pub fn param_const(alloc: Global, value: &PropValue) -> Result<Const, NoMemory>
    ensures { IfOk result (λ made. made ≡ param_const value.now) }
{
    match value {
        PropValue::Str(text) => {
            let made = text_const(alloc, text.bytes())?;
            Ok(made)
        }
        PropValue::Int(number) => Ok(Const::Number(*number)),
        PropValue::Flag(one) => {
            let literal = bit_literal(alloc, *one)?;
            Ok(Const::Lit(literal))
        }
        PropValue::Scaled(number) => Ok(Const::Real(*number)),
    }
}
