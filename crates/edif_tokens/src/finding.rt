ghost use Rattle.std.specs.Prelude.{◌≡◌, ◌≤◌, ◌<◌, ℕ, List, length, Option, IfOk, IfSome, IsErrOf};
ghost use Rattle.nl_io.specs.Causes.{Rose};
ghost use Rattle.nl_base.specs.Faults.{OnText};
ghost use Rattle.edif_values.specs.Proper.{IsProper};
ghost use Rattle.nl_bytes.specs.declared.bytes.TheConstants.{LIMIT};
ghost use Rattle.nl_bytes.specs.Tokens.{Finds};
ghost use Rattle.edif_tokens.specs.Language.{edif};

use crate::lexeme::token;
use crate::token::Found;
use crate::whole::mark_found;
use nl_base::ReadError;
use nl_bytes::{Bytes, Class};
use nl_io::Source;
use std::alloc::Global;

/// Reads the next token.
#[inline(always)]
pub fn found<S: Source>(
    bytes: &mut Bytes,
    alloc: Global,
    source: &mut S,
) -> Result<Option<Found>, ReadError>
    ensures finds { Finds edif bytes.old bytes.new
        (S.supply source.old).left (S.supply source.new).left result }
    ensures limit { IfOk result (λ t. IfSome t (λ _. bytes.new.place.offset ≤ LIMIT)) }
    ensures never_spent { IsErrOf result ReadError.Spent → ⊥ }
    ensures bounded { OnText result (λ t. bytes.new.place.offset ≤ t.stop) }
    ensures count { (S.supply source.old).faults ≤ (S.supply source.new).faults }
    ensures cause { IsErrOf result ReadError.ReadFault
        → Rose (S.supply source.old).faults (S.supply source.new).faults }
    ensures proper { IfOk result (λ t. IfSome t (λ x. IsProper x.token)) }
{
    let next = bytes.skip(Class::Space, source)?;
    let Some(byte) = next else {
        return Ok(None);
    };
    match mark_found(bytes, byte, source) {
        Some(found) => Ok(Some(found)),
        None => {
            let found = token(bytes, alloc, byte, source)?;
            Ok(Some(found))
        }
    }
}
