ghost use Rattle.std.specs.Prelude.{◌≡◌, pos, IfOk};
ghost use Rattle.edif_values.specs.Values.{IsScaled};
ghost use Rattle.readers.specs.Readers.{same, Reads};
ghost use Rattle.edif_keywords.specs.Language.{edif};
ghost use Rattle.edif_names.specs.Grammar.{exponential, whole, scaled};

use edif_keywords::Cursor;
use edif_values::Keyword;
use nl_base::{Int, ReadError, Scaled};
use nl_io::Source;
use std::alloc::Global;

/// Reads a scaled number: an integer, or an `e` with a mantissa and an exponent (EDIF 2 0 0, e).
#[tactic(auto, using(crate::proofs::Parts::form_or_token), unfolding(crate::specs::Grammar::scaled))]
pub fn read_scaled<S: Source>(
    alloc: Global,
    cursor: &mut Cursor,
    source: &mut S,
) -> Result<Scaled, ReadError>
    ensures reads { Reads edif same scaled result cursor.old cursor.new
        (S.supply source.old) (S.supply source.new) }
    ensures value { IfOk result IsScaled }
{
    if cursor.at_form(alloc, source)? {
        cursor.begin(alloc, &[Keyword::E], source)?;
        return exponential(alloc, cursor, source);
    }
    whole(alloc, cursor, source)
}

/// Reads on after the keyword `e`.
#[tactic(auto, using(readers::proofs::Reading::sequences), unfolding(crate::specs::Grammar::exponential))]
fn exponential<S: Source>(
    alloc: Global,
    cursor: &mut Cursor,
    source: &mut S,
) -> Result<Scaled, ReadError>
    ensures reads { Reads edif same exponential result cursor.old cursor.new
        (S.supply source.old) (S.supply source.new) }
    ensures value { IfOk result IsScaled }
{
    let mantissa = cursor.int(alloc, source)?;
    let exponent = cursor.int(alloc, source)?;
    cursor.finish_form(alloc, source)?;
    Ok(Scaled { mantissa, exponent })
}

#[tactic(auto, using(readers::proofs::Reading::sequences), unfolding(crate::specs::Grammar::whole))]
fn whole<S: Source>(alloc: Global, cursor: &mut Cursor, source: &mut S) -> Result<Scaled, ReadError>
    ensures reads { Reads edif same whole result cursor.old cursor.new
        (S.supply source.old) (S.supply source.new) }
    ensures value { IfOk result IsScaled }
{
    let mantissa = cursor.int(alloc, source)?;
    Ok(Scaled {
        mantissa,
        exponent: Int::signed(false, 0),
    })
}
