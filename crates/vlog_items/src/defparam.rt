// `defparam`.
ghost use Rattle.std.specs.Prelude.{◌≡◌, ◌+◌, ◌<◌, length, IfOk};
ghost use Rattle.readers.specs.Readers.{same, room, Reads};
ghost use Rattle.vlog_values.specs.Values.{AreSome, IsName, AreAttrs, IsDefSet, AreDefparams};
ghost use Rattle.vlog_values.specs.Sizes.{defparams_size};
ghost use Rattle.vlog_tokens.specs.Language.{vlog};
ghost use Rattle.vlog_exprs.specs.Grammar.{mark, list};
ghost use Rattle.vlog_items.specs.Grammar.{def_value, def_set, defparams};

use nl_base::{BoxedList, ReadError, Seq, Text};
use nl_io::Source;
use std::alloc::Global;
use vlog_exprs::{VCursor, read_const};
use vlog_values::{Attr, DefSet, Defparams};

/// Reads on behind the name of an instance and the point.
#[tactic(auto, using(readers::proofs::Reading::sequences), unfolding(crate::specs::Grammar::def_value))]
fn read_def_value<S: Source>(
    alloc: Global,
    cursor: &mut VCursor,
    instance: Text,
    source: &mut S,
) -> Result<DefSet, ReadError>
    requires { IsName instance }
    ensures reads { Reads vlog same (def_value instance) result cursor.old cursor.new
        (S.supply source.old) (S.supply source.new) }
    ensures value { IfOk result IsDefSet }
{
    let name = cursor.name(alloc, source)?;
    cursor.mark(alloc, b'=', source)?;
    let value = read_const(alloc, cursor, source)?;
    Ok(DefSet {
        instance,
        name,
        value,
    })
}

/// Reads the value of a parameter of a named instance.
#[tactic(auto, using(readers::proofs::Reading::sequences), unfolding(crate::specs::Grammar::def_set))]
fn read_def_set<S: Source>(
    alloc: Global,
    cursor: &mut VCursor,
    source: &mut S,
) -> Result<DefSet, ReadError>
    ensures reads { Reads vlog same def_set result cursor.old cursor.new
        (S.supply source.old) (S.supply source.new) }
    ensures value { IfOk result IsDefSet }
{
    let instance = cursor.name(alloc, source)?;
    cursor.mark(alloc, b'.', source)?;
    let set = read_def_value(alloc, cursor, instance, source)?;
    Ok(set)
}

/// Reads one value or more, up to the `;`.
#[tactic(auto, using(readers::proofs::Choices::loops), unfolding(vlog_exprs::specs::Grammar::list, vlog_exprs::specs::Grammar::commas))]
fn read_def_sets<S: Source>(
    alloc: Global,
    cursor: &mut VCursor,
    source: &mut S,
) -> Result<Seq<DefSet>, ReadError>
    ensures reads { Reads vlog same (list def_set (mark 59)) result cursor.old cursor.new
        (S.supply source.old) (S.supply source.new) }
    ensures value { IfOk result (AreSome IsDefSet) }
    ensures size { IfOk result (λ sets. length sets + room cursor.new < room cursor.old) }
{
    let mut sets = Seq::empty(alloc);
    let set = read_def_set(alloc, cursor, source)?;
    cursor.add(&mut sets, set)?;
    while cursor.takes(alloc, b',', source)? {
        let set = read_def_set(alloc, cursor, source)?;
        cursor.add(&mut sets, set)?;
    }
    cursor.mark(alloc, b';', source)?;
    Ok(sets)
}

/// Reads on behind `defparam`.
#[tactic(auto, using(readers::proofs::Reading::sequences), unfolding(crate::specs::Grammar::defparams))]
pub(crate) fn read_defparams<S: Source>(
    alloc: Global,
    cursor: &mut VCursor,
    attrs: BoxedList<Attr>,
    source: &mut S,
) -> Result<Defparams, ReadError>
    requires { AreAttrs attrs }
    ensures reads { Reads vlog same (defparams attrs) result cursor.old cursor.new
        (S.supply source.old) (S.supply source.new) }
    ensures value { IfOk result AreDefparams }
    ensures size { IfOk result
        (λ s. defparams_size s + room cursor.new < room cursor.old + length attrs) }
{
    let sets = read_def_sets(alloc, cursor, source)?;
    Ok(Defparams { attrs, sets })
}
