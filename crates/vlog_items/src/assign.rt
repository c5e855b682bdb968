// Assignments.
ghost use Rattle.std.specs.Prelude.{◌≡◌, ◌+◌, ◌<◌, length, IfOk};
ghost use Rattle.readers.specs.Readers.{same, room, Reads};
ghost use Rattle.vlog_values.specs.Values.{AreSome, AreAttrs, IsAssignment, AreAssigns};
ghost use Rattle.vlog_values.specs.Sizes.{list_size, assignment_size, assigns_size};
ghost use Rattle.vlog_tokens.specs.Language.{vlog};
ghost use Rattle.vlog_exprs.specs.Grammar.{mark, list};
ghost use Rattle.vlog_items.specs.Grammar.{assignment, assigns};

use nl_base::{BoxedList, ReadError, Seq};
use nl_io::Source;
use std::alloc::Global;
use vlog_exprs::{VCursor, read_expr};
use vlog_values::{Assignment, Assigns, Attr};

/// Reads an assignment.
#[tactic(auto, using(readers::proofs::Reading::sequences), unfolding(crate::specs::Grammar::assignment))]
fn read_assignment<S: Source>(
    alloc: Global,
    cursor: &mut VCursor,
    source: &mut S,
) -> Result<Assignment, ReadError>
    ensures reads { Reads vlog same assignment result cursor.old cursor.new
        (S.supply source.old) (S.supply source.new) }
    ensures value { IfOk result IsAssignment }
    ensures size { IfOk result (λ set. assignment_size set + room cursor.new < room cursor.old) }
{
    let left = read_expr(alloc, cursor, true, source)?;
    cursor.mark(alloc, b'=', source)?;
    let right = read_expr(alloc, cursor, false, source)?;
    Ok(Assignment { left, right })
}

/// Reads one assignment or more, up to the `;`.
#[tactic(auto, using(readers::proofs::Choices::loops), unfolding(vlog_exprs::specs::Grammar::list, vlog_exprs::specs::Grammar::commas))]
fn read_assignments<S: Source>(
    alloc: Global,
    cursor: &mut VCursor,
    source: &mut S,
) -> Result<Seq<Assignment>, ReadError>
    ensures reads { Reads vlog same (list assignment (mark 59)) result cursor.old cursor.new
        (S.supply source.old) (S.supply source.new) }
    ensures value { IfOk result (AreSome IsAssignment) }
    ensures size { IfOk result
        (λ sets. list_size assignment_size sets + room cursor.new < room cursor.old) }
{
    let mut sets = Seq::empty(alloc);
    let set = read_assignment(alloc, cursor, source)?;
    cursor.add(&mut sets, set)?;
    while cursor.takes(alloc, b',', source)? {
        let set = read_assignment(alloc, cursor, source)?;
        cursor.add(&mut sets, set)?;
    }
    cursor.mark(alloc, b';', source)?;
    Ok(sets)
}

/// Reads on behind `assign`.
#[tactic(auto, using(readers::proofs::Reading::sequences), unfolding(crate::specs::Grammar::assigns))]
pub(crate) fn read_assigns<S: Source>(
    alloc: Global,
    cursor: &mut VCursor,
    attrs: BoxedList<Attr>,
    source: &mut S,
) -> Result<Assigns, ReadError>
    requires { AreAttrs attrs }
    ensures reads { Reads vlog same (assigns attrs) result cursor.old cursor.new
        (S.supply source.old) (S.supply source.new) }
    ensures value { IfOk result AreAssigns }
    ensures size { IfOk result
        (λ s. assigns_size s + room cursor.new < room cursor.old + length attrs) }
{
    let sets = read_assignments(alloc, cursor, source)?;
    Ok(Assigns { attrs, sets })
}
