// The design of a file, or why it has none.
ghost use Rattle.std.specs.Prelude.{ℕ, ◌≡◌, ◌≤◌, ◌-◌, ◌^◌, [], true, map, min, sum_by, IfOk, MatchResult};
ghost use Rattle.std.specs.List.{AllByRecursion};
ghost use Rattle.net_graph.specs.Graph.{ReachesItself};
ghost use Rattle.net_hier.specs.Design.{cells_below};
ghost use Rattle.net_hier.specs.Units.{units};
ghost use Rattle.net_hier.specs.Valid.{CellsFit, count_limit, unit_limit};
ghost use Rattle.vlog_elab.specs.Answers.{AreShown, AreShownFrom, HasDesign, IsDesignFrom, IsDesignOf, IsFaultFrom, IsFaultOf};
ghost use Rattle.vlog_elab.specs.Ready.{AreReady, CanHaveCells};
ghost use Rattle.vlog_elab.specs.Units.{cells_from};
ghost use Rattle.vlog_shown.specs.Interfaces.{cells_shown, interface};
ghost use Rattle.vlog_elab.specs.declared.answer.ResolveError.TheVariants.{NoMemory};
ghost use Rattle.vlog_design.specs.Names.{implicit_names};
ghost use Rattle.vlog_design.specs.Tables.{modules_of};
ghost use Rattle.vlog_ties.specs.Ties.{module_bits, most_joins};
ghost use Rattle.vlog_values.specs.Sizes.{vlog_size};
ghost use Rattle.vlog_values.specs.Values.{IsVlogValue};

use crate::cells::cells_of;
use crate::units::units_of;
use net_hier::build::{BuildFault, UNIT_LIMIT};
use net_hier::{HCell, Hier};
use nl_base::{NoMemory, Refusal, Seq, Text};
use std::alloc::Global;
use vlog_checked::tables::scopes_of;
use vlog_checked::{Checked, CleanModules, check_file};
use vlog_design::names::NameSet;
use vlog_values::{Module, VlogFile};

/// Why a file has no design.
#[derive(Drop)]
pub enum ResolveError {
    /// The first object, in file order, that breaks the lowest broken rule.
    Refused(Refusal),
    /// No rule is broken, and the units, this many or 2^64-1 where there are more, pass 33,554,432.
    TooBig(u64),
    /// Memory ran out.
    NoMemory,
}

/// What the reached modules show to one another, in file order, the number of the top among them, and whether it is seen that a
/// declaration declares each of their nets.
#[derive(Drop)]
pub struct Shown {
    pub modules: Seq<Module>,
    pub top: u32,
    pub is_declared: bool,
}

impl From<NoMemory> for ResolveError {
    ghost from_gives = { λ _ e. e ≡ NoMemory };

    fn from(_: NoMemory) -> Self {
        ResolveError::NoMemory
    }
}

// The design of cells of which none reaches itself, and whose units are within the limit.
fn built(alloc: Global, cells: Seq<HCell>, top: u32) -> Result<Hier, NoMemory>
    requires fit { CellsFit cells top }
    requires no_recursion { (number : ℕ) → ¬ ReachesItself (cells_below cells) number }
    requires few_units { units cells ≤ unit_limit }
    ensures { IfOk result (IsDesignFrom cells top) }
{
    match Hier::build(alloc, cells, top, Seq::empty(alloc)) {
        Ok(hier) => Ok(hier),
        Err(fault) => match fault {
            BuildFault::Recursion { .. } => unreachable!(),
            BuildFault::TooBig(_) => unreachable!(),
            BuildFault::NoMemory => Err(NoMemory),
        },
    }
}

// Whether the units of modules are within the limit of a design. The joins are counted only where the bits of all left sides, which are
// no fewer, pass it with those of the ports and nets; then the tables of all modules are made.
fn few_units(
    alloc: Global,
    names: &NameSet,
    modules: &[&Module],
    bits: u64,
    most: u64,
) -> Result<(), ResolveError>
    requires ready { AreReady names.now (modules_of modules.now) }
    requires bits { bits ≡ min (2 ^ 64 - 1) (sum_by module_bits (modules_of modules.now)) }
    requires most { most ≡ min (2 ^ 64 - 1)
        (sum_by (most_joins (modules_of modules.now)) (modules_of modules.now)) }
    ensures { MatchResult result (λ done. units (cells_from (modules_of modules.now)) ≤ unit_limit)
        (IsFaultFrom (cells_from (modules_of modules.now))) }
{
    if bits.saturating_add(most) <= UNIT_LIMIT {
        return Ok(());
    }
    let scopes = scopes_of(alloc, modules)?;
    let count = units_of(alloc, names, &scopes)?;
    if count > UNIT_LIMIT {
        return Err(ResolveError::TooBig(count));
    }
    Ok(())
}

/// What modules that break no rule show, where their units are within the limit.
fn shown_from(alloc: Global, clean: CleanModules) -> Result<Shown, ResolveError>
    requires ready { AreReady clean.names (modules_of clean.modules.items) }
    requires shown { clean.shown ≡ map interface (modules_of clean.modules.items) }
    requires bits { clean.bits
        ≡ min (2 ^ 64 - 1) (sum_by module_bits (modules_of clean.modules.items)) }
    requires most { clean.most ≡ min (2 ^ 64 - 1)
        (sum_by (most_joins (modules_of clean.modules.items)) (modules_of clean.modules.items)) }
    requires declared { clean.is_declared ≡ true
        → AllByRecursion (λ m. implicit_names m ≡ []) (modules_of clean.modules.items) }
    ensures { MatchResult result (λ shown. AreShownFrom (modules_of clean.entry.modules.items)
        clean.entry.top shown.modules shown.top shown.is_declared)
        (IsFaultFrom (cells_from (modules_of clean.entry.modules.items))) }
{
    few_units(alloc, &clean.names, &clean.modules, clean.bits, clean.most)?;
    Ok(Shown {
        modules: clean.shown,
        top: clean.top,
        is_declared: clean.is_declared,
    })
}

/// What the reached modules of a file show, where it breaks no rule and their units are within the limit.
fn shown_of(alloc: Global, file: &VlogFile, top: &Text) -> Result<Shown, ResolveError>
    requires value { IsVlogValue file.now }
    requires small { vlog_size file.now ≤ count_limit }
    ensures { MatchResult result (λ shown. AreShown file.now top.now
        shown.modules shown.top shown.is_declared)
        (IsFaultOf file.now top.now) }
{
    match check_file(alloc, file, top.bytes())? {
        Checked::Refused(refusal) => Err(ResolveError::Refused(refusal)),
        Checked::Clean(clean) => shown_from(alloc, clean),
    }
}

/// The design of those modules of a file that are shown, whose cells fit and of which none reaches itself.
fn design_of(alloc: Global, shown: Shown, file: VlogFile) -> Result<Hier, ResolveError>
    requires can { CanHaveCells shown.is_declared shown.modules file.modules }
    requires fit { CellsFit (cells_shown shown.modules file.modules) shown.top }
    requires no_recursion { (number : ℕ)
        → ¬ ReachesItself (cells_below (cells_shown shown.modules file.modules)) number }
    requires few_units { units (cells_shown shown.modules file.modules) ≤ unit_limit }
    ensures { MatchResult result
        (IsDesignFrom (cells_shown shown.modules file.modules) shown.top)
        (IsFaultFrom (cells_shown shown.modules file.modules)) }
{
    let Shown {
        modules,
        top,
        is_declared,
    } = shown;
    let cells = cells_of(alloc, modules.items(), is_declared, file)?;
    let hier = built(alloc, cells, top)?;
    Ok(hier)
}

/// The design of a file of at most 268,435,456 items under the module of this name. Each module is left when its cell is made.
///
/// # Errors
/// `Refused`: the file breaks a rule; it is the first object, in file order, that breaks the lowest broken rule. `TooBig`: no rule is
/// broken, and the units pass 33,554,432. `NoMemory`: memory ran out.
pub fn elaborate(alloc: Global, file: VlogFile, top: &Text) -> Result<Hier, ResolveError>
    requires value { IsVlogValue file }
    requires small { vlog_size file ≤ count_limit }
    ensures { MatchResult result (IsDesignOf file top.now) (IsFaultOf file top.now) }
{
    let shown = shown_of(alloc, &file, top)?;
    design_of(alloc, shown, file)
}

/// Whether a file of at most 268,435,456 items has a design under the module of this name: `Ok` exactly where `elaborate` answers one,
/// and its errors. No cell is made.
///
/// # Errors
/// Those of `elaborate`.
pub fn check(alloc: Global, file: &VlogFile, top: &Text) -> Result<(), ResolveError>
    requires value { IsVlogValue file.now }
    requires small { vlog_size file.now ≤ count_limit }
    ensures { MatchResult result (λ done. HasDesign file.now top.now) (IsFaultOf file.now top.now) }
{
    match check_file(alloc, file, top.bytes())? {
        Checked::Refused(refusal) => Err(ResolveError::Refused(refusal)),
        Checked::Clean(clean) => {
            few_units(alloc, &clean.names, &clean.modules, clean.bits, clean.most)
        }
    }
}
