// The flat classes: spots, leaves, terminals and the groups of connected terminals.
ghost use Rattle.std.specs.Prelude.{ℕ, ◌≡◌, ◌<◌, ◌≤◌, length, map, slice_index, IfOk, IfErr};
ghost use Rattle.net_hier.specs.FlatCount.{FlatCount};
ghost use Rattle.flat_classes.specs.FlatFaults.{IsFlatFault};
ghost use Rattle.flat_classes.specs.FlatSums.{IsFewFlat};
ghost use Rattle.flat_numbers.specs.FlatJoins.{AreCellLinks, AreConstants, AreFew};
ghost use Rattle.flat_classes.specs.Groups.{AreMembers};
ghost use Rattle.flat_numbers.specs.TableParts.{HasTables, bases_in, spots_in};
ghost use Rattle.flat_classes.specs.TerminalNumbers.{AreFlatLabels};
ghost use Rattle.flat_classes.specs.Terminals.{AreFlatClasses};
ghost use Rattle.flat_classes.specs.declared.flat.FlatFault.TheVariants.{NoMemory};

use crate::groups::{labels_of, numbers_in_order};
use crate::kinds::{Kinds, kinds_of};
use crate::members::{Members, members_of};
use crate::terminals::{leaves_of, terminals_of};
use flat_numbers::counts::flat_count;
use flat_numbers::joins::join_labels;
use flat_numbers::numbers::{Tables, tables_of};
use flat_numbers::spots::Spot;
use net_hier::{Constants, Hier, Join};
use nl_base::NoMemory;
use std::alloc::Global;
use std::marker::Model;

/// The greatest flat count of a design that is taken apart.
pub const FLAT_LIMIT: u64 = 2_000_000;

/// A port bit of the top, a pin bit of a leaf below it, or a constant.
#[derive(Clone, Copy, PartialEq, Eq)]
pub enum Terminal {
    Port { port: u32, bit: u32 },
    Pin { spot: u32, port: u32, bit: u32 },
    Zero,
    One,
}

/// Why a design is not taken apart.
#[derive(Drop)]
pub enum FlatFault {
    /// The flat count, this one or 2^64-1 where it is larger, is above 2,000,000.
    TooLarge(u64),
    /// Memory ran out.
    NoMemory,
}

impl From<NoMemory> for FlatFault {
    ghost from_gives = { λ _ e. e ≡ NoMemory };

    fn from(_: NoMemory) -> Self {
        FlatFault::NoMemory
    }
}

/// The flat classes of a design.
#[derive(Drop)]
pub struct Flat {
    spots: Vec<Spot>,
    leaves: Vec<u32>,
    terminals: Vec<Terminal>,
    groups: Vec<u32>,
    count: u32,
}

impl Model for Flat {
    ghost use Rattle.std.specs.Prelude.{length};
    ghost use Rattle.flat_classes.specs.Groups.{AreGroupNumbers};
    ghost use Rattle.flat_classes.specs.Terminals.{FlatValue};

    ghost Value = { FlatValue };

    ghost view = { λ f. record {
      spots = f.spots.items;
      leaves = f.leaves.items;
      terminals = f.terminals.items;
      groups = f.groups.items;
      count = f.count;
    } };

    ghost invariant = { λ f. AreGroupNumbers f.groups.items f.count (length f.terminals.items) };
}

/// For each number of a node the least number that is connected to it. The links of the cells are left with it.
fn classes_of(
    alloc: Global,
    hier: &Hier,
    constants: &Constants,
    tables: &Tables,
    links: Vec<Vec<Join>>,
    values: &[Option<bool>],
) -> Result<Vec<u32>, NoMemory>
    requires are_tables { HasTables hier.now tables.now }
    requires are_links { AreCellLinks hier.now.cells links.items }
    requires are_constants { AreConstants constants.now hier.now.cells values.now }
    requires few { AreFew hier.now.cells }
    ensures { IfOk result (λ labels. AreFlatLabels constants.now hier.now (spots_in tables.now)
        (bases_in tables.now) tables.now.layout.count labels.items) }
{
    let _cells = hier.cells();
    let classes = join_labels(alloc, hier, tables, constants, links.as_slice(), values)?;
    Ok(classes)
}

/// The spots of tables that are not needed any more.
fn spots_of(tables: Tables) -> Vec<Spot>
    ensures { result ≡ tables.layout.spots }
{
    let Tables {
        layout,
        belows: _,
        offsets: _,
    } = tables;
    layout.into_spots()
}

/// The flat classes of a design of this flat count, which is within the limit. The list of terminals
/// is the longest, so it is made when the tables and the labels are gone.
fn flat_of(alloc: Global, hier: &Hier, constants: &Constants, count: u64) -> Result<Flat, NoMemory>
    requires few { count ≤ 2000000 }
    requires counted { FlatCount hier.now.cells hier.now.top count }
    ensures { IfOk result (AreFlatClasses constants.now hier.now) }
{
    let _cells = hier.cells();
    let kinds = kinds_of(alloc, hier, constants)?;
    let tables = tables_of(alloc, hier, count)?;
    let Kinds {
        links,
        leaves: marks,
        constants: values,
    } = kinds;
    let classes = classes_of(alloc, hier, constants, &tables, links, values.as_slice())?;
    let leaves = leaves_of(
        alloc,
        tables.layout.spots.as_slice(),
        marks.as_slice(),
        values.as_slice(),
    )?;
    let labels = labels_of(alloc, hier, &tables, classes.as_slice(), leaves.as_slice())?;
    let bound = classes.len();
    drop(classes);
    let spots = spots_of(tables);
    let (groups, count) = numbers_in_order(alloc, bound, labels.as_slice())?;
    drop(labels);
    let terminals = terminals_of(alloc, hier, spots.as_slice(), leaves.as_slice())?;
    Ok(Flat {
        spots,
        leaves,
        terminals,
        groups,
        count,
    })
}

impl Flat {
    /// The flat classes of a design, where its flat count is at most 2,000,000.
    pub fn of(alloc: Global, hier: &Hier, constants: &Constants) -> Result<Flat, FlatFault>
        ensures classes { IfOk result (λ flat. AreFlatClasses constants.now hier.now flat ×
            IsFewFlat hier.now) }
        ensures fault { IfErr result (IsFlatFault hier.now) }
    {
        let _cells = hier.cells();
        let count = flat_count(alloc, hier)?;
        if count > FLAT_LIMIT {
            return Err(FlatFault::TooLarge(count));
        }
        let flat = flat_of(alloc, hier, constants, count)?;
        Ok(flat)
    }

    /// The top and every path, in depth-first order.
    pub fn spots(&self) -> &[Spot]
        ensures { result.now ≡ self.now.spots }
    {
        self.spots.as_slice()
    }

    /// The spots of the leaves that are no constant cells, in order.
    pub fn leaves(&self) -> &[u32]
        ensures { result.now ≡ self.now.leaves }
    {
        self.leaves.as_slice()
    }

    /// The top's port bits, then the pins of the leaves other than spot 0 in the order of leaves,
    /// ports and positions, then the constants.
    pub fn terminals(&self) -> &[Terminal]
        ensures { result.now ≡ self.now.terminals }
    {
        self.terminals.as_slice()
    }

    /// The number of the group of the terminal at this place. Groups are numbered from 0 in the
    /// order of their first terminals.
    pub fn group(&self, place: u32) -> u32
        requires { place < length self.now.terminals }
        ensures { result ≡ slice_index self.now.groups place }
    {
        self.groups[place as usize]
    }

    /// For each group the places of its terminals, in order.
    pub fn members(&self, alloc: Global) -> Result<Members, NoMemory>
        ensures { IfOk result (AreMembers self.now.groups self.now.count) }
    {
        let members = members_of(alloc, self.groups.as_slice(), self.count)?;
        Ok(members)
    }
}
