// The design.
ghost use Rattle.std.specs.Prelude.{◌≡◌, MatchResult};
ghost use Rattle.net_hier.specs.Build.{IsBuilt, IsFaultOf};
ghost use Rattle.net_hier.specs.Valid.{CellsFit, IsHier};

use crate::build::{BuildFault, order_of};
use crate::cells::{HCell, HProp};
use nl_base::Seq;
use std::alloc::Global;
use std::marker::Model;

/// A hierarchical design: its cells in file order, the number of its top cell, its own properties, and the order in which each
/// cell stands after those of its instances. Every `Hier` is valid: the numbers that name things are in range, the names of the
/// ports and of the instances of a cell differ, each width is 1 to 65,536, each cell is reached from the top, no cell reaches
/// itself, and there are at most 268,435,456 cells, as many instances in each, and 33,554,432 units.
#[derive(Drop)]
pub struct Hier {
    cells: Seq<HCell>,
    top: u32,
    props: Seq<HProp>,
    order: Seq<u32>,
}

/// What a design is made of: its cells, the number of its top cell, its own properties, and the order of its cells.
#[derive(Drop)]
pub struct HierParts {
    pub cells: Seq<HCell>,
    pub top: u32,
    pub props: Seq<HProp>,
    pub order: Seq<u32>,
}

impl Model for Hier {
    ghost use Rattle.net_hier.specs.Design.{Design};
    ghost use Rattle.net_hier.specs.Valid.{IsHier};

    ghost Value = { Design };

    ghost view = { λ h. record { cells = h.cells; top = h.top; props = h.props; order = h.order } };

    ghost invariant = { λ h. IsHier (record { cells = h.cells; top = h.top; props = h.props; order = h.order }) };
}

impl Hier {
    /// The design of these cells, this top and these properties, where no cell reaches itself and the units are at most 33,554,432.
    #[tactic(auto, using(crate::proofs::Building::built, crate::proofs::Building::hier_of))]
    pub fn build(
        alloc: Global,
        cells: Seq<HCell>,
        top: u32,
        props: Seq<HProp>,
    ) -> Result<Hier, BuildFault>
        requires { CellsFit cells top }
        ensures { MatchResult result (IsBuilt cells top props) (IsFaultOf cells) }
    {
        let order = order_of(alloc, &cells, top)?;
        Ok(Hier {
            cells,
            top,
            props,
            order,
        })
    }

    /// The cells in file order.
    pub fn cells(&self) -> &[HCell]
        ensures cells { result.now ≡ self.now.cells }
        ensures valid { IsHier self.now }
    {
        self.cells.items()
    }

    /// The number of the top cell.
    pub fn top(&self) -> u32
        ensures top { result ≡ self.now.top }
        ensures valid { IsHier self.now }
    {
        self.top
    }

    /// The design's own properties.
    pub fn props(&self) -> &[HProp]
        ensures props { result.now ≡ self.now.props }
        ensures valid { IsHier self.now }
    {
        self.props.items()
    }

    /// The numbers of all cells, each once: the postorder of the depth-first walk from the top that follows instances in order.
    pub fn order(&self) -> &[u32]
        ensures order { result.now ≡ self.now.order }
        ensures valid { IsHier self.now }
    {
        self.order.items()
    }
    /// What the design is made of, to be left part by part.
    pub fn into_parts(self) -> HierParts
        ensures cells { result.cells ≡ self.cells }
        ensures top { result.top ≡ self.top }
        ensures props { result.props ≡ self.props }
        ensures order { result.order ≡ self.order }
        ensures valid { IsHier self }
    {
        let Hier {
            cells,
            top,
            props,
            order,
        } = self;
        HierParts {
            cells,
            top,
            props,
            order,
        }
    }
}
