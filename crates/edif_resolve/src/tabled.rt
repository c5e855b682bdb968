// A file with its tables, the ports of its cells, the graph of its cells, and the marks of those that are reached from its top.
ghost use Rattle.std.specs.Prelude.{◌≡◌, ◌≤◌, map, IfOk};
ghost use Rattle.net_hier.specs.Valid.{count_limit};
ghost use Rattle.edif_values.specs.Sizes.{edif_size};
ghost use Rattle.edif_design.specs.Parts.{designs, ports};
ghost use Rattle.edif_design.specs.Reach.{cells_below, is_reached, reached_marks};
ghost use Rattle.edif_design.specs.References.{file_cells, number_meant, top};
ghost use Rattle.edif_design.specs.Tables.{seen};

use crate::below::graph_of;
use crate::top::{marks_of, top_of};
use edif_design::tables::FileTables;
use edif_rules::PortTable;
use edif_values::{Design, EdifFile};
use nl_base::{NoMemory, Seq};
use std::alloc::Global;
use std::marker::Model;

/// A file of at most 268,435,456 items with all that is asked of it while its rules are tried; contracts see it as the file.
#[derive(Drop)]
pub(crate) struct TabledFile<'a> {
    tables: FileTables<'a>,
    port_tables: Vec<PortTable<'a>>,
    graph: Vec<Seq<u32>>,
    marks: Vec<bool>,
    top: Option<u32>,
}

impl<'a> Model for TabledFile<'a> {
    ghost use Rattle.std.specs.Prelude.{◌≡◌};
    ghost use Rattle.std.specs.Coded.{codes};
    ghost use Rattle.edif_values.specs.declared.file.EdifFile.{EdifFile};
    ghost use Rattle.edif_values.specs.contracts.user.UserTree as trees;
    ghost use Rattle.edif_design.specs.References.{number_meant, top as file_top};
    ghost use Rattle.edif_resolve.specs.TabledFile.{IsTabledFile};

    ghost Value = { EdifFile };

    ghost coded = { Prim.hlevel (codes, trees.the_row.coded) };

    ghost view = { λ s. s.tables };

    ghost invariant = { λ s. IsTabledFile s.tables s.port_tables.items s.graph.items s.marks.items × (s.top ≡ number_meant (file_top s.tables)) };
}

// The ports of each cell.
fn port_tables_of<'a>(
    alloc: Global,
    tables: &FileTables<'a>,
) -> Result<Vec<PortTable<'a>>, NoMemory>
    requires { edif_size tables.now ≤ count_limit }
    ensures { IfOk result (λ port_tables. port_tables.items ≡ map ports (file_cells tables.now)) }
{
    let mut port_tables = Vec::with_capacity(alloc, tables.places().len())?;
    for place in tables.places() {
        port_tables.push(PortTable::of(alloc, place.cell)?)?;
    }
    Ok(port_tables)
}

impl<'a> TabledFile<'a> {
    /// The file with these designs.
    pub(crate) fn of(
        alloc: Global,
        file: &'a EdifFile,
        found: &[&'a Design],
    ) -> Result<TabledFile<'a>, NoMemory>
        requires small { edif_size file.now ≤ count_limit }
        requires designs { seen found.now ≡ designs file.now }
        ensures { IfOk result (λ tabled. tabled ≡ file.now) }
    {
        let tables = FileTables::build(alloc, file)?;
        let port_tables = port_tables_of(alloc, &tables)?;
        let top = top_of(alloc, &tables, found)?;
        let graph = graph_of(alloc, &tables)?;
        let marks = marks_of(alloc, &tables, graph.as_slice(), top)?;
        Ok(TabledFile {
            tables,
            port_tables,
            graph,
            marks,
            top,
        })
    }

    /// The tables of the file.
    pub(crate) fn tables(&self) -> &FileTables<'a>
        ensures { result.now ≡ self.now }
    {
        &self.tables
    }

    /// The ports of each cell.
    pub(crate) fn port_tables(&self) -> &[PortTable<'a>]
        ensures { result.now ≡ map ports (file_cells self.now) }
    {
        self.port_tables.as_slice()
    }

    /// For each cell the numbers of the cells that its instances are of.
    pub(crate) fn graph(&self) -> &[Seq<u32>]
        ensures { result.now ≡ cells_below self.now }
    {
        self.graph.as_slice()
    }

    /// A mark for each cell that is reached from the top.
    pub(crate) fn marks(&self) -> &[bool]
        ensures { result.now ≡ reached_marks self.now }
    {
        self.marks.as_slice()
    }

    /// The number of the top cell, where it is meant.
    pub(crate) fn top(&self) -> Option<u32>
        ensures { result ≡ number_meant (top self.now) }
    {
        self.top
    }

    /// Whether the cell of this number is reached from the top.
    pub(crate) fn is_reached(&self, number: u32) -> bool
        ensures { result ≡ is_reached self.now number }
    {
        match self.marks.get(number as usize) {
            Some(mark) => *mark,
            None => false,
        }
    }
}
