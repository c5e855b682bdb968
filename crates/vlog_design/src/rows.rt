// Joins of nodes in a row with nodes in a row.
ghost use Rattle.std.specs.Prelude.{◌≡◌, ◌+◌, ◌-◌, ◌≤◌, ◌^◌, ◌++◌, drop, IfOk, OnOk};
ghost use Rattle.vlog_design.specs.Design.{joins_between};
ghost use Rattle.vlog_design.specs.Runs.{node_after, node_number, nodes_from};

use crate::runs::node_after;
use net_hier::{Join, Node};
use nl_base::NoMemory;
use std::marker::Model;

/// So many nodes, from the first on: bits of a port or pin, nets by their numbers, or one constant.
#[derive(Drop)]
pub(crate) struct Row {
    pub(crate) first: Node,
    pub(crate) count: u32,
}

impl Model for Row {
    ghost use Rattle.std.specs.Prelude.{List, Option, ◌+◌, ◌≤◌, ◌^◌};
    ghost use Rattle.net_hier.specs.declared.nodes.Node.{Node};
    ghost use Rattle.vlog_design.specs.Runs.{node_number, nodes_from};

    ghost Value = { List (Option Node) };

    ghost view = { λ r. nodes_from r.first r.count };

    ghost invariant = { λ r. node_number r.first + r.count ≤ 2 ^ 32 };
}

/// Adds the joins of all of so many nodes but the first with as many others.
fn push_later_pairs(
    left: Node,
    right: Node,
    count: u32,
    out: &mut Vec<Join>,
) -> Result<(), NoMemory>
    requires left { node_number left + count ≤ 2 ^ 32 }
    requires right { node_number right + count ≤ 2 ^ 32 }
    requires some { 1 ≤ count }
    ensures added { OnOk result (out.new.items
        ≡ out.old.items ++ joins_between (nodes_from (node_after left 1) (count - 1))
        (nodes_from (node_after right 1) (count - 1))) }
{
    for i in 1..count {
        out.push(Join {
            a: node_after(left, i),
            b: node_after(right, i),
        })?;
    }
    Ok(())
}

/// Adds the joins of so many nodes with as many others. Most often it is one.
fn push_pairs(left: Node, right: Node, count: u32, out: &mut Vec<Join>) -> Result<(), NoMemory>
    requires left { node_number left + count ≤ 2 ^ 32 }
    requires right { node_number right + count ≤ 2 ^ 32 }
    ensures added { OnOk result (out.new.items
        ≡ out.old.items ++ joins_between (nodes_from left count) (nodes_from right count)) }
{
    if count == 0 {
        return Ok(());
    }
    out.push(Join { a: left, b: right })?;
    push_later_pairs(left, right, count, out)
}

impl Row {
    /// What is left behind so many nodes.
    pub(crate) fn behind(self, places: u64) -> Row
        ensures { result ≡ drop places self }
    {
        if places >= u64::from(self.count) {
            return Row {
                first: self.first,
                count: 0,
            };
        }
        let passed = places as u32;
        Row {
            first: node_after(self.first, passed),
            count: self.count - passed,
        }
    }
}

/// Adds the joins of a row with so many nodes, and answers what is left of the row.
pub(crate) fn push_row_joins(
    row: Row,
    first: Node,
    count: u32,
    out: &mut Vec<Join>,
) -> Result<Row, NoMemory>
    requires { node_number first + count ≤ 2 ^ 32 }
    ensures added { OnOk result (out.new.items
        ≡ out.old.items ++ joins_between row (nodes_from first count)) }
    ensures left { IfOk result (λ rest. rest ≡ drop count row) }
{
    push_pairs(row.first, first, row.count.min(count), out)?;
    Ok(row.behind(u64::from(count)))
}
