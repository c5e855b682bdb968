// Bits from the left, of which those that are nothing take no room.
ghost use Rattle.std.specs.Prelude.{◌≡◌, ◌+◌, ◌*◌, ◌≤◌, ◌<◌, ◌^◌, [], ◌++◌, replicate, None, OnOk};
ghost use Rattle.vlog_design.specs.Exprs.{repeated};
ghost use Rattle.vlog_design.specs.Runs.{node_after, node_number, nodes_from};

use net_hier::Node;
use nl_base::NoMemory;
use std::alloc::Global;
use std::marker::Model;

/// So many bits that are nothing, and then so many nodes from the first on: bits of a port or pin, nets by their numbers, or one constant.
#[derive(Clone, Copy)]
pub struct Run {
    pub gap: u64,
    pub first: Node,
    pub count: u32,
}

/// Bits from the left, which contracts see as the list of them: a node, or nothing for x and z. What is nothing is counted and not made.
#[derive(Drop)]
pub struct Runs {
    pub(crate) runs: Vec<Run>,
    pub(crate) gap: u64,
}

impl Model for Runs {
    ghost use Rattle.std.specs.Prelude.{All, List, Option};
    ghost use Rattle.net_hier.specs.declared.nodes.Node.{Node};
    ghost use Rattle.vlog_design.specs.Runs.{IsRun, runs_bits};

    ghost Value = { List (Option Node) };

    ghost view = { λ r. runs_bits r.runs.items r.gap };

    ghost invariant = { λ r. All IsRun r.runs.items };
}

/// The node so many places to the right.
pub fn node_after(first: Node, places: u32) -> Node
    requires { node_number first + places < 2 ^ 32 }
    ensures { result ≡ node_after first places }
{
    match first {
        Node::Port { port, bit } => Node::Port {
            port,
            bit: bit + places,
        },
        Node::Pin {
            instance,
            port,
            bit,
        } => Node::Pin {
            instance,
            port,
            bit: bit + places,
        },
        Node::Net(number) => Node::Net(number + places),
        Node::Zero => Node::Zero,
        Node::One => Node::One,
    }
}

impl Runs {
    /// No bits.
    pub fn empty(alloc: Global) -> Runs
        ensures { result ≡ [] }
    {
        Runs {
            runs: Vec::new(alloc),
            gap: 0,
        }
    }

    /// Adds bits that are nothing. Where their number does not fit, the answer is want of memory.
    pub fn push_nothing(&mut self, count: u64) -> Result<(), NoMemory>
        ensures added { OnOk result (self.new ≡ self.old ++ replicate count None) }
    {
        match self.gap.checked_add(count) {
            None => Err(NoMemory),
            Some(gap) => {
                self.gap = gap;
                Ok(())
            }
        }
    }

    /// Adds so many nodes, from the first on.
    pub fn push_nodes(&mut self, first: Node, count: u32) -> Result<(), NoMemory>
        requires fits { node_number first + count ≤ 2 ^ 32 }
        ensures added { OnOk result (self.new ≡ self.old ++ nodes_from first count) }
    {
        // Runs without nodes would be copied by replications that have no bit that is something.
        if count == 0 {
            return Ok(());
        }
        let gap = self.gap;
        self.runs.push(Run { gap, first, count })?;
        self.gap = 0;
        Ok(())
    }

    /// Adds all bits of the other.
    pub fn append(&mut self, other: &Runs) -> Result<(), NoMemory>
        ensures added { OnOk result (self.new ≡ self.old ++ other.now) }
    {
        for run in &other.runs {
            self.push_nothing(run.gap)?;
            self.push_nodes(run.first, run.count)?;
        }
        self.push_nothing(other.gap)
    }

    /// Adds bits so many times: at once where none of them is something.
    pub fn push_repeated(&mut self, once: &Runs, count: u64) -> Result<(), NoMemory>
        ensures added { OnOk result (self.new ≡ self.old ++ repeated count once.now) }
    {
        if once.runs.is_empty() {
            return match once.gap.checked_mul(count) {
                None => Err(NoMemory),
                Some(gap) => self.push_nothing(gap),
            };
        }
        for _i in 0..count {
            self.append(once)?;
        }
        Ok(())
    }
}
