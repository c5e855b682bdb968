// Joins of two sides, run by run.
ghost use Rattle.std.specs.Prelude.{◌≡◌, ◌+◌, ◌<◌, ◌^◌, ◌++◌, All, drop, flat_map, get_or, length, None, IfOk, OnOk};
ghost use Rattle.vlog_design.specs.Design.{join_of, joins_between};
ghost use Rattle.vlog_design.specs.Runs.{IsRun, bits_behind, run_bits};

use crate::runs::{Run, Runs, node_after};
use net_hier::{Join, Node};
use nl_base::NoMemory;
use std::marker::Model;

/// What is left of one side: runs, of whose bits so many are passed. One run can have more than 2^64 bits.
#[derive(Drop)]
pub(crate) struct Rest<'a> {
    passed: u128,
    runs: &'a [Run],
}

impl<'a> Model for Rest<'a> {
    ghost use Rattle.std.specs.Prelude.{List, Option};
    ghost use Rattle.net_hier.specs.declared.nodes.Node.{Node};
    ghost use Rattle.vlog_design.specs.Runs.{ArePassed, bits_behind};

    ghost Value = { List (Option Node) };

    ghost view = { λ r. bits_behind r.passed r.runs.now };

    ghost invariant = { λ r. ArePassed r.passed r.runs.now };
}

fn push_join(a: Option<Node>, b: Option<Node>, out: &mut Vec<Join>) -> Result<(), NoMemory>
    ensures added { OnOk result (out.new.items ≡ out.old.items ++ join_of a b) }
{
    match a {
        None => Ok(()),
        Some(a) => match b {
            None => Ok(()),
            Some(b) => {
                out.push(Join { a, b })?;
                Ok(())
            }
        },
    }
}

/// What is left of runs behind so many bits.
pub(crate) fn behind<'a>(count: u128, all: &'a [Run]) -> Rest<'a>
    requires { All IsRun all.now }
    ensures { result ≡ bits_behind count all.now }
{
    let mut passed = count;
    let mut runs = all;
    while let [run, later @ ..] = runs {
        let length = u128::from(run.gap) + u128::from(run.count);
        if passed < length {
            return Rest { passed, runs };
        }
        passed -= length;
        runs = later;
    }
    Rest { passed: 0, runs }
}

/// A bit of a run, by its position from the left.
fn bit_at(run: Run, position: u128) -> Option<Node>
    requires fits { IsRun run }
    requires within { position < run.gap + run.count }
    ensures { result ≡ get_or (run_bits run) position None }
{
    let gap = u128::from(run.gap);
    if position < gap {
        return None;
    }
    Some(node_after(run.first, (position - gap) as u32))
}

impl<'a> Rest<'a> {
    /// The first bit, or nothing where no bit is left.
    fn first(&self) -> Option<Node>
        ensures { result ≡ get_or self.now 0 None }
    {
        match self.runs {
            [] => None,
            [run, ..] => bit_at(*run, self.passed),
        }
    }

    /// What is left behind so many bits.
    fn skip(self, count: u64) -> Rest<'a>
        ensures { result ≡ drop count self.entry }
    {
        behind(self.passed + u128::from(count), self.runs)
    }
}

/// Adds the joins of a run with the bits of the other side that stand there, and answers what is left of that side.
fn push_run_joins<'a>(left: Rest<'a>, run: Run, out: &mut Vec<Join>) -> Result<Rest<'a>, NoMemory>
    requires { IsRun run }
    ensures added { OnOk result (out.new.items
        ≡ out.old.items ++ joins_between left.entry (run_bits run)) }
    ensures left { IfOk result (λ rest. rest ≡ drop (run.gap + run.count) left.entry) }
{
    let mut rest = left.skip(run.gap);
    for i in 0..run.count {
        push_join(rest.first(), Some(node_after(run.first, i)), out)?;
        rest = rest.skip(1);
    }
    Ok(rest)
}

/// Adds the joins of what is left of one side with runs, and answers what is left then.
fn push_runs_joins<'a>(
    left: Rest<'a>,
    right: &[Run],
    out: &mut Vec<Join>,
) -> Result<Rest<'a>, NoMemory>
    requires { All IsRun right.now }
    ensures added { OnOk result (out.new.items
        ≡ out.old.items ++ joins_between left.entry (flat_map run_bits right.now)) }
    ensures left { IfOk result
        (λ rest. rest ≡ drop (length (flat_map run_bits right.now)) left.entry) }
{
    let mut rest = left;
    for run in right {
        rest = push_run_joins(rest, *run, out)?;
    }
    Ok(rest)
}

/// Adds the joins of what is left of one side with the other side, and answers what is left then.
pub(crate) fn push_side_joins<'a>(
    left: Rest<'a>,
    right: &Runs,
    out: &mut Vec<Join>,
) -> Result<Rest<'a>, NoMemory>
    ensures added { OnOk result (out.new.items
        ≡ out.old.items ++ joins_between left.entry right.now) }
    ensures left { IfOk result (λ rest. rest ≡ drop (length right.now) left.entry) }
{
    let rest = push_runs_joins(left, &right.runs, out)?;
    Ok(rest.skip(right.gap))
}

/// Adds the joins of two sides. The time is in proportion to the runs of the left and the nodes of the right.
pub fn push_joins(left: &Runs, right: &Runs, out: &mut Vec<Join>) -> Result<(), NoMemory>
    ensures added { OnOk result (out.new.items
        ≡ out.old.items ++ joins_between left.now right.now) }
{
    let side = behind(0, &left.runs);
    let _rest = push_side_joins(side, right, out)?;
    Ok(())
}
