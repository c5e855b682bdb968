// The text of the findings.
ghost use Rattle.std.specs.Prelude.{ℕ, ◌≡◌, ◌<◌, ◌≤◌, List, [], All, length};
ghost use Rattle.flat_classes.specs.Terminals.{AreFlatClasses};
ghost use Rattle.flat_report.specs.Report.{nets_then};
ghost use Rattle.flat_classes.specs.Ways.{ArePaths};
ghost use Rattle.net_hier.specs.Constants.{ConstantNames};
ghost use Rattle.net_hier.specs.Paths.{Path};
ghost use Rattle.net_lint.specs.Findings.{FoundIn};
ghost use Rattle.net_lint.specs.Found.{AreTerminals, FindingsFit, several_in};
ghost use Rattle.net_lint.specs.Groups.{sets_of};
ghost use Rattle.net_lint.specs.Lint.{lint_then, view_of};
ghost use Rattle.net_lint.specs.Lints.{Lints};
ghost use Rattle.net_lint.specs.declared.linting.LintError.TheVariants.{NoMemory};
ghost use Rattle.nl_output.specs.Writing.{Puts, Writes, state};

use crate::drivers::Drivers;
use crate::findings::{Findings, findings_of};
use flat_classes::{Flat, FlatFault};
use flat_report::lines::{put_count, put_design, put_terminals};
use flat_report::reporting::{put_net, room_for};
use net_hier::{Constants, Hier};
use nl_base::NoMemory;
use nl_io::{Failed, Sink};
use nl_output::Output;
use std::alloc::Global;

/// Why nothing is said of a design.
#[derive(Drop)]
pub enum LintError {
    /// The flat count, this one or 2^64-1 where it is larger, is above 2,000,000.
    FlatTooLarge(u64),
    /// The sink failed, and a front of the text was put.
    Failed,
    /// Memory ran out, before anything was put.
    NoMemory,
}

impl From<NoMemory> for LintError {
    ghost from_gives = { λ _ e. e ≡ NoMemory };

    fn from(_: NoMemory) -> Self {
        LintError::NoMemory
    }
}

/// Puts the sets of several drivers, each as the group of its first driver.
fn put_sets<O: Sink>(
    hier: &Hier,
    flat: &Flat,
    drivers: &Drivers,
    firsts: &[u32],
    room: &mut [u32],
    output: &mut Output,
    sink: &mut O,
)
    requires classes { (names : ConstantNames) × AreFlatClasses names hier.now flat.now }
    requires drivers { All (AreTerminals flat.now) drivers.now }
    requires groups { length drivers.now ≡ flat.now.count }
    requires firsts { AreTerminals flat.now firsts.now }
    requires room { length flat.now.spots ≤ length room.old }
    ensures { (paths : List Path) → ArePaths hier.now.cells flat.now.spots paths →
        Puts (nets_then hier.now.cells flat.now.spots paths flat.now.terminals
        (sets_of flat.now.groups drivers.now firsts.now))
        (state O.receipt sink.old output.old)
        (state O.receipt sink.new output.new) }
{
    for first in firsts {
        let set = drivers.of(flat.group(*first) as usize);
        put_net(hier, flat, set, room, output, sink);
    }
}

/// Puts the lines of the findings.
fn put_findings<O: Sink>(
    hier: &Hier,
    flat: &Flat,
    found: &Findings,
    room: &mut [u32],
    output: &mut Output,
    sink: &mut O,
)
    requires classes { (names : ConstantNames) × AreFlatClasses names hier.now flat.now }
    requires found { FindingsFit flat.now found.now }
    requires room { length flat.now.spots ≤ length room.old }
    ensures { (paths : List Path) → ArePaths hier.now.cells flat.now.spots paths →
        Puts (lint_then hier.now flat.now paths found.now.undriven.items found.now.floating.items
        (several_in flat.now found.now))
        (state O.receipt sink.old output.old)
        (state O.receipt sink.new output.new) }
{
    let undriven = found.undriven.as_slice();
    let floating = found.floating.as_slice();
    let firsts = found.firsts.as_slice();
    put_design(hier, output, sink);
    put_count(b"undriven", undriven.len(), output, sink);
    put_terminals(hier, flat, undriven, room, output, sink);
    put_count(b"floating", floating.len(), output, sink);
    put_terminals(hier, flat, floating, room, output, sink);
    put_count(b"several", firsts.len(), output, sink);
    put_sets(hier, flat, &found.drivers, firsts, room, output, sink);
}

/// Writes the lines of the findings.
fn write_findings<O: Sink>(
    hier: &Hier,
    flat: &Flat,
    found: &Findings,
    room: &mut [u32],
    sink: &mut O,
) -> Result<(), Failed>
    requires classes { (names : ConstantNames) × AreFlatClasses names hier.now flat.now }
    requires found { FindingsFit flat.now found.now }
    requires room { length flat.now.spots ≤ length room.old }
    ensures { (paths : List Path) → ArePaths hier.now.cells flat.now.spots paths →
        Writes O.receipt sink.old sink.new (lint_then hier.now flat.now paths
        found.now.undriven.items found.now.floating.items (several_in flat.now found.now) [])
        result }
{
    let mut output = Output::new();
    put_findings(hier, flat, found, room, &mut output, sink);
    let result = output.finish(sink);
    result
}

/// Puts the findings of a design: its undriven sinks, its floating sinks, and its sets of two or
/// more connected drivers.
pub fn lint<O: Sink>(
    alloc: Global,
    hier: &Hier,
    constants: &Constants,
    sink: &mut O,
) -> Result<(), LintError>
    ensures { Lints O.receipt constants.now hier.now sink.old sink.new result }
{
    let _cells = hier.cells();
    let flat = match Flat::of(alloc, hier, constants) {
        Ok(flat) => flat,
        Err(FlatFault::TooLarge(count)) => return Err(LintError::FlatTooLarge(count)),
        Err(FlatFault::NoMemory) => return Err(LintError::NoMemory),
    };
    let members = flat.members(alloc)?;
    let found = findings_of(alloc, hier, constants, &flat, members)?;
    let mut room = room_for(alloc, flat.spots())?;
    match write_findings(hier, &flat, &found, &mut room, sink) {
        Ok(()) => Ok(()),
        Err(_) => Err(LintError::Failed),
    }
}
