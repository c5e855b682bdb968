// The rules of tools on designs.
ghost use Rattle.std.specs.Prelude.{◌≡◌};
ghost use Rattle.netlist_cli.specs.Tools.{flatten_rule_name, spice_rule_name, tool_rule_name};

use net_flatten_rules::FlattenRule;
use nl_base::{Seq, Text};
use to_spice_rules::SpiceRule;

/// A rule that a tool has beside those of the language that is read.
#[derive(Clone, Copy, PartialEq, Eq)]
pub enum ToolRule {
    /// A rule of SPICE texts.
    Spice(SpiceRule),
    /// A rule of flattened designs.
    Flatten(FlattenRule),
}

/// A broken rule of a tool, the name of the cell in which the object stands, and the names that tell the object.
#[derive(Drop)]
pub struct ToolRefusal {
    pub rule: ToolRule,
    pub cell: Text,
    pub names: Seq<Text>,
}

/// The name that is printed for a rule of SPICE.
fn spice_rule_name(rule: SpiceRule) -> &'static [u8]
    ensures { result.now ≡ spice_rule_name rule }
{
    match rule {
        SpiceRule::S1 => b"S1",
        SpiceRule::S2 => b"S2",
        SpiceRule::S3 => b"S3",
        SpiceRule::S4 => b"S4",
        SpiceRule::S5 => b"S5",
        SpiceRule::S6 => b"S6",
    }
}

/// The name that is printed for a rule of flattened designs.
fn flatten_rule_name(rule: FlattenRule) -> &'static [u8]
    ensures { result.now ≡ flatten_rule_name rule }
{
    match rule {
        FlattenRule::F1 => b"F1",
        FlattenRule::F2 => b"F2",
    }
}

impl ToolRule {
    /// The name that is printed for it.
    pub fn name(&self) -> &'static [u8]
        ensures { result.now ≡ tool_rule_name self.now }
    {
        match self {
            ToolRule::Spice(rule) => spice_rule_name(*rule),
            ToolRule::Flatten(rule) => flatten_rule_name(*rule),
        }
    }
}
