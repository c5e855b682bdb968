ghost use Rattle.std.specs.Prelude.{◌≡◌};
ghost use Rattle.nl_base.specs.Rules.{rule_name, rule_number};

use crate::seq::Seq;
use crate::text::Text;

/// A rule that a netlist can break, in the order in which rules are tried: those of an EDIF file (E), of a Verilog design (G), and of a
/// translation to Verilog (V).
#[derive(Clone, Copy, PartialEq, Eq)]
pub enum Rule {
    E1,
    E2,
    E3,
    E4,
    E5,
    E6,
    E7,
    E8,
    E9,
    E10,
    E11,
    E12,
    E13,
    G1,
    G2,
    G3,
    G4,
    G5,
    G6,
    G7,
    G8,
    G9,
    G10,
    G11,
    G12,
    G13,
    G14,
    G15,
    G16,
    G17,
    V1,
    V2,
    V3,
    V4,
    V5,
}

impl Rule {
    /// Its number in the order of the rules, from 0.
    pub fn number(&self) -> u8
        ensures { result ≡ rule_number self.now }
    {
        *self as u8
    }

    /// The name that is printed for it.
    pub fn name(&self) -> &'static [u8]
        ensures { result.now ≡ rule_name self.now }
    {
        match self {
            Rule::E1 => b"E1",
            Rule::E2 => b"E2",
            Rule::E3 => b"E3",
            Rule::E4 => b"E4",
            Rule::E5 => b"E5",
            Rule::E6 => b"E6",
            Rule::E7 => b"E7",
            Rule::E8 => b"E8",
            Rule::E9 => b"E9",
            Rule::E10 => b"E10",
            Rule::E11 => b"E11",
            Rule::E12 => b"E12",
            Rule::E13 => b"E13",
            Rule::G1 => b"G1",
            Rule::G2 => b"G2",
            Rule::G3 => b"G3",
            Rule::G4 => b"G4",
            Rule::G5 => b"G5",
            Rule::G6 => b"G6",
            Rule::G7 => b"G7",
            Rule::G8 => b"G8",
            Rule::G9 => b"G9",
            Rule::G10 => b"G10",
            Rule::G11 => b"G11",
            Rule::G12 => b"G12",
            Rule::G13 => b"G13",
            Rule::G14 => b"G14",
            Rule::G15 => b"G15",
            Rule::G16 => b"G16",
            Rule::G17 => b"G17",
            Rule::V1 => b"V1",
            Rule::V2 => b"V2",
            Rule::V3 => b"V3",
            Rule::V4 => b"V4",
            Rule::V5 => b"V5",
        }
    }
}

/// A broken rule, the original name of the cell in which the object stands, and the names that tell the object.
#[derive(Drop)]
pub struct Refusal {
    pub rule: Rule,
    pub cell: Text,
    pub names: Seq<Text>,
}
