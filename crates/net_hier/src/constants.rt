// The cells that stand for the constants zero and one.
ghost use Rattle.std.specs.Prelude.{◌≡◌, ◌↔◌, IsTrue, IsSome, IfSome, IfOk};
ghost use Rattle.net_hier.specs.Constants.{AreConstantNames, IsNameLength, usual_names};

use nl_base::{NoMemory, Text};
use std::alloc::Global;
use std::marker::Model;

/// The names of the cell that stands for a constant, and of its only port.
#[derive(Drop)]
pub struct ConstName {
    pub cell: Text,
    pub port: Text,
}

/// The cells of the constants zero and one. Their names differ, and each of the four names is 1 to 1,024 bytes long.
#[derive(Drop)]
pub struct Constants {
    zero: ConstName,
    one: ConstName,
}

impl Model for Constants {
    ghost use Rattle.net_hier.specs.Constants.{ConstantNames, AreConstantNames};

    ghost Value = { ConstantNames };

    ghost view = { λ c. record { zero = c.zero; one = c.one } };

    ghost invariant = { λ c. AreConstantNames (record { zero = c.zero; one = c.one }) };
}

fn has_name_length(text: &Text) -> bool
    ensures { IsTrue result ↔ IsNameLength text.now }
{
    1 <= text.len() && text.len() <= 1024
}

fn have_name_lengths(name: &ConstName) -> bool
    ensures { IsTrue result ↔ (IsNameLength name.now.cell × IsNameLength name.now.port) }
{
    has_name_length(&name.cell) && has_name_length(&name.port)
}

impl Constants {
    /// The constants of these names: none exactly where the two cells have one name, byte for byte, or one of the four names is not
    /// 1 to 1,024 bytes long.
    pub fn check(zero: ConstName, one: ConstName) -> Option<Constants>
        ensures some { IsSome result ↔ AreConstantNames (record { zero = zero; one = one }) }
        ensures names { IfSome result (λ constants. constants ≡ record { zero = zero; one = one }) }
    {
        if zero.cell.bytes() == one.cell.bytes() {
            return None;
        }
        if have_name_lengths(&zero) && have_name_lengths(&one) {
            return Some(Constants { zero, one });
        }
        None
    }

    /// The usual cells: `GND` with the output `G`, and `VCC` with the output `P`.
    pub fn usual(alloc: Global) -> Result<Constants, NoMemory>
        ensures { IfOk result (λ constants. constants ≡ usual_names) }
    {
        let zero = ConstName {
            cell: Text::copy(alloc, b"GND")?,
            port: Text::copy(alloc, b"G")?,
        };
        let one = ConstName {
            cell: Text::copy(alloc, b"VCC")?,
            port: Text::copy(alloc, b"P")?,
        };
        Ok(Constants { zero, one })
    }

    /// The name of the zero's cell and of its port.
    pub fn zero(&self) -> &ConstName
        ensures name { result.now ≡ self.now.zero }
        ensures checked { AreConstantNames self.now }
    {
        &self.zero
    }

    /// The name of the one's cell and of its port.
    pub fn one(&self) -> &ConstName
        ensures name { result.now ≡ self.now.one }
        ensures checked { AreConstantNames self.now }
    {
        &self.one
    }
}
