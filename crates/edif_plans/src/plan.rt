// What stands where in the file.
ghost use Rattle.std.specs.Prelude.{◌≡◌, ◌<◌, length};
ghost use Rattle.edif_plans.specs.Plans.{HasHead, constant_head, constant_number, head_of};

use crate::head::Head;
use nl_base::Seq;

/// The cells of the file, and which of them are those of the design and those of the constants.
#[derive(Drop)]
pub struct Plan {
    /// For each cell of the file, in order, its identifiers.
    pub heads: Seq<Head>,
    /// For each cell of the design its number in the file.
    pub numbers: Seq<u32>,
    /// The number in the file of the cell of each constant, where some cell needs the constant.
    pub zero: u32,
    pub one: u32,
}

impl Plan {
    /// The identifiers of the cell of this number in the design.
    pub fn head(&self, cell: u32) -> &Head
        requires { HasHead self.now cell }
        ensures { result.now ≡ head_of self.now cell }
    {
        let numbers = self.numbers.items();
        let heads = self.heads.items();
        let place = numbers[cell as usize] as usize;
        &heads[place]
    }

    /// The identifiers of the cell of a constant.
    pub fn constant(&self, value: bool) -> &Head
        requires { constant_number self.now value < length self.now.heads }
        ensures { result.now ≡ constant_head self.now value }
    {
        let heads = self.heads.items();
        let place = self.number(value);
        &heads[place]
    }

    // The number in the file of the cell of a constant.
    fn number(&self, value: bool) -> usize
        ensures { result ≡ constant_number self.now value }
    {
        if value {
            self.one as usize
        } else {
            self.zero as usize
        }
    }
}
