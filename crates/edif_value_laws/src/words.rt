// What identifiers and the names of constants keep.
ghost use Rattle.std.specs.Prelude.{◌<◌, All};
ghost use Rattle.edif_values.specs.Values.{IsWord};
ghost use Rattle.edif_plans.specs.Sound.{AreStems, IsStem};
ghost use Rattle.edif_value_laws.specs.Named.{HasWords};
ghost use Rattle.net_hier.specs.Constants.{IsNameLength};

use edif_plans::Head;
use net_hier::Constants;
use nl_base::{Ident, Text};

/// Each byte is below 256.
fn each_is_byte(bytes: &[u8])
    ensures { All (λ b. b < 256) bytes.now }
{
    let _first = bytes.first();
}

/// A name of at most 1,024 bytes is a stem.
#[tactic(auto, using(crate::proofs::Stems::is_stem))]
fn stem_of(text: &Text)
    requires { IsNameLength text.now }
    ensures { IsStem text.now }
{
    each_is_byte(text.bytes());
}

/// The names of the constants' cells and ports are stems.
pub fn stems_of(constants: &Constants)
    ensures { AreStems constants.now }
{
    let zero = constants.zero();
    let one = constants.one();
    stem_of(&zero.cell);
    stem_of(&zero.port);
    stem_of(&one.cell);
    stem_of(&one.port);
}

/// The identifier is a word.
fn word_of(ident: &Ident)
    ensures { IsWord ident.now }
{
    let _bytes = ident.bytes();
}

/// The identifiers of a cell and of its ports are words.
pub fn words_of(head: &Head)
    ensures { HasWords head.now }
{
    word_of(&head.cell);
    let mut left = head.ports.items();
    while let [ident, rest @ ..] = left {
        word_of(ident);
        left = rest;
    }
}
