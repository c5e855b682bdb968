ghost use Rattle.std.specs.Prelude.{◌≡◌, ◌+◌, ◌<◌, ◌≤◌, ◌∷◌, [], ℕ, List, Option, IfOk, OnOk, IsErrOf};
ghost use Rattle.nl_io.specs.Causes.{Rose};
ghost use Rattle.nl_base.specs.Faults.{OnText};
ghost use Rattle.nl_bytes.specs.Bytes.{Uses};
ghost use Rattle.vlog_tokens.specs.Parts.{Part, Reads, spot_of};
ghost use Rattle.vlog_tokens.specs.Proper.{IsProperItem};
ghost use Rattle.vlog_tokens.specs.Scanning.{begun, kept, scanned, StopsAt};
ghost use Rattle.vlog_tokens.specs.SoFar.{IsSoFar};
ghost use Rattle.vlog_tokens.specs.Spelling.{lexeme_spelled};

use crate::item::{Item, Spot, item_of};
use crate::phase::Phase;
use crate::scan::{Scanned, keep_first, refuse, rest};
use nl_base::{Place, ReadError, Reason};
use nl_bytes::Bytes;
use nl_bytes::bytes::LIMIT;
use nl_io::Source;
use std::alloc::Global;

/// For how many bytes a token has room from the first.
const USUAL: usize = 24;

/// Reads the bytes of a token, whose first is ahead and makes it begin in a phase.
fn scan<S: Source>(
    bytes: &mut Bytes,
    alloc: Global,
    begins: Phase,
    byte: u8,
    source: &mut S,
) -> Result<Scanned, ReadError>
    requires ahead { (tail : List ℕ) × (bytes.old.held ≡ byte ∷ tail) }
    requires within { bytes.old.place.offset ≤ LIMIT }
    ensures part { Part (begun begins byte) scanned bytes.old.place bytes.old bytes.new
        (S.supply source.old).left (S.supply source.new).left result }
    ensures stop { IfOk result (λ x. StopsAt bytes.new (S.supply source.new).left x.stop) }
    ensures so_far { IsSoFar begins (kept begins byte)
        → IfOk result (λ x. IsSoFar x.phase x.text.items) }
    ensures some { OnOk result (bytes.old.place.offset < bytes.new.place.offset) }
    ensures count { (S.supply source.old).faults ≤ (S.supply source.new).faults }
    ensures cause { IsErrOf result ReadError.ReadFault
        → Rose (S.supply source.old).faults (S.supply source.new).faults }
    ensures never_spent { IsErrOf result ReadError.Spent → ⊥ }
    ensures bounded { OnText result (λ t. bytes.new.place.offset ≤ t.stop) }
{
    let place = bytes.place();
    let mut text = Vec::with_capacity(alloc, USUAL)?;
    keep_first(begins, byte, &mut text)?;
    bytes.advance();
    let scanned = rest(bytes, begins, place, text, source)?;
    Ok(scanned)
}

/// An item with its stop, or the refusal of a number that is too large.
fn spot_of(place: Place, stop: u64, item: Option<Item>) -> Result<Spot, ReadError>
    ensures { result ≡ spot_of place stop item }
{
    match item {
        Some(item) => Ok(Spot { item, stop }),
        None => Err(refuse(place, stop, Reason::NumberRange)),
    }
}

/// Reads what begins with the byte ahead in a phase.
pub fn lexeme<S: Source>(
    bytes: &mut Bytes,
    alloc: Global,
    begins: Phase,
    byte: u8,
    source: &mut S,
) -> Result<Spot, ReadError>
    requires ahead { (tail : List ℕ) × (bytes.old.held ≡ byte ∷ tail) }
    requires within { bytes.old.place.offset ≤ LIMIT }
    ensures reads { Reads (lexeme_spelled begins byte) bytes.old bytes.new
        (S.supply source.old).left (S.supply source.new).left result }
    ensures proper { IsSoFar begins (kept begins byte) → IfOk result (λ x. IsProperItem x.item) }
    ensures count { (S.supply source.old).faults ≤ (S.supply source.new).faults }
    ensures cause { IsErrOf result ReadError.ReadFault
        → Rose (S.supply source.old).faults (S.supply source.new).faults }
    ensures never_spent { IsErrOf result ReadError.Spent → ⊥ }
    ensures bounded { OnText result (λ t. bytes.new.place.offset ≤ t.stop) }
    ensures ended { IfOk result (λ x. bytes.new.place.offset ≤ x.stop) }
{
    let place = bytes.place();
    let Scanned { phase, text, stop } = scan(bytes, alloc, begins, byte, source)?;
    let item = item_of(alloc, phase, text)?;
    spot_of(place, stop, item)
}
