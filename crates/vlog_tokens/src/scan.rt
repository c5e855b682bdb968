ghost use Rattle.std.specs.Prelude.{IsNone, IfSome, ◌≡◌, ◌+◌, ◌<◌, ◌≤◌, ◌++◌, ◌∷◌, [], ℕ, List, length, Some, None, Option, IfOk, OnOk, IsErrOf};
ghost use Rattle.nl_io.specs.Causes.{Rose};
ghost use Rattle.nl_base.specs.Faults.{OnText};
ghost use Rattle.nl_bytes.specs.Bytes.{Uses, IsAhead};
ghost use Rattle.nl_bytes.specs.Flaws.{refusal};
ghost use Rattle.vlog_tokens.specs.Parts.{Part};
ghost use Rattle.vlog_tokens.specs.Scanning.{Stays, scan_at, after_byte, scanned, begun, kept, StopsAt};
ghost use Rattle.vlog_tokens.specs.SoFar.{IsSoFar, IsThen};

use crate::phase::{Phase, Step, class_of, is_complete, most_of, next_step};
use nl_base::{Place, ReadError, Reason, TextFault};
use nl_bytes::bytes::LIMIT;
use nl_bytes::{Bytes, Class, Halt};
use nl_io::Source;
use std::alloc::{AllocFailed, Global};

/// A fault, or that the input is too long where the fault's stop is past the limit.
pub fn refuse(place: Place, stop: u64, reason: Reason) -> ReadError
    ensures { result ≡ refusal place stop reason }
{
    if LIMIT < stop {
        ReadError::TooLong
    } else {
        ReadError::Text(TextFault {
            place,
            stop,
            reason,
        })
    }
}

/// The kept bytes of a token, what they are, and the token's stop.
#[derive(Drop)]
pub struct Scanned {
    pub phase: Phase,
    pub text: Vec<u8>,
    pub stop: u64,
}

/// Reads the bytes that keep a token in its phase, and answers the byte behind them.
#[inline]
fn stay<S: Source>(
    bytes: &mut Bytes,
    phase: Phase,
    text: &mut Vec<u8>,
    source: &mut S,
) -> Result<Option<u8>, Halt>
    ensures stays { Stays phase bytes.old bytes.new
        (S.supply source.old).left (S.supply source.new).left text.old.items text.new.items result }
    ensures so_far { IsSoFar phase text.old.items → OnOk result (IsSoFar phase text.new.items) }
    ensures count { (S.supply source.old).faults ≤ (S.supply source.new).faults }
    ensures cause { IsErrOf result Halt.Failed
        → Rose (S.supply source.old).faults (S.supply source.new).faults }
{
    match class_of(phase) {
        Some(class) => {
            let most = most_of(phase).saturating_sub(text.len());
            let next = bytes.run(class, most, text, source)?;
            Ok(next)
        }
        None => {
            let next = bytes.peek(source)?;
            Ok(next)
        }
    }
}

/// Takes the byte ahead where it belongs to the token, and answers what the token is then, or nothing where it has ended.
fn take_byte<S: Source>(
    bytes: &mut Bytes,
    phase: Phase,
    place: Place,
    text: &mut Vec<u8>,
    next: Option<u8>,
    source: &S,
) -> Result<Option<Phase>, ReadError>
    requires ahead { IsAhead bytes.old (S.supply source.now).left next }
    requires within { bytes.old.place.offset ≤ LIMIT }
    ensures part { Part (scan_at phase text.old.items)
        (λ then. after_byte then phase text.new.items) place bytes.old bytes.new
        (S.supply source.now).left (S.supply source.now).left result }
    ensures so_far { IsSoFar phase text.old.items → IfOk result (IsThen phase text.new.items) }
    ensures moves { IfOk result
        (λ then. (IsNone then → bytes.new ≡ bytes.old)
        × IfSome then (λ _. bytes.old.place.offset < bytes.new.place.offset)) }
    ensures never_spent { IsErrOf result ReadError.Spent → ⊥ }
    ensures never_failed { IsErrOf result ReadError.ReadFault → ⊥ }
    ensures bounded { OnText result (λ t. bytes.new.place.offset ≤ t.stop) }
{
    let here = bytes.place();
    let Some(byte) = next else {
        if is_complete(phase) {
            return Ok(None);
        }
        return Err(refuse(here, here.offset, Reason::EndOfInput));
    };
    match next_step(phase, byte) {
        Step::Keep(then) => {
            if text.len() >= most_of(phase) {
                return Err(refuse(place, here.offset + 1, Reason::TokenTooLong));
            }
            text.push(byte)?;
            bytes.advance();
            Ok(Some(then))
        }
        Step::Pass(then) => {
            bytes.advance();
            Ok(Some(then))
        }
        Step::Ends => Ok(None),
        Step::Bad => Err(refuse(here, here.offset + 1, Reason::BadByte)),
    }
}

/// Keeps the byte that begins a token, if it is kept.
#[tactic(auto, unfolding(crate::specs::Scanning::kept))]
pub fn keep_first(phase: Phase, byte: u8, text: &mut Vec<u8>) -> Result<(), AllocFailed<u8>>
    ensures { OnOk result (text.new.items ≡ text.old.items ++ kept phase byte) }
{
    match phase {
        Phase::Escape => Ok(()),
        _ => {
            text.push(byte)?;
            Ok(())
        }
    }
}

/// Reads the rest of a token, whose kept bytes stand in `text`.
pub fn rest<S: Source>(
    bytes: &mut Bytes,
    begins: Phase,
    place: Place,
    text: Vec<u8>,
    source: &mut S,
) -> Result<Scanned, ReadError>
    ensures part { Part (scan_at begins text.items) scanned place bytes.old bytes.new
        (S.supply source.old).left (S.supply source.new).left result }
    ensures stop { IfOk result (λ x. StopsAt bytes.new (S.supply source.new).left x.stop) }
    ensures so_far { IsSoFar begins text.items → IfOk result (λ x. IsSoFar x.phase x.text.items) }
    ensures count { (S.supply source.old).faults ≤ (S.supply source.new).faults }
    ensures cause { IsErrOf result ReadError.ReadFault
        → Rose (S.supply source.old).faults (S.supply source.new).faults }
    ensures never_spent { IsErrOf result ReadError.Spent → ⊥ }
    ensures bounded { OnText result (λ t. bytes.new.place.offset ≤ t.stop) }
{
    let mut text = text;
    let mut phase = begins;
    loop {
        let next = stay(bytes, phase, &mut text, source)?;
        let then = take_byte(bytes, phase, place, &mut text, next, source)?;
        let Some(later) = then else {
            let stop = bytes.place().offset + u64::from(next.is_some());
            return Ok(Scanned { phase, text, stop });
        };
        phase = later;
    }
}
