//! Orders that are finalized, and what is sent and signed for them.
ghost use Rattle.std.specs.Prelude.{◌≡◌, ℕ, ◌<◌, ◌≤◌, ◌^◌, ◌↔◌, List, Some, Option, None, [], length, IsTrue, IfOk};
ghost use Rattle.tbs_build.specs.Small.{IsSerial};
ghost use Rattle.gate_base.specs.declared.profile.Role.TheVariants as Role;
ghost use Rattle.gate_base.specs.declared.sixteen.Sixteen.{Sixteen as SixteenValue};
ghost use Rattle.gate_entries.specs.Command.{IsCaller};
ghost use Rattle.gate_machine.specs.Answer.{MayBe};
ghost use Rattle.gate_machine.specs.Commands.Finalize.{blocked_by, JudgesFinalize, JudgesOwn, JudgesSigned, JudgesUnsigned, JudgesNew, JudgesBody, ComesToSigner, IsSentBy, IsSignature, ComesSigned};
ghost use Rattle.gate_machine.specs.Ends.{IsUnused, IsDue};
ghost use Rattle.gate_machine.specs.History.{EachFollows, IsNextPlace, Legal};
ghost use Rattle.gate_machine.specs.Sends as sends;
ghost use Rattle.gate_machine.specs.Sends.{small_bytes, certificate_bytes, IsBodyOf, IsNewBody, IsFresh, IsOrderKey, TellsNewSerial};
ghost use Rattle.gate_machine.specs.Sight as sight;
ghost use Rattle.gate_machine.specs.Sight.{sight_of};

use crate::answer::Answer;
use crate::draft::{Draft, Used, says};
use crate::place::Place;
use crate::request::key_of;
use crate::sending::{
    block_of, body_in, is_send_for, masked, own_order, send_with, sent_for, serial_in,
    signature_in, signed_for, to_sixteen,
};
use crate::sight::{order_for, send_seen, signed_seen};
use gate_base::{Bytes, Moment, NoMemory, Plain, SigAlg, Sixteen};
use gate_entries::{Caller, Entry, Reply, What, Why, Whys};
use std::alloc::Global;
use tbs_build::{certificate, certificate_len, small_body};

/// The most bytes that a signature has.
const MOST_SIGNATURE: usize = 1_024;

/// The answer to a command that has the order finalized.
pub fn judge_finalize(
    alloc: Global,
    history: &[Entry],
    caller: &Caller,
    place: &Place,
    number: u64,
    drawn: Option<Sixteen>,
) -> Result<Draft, NoMemory>
    requires legal { Legal history.now }
    requires caller { IsCaller caller.now }
    requires account { caller.now.role ≡ Role.Account }
    requires next { IsNextPlace history.now place.now }
    ensures judges { IfOk result (JudgesFinalize (sight_of caller.now history.now) place.now caller.now number drawn) }
    ensures due { IfOk result (IsDue history.now) }
    ensures may { IfOk result (λ draft. MayBe drawn draft.answer) }
{
    match order_for(history, caller, number) {
        Some(order) => judge_own(alloc, history, caller, place, number, order, drawn),
        None => Ok(says(Reply::NoSuchOrder)),
    }
}

/// The answer for the caller's own order.
fn judge_own(
    alloc: Global,
    history: &[Entry],
    caller: &Caller,
    place: &Place,
    number: u64,
    order: &Entry,
    drawn: Option<Sixteen>,
) -> Result<Draft, NoMemory>
    requires legal { Legal history.now }
    requires caller { IsCaller caller.now }
    requires account { caller.now.role ≡ Role.Account }
    requires next { IsNextPlace history.now place.now }
    requires order { sight.order_for caller.now number history.now ≡ Some order.now }
    ensures judges { IfOk result (JudgesOwn (sight_of caller.now history.now) place.now caller.now number drawn order.now) }
    ensures due { IfOk result (IsDue history.now) }
    ensures may { IfOk result (λ draft. MayBe drawn draft.answer) }
{
    match signed_seen(history, caller, number) {
        Some(signed) => judge_signed(alloc, history, caller, number, order, signed),
        None => judge_unsigned(alloc, history, caller, place, number, order, drawn),
    }
}

/// The certificate of a signed order, told again.
fn judge_signed(
    alloc: Global,
    history: &[Entry],
    caller: &Caller,
    number: u64,
    order: &Entry,
    signed: &Entry,
) -> Result<Draft, NoMemory>
    requires legal { Legal history.now }
    requires account { caller.now.role ≡ Role.Account }
    requires order { sight.order_for caller.now number history.now ≡ Some order.now }
    requires stands { sight.signed_seen caller.now number history.now ≡ Some signed.now }
    ensures judges { IfOk result (JudgesSigned (sight_of caller.now history.now) number signed.now) }
    ensures due { IfOk result (IsDue history.now) }
    ensures may { IfOk result (λ draft. (drawn : Option SixteenValue) → MayBe drawn draft.answer) }
{
    let Some(sent) = send_seen(history, caller, number) else {
        unreachable!();
    };
    let body = body_in(&sent.what);
    let Some(serial) = to_sixteen(serial_in(body)) else {
        unreachable!();
    };
    let certificate = whole_certificate(alloc, body, signature_in(&signed.what))?;
    Ok(says(Reply::Issued {
        order: number,
        serial,
        certificate,
    }))
}

/// The certificate of a body and its signature.
fn whole_certificate(alloc: Global, body: &[u8], signature: &[u8]) -> Result<Bytes, NoMemory>
    requires body { length body.now < 2 ^ 16 }
    requires signature { (1 ≤ length signature.now) × (length signature.now ≤ 1024) }
    ensures { IfOk result (λ certificate. certificate ≡ certificate_bytes body.now signature.now) }
{
    let size = certificate_len(body, SigAlg::EcdsaSha256, signature.len() as u64);
    let mut out = Vec::with_capacity(alloc, size as usize)?;
    certificate(body, SigAlg::EcdsaSha256, signature, &mut out);
    Ok(Bytes::from_vec(out))
}

/// The answer for an order without a signature: the body that was sent is sent again, or a new one.
fn judge_unsigned(
    alloc: Global,
    history: &[Entry],
    caller: &Caller,
    place: &Place,
    number: u64,
    order: &Entry,
    drawn: Option<Sixteen>,
) -> Result<Draft, NoMemory>
    requires legal { Legal history.now }
    requires caller { IsCaller caller.now }
    requires account { caller.now.role ≡ Role.Account }
    requires next { IsNextPlace history.now place.now }
    requires order { sight.order_for caller.now number history.now ≡ Some order.now }
    requires unsigned { sight.signed_seen caller.now number history.now ≡ None }
    ensures judges { IfOk result (JudgesUnsigned (sight_of caller.now history.now) place.now caller.now number drawn order.now) }
    ensures due { IfOk result (IsDue history.now) }
    ensures may { IfOk result (λ draft. MayBe drawn draft.answer) }
{
    match send_seen(history, caller, number) {
        Some(sent) => {
            let body = Bytes::from_slice(alloc, body_in(&sent.what))?;
            judge_body(
                alloc,
                history,
                caller,
                place,
                number,
                order,
                Used::Nothing,
                body,
            )
        }
        None => judge_new(alloc, history, caller, place, number, order, drawn),
    }
}

/// The answer for an order of which nothing was sent, by the drawn bytes.
fn judge_new(
    alloc: Global,
    history: &[Entry],
    caller: &Caller,
    place: &Place,
    number: u64,
    order: &Entry,
    drawn: Option<Sixteen>,
) -> Result<Draft, NoMemory>
    requires legal { Legal history.now }
    requires caller { IsCaller caller.now }
    requires account { caller.now.role ≡ Role.Account }
    requires next { IsNextPlace history.now place.now }
    requires order { sight.order_for caller.now number history.now ≡ Some order.now }
    requires unsigned { sight.signed_seen caller.now number history.now ≡ None }
    requires unsent { sight.send_seen caller.now number history.now ≡ None }
    ensures judges { IfOk result (JudgesNew (sight_of caller.now history.now) place.now caller.now number drawn order.now) }
    ensures due { IfOk result (IsDue history.now) }
    ensures may { IfOk result (λ draft. MayBe drawn draft.answer) }
{
    let Some(draw) = drawn else {
        return Ok(Draft {
            used: Used::Nothing,
            answer: Answer::NeedDraw,
        });
    };
    let serial = masked(&draw);
    let body = new_body(alloc, history, &caller.id, number, order, &serial)?;
    judge_body(
        alloc,
        history,
        caller,
        place,
        number,
        order,
        Used::Serial(draw),
        body,
    )
}

/// The order's body with this serial number.
fn new_body(
    alloc: Global,
    history: &[Entry],
    caller: &Bytes,
    number: u64,
    order: &Entry,
    serial: &Sixteen,
) -> Result<Bytes, NoMemory>
    requires each { EachFollows [] history.now }
    requires own { sends.own_order caller.now number history.now ≡ Some order.now }
    requires serial { IsSerial serial.now.0 }
    ensures body { IfOk result (λ body. body ≡ small_bytes serial.now.0 (sends.targets_of order.now.what)) }
    ensures few { IfOk result (λ body. length body < 2 ^ 16) }
{
    match &order.what {
        What::Order { targets, .. } => small_body(alloc, serial, targets),
        _ => unreachable!(),
    }
}

/// The key of the caller's own order.
fn own_key<'a>(
    alloc: Global,
    history: &[Entry],
    caller: &Bytes,
    number: u64,
    order: &'a Entry,
) -> Result<&'a [u8], NoMemory>
    requires each { EachFollows [] history.now }
    requires own { sends.own_order caller.now number history.now ≡ Some order.now }
    ensures key { IfOk result (λ key. IsOrderKey order.now.what key.now) }
    ensures only { IfOk result (λ key. (other : List ℕ) → IsOrderKey order.now.what other → other ≡ key.now) }
{
    key_of(alloc, &order.what)
}

/// The answer for the order's one body.
fn judge_body(
    alloc: Global,
    history: &[Entry],
    caller: &Caller,
    place: &Place,
    number: u64,
    order: &Entry,
    used: Used,
    body: Bytes,
) -> Result<Draft, NoMemory>
    requires legal { Legal history.now }
    requires caller { IsCaller caller.now }
    requires account { caller.now.role ≡ Role.Account }
    requires next { IsNextPlace history.now place.now }
    requires order { sight.order_for caller.now number history.now ≡ Some order.now }
    requires unsigned { sight.signed_seen caller.now number history.now ≡ None }
    requires body { IsUnused history.now used → IsBodyOf history.now number order.now body }
    requires few { length body < 2 ^ 16 }
    ensures judges { IfOk result (JudgesBody (sight_of caller.now history.now) place.now caller.now number order.now used body) }
    ensures due { IfOk result (IsDue history.now) }
    ensures may { IfOk result (λ draft. (drawn : Option SixteenValue) → MayBe drawn draft.answer) }
{
    let key = own_key(alloc, history, &caller.id, number, order)?;
    if let Some(block) = block_of(history, key) {
        let why = blocked_by(alloc, block)?;
        return Ok(Draft {
            used,
            answer: Answer::Say(Reply::Refused { why }),
        });
    }
    let entry = Entry::send(alloc, place.number, place.moment, caller, number, body)?;
    Ok(Draft {
        used,
        answer: Answer::Send(entry),
    })
}

/// Why a body isn't sent whose key this entry blocks.
fn blocked_by(alloc: Global, block: &Entry) -> Result<Whys, NoMemory>
    ensures { IfOk result (λ why. why ≡ blocked_by block.now) }
{
    let mut why = Whys::new(alloc);
    why.push(Why::KeyBlocked {
        number: block.number,
    })?;
    Ok(why)
}

/// Whether a body may be sent for an order.
pub fn comes_to_signer(
    alloc: Global,
    before: &[Entry],
    caller: &Bytes,
    number: u64,
    body: &Bytes,
) -> Result<bool, NoMemory>
    requires each { EachFollows [] before.now }
    requires few { length body.now < 2 ^ 16 }
    ensures { IfOk result (λ comes. IsTrue comes ↔ ComesToSigner before.now caller.now number body.now) }
{
    let Some(order) = own_order(before, caller, number) else {
        return Ok(false);
    };
    if signed_for(before, number).is_some() {
        return Ok(false);
    }
    let key = own_key(alloc, before, caller, number, order)?;
    if block_of(before, key).is_some() {
        return Ok(false);
    }
    is_body_of(alloc, before, caller, number, order, body)
}

/// Whether a body is the order's one body.
fn is_body_of(
    alloc: Global,
    before: &[Entry],
    caller: &Bytes,
    number: u64,
    order: &Entry,
    body: &Bytes,
) -> Result<bool, NoMemory>
    requires each { EachFollows [] before.now }
    requires own { sends.own_order caller.now number before.now ≡ Some order.now }
    requires few { length body.now < 2 ^ 16 }
    ensures { IfOk result (λ is. IsTrue is ↔ IsBodyOf before.now number order.now body.now) }
{
    match sent_for(before, number) {
        Some(sent) => Ok(body_in(&sent.what) == body.as_slice()),
        None => is_new_body(alloc, before, caller, number, order, body),
    }
}

/// Whether a body is a new one for an order's targets.
#[tactic(auto, using(crate::proofs::Sends::is_new, crate::proofs::Sends::is_no_new))]
fn is_new_body(
    alloc: Global,
    before: &[Entry],
    caller: &Bytes,
    number: u64,
    order: &Entry,
    body: &Bytes,
) -> Result<bool, NoMemory>
    requires each { EachFollows [] before.now }
    requires own { sends.own_order caller.now number before.now ≡ Some order.now }
    requires few { length body.now < 2 ^ 16 }
    ensures { IfOk result (λ is. IsTrue is ↔ IsNewBody before.now (sends.targets_of order.now.what) body.now) }
{
    let Some(serial) = new_serial(before, body.as_slice()) else {
        return Ok(false);
    };
    let spelled = new_body(alloc, before, caller, number, order, &serial)?;
    Ok(spelled.is_same(body))
}

/// The serial number in a body, where it is one that no body has.
fn new_serial(before: &[Entry], body: &[u8]) -> Option<Sixteen>
    ensures { TellsNewSerial before.now body.now result }
{
    let Some(serial) = to_sixteen(serial_in(body)) else {
        return None;
    };
    if !is_fresh(before, &serial) {
        return None;
    }
    Some(serial)
}

fn is_fresh(before: &[Entry], serial: &Sixteen) -> bool
    ensures { IsTrue result ↔ IsFresh before.now serial.now.0 }
{
    is_serial(serial) && send_with(before, &serial.0).is_none()
}

/// Whether the bytes are a positive number, none of whose bytes can be left out.
fn is_serial(serial: &Sixteen) -> bool
    ensures { IsTrue result ↔ IsSerial serial.now.0 }
{
    let first = serial.0[0];
    0x40 <= first && first < 0x80
}

/// Whether a signature comes directly behind what was sent for the order.
pub fn comes_signed(
    before: &[Entry],
    caller: &Bytes,
    moment: Moment,
    number: u64,
    signature: &Bytes,
) -> bool
    ensures { IsTrue result ↔ ComesSigned before.now caller.now moment number signature.now }
{
    let Some(last) = before.last() else {
        return false;
    };
    is_sent_by(last, caller, moment, number) && is_signature(signature)
}

fn is_sent_by(last: &Entry, caller: &Bytes, moment: Moment, number: u64) -> bool
    ensures { IsTrue result ↔ IsSentBy last.now caller.now moment number }
{
    is_send_for(&last.what, number) && last.caller == *caller && last.moment.0 == moment.0
}

fn is_signature(signature: &Bytes) -> bool
    ensures { IsTrue result ↔ IsSignature signature.now }
{
    let size = signature.len();
    1 <= size && size <= MOST_SIGNATURE
}
