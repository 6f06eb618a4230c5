//! How a body is sent: its entry is durable before the signer is called, and the signature's entry before the certificate is told.
ghost use Rattle.std.specs.Prelude.{◌≡◌, ◌+◌, ◌≤◌, ◌<◌, ◌⊎◌, ℕ, List, None, [], ◌∷◌, ◌++◌, length, vec_len, vec_capacity, IfOk, OnErr, OnOk};
ghost use Rattle.plant.specs.Causes.{Rose};
ghost use Rattle.gate_entries.specs.Spelling.{entry_bytes, IsEntry};
ghost use Rattle.gate_machine.specs.History.{IsSignature, Follows};
ghost use Rattle.gate_machine.specs.Sends.{is_send_for, order_in, body_in, certificate_bytes, IsGoodBody};
ghost use Rattle.gate_machine.specs.Answer.{IsReadyToSend};
ghost use Rattle.gate_engine.specs.Engine.{Leaves, CarriesOut, Sound, held_as};
ghost use Rattle.gate_engine.specs.Kept.{Stands, IsSentOf, MayBeSent, Keeps};
ghost use Rattle.gate_engine.specs.Signing.{signed_as, IsSigning, MayBeSigned, HasRoomToSign, SignsAs, KeepsAs};

use crate::engine::Engine;
use crate::writing::commit;
use der_text::a_head_is_short;
use gate_base::{Bytes, Moment, NoMemory, Plain, SigAlg, Sixteen};
use gate_entries::{Entry, Reply, What, put_signed, write_entry};
use gate_machine::{
    Answer, a_body_has_a_serial_number, a_signature_follows, body_in, one_entry_more, serial_in,
    to_sixteen, what_is_sent_is_recorded,
};
use journal_core::Journal;
use plant::{Plant, SIGNATURE_ROOM, SignerFault, runs_join};
use std::alloc::Global;
use tbs_build::certificate;

/// The most bytes of a certificate but for its body.
const AROUND_A_BODY: usize = 1_100;

/// The most bytes of a signature's entry but for its caller.
const AROUND_A_CALLER: usize = 1_053;

/// What is needed from the call of the signer on, since no memory is taken then.
#[derive(Drop)]
pub struct Signing {
    pub order: u64,
    /// The number of the signature's entry.
    pub number: u64,
    pub moment: Moment,
    pub caller: Bytes,
    pub body: Bytes,
    pub serial: Sixteen,
    /// Room for the certificate, for the payload of the signature's entry, and for the signature.
    pub certificate: Vec<u8>,
    pub payload: Vec<u8>,
    pub signature: Vec<u8>,
}

/// What is needed to sign what an entry sends.
fn make_signing(alloc: Global, entry: &Entry, order: u64) -> Result<Signing, NoMemory>
    requires good { IsGoodBody (body_in entry.now.what) }
    requires number { entry.now.number < 18_446_744_073_709_551_615 }
    requires order { order ≡ order_in entry.now.what }
    ensures signing { IfOk result (λ signing. IsSigning signing entry.now) }
    ensures room { IfOk result HasRoomToSign }
{
    let body = Bytes::from_slice(alloc, body_in(&entry.what))?;
    let caller = entry.caller.copied(alloc)?;
    let certificate = Vec::with_capacity(alloc, body.len() + AROUND_A_BODY)?;
    let payload = Vec::with_capacity(alloc, caller.len() + AROUND_A_CALLER)?;
    let signature = Vec::with_capacity(alloc, SIGNATURE_ROOM)?;
    let Some(serial) = to_sixteen(serial_in(body.as_slice())) else {
        unreachable!();
    };
    Ok(Signing {
        order,
        number: entry.number + 1,
        moment: entry.moment,
        caller,
        body,
        serial,
        certificate,
        payload,
        signature,
    })
}

/// Puts the signature's certificate into the room for it.
fn certify(body: &[u8], signature: &[u8], out: &mut Vec<u8>)
    requires body { length body.now < 65_536 }
    requires signature { IsSignature signature.now }
    requires empty { out.old.items ≡ [] }
    requires room { length body.now + AROUND_A_BODY ≤ vec_capacity out.old }
    ensures { out.new.items ≡ certificate_bytes body.now signature.now }
{
    a_head_is_short();
    certificate(body, SigAlg::EcdsaSha256, signature, out);
}

/// Puts a signature into the room for it.
fn fill(signature: &[u8], out: &mut Vec<u8>)
    requires empty { out.old.items ≡ [] }
    requires room { length signature.now ≤ vec_capacity out.old }
    ensures { out.new.items ≡ signature.now }
{
    match out.extend_from_slice(signature) {
        Ok(()) => {}
        Err(_) => unreachable!(),
    }
}

/// Makes a signature durable, and tells the certificate.
fn keep_signature<P: Plant>(
    journal: &mut Journal,
    history: &mut Vec<Entry>,
    loose: &mut Option<Entry>,
    plant: &mut P,
    signing: Signing,
    signature: &[u8],
) -> Reply
    requires sound { Sound journal.old history.old.items loose.old }
    requires settled { loose.old ≡ None }
    requires stands { Stands (held_as history.old.items loose.old) (P.stops plant.old) }
    requires may { MayBeSigned history.old.items signing }
    requires room { HasRoomToSign signing }
    requires size { IsSignature signature.now }
    requires spare { AROUND_A_CALLER + length signing.caller ≤ journal.old.spare }
    requires capacity { vec_len history.old < vec_capacity history.old }
    ensures kept { KeepsAs signing history.old.items signature.now result (held_as history.new.items loose.new) }
    ensures follows { Follows history.old.items (signed_as signing signature.now) }
    ensures sound { Sound journal.new history.new.items loose.new }
    ensures keeps { Keeps (IsSentOf history.old.items (P.stops plant.old)) history.old.items (P.told plant.old) (P.told plant.new) (P.stops plant.old) (P.stops plant.new)
        (held_as history.new.items loose.new) }
    ensures disk { result ≡ Reply.DiskFault → Rose (P.told plant.old).disk.faults (P.told plant.new).disk.faults }
    ensures signer { (P.told plant.new).signer ≡ (P.told plant.old).signer }
{
    let Signing {
        order,
        number,
        moment,
        caller,
        body,
        serial,
        certificate: mut issued,
        mut payload,
        signature: mut kept,
    } = signing;
    certify(body.as_slice(), signature, &mut issued);
    put_signed(
        number,
        moment,
        caller.as_slice(),
        order,
        signature,
        &mut payload,
    );
    fill(signature, &mut kept);
    let entry = Entry::signed(number, moment, caller, order, Bytes::from_vec(kept));
    if !commit(journal, history, loose, plant, entry, &payload) {
        return Reply::DiskFault;
    }
    Reply::Issued {
        order,
        serial,
        certificate: Bytes::from_vec(issued),
    }
}

/// Has the signer sign a body whose entry is durable.
fn sign_body<P: Plant>(
    journal: &mut Journal,
    history: &mut Vec<Entry>,
    loose: &mut Option<Entry>,
    plant: &mut P,
    signing: Signing,
) -> Reply
    requires sound { Sound journal.old history.old.items loose.old }
    requires settled { loose.old ≡ None }
    requires stands { Stands (held_as history.old.items loose.old) (P.stops plant.old) }
    requires may { MayBeSigned history.old.items signing }
    requires room { HasRoomToSign signing }
    requires spare { AROUND_A_CALLER + length signing.caller ≤ journal.old.spare }
    requires capacity { vec_len history.old < vec_capacity history.old }
    ensures signed { SignsAs signing history.old.items (P.told plant.old) (P.told plant.new) result (held_as history.new.items loose.new) }
    ensures sound { Sound journal.new history.new.items loose.new }
    // The body's entry is in every image before the signer is called.
    ensures keeps { Keeps (MayBeSent signing.body history.old.items (P.stops plant.old) × IsSentOf history.old.items (P.stops plant.old)) history.old.items
        (P.told plant.old) (P.told plant.new) (P.stops plant.old) (P.stops plant.new) (held_as history.new.items loose.new) }
    ensures disk { result ≡ Reply.DiskFault → Rose (P.told plant.old).disk.faults (P.told plant.new).disk.faults }
{
    runs_join::<P>();
    let mut room = [0; SIGNATURE_ROOM];
    match plant.sign(signing.body.as_slice(), &mut room) {
        Ok(count) => keep_signature(journal, history, loose, plant, signing, &room[..count]),
        Err(SignerFault) => Reply::SignerFault,
    }
}

/// Room for what is sent and signed: the entry's payload, and what is needed to sign it.
fn prepare(
    alloc: Global,
    journal: &mut Journal,
    history: &mut Vec<Entry>,
    entry: &Entry,
    order: u64,
) -> Result<(Vec<u8>, Signing), NoMemory>
    requires spelled { IsEntry entry.now }
    requires good { IsGoodBody (body_in entry.now.what) }
    requires number { entry.now.number < 18_446_744_073_709_551_615 }
    requires caller { length entry.now.caller ≤ 64 }
    requires order { order ≡ order_in entry.now.what }
    ensures payload { IfOk result (λ x. x.0.items ≡ entry_bytes entry.now) }
    ensures signing { IfOk result (λ x. IsSigning x.1 entry.now) }
    ensures room { IfOk result (λ x. HasRoomToSign x.1) }
    ensures spare { IfOk result (λ x. (length x.0.items ≤ journal.new.spare) × (AROUND_A_CALLER + length x.1.caller ≤ journal.new.spare)) }
    ensures place { journal.new.at ≡ journal.old.at }
    ensures linked { journal.new.chain ≡ journal.old.chain }
    ensures broken { journal.new.broken ≡ journal.old.broken }
    ensures items { history.new.items ≡ history.old.items }
    ensures capacity { IfOk result (λ x. vec_len history.new + 2 ≤ vec_capacity history.new) }
{
    let signing = make_signing(alloc, entry, order)?;
    let mut payload = Vec::new(alloc);
    write_entry(entry, &mut payload)?;
    let longest = payload.len().max(AROUND_A_CALLER + signing.caller.len());
    journal.reserve(longest as u64)?;
    history.reserve(2)?;
    Ok((payload, signing))
}

impl Engine {
    /// Sends a body. Its entry is committed before the signer is called; from then on no memory is taken.
    pub(crate) fn send<P: Plant>(&mut self, plant: &mut P, entry: Entry) -> Reply
        requires settled { self.old.loose ≡ None }
        requires stands { Stands self.old (P.stops plant.old) }
        requires ready { IsReadyToSend self.old.history entry }
        ensures carries { CarriesOut (Answer.Send entry) self.old.history (P.told plant.old) (P.told plant.new) (P.stops plant.old) (P.stops plant.new) result self.new }
    {
        a_body_has_a_serial_number();
        runs_join::<P>();
        let order = order_in(&entry.what);
        let Ok((payload, signing)) = prepare(
            self.alloc,
            &mut self.journal,
            &mut self.history,
            &entry,
            order,
        ) else {
            return Reply::NoMemory;
        };
        send_prepared(
            &mut self.journal,
            &mut self.history,
            &mut self.loose,
            plant,
            entry,
            &payload,
            signing,
        )
    }
}

/// Commits the entry of a body, and has the body signed.
#[tactic(auto, using(crate::proofs::Signings::carries_unsent))]
fn send_prepared<P: Plant>(
    journal: &mut Journal,
    history: &mut Vec<Entry>,
    loose: &mut Option<Entry>,
    plant: &mut P,
    entry: Entry,
    payload: &[u8],
    signing: Signing,
) -> Reply
    requires sound { Sound journal.old history.old.items loose.old }
    requires settled { loose.old ≡ None }
    requires stands { Stands (held_as history.old.items loose.old) (P.stops plant.old) }
    requires ready { IsReadyToSend history.old.items entry }
    requires payload { payload.now ≡ entry_bytes entry }
    requires signing { IsSigning signing entry }
    requires room { HasRoomToSign signing }
    requires spare { (length payload.now ≤ journal.old.spare) × (AROUND_A_CALLER + length signing.caller ≤ journal.old.spare) }
    requires capacity { vec_len history.old + 2 ≤ vec_capacity history.old }
    ensures carries { CarriesOut (Answer.Send entry) history.old.items (P.told plant.old) (P.told plant.new) (P.stops plant.old) (P.stops plant.new) result (held_as history.new.items loose.new) }
    ensures sound { Sound journal.new history.new.items loose.new }
{
    one_entry_more();
    a_signature_follows();
    what_is_sent_is_recorded();
    runs_join::<P>();
    if !commit(journal, history, loose, plant, entry, payload) {
        return Reply::DiskFault;
    }
    sign_body(journal, history, loose, plant, signing)
}

/// The order for which an entry sends a body.
fn order_in(what: &What) -> u64
    ensures { result ≡ order_in what.now }
{
    match what {
        What::Send { order, .. } => *order,
        _ => 0,
    }
}
