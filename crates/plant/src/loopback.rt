//! A signing device behind a port of this machine, with a connection for each body.
ghost use Rattle.std.specs.Prelude.{◌≡◌, ◌<◌, ◌≤◌, ◌^◌, ◌⊎◌, ◌++◌};
ghost use Rattle.std.specs.Prelude.{length, take, IfOk, IfSome, OnOk, OnErr};
ghost use Rattle.std.specs.Int.{w16, to_be_bytes};
ghost use Rattle.std.specs.Io.KnownBytes.{Appends, Consumes, IsAtEnd, Keeps};
ghost use Rattle.plant.specs.Causes.{Rose};
ghost use Rattle.plant.specs.Loopback.{request_of, reply_of, IsSignatureSize, HasNoReply, IsNoReply};

use crate::connection::connect;
use crate::device::SIGNATURE_ROOM;
use crate::fault::{PutFault, SignerFault, TakeFault};
use crate::stream::{Sink, Source};
use std::net::Net;
use std::rt;

/// Has a body signed by the device at a port of 127.0.0.1, and returns the length of the signature, which stands
/// at the front of the piece.
pub fn sign_at<R: Net + rt::Clock>(
    rt: &R,
    port: u16,
    body: &[u8],
    out: &mut [u8],
) -> Result<usize, SignerFault>
    requires { length out.old ≡ SIGNATURE_ROOM }
    ensures { IfOk result IsSignatureSize }
{
    match connect(rt, port) {
        Ok((mut source, mut sink)) => exchange(&mut source, &mut sink, body, out),
        Err(_) => Err(SignerFault),
    }
}

/// Puts a request and takes its reply, behind which nothing may come. Returns the length of the signature, which
/// stands at the front of the piece.
pub fn exchange<S: Source, K: Sink>(
    source: &mut S,
    sink: &mut K,
    body: &[u8],
    out: &mut [u8],
) -> Result<usize, SignerFault>
    requires { length out.old ≡ SIGNATURE_ROOM }
    ensures size { IfOk result IsSignatureSize }
    ensures put { OnOk result (Appends (K.told sink.old).held (K.told sink.new).held (request_of body.now)) }
    ensures took { IfOk result (λ count. Consumes (S.told source.old).left (S.told source.new).left (reply_of (take count out.new))) }
    ensures whole { OnOk result (IsAtEnd (S.told source.new).left) }
    ensures err { OnErr result (Rose (K.told sink.old).faults (K.told sink.new).faults ⊎ (2 ^ 32 ≤ length body.now)
        ⊎ Rose (S.told source.old).faults (S.told source.new).faults ⊎ IfSome (S.told source.old).left IsNoReply) }
{
    put_request(sink, body)?;
    sink.end();
    let count = take_reply(source, out)?;
    Ok(count)
}

/// Puts a body's length and the body.
fn put_request<K: Sink>(sink: &mut K, body: &[u8]) -> Result<(), SignerFault>
    ensures ok { OnOk result (Appends (K.told sink.old).held (K.told sink.new).held (request_of body.now)) }
    ensures err { OnErr result (Rose (K.told sink.old).faults (K.told sink.new).faults ⊎ (2 ^ 32 ≤ length body.now)) }
{
    let Ok(size) = u32::try_from(body.len()) else {
        return Err(SignerFault);
    };
    put_both(sink, &size.to_be_bytes(), body)
}

fn put_both<K: Sink>(sink: &mut K, front: &[u8], back: &[u8]) -> Result<(), SignerFault>
    ensures ok { OnOk result (Appends (K.told sink.old).held (K.told sink.new).held (front.now ++ back.now)) }
    ensures err { OnErr result (Rose (K.told sink.old).faults (K.told sink.new).faults) }
{
    match sink.put(front) {
        Ok(()) => {}
        Err(PutFault) => return Err(SignerFault),
    }
    match sink.put(back) {
        Ok(()) => Ok(()),
        Err(PutFault) => Err(SignerFault),
    }
}

/// Takes a reply, and the end of the source behind it.
#[tactic(auto, using(crate::proofs::Replies::none_in_front, crate::proofs::Replies::bytes_behind, crate::proofs::Replies::nothing_more))]
fn take_reply<S: Source>(source: &mut S, out: &mut [u8]) -> Result<usize, SignerFault>
    requires { length out.old ≡ SIGNATURE_ROOM }
    ensures size { IfOk result IsSignatureSize }
    ensures took { IfOk result (λ count. Consumes (S.told source.old).left (S.told source.new).left (reply_of (take count out.new))) }
    ensures whole { OnOk result (IsAtEnd (S.told source.new).left) }
    ensures err { OnErr result (Rose (S.told source.old).faults (S.told source.new).faults ⊎ IfSome (S.told source.old).left IsNoReply) }
{
    let count = take_signature(source, out)?;
    take_end(source)?;
    Ok(count)
}

/// Takes a signature's length and the signature, and answers its length; it stands at the front of the piece.
fn take_signature<S: Source>(source: &mut S, out: &mut [u8]) -> Result<usize, SignerFault>
    requires { length out.old ≡ SIGNATURE_ROOM }
    ensures size { IfOk result IsSignatureSize }
    ensures ok { IfOk result (λ count. Consumes (S.told source.old).left (S.told source.new).left (reply_of (take count out.new))) }
    ensures later { (S.told source.old).faults ≤ (S.told source.new).faults }
    ensures err { OnErr result (Rose (S.told source.old).faults (S.told source.new).faults ⊎ IfSome (S.told source.old).left HasNoReply) }
{
    let count = take_size(source)?;
    let (signature, _) = out.split_at_mut(count);
    fill(source, signature)?;
    Ok(count)
}

/// Takes the end of the source, and no byte.
#[tactic(auto, using(crate::proofs::Replies::none_taken))]
fn take_end<S: Source>(source: &mut S) -> Result<(), SignerFault>
    ensures ok { OnOk result (Keeps (S.told source.old).left (S.told source.new).left × IsAtEnd (S.told source.new).left) }
    ensures later { (S.told source.old).faults ≤ (S.told source.new).faults }
    ensures err { OnErr result (Rose (S.told source.old).faults (S.told source.new).faults
        ⊎ IfSome (S.told source.old).left (λ left. 0 < length left)) }
{
    let mut piece = [0];
    match source.take(&mut piece) {
        Ok(0) => Ok(()),
        Ok(_) => Err(SignerFault),
        Err(TakeFault) => Err(SignerFault),
    }
}

/// Takes a signature's length.
fn take_size<S: Source>(source: &mut S) -> Result<usize, SignerFault>
    ensures size { IfOk result IsSignatureSize }
    ensures ok { IfOk result (λ count. Consumes (S.told source.old).left (S.told source.new).left (to_be_bytes w16 count)) }
    ensures later { (S.told source.old).faults ≤ (S.told source.new).faults }
    ensures err { OnErr result (Rose (S.told source.old).faults (S.told source.new).faults ⊎ IfSome (S.told source.old).left HasNoReply) }
{
    let mut bytes = [0; 2];
    fill(source, &mut bytes)?;
    let count = usize::from(number_of(bytes));
    if count == 0 || count > SIGNATURE_ROOM {
        return Err(SignerFault);
    }
    Ok(count)
}

/// The number that two bytes are, high byte first.
fn number_of(bytes: [u8; 2]) -> u16
    ensures { to_be_bytes w16 result ≡ bytes }
{
    u16::from_be_bytes(bytes)
}

/// Fills a piece, unless the source fails or ends before.
fn fill<S: Source>(source: &mut S, out: &mut [u8]) -> Result<(), SignerFault>
    ensures ok { OnOk result (Consumes (S.told source.old).left (S.told source.new).left out.new) }
    ensures later { (S.told source.old).faults ≤ (S.told source.new).faults }
    ensures err { OnErr result (Rose (S.told source.old).faults (S.told source.new).faults
        ⊎ IfSome (S.told source.old).left (λ left. length left < length out.old)) }
{
    let mut filled = 0;
    while filled < out.len() {
        match source.take(&mut out[filled..]) {
            Ok(0) => return Err(SignerFault),
            Ok(count) => filled += count,
            Err(TakeFault) => return Err(SignerFault),
        }
    }
    Ok(())
}
