//! The authority's profile.
ghost use Rattle.std.specs.Prelude.{◌≡◌, length, Some, IfOk, OnOk, IfErr};
ghost use Rattle.cert_fields.specs.Profile.{IsIssuerName, IsSoundProfile};
ghost use Rattle.gate_settings.specs.Meaning.{IsProfileOf};
ghost use Rattle.gate_settings.specs.Reading.{Gives};
ghost use Rattle.gate_settings.specs.Rules as spec;
ghost use Rattle.gate_settings.specs.Rules.{DocumentBreaks, IsKept, NoneBefore, TellsHex, TellsLeast, TellsOf};
ghost use Rattle.gate_settings.specs.Words as words;

use crate::addresses::check_addresses;
use crate::document::Document;
use crate::part::PartFault;
use crate::rule::{Broken, Rule, refusal};
use crate::words::algorithm_of;
use cert_fields::is_issuer_name;
use gate_base::{Bytes, Plain, Profile, SigAlg, Sixteen4};
use hex::FromHexError;
use std::alloc::Global;

/// The bytes that a text gives in hexadecimal.
fn hex_of(alloc: Global, text: &[u8]) -> Result<Bytes, PartFault>
    ensures { Gives (λ bytes. bytes) result (spec.hex_of text.now) }
{
    match hex::decode(alloc, text) {
        Ok(bytes) => Ok(Bytes::from_vec(bytes)),
        Err(FromHexError::OutOfMemory) => Err(PartFault::NoMemory),
        Err(_) => Err(PartFault::Refused),
    }
}

fn hex_in(alloc: Global, text: &[u8]) -> Result<Bytes, Broken>
    ensures ok { IfOk result (λ bytes. spec.hex_of text.now ≡ Some bytes) }
    ensures err { IfErr result (λ fault. TellsHex text.now fault) }
{
    match hex_of(alloc, text) {
        Ok(bytes) => Ok(bytes),
        Err(fault) => Err(refusal(Rule::S04, 0, fault)),
    }
}

/// The issuer's name and the key's identifier, as bytes.
fn bytes_of(alloc: Global, document: &Document) -> Result<(Bytes, Bytes), Broken>
    ensures issuer { IfOk result (λ both. spec.hex_of document.now.ca.issuer ≡ Some both.0) }
    ensures key_id { IfOk result (λ both. spec.hex_of document.now.ca.key_id ≡ Some both.1) }
    ensures kept { OnOk result (IsKept (DocumentBreaks document.now) Rule.S04) }
    ensures err { IfErr result (λ fault. TellsOf (DocumentBreaks document.now) Rule.S04 fault) }
{
    let issuer = hex_in(alloc, document.ca.issuer.as_slice())?;
    let key_id = hex_in(alloc, document.ca.key_id.as_slice())?;
    Ok((issuer, key_id))
}

fn check_issuer(alloc: Global, document: &Document, issuer: &[u8]) -> Result<(), Broken>
    requires { spec.hex_of document.now.ca.issuer ≡ Some issuer.now }
    ensures is { OnOk result (IsIssuerName issuer.now) }
    ensures kept { OnOk result (IsKept (DocumentBreaks document.now) Rule.S05) }
    ensures err { IfErr result (λ fault. TellsOf (DocumentBreaks document.now) Rule.S05 fault) }
{
    if is_issuer_name(alloc, issuer)? {
        Ok(())
    } else {
        Err(Broken::Rule(Rule::S05, 0))
    }
}

fn alg_of(document: &Document) -> Result<SigAlg, Broken>
    ensures ok { IfOk result (λ alg. words.algorithm_of document.now.ca.algorithm ≡ Some alg) }
    ensures kept { OnOk result (IsKept (DocumentBreaks document.now) Rule.S06) }
    ensures err { IfErr result (λ fault. TellsOf (DocumentBreaks document.now) Rule.S06 fault) }
{
    match algorithm_of(document.ca.algorithm.as_slice()) {
        Some(alg) => Ok(alg),
        None => Err(Broken::Rule(Rule::S06, 0)),
    }
}

fn key_id_of(document: &Document, bytes: &[u8]) -> Result<Sixteen4, Broken>
    requires { spec.hex_of document.now.ca.key_id ≡ Some bytes.now }
    ensures ok { IfOk result (λ key_id. bytes.now ≡ key_id.0) }
    ensures size { IfOk result (λ key_id. length key_id.0 ≡ 20) }
    ensures kept { OnOk result (IsKept (DocumentBreaks document.now) Rule.S07) }
    ensures err { IfErr result (λ fault. TellsOf (DocumentBreaks document.now) Rule.S07 fault) }
{
    match <[u8; 20]>::try_from(bytes) {
        Ok(bytes) => Ok(Sixteen4(bytes)),
        Err(_) => Err(Broken::Rule(Rule::S07, 0)),
    }
}

/// The profile of a file, if it keeps the rules of the authority.
pub fn profile_of(alloc: Global, document: &Document) -> Result<Profile, Broken>
    ensures ok { IfOk result (λ profile. IsProfileOf document.now.ca profile) }
    ensures sound { IfOk result IsSoundProfile }
    ensures kept { OnOk result (NoneBefore (DocumentBreaks document.now) Rule.S09) }
    ensures err { IfErr result (λ fault. TellsLeast (DocumentBreaks document.now) fault) }
{
    let (issuer, key_id) = bytes_of(alloc, document)?;
    check_issuer(alloc, document, issuer.as_slice())?;
    let alg = alg_of(document)?;
    let key_id = key_id_of(document, key_id.as_slice())?;
    check_addresses(document)?;
    Ok(Profile {
        issuer,
        alg,
        key_id,
        crl: document.ca.crl.copied(alloc)?,
        aia: document.ca.aia.copied(alloc)?,
    })
}
