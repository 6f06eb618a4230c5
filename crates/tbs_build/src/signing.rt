//! A body and its signature as a certificate.
ghost use Rattle.std.specs.Prelude.{◌≡◌, ℕ, List, ◌+◌, ◌^◌, ◌<◌, ◌≤◌, [], ◌∷◌, ◌++◌, length, vec_len, vec_capacity, IsOk, OnOk};
ghost use Rattle.der_text.specs.Tree.{length_octets};
ghost use Rattle.tbs_build.specs.Certificate as spec;
ghost use Rattle.tbs_build.specs.Certificate.{bit_string, certificate_of};

use crate::algorithm::algorithm_bytes;
use der_text::tag::{BIT_STRING, SEQUENCE};
use gate_base::{NoMemory, SigAlg};

/// How many bytes an element with such a content has.
#[tactic(auto, unfolding(der_text::specs::Tree::length_octets))]
fn element_len(len: u64) -> u64
    requires { len < 2 ^ 32 }
    ensures exact { result ≡ 1 + length (length_octets len) + len }
    ensures most { result ≤ 6 + len }
{
    der_text::element_len(len as usize) as u64
}

/// The length of a certificate's content.
fn content_len(body: &[u8], alg: SigAlg, signature_len: u64) -> u64
    requires body { length body.now ≤ 2 ^ 31 }
    requires signature { signature_len ≤ 1024 }
    ensures bound { result < 2 ^ 32 }
    ensures content { (signature : List ℕ) → length signature ≡ signature_len
        → result ≡ length (body.now ++ spec.algorithm_bytes alg ++ bit_string signature) }
{
    body.len() as u64 + algorithm_bytes(alg).len() as u64 + element_len(1 + signature_len)
}

/// How many bytes the certificate of a body has, with a signature of such a length.
pub fn certificate_len(body: &[u8], alg: SigAlg, signature_len: u64) -> u64
    requires body { length body.now ≤ 2 ^ 31 }
    requires signature { 1 ≤ signature_len × signature_len ≤ 1024 }
    ensures { (signature : List ℕ) → length signature ≡ signature_len
        → result ≡ length (certificate_of body.now alg signature) }
{
    element_len(content_len(body, alg, signature_len))
}

/// Appends a tag and the octets of a length, which takes no memory where there is room for them.
#[tactic(auto, unfolding(der_text::specs::Tree::length_octets))]
fn push_head(tag: u8, len: u64, out: &mut Vec<u8>) -> Result<(), NoMemory>
    requires { len < 2 ^ 32 }
    ensures ok { OnOk result (out.new.items ≡ out.old.items ++ tag ∷ length_octets len) }
    ensures capacity { vec_capacity out.old ≤ vec_capacity out.new }
    ensures succeeds { vec_len out.old + (1 + length (length_octets len)) ≤ vec_capacity out.old → IsOk result }
{
    let third = (len / 0x1_0000 % 0x100) as u8;
    let second = (len / 0x100 % 0x100) as u8;
    let first = (len % 0x100) as u8;
    match len {
        0..0x80 => out.extend_from_slice(&[tag, first])?,
        0x80..0x100 => out.extend_from_slice(&[tag, 0x81, first])?,
        0x100..0x1_0000 => out.extend_from_slice(&[tag, 0x82, second, first])?,
        0x1_0000..0x100_0000 => out.extend_from_slice(&[tag, 0x83, third, second, first])?,
        _ => {
            let fourth = (len / 0x100_0000) as u8;
            out.extend_from_slice(&[tag, 0x84, fourth, third, second, first])?;
        }
    }
    Ok(())
}

/// Appends a BIT STRING of whole bytes.
fn push_bit_string(bits: &[u8], out: &mut Vec<u8>) -> Result<(), NoMemory>
    requires { length bits.now ≤ 1024 }
    ensures ok { OnOk result (out.new.items ≡ out.old.items ++ bit_string bits.now) }
    ensures capacity { vec_capacity out.old ≤ vec_capacity out.new }
    ensures succeeds { vec_len out.old + length (bit_string bits.now) ≤ vec_capacity out.old → IsOk result }
{
    push_head(BIT_STRING, 1 + bits.len() as u64, out)?;
    out.push(0)?;
    out.extend_from_slice(bits)?;
    Ok(())
}

/// Appends a certificate.
fn push_certificate(
    body: &[u8],
    alg: SigAlg,
    signature: &[u8],
    out: &mut Vec<u8>,
) -> Result<(), NoMemory>
    requires body { length body.now ≤ 2 ^ 31 }
    requires signature { length signature.now ≤ 1024 }
    ensures ok { OnOk result (out.new.items ≡ out.old.items ++ certificate_of body.now alg signature.now) }
    ensures capacity { vec_capacity out.old ≤ vec_capacity out.new }
    ensures succeeds { vec_len out.old + length (certificate_of body.now alg signature.now) ≤ vec_capacity out.old → IsOk result }
{
    let len = content_len(body, alg, signature.len() as u64);
    push_head(SEQUENCE, len, out)?;
    out.extend_from_slice(body)?;
    out.extend_from_slice(algorithm_bytes(alg))?;
    push_bit_string(signature, out)
}

/// Puts the certificate of a body and its signature into the room for it.
pub fn certificate(body: &[u8], alg: SigAlg, signature: &[u8], out: &mut Vec<u8>)
    requires body { length body.now ≤ 2 ^ 31 }
    requires signature { 1 ≤ length signature.now × length signature.now ≤ 1024 }
    requires empty { out.old.items ≡ [] }
    requires room { length (certificate_of body.now alg signature.now) ≤ vec_capacity out.old }
    ensures certificate { out.new.items ≡ certificate_of body.now alg signature.now }
    ensures capacity { vec_capacity out.old ≤ vec_capacity out.new }
{
    match push_certificate(body, alg, signature, out) {
        Ok(()) => {}
        Err(_) => unreachable!(),
    }
}
