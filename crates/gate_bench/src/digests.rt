//! Bytes that are digested: those of a tree, or of the body of a certificate.
ghost use Rattle.std.specs.Prelude.{◌≡◌, slice_set};
ghost use Rattle.gate_bench.specs.Rounds as rounds;

use crate::bodies::body_with_names;
use crate::fault::Fault;
use crate::profile::example_profile;
use crate::trees::tree_bytes;
use sha2::{Digest, Sha256};
use std::alloc::Global;

/// Puts the byte in place of the message's first one.
fn put_first(message: &mut [u8], byte: u8)
    ensures { message.new ≡ slice_set message.old 0 byte }
{
    if let Some(first) = message.first_mut() {
        *first = byte;
    }
}

/// Digests the message so many times, each time with the first byte of the digest before in front.
fn digest_often(message: &mut [u8], times: u32) -> [u8; 32]
    ensures { result ≡ (rounds.digested_often times message.old).1 }
{
    let mut digest = [0u8; 32];
    for _ in 0..times {
        put_first(message, digest[0]);
        digest = Sha256::digest(&*message);
    }
    digest
}

fn report_message(alloc: Global, mut message: Vec<u8>, times: u32) -> Result<String, Fault> {
    let digest = digest_often(message.as_mut_slice(), times);
    let front = u32::from_be_bytes([digest[0], digest[1], digest[2], digest[3]]);
    let size = message.len();
    Ok(format!(in alloc; "sha256: {size} bytes digested {times} times, {front:08x}")?)
}

/// As many bytes as a tree of that size has.
pub fn report(alloc: Global, kilobytes: u8, times: u32) -> Result<String, Fault> {
    let message = tree_bytes(alloc, kilobytes)?;
    report_message(alloc, message, times)
}

/// The body with so many names.
pub fn report_body(alloc: Global, names: u8, times: u32) -> Result<String, Fault> {
    let profile = example_profile(alloc)?;
    let body = body_with_names(alloc, &profile, names)?;
    report_message(alloc, body.into_vec(), times)
}
