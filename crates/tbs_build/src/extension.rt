//! The extensions of a certificate (RFC 5280, section 4.2), each written with its value. The constants and the values
//! stand here and once more in the lint, on purpose: a mistake in one must not be hidden by the other.
ghost use Rattle.std.specs.Prelude.{◌≡◌, ◌+◌, ◌*◌, ◌^◌, ◌<◌, ◌≤◌, ◌++◌, length, IfOk, OnOk};
ghost use Rattle.std.specs.List.{AllByRecursion};
ghost use Rattle.der_text.specs.Tree.{no_nodes, spelling, spellings};
ghost use Rattle.tbs_build.specs.Extension as spec;
ghost use Rattle.tbs_build.specs.Extension.{extension_tree, extension_with};
ghost use Rattle.tbs_build.specs.Names.{IsShort};

use crate::element::{push_element, push_wrapped, wrapped};
use crate::names::names_of;
use der_text::tag::{BOOLEAN, OBJECT_IDENTIFIER, OCTET_STRING, SEQUENCE};
use gate_base::{KeyKind, NoMemory, Sixteen4, Targets};
use std::alloc::Global;

const AUTHORITY_KEY_IDENTIFIER: [u8; 3] = [0x55, 0x1d, 0x23];

const KEY_USAGE: [u8; 3] = [0x55, 0x1d, 0x0f];

const EXTENDED_KEY_USAGE: [u8; 3] = [0x55, 0x1d, 0x25];

const SUBJECT_ALT_NAME: [u8; 3] = [0x55, 0x1d, 0x11];

const CERTIFICATE_POLICIES: [u8; 3] = [0x55, 0x1d, 0x20];

const CRL_DISTRIBUTION_POINTS: [u8; 3] = [0x55, 0x1d, 0x1f];

const AUTHORITY_INFO_ACCESS: [u8; 8] = [0x2b, 0x06, 0x01, 0x05, 0x05, 0x07, 0x01, 0x01];

/// The tag of a keyIdentifier, `[0]`.
const KEY_IDENTIFIER: u8 = 0x80;

/// The tag of a distributionPoint and of a fullName in it, each `[0]` of parts.
const POINT_OR_FULL_NAME: u8 = 0xa0;

/// The tag of a uniformResourceIdentifier.
const URI: u8 = 0x86;

/// digitalSignature and keyEncipherment, as a BIT STRING.
const SIGNATURE_AND_ENCIPHERMENT: [u8; 4] = [0x03, 0x02, 0x05, 0xa0];

/// digitalSignature, as a BIT STRING.
const SIGNATURE: [u8; 4] = [0x03, 0x02, 0x07, 0x80];

/// A SEQUENCE of id-kp-serverAuth.
const SERVER_AUTH: [u8; 12] = [
    0x30, 0x0a, 0x06, 0x08, 0x2b, 0x06, 0x01, 0x05, 0x05, 0x07, 0x03, 0x01,
];

/// A SEQUENCE of one policy, domain-validated.
const DOMAIN_VALIDATED: [u8; 12] = [
    0x30, 0x0a, 0x30, 0x08, 0x06, 0x06, 0x67, 0x81, 0x0c, 0x01, 0x02, 0x01,
];

/// id-ad-caIssuers.
const CA_ISSUERS: [u8; 8] = [0x2b, 0x06, 0x01, 0x05, 0x05, 0x07, 0x30, 0x02];

/// Appends TRUE where the extension is critical.
fn push_critical(critical: bool, out: &mut Vec<u8>) -> Result<(), NoMemory>
    ensures ok { OnOk result (out.new.items ≡ out.old.items ++ spellings (spec.with_critical critical no_nodes)) }
    ensures few { OnOk result (length out.new.items ≤ length out.old.items + 7) }
{
    if critical {
        push_element(BOOLEAN, &[0xff], out)?;
    }
    Ok(())
}

/// Appends an extension.
fn push_extension(
    identifier: &[u8],
    critical: bool,
    value: &[u8],
    out: &mut Vec<u8>,
) -> Result<(), NoMemory>
    requires identifier { length identifier.now ≤ 8 }
    requires value { length value.now < 2 ^ 18 }
    ensures ok { OnOk result (out.new.items ≡ out.old.items
        ++ spelling (extension_with identifier.now critical value.now)) }
    ensures few { OnOk result (length out.new.items ≤ length out.old.items + (33 + length value.now)) }
{
    let mut parts = Vec::new(*out.allocator());
    push_element(OBJECT_IDENTIFIER, identifier, &mut parts)?;
    push_critical(critical, &mut parts)?;
    push_element(OCTET_STRING, value, &mut parts)?;
    push_wrapped(SEQUENCE, &parts, out)
}

/// Appends authorityKeyIdentifier.
pub fn push_authority_key_identifier(key_id: &Sixteen4, out: &mut Vec<u8>) -> Result<(), NoMemory>
    requires { length key_id.now.0 ≡ 20 }
    ensures ok { OnOk result (out.new.items ≡ out.old.items
        ++ spelling (extension_tree (spec.authority_key_identifier key_id.now.0))) }
    ensures few { OnOk result (length out.new.items ≤ length out.old.items + 65) }
{
    let alloc = *out.allocator();
    let mut identifier = Vec::new(alloc);
    push_element(KEY_IDENTIFIER, &key_id.0, &mut identifier)?;
    let value = wrapped(alloc, SEQUENCE, &identifier)?;
    push_extension(&AUTHORITY_KEY_IDENTIFIER, false, &value, out)
}

/// The value of keyUsage.
#[tactic(auto, unfolding(der_text::specs::Tree::length_octets))]
fn usage_of(kind: KeyKind) -> &'static [u8]
    ensures value { result.now ≡ spelling (spec.key_usage kind).value }
    ensures few { length result.now ≤ 4 }
{
    match kind {
        KeyKind::Rsa => &SIGNATURE_AND_ENCIPHERMENT,
        KeyKind::P256 | KeyKind::P384 | KeyKind::P521 => &SIGNATURE,
    }
}

/// Appends keyUsage.
pub fn push_key_usage(kind: KeyKind, out: &mut Vec<u8>) -> Result<(), NoMemory>
    ensures ok { OnOk result (out.new.items ≡ out.old.items ++ spelling (extension_tree (spec.key_usage kind))) }
    ensures few { OnOk result (length out.new.items ≤ length out.old.items + 37) }
{
    push_extension(&KEY_USAGE, true, usage_of(kind), out)
}

/// Appends extKeyUsage.
#[tactic(auto, unfolding(der_text::specs::Tree::length_octets))]
pub fn push_extended_key_usage(out: &mut Vec<u8>) -> Result<(), NoMemory>
    ensures ok { OnOk result (out.new.items ≡ out.old.items ++ spelling (extension_tree spec.extended_key_usage)) }
    ensures few { OnOk result (length out.new.items ≤ length out.old.items + 45) }
{
    push_extension(&EXTENDED_KEY_USAGE, false, &SERVER_AUTH, out)
}

/// Appends subjectAltName, which is critical unless the subject has a commonName.
pub fn push_subject_alt_name(
    common: bool,
    targets: &Targets,
    out: &mut Vec<u8>,
) -> Result<(), NoMemory>
    requires count { length targets.now ≤ 255 }
    requires short { AllByRecursion IsShort targets.now }
    ensures ok { OnOk result (out.new.items ≡ out.old.items
        ++ spelling (extension_tree (spec.subject_alt_name common targets.now))) }
    ensures few { OnOk result (length out.new.items ≤ length out.old.items + (39 + 256 * 255)) }
{
    let alloc = *out.allocator();
    let names = names_of(alloc, targets.as_slice())?;
    let mut value = Vec::new(alloc);
    push_element(SEQUENCE, &names, &mut value)?;
    push_extension(&SUBJECT_ALT_NAME, !common, &value, out)
}

/// Appends certificatePolicies.
#[tactic(auto, unfolding(der_text::specs::Tree::length_octets))]
pub fn push_certificate_policies(out: &mut Vec<u8>) -> Result<(), NoMemory>
    ensures ok { OnOk result (out.new.items ≡ out.old.items ++ spelling (extension_tree spec.certificate_policies)) }
    ensures few { OnOk result (length out.new.items ≤ length out.old.items + 45) }
{
    push_extension(&CERTIFICATE_POLICIES, false, &DOMAIN_VALIDATED, out)
}

/// The value of cRLDistributionPoints.
fn distribution_point_of(alloc: Global, address: &[u8]) -> Result<Vec<u8>, NoMemory>
    requires { length address.now ≤ 512 }
    ensures value { IfOk result (λ value. value.items ≡ spelling (spec.crl_distribution_points address.now).value) }
    ensures few { IfOk result (λ value. length value.items ≤ 542) }
{
    let mut uri = Vec::new(alloc);
    push_element(URI, address, &mut uri)?;
    let full_name = wrapped(alloc, POINT_OR_FULL_NAME, &uri)?;
    let point = wrapped(alloc, POINT_OR_FULL_NAME, &full_name)?;
    let points = wrapped(alloc, SEQUENCE, &point)?;
    wrapped(alloc, SEQUENCE, &points)
}

/// Appends cRLDistributionPoints.
pub fn push_crl_distribution_points(address: &[u8], out: &mut Vec<u8>) -> Result<(), NoMemory>
    requires { length address.now ≤ 512 }
    ensures ok { OnOk result (out.new.items ≡ out.old.items
        ++ spelling (extension_tree (spec.crl_distribution_points address.now))) }
    ensures few { OnOk result (length out.new.items ≤ length out.old.items + 575) }
{
    let value = distribution_point_of(*out.allocator(), address)?;
    push_extension(&CRL_DISTRIBUTION_POINTS, false, &value, out)
}

/// The value of authorityInfoAccess.
fn access_description_of(alloc: Global, address: &[u8]) -> Result<Vec<u8>, NoMemory>
    requires { length address.now ≤ 512 }
    ensures value { IfOk result (λ value. value.items ≡ spelling (spec.authority_info_access address.now).value) }
    ensures few { IfOk result (λ value. length value.items ≤ 544) }
{
    let mut description = Vec::new(alloc);
    push_element(OBJECT_IDENTIFIER, &CA_ISSUERS, &mut description)?;
    push_element(URI, address, &mut description)?;
    let descriptions = wrapped(alloc, SEQUENCE, &description)?;
    wrapped(alloc, SEQUENCE, &descriptions)
}

/// Appends authorityInfoAccess.
pub fn push_authority_info_access(address: &[u8], out: &mut Vec<u8>) -> Result<(), NoMemory>
    requires { length address.now ≤ 512 }
    ensures ok { OnOk result (out.new.items ≡ out.old.items
        ++ spelling (extension_tree (spec.authority_info_access address.now))) }
    ensures few { OnOk result (length out.new.items ≤ length out.old.items + 577) }
{
    let value = access_description_of(*out.allocator(), address)?;
    push_extension(&AUTHORITY_INFO_ACCESS, false, &value, out)
}
