//! Addresses of websites.

ghost use Rattle.std.specs.Prelude.{◌≡◌, ◌&&◌, ◌++◌, length, nat_eq, nat_lt, bytes_eq, IfOk};
ghost use Rattle.std.specs.List.{starts_with};
ghost use Rattle.names_core.specs.Target as written;
ghost use Rattle.domain_methods.specs.Address as spec;
ghost use Rattle.domain_methods.specs.Address.{acme_folder, address_of, is_read_as};
ghost use Rattle.domain_methods.specs.Value.{value_text};
ghost use Rattle.url.specs.Parts.{nonempty_host};

use crate::challenge::Challenge;
use gate_base::{Address, Method, NoMemory, Target};
use names_core::target_text;
use std::alloc::Global;
use url::{Host, ParseError, Url};

const VALIDATION_FOLDER: &[u8] = b"/.well-known/pki-validation/";

const ACME_FOLDER: &[u8] = b"/.well-known/acme-challenge/";

/// The address that bytes are read as, if they are one.
pub fn read_address(alloc: Global, bytes: &[u8]) -> Result<Option<Url>, NoMemory>
    ensures { IfOk result (λ url. url ≡ address_of bytes.now) }
{
    let Ok(text) = std::str::from_utf8(bytes) else {
        return Ok(None);
    };
    match Url::parse(alloc, text) {
        Ok(url) => Ok(Some(url)),
        Err(ParseError::OutOfMemory | ParseError::Overflow) => Err(NoMemory),
        Err(_) => Ok(None),
    }
}

fn is_http(url: &Url) -> bool
    ensures { result ≡ spec.is_http url.now }
{
    url.scheme() == "http"
}

fn is_https(url: &Url) -> bool
    ensures { result ≡ spec.is_https url.now }
{
    url.scheme() == "https"
}

fn is_port(wanted: u16, port: Option<u16>) -> bool
    ensures { result ≡ spec.is_port wanted port }
{
    match port {
        Some(port) => port == wanted,
        None => false,
    }
}

fn has_authorized_port(url: &Url) -> bool
    ensures { result ≡ spec.has_authorized_port url.now }
{
    let port = url.port_or_known_default();
    is_port(80, port) || is_port(443, port)
}

/// Whether a website may be fetched from there.
fn is_web_address(url: &Url) -> bool
    ensures { result ≡ spec.is_web_address url.now }
{
    (is_http(url) || is_https(url)) && has_authorized_port(url)
}

/// Whether bytes are read as an address that a website may be fetched from.
pub fn leads_to_web(alloc: Global, bytes: &[u8]) -> Result<bool, NoMemory>
    ensures { IfOk result (λ leads. leads ≡ is_read_as spec.is_web_address (address_of bytes.now)) }
{
    match read_address(alloc, bytes)? {
        Some(url) => Ok(is_web_address(&url)),
        None => Ok(false),
    }
}

fn is_text_of(alloc: Global, text: &[u8], target: &Target) -> Result<bool, NoMemory>
    ensures { IfOk result (λ is. is ≡ bytes_eq text.now (written.target_text target.now)) }
{
    let mut wanted = Vec::new(alloc);
    target_text(target, &mut wanted)?;
    Ok(text == wanted.as_slice())
}

fn is_host_of(alloc: Global, target: &Target, url: &Url) -> Result<bool, NoMemory>
    ensures { IfOk result (λ is. is ≡ spec.is_host_of target.now (nonempty_host url.now)) }
{
    match (target, url.host()) {
        (Target::Dns(_), Some(Host::Domain(domain))) => {
            is_text_of(alloc, domain.as_bytes(), target)
        }
        (Target::Ip(Address::V4(octets)), Some(Host::Ipv4(address))) => {
            Ok(address.octets() == *octets)
        }
        (Target::Ip(Address::V6(octets)), Some(Host::Ipv6(address))) => {
            Ok(address.octets() == *octets)
        }
        _ => Ok(false),
    }
}

/// Whether the path is that of a file in the folder.
fn is_below(folder: &[u8], path: &[u8]) -> bool
    ensures { result ≡ (starts_with nat_eq path.now folder.now && nat_lt (length folder.now) (length path.now)) }
{
    path.starts_with(folder) && folder.len() < path.len()
}

fn is_validation_file(url: &Url) -> bool
    ensures { result ≡ spec.is_validation_file url.now }
{
    is_web_address(url) && is_below(VALIDATION_FOLDER, url.path().as_bytes())
}

fn token_path(alloc: Global, token: &[u8]) -> Result<Vec<u8>, NoMemory>
    ensures { IfOk result (λ path. path.items ≡ acme_folder ++ token.now) }
{
    let mut path = ACME_FOLDER.to_vec(alloc)?;
    path.extend_from_slice(token)?;
    Ok(path)
}

fn is_token_file(alloc: Global, token: &[u8], url: &Url) -> Result<bool, NoMemory>
    ensures { IfOk result (λ is. is ≡ spec.is_token_file token.now url.now) }
{
    let path = token_path(alloc, token)?;
    Ok(
        is_http(url)
            && is_port(80, url.port_or_known_default())
            && url.path().as_bytes() == path.as_slice()
            && url.query().is_none(),
    )
}

/// Whether the method looks at the file of this address.
fn is_file_of(alloc: Global, method: Method, token: &[u8], url: &Url) -> Result<bool, NoMemory>
    ensures { IfOk result (λ is. is ≡ spec.is_file_of method token.now url.now) }
{
    match method {
        Method::DnsChange => Ok(false),
        Method::WebChange => Ok(is_validation_file(url)),
        Method::AcmeHttp => is_token_file(alloc, token, url),
    }
}

fn is_demanded_at(alloc: Global, c: &Challenge, token: &[u8], url: &Url) -> Result<bool, NoMemory>
    requires token { token.now ≡ value_text c.now }
    ensures { IfOk result (λ is. is ≡ spec.is_demanded c.now url.now) }
{
    let on_host = is_host_of(alloc, &c.target, url)?;
    let of_method = is_file_of(alloc, c.method, token, url)?;
    Ok(on_host && url.fragment().is_none() && of_method)
}

/// Whether bytes are read as the first address that a challenge demands.
pub fn is_demanded(
    alloc: Global,
    c: &Challenge,
    token: &[u8],
    bytes: &[u8],
) -> Result<bool, NoMemory>
    requires token { token.now ≡ value_text c.now }
    ensures { IfOk result (λ is. is ≡ is_read_as (spec.is_demanded c.now) (address_of bytes.now)) }
{
    match read_address(alloc, bytes)? {
        Some(url) => is_demanded_at(alloc, c, token, &url),
        None => Ok(false),
    }
}
