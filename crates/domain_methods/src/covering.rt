ghost use Rattle.std.specs.Prelude.{◌≡◌, ◌↔◌, IsTrue};
ghost use Rattle.domain_methods.specs.Cover as spec;
ghost use Rattle.domain_methods.specs.Cover.{Covers};

use gate_base::{Address, Method, Name, Target};
use names_core::Suffixes;

fn is_authorization_name(proved: &Name, wanted: &Name, s: &Suffixes) -> bool
    ensures { result ≡ spec.is_authorization_name proved.now wanted.now s.now }
{
    let Some(base) = s.base_len(wanted) else {
        return false;
    };
    base <= proved.labels.len() as u64
        && !proved.wild
        && wanted.labels.as_slice().ends_with(proved.labels.as_slice())
}

fn covers_below(proved: &Target, wanted: &Target, s: &Suffixes) -> bool
    ensures { result ≡ spec.covers_below proved.now wanted.now s.now }
{
    match (proved, wanted) {
        (Target::Dns(proved), Target::Dns(wanted)) => is_authorization_name(proved, wanted, s),
        _ => false,
    }
}

fn covers_itself(proved: &Target, wanted: &Target) -> bool
    ensures { result ≡ spec.covers_itself proved.now wanted.now }
{
    match (proved, wanted) {
        (Target::Dns(proved), Target::Dns(wanted)) => {
            !proved.wild && !wanted.wild && proved.labels == wanted.labels
        }
        (Target::Ip(Address::V4(proved)), Target::Ip(Address::V4(wanted))) => proved == wanted,
        (Target::Ip(Address::V6(proved)), Target::Ip(Address::V6(wanted))) => proved == wanted,
        _ => false,
    }
}

fn covers_by(method: Method, proved: &Target, wanted: &Target, s: &Suffixes) -> bool
    ensures { result ≡ spec.covers method proved.now wanted.now s.now }
{
    match method {
        Method::DnsChange => covers_below(proved, wanted, s),
        Method::WebChange | Method::AcmeHttp => covers_itself(proved, wanted),
    }
}

/// Whether evidence by a method on one target covers another.
pub fn covers(method: Method, proved: &Target, wanted: &Target, s: &Suffixes) -> bool
    ensures exact { result ≡ spec.covers method proved.now wanted.now s.now }
    // A change in DNS proves a name for itself and all below it; a website proves its host alone.
    ensures meaning { IsTrue result ↔ Covers method proved.now wanted.now s.now }
{
    covers_by(method, proved, wanted, s)
}
