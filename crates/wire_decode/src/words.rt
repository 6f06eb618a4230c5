//! What the texts of a body stand for.
ghost use Rattle.std.specs.Prelude.{◌≡◌, IfOk};
ghost use Rattle.std.specs.Str.{bytes_eq};
ghost use Rattle.serde_json.specs.View.{view};
ghost use Rattle.gate_entries.specs.Target.{IsTarget};
ghost use Rattle.wire_decode.specs.Judgement.{viewed};
ghost use Rattle.wire_decode.specs.Members.{text_at};
ghost use Rattle.wire_decode.specs.Words as spec;

use crate::item::FromItem;
use crate::judged::Judged;
use crate::member::{member_of, str_at, str_of};
use crate::rule::Rule;
use base64::DecodeAllocError;
use base64::engine::general_purpose::STANDARD;
use gate_base::{Address, Bytes, Method, NoMemory, Sequence, Target};
use names_core::{NameRead, read_target};
use serde_json::Value;
use std::alloc::Global;

fn copied(alloc: Global, text: Judged<&str>) -> Result<Judged<Bytes>, NoMemory>
    ensures { IfOk result (λ read. read ≡ viewed (λ text. text.now) text.entry) }
{
    match text {
        Ok(text) => Ok(Ok(Bytes::from_slice(alloc, text.as_bytes())?)),
        Err(rule) => Ok(Err(rule)),
    }
}

pub fn text_at(alloc: Global, value: &Value, name: &str) -> Result<Judged<Bytes>, NoMemory>
    ensures { IfOk result (λ read. read ≡ text_at name.now (view value.now)) }
{
    copied(alloc, str_at(value, name))
}

impl FromItem for Sequence<u8> {
    ghost use Rattle.wire_decode.specs.Members.{text_of};

    ghost item_in = { text_of };

    ghost IsItem = { λ _. Unit {0} };

    fn from_item(alloc: Global, value: &Value) -> Result<Judged<Sequence<u8>>, NoMemory> {
        copied(alloc, str_of(value))
    }
}

#[tactic(auto, unfolding(crate::specs::Words::base64_of))]
fn base64_of(alloc: Global, text: &str) -> Result<Judged<Bytes>, NoMemory>
    ensures { IfOk result (λ read. read ≡ spec.base64_of text.now) }
{
    match STANDARD.decode(alloc, text.as_bytes()) {
        Ok(bytes) => Ok(Ok(Bytes::from_vec(bytes))),
        Err(DecodeAllocError::DecodeError(_)) => Ok(Err(Rule::W04)),
        Err(DecodeAllocError::OutOfMemory) => Err(NoMemory),
    }
}

#[tactic(auto, unfolding(crate::specs::Words::base64_at))]
pub fn base64_at(alloc: Global, value: &Value, name: &str) -> Result<Judged<Bytes>, NoMemory>
    ensures { IfOk result (λ read. read ≡ spec.base64_at name.now (view value.now)) }
{
    match str_at(value, name) {
        Ok(text) => base64_of(alloc, text),
        Err(rule) => Ok(Err(rule)),
    }
}

#[tactic(auto, using(crate::proofs::TargetLemmas::dns_is_name), unfolding(crate::specs::Words::target_of))]
fn target_of(alloc: Global, text: &str) -> Result<Judged<Target>, NoMemory>
    ensures exact { IfOk result (λ read. read ≡ spec.target_of text.now) }
    ensures is { IfOk result (λ read. IfOk read IsTarget) }
{
    match read_target(alloc, text.as_bytes()) {
        Ok(Target::Dns(name)) => Ok(Ok(Target::Dns(name))),
        Ok(Target::Ip(Address::V4(octets))) => Ok(Ok(Target::Ip(Address::V4(octets)))),
        Ok(Target::Ip(Address::V6(octets))) => Ok(Ok(Target::Ip(Address::V6(octets)))),
        Err(NameRead::Fault(_)) => Ok(Err(Rule::W05)),
        Err(NameRead::NoMemory) => Err(NoMemory),
    }
}

fn target_in(alloc: Global, value: &Value) -> Result<Judged<Target>, NoMemory>
    ensures exact { IfOk result (λ read. read ≡ spec.target_in (view value.now)) }
    ensures is { IfOk result (λ read. IfOk read IsTarget) }
{
    match str_of(value) {
        Ok(text) => target_of(alloc, text),
        Err(rule) => Ok(Err(rule)),
    }
}

#[tactic(auto, unfolding(crate::specs::Words::target_at))]
pub fn target_at(alloc: Global, value: &Value, name: &str) -> Result<Judged<Target>, NoMemory>
    ensures exact { IfOk result (λ read. read ≡ spec.target_at name.now (view value.now)) }
    ensures is { IfOk result (λ read. IfOk read IsTarget) }
{
    match member_of(value, name) {
        Ok(found) => target_in(alloc, found),
        Err(rule) => Ok(Err(rule)),
    }
}

impl FromItem for Target {
    ghost use Rattle.gate_entries.specs.Target.{IsTarget};
    ghost use Rattle.wire_decode.specs.Words.{target_in};

    ghost item_in = { target_in };

    ghost IsItem = { IsTarget };

    fn from_item(alloc: Global, value: &Value) -> Result<Judged<Target>, NoMemory> {
        target_in(alloc, value)
    }
}

fn is_word(text: &str, word: &str) -> bool
    ensures { result ≡ bytes_eq text.now word.now }
{
    text == word
}

fn method_of(text: &str) -> Judged<Method>
    ensures { result ≡ spec.method_of text.now }
{
    if is_word(text, "dns") {
        Ok(Method::DnsChange)
    } else if is_word(text, "web") {
        Ok(Method::WebChange)
    } else if is_word(text, "acme") {
        Ok(Method::AcmeHttp)
    } else {
        Err(Rule::W03)
    }
}

#[tactic(auto, unfolding(crate::specs::Words::method_at))]
pub fn method_at(value: &Value, name: &str) -> Judged<Method>
    ensures { result ≡ spec.method_at name.now (view value.now) }
{
    method_of(str_at(value, name)?)
}
