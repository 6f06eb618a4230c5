//! Targets in an entry.
ghost use Rattle.std.specs.Prelude.{◌≡◌, ◌<◌, ◌≤◌, ◌^◌, [], ◌∷◌, ◌++◌, length, OnOk};
ghost use Rattle.std.specs.List.{flat_map};
ghost use Rattle.gate_base.specs.declared.name.Target.TheVariants.{Dns};
ghost use Rattle.gate_entries.specs.Field.{Gives, Within};
ghost use Rattle.gate_entries.specs.Fits.{TargetFits, target_length};
ghost use Rattle.gate_entries.specs.Target.{labels_text, name_bytes, target_bytes, IsTarget, text_at, name_at, v4_at, v6_at, target_at};

use crate::fault::FieldFault;
use crate::field::{Field, counted8, read_truth, sixteen};
use crate::naming::name_behind;
use gate_base::{Address, Bytes, Labels, Name, NoMemory, Target};
use std::alloc::Global;

impl Field for Target {
    ghost spelling = { target_bytes };

    ghost HasSpelling = { IsTarget };

    ghost reading = { target_at };

    fn put(&self, out: &mut Vec<u8>) -> Result<(), NoMemory> {
        match self {
            Target::Dns(name) => put_name(name, out)?,
            Target::Ip(Address::V4(octets)) => {
                out.push(2)?;
                out.extend_from_slice(octets)?;
            }
            Target::Ip(Address::V6(octets)) => {
                out.push(3)?;
                out.extend_from_slice(octets)?;
            }
        }
        Ok(())
    }

    #[tactic(auto, unfolding(crate::specs::Target::target_at))]
    fn read(alloc: Global, bytes: &[u8]) -> Result<(Target, &[u8]), FieldFault> {
        match bytes {
            [] => Err(FieldFault::Left(0)),
            [1, rest @ ..] => read_name(alloc, rest),
            [2, rest @ ..] => read_v4(rest),
            [3, rest @ ..] => read_v6(rest),
            [_, ..] => Err(FieldFault::Left(bytes.len())),
        }
    }

    #[tactic(auto, using(crate::proofs::Sizes::target_fits, crate::proofs::Sizes::target_is_as_long))]
    fn len(&self) -> u64 {
        target_len(self)
    }
}

/// How many bytes a target takes, if its name is counted by one byte.
pub fn target_len(target: &Target) -> u64
    requires { TargetFits target.now }
    ensures len { result ≡ target_length target.now }
    ensures most { result ≤ 258 }
{
    match target {
        Target::Dns(name) => 3 + text_len(&name.labels),
        Target::Ip(Address::V4(_)) => 5,
        Target::Ip(Address::V6(_)) => 17,
    }
}

/// The length of a name's text without `*.`.
#[tactic(auto, using(crate::proofs::Names::labels_length))]
fn text_len(labels: &Labels) -> u64
    requires { length (labels_text labels.now) < 2 ^ 8 }
    ensures { result ≡ length (labels_text labels.now) }
{
    match labels.as_slice().split_first() {
        Some((first, others)) => first.len() as u64 + others_len(others),
        None => 0,
    }
}

/// The length of labels with a dot before each.
fn others_len(labels: &[Bytes]) -> u64
    requires { length (flat_map (λ next. 46 ∷ next) labels.now) < 2 ^ 8 }
    ensures { result ≡ length (flat_map (λ next. 46 ∷ next) labels.now) }
{
    let mut total = 0;
    let mut rest = labels;
    while let [label, after @ ..] = rest {
        total += 1 + label.len() as u64;
        rest = after;
    }
    total
}

#[tactic(auto, using(crate::proofs::Names::text_size))]
fn put_name(name: &Name, out: &mut Vec<u8>) -> Result<(), NoMemory>
    requires { IsTarget (Dns name.now) }
    ensures ok { OnOk result (out.new.items ≡ out.old.items ++ name_bytes name.now) }
{
    let mut text = Vec::new(*out.allocator());
    put_labels(&name.labels, &mut text)?;
    out.push(1)?;
    out.push(u8::from(name.wild))?;
    out.extend_from_slice(&(text.len() as u8).to_be_bytes())?;
    out.extend_from_slice(&text)?;
    Ok(())
}

/// Appends the labels, with a dot between two.
#[tactic(auto, using(crate::proofs::Names::labels_behind))]
fn put_labels(labels: &Labels, out: &mut Vec<u8>) -> Result<(), NoMemory>
    ensures ok { OnOk result (out.new.items ≡ out.old.items ++ labels_text labels.now) }
{
    if let Some((first, others)) = labels.as_slice().split_first() {
        out.extend_from_slice(first.as_slice())?;
        put_others(others, out)?;
    }
    Ok(())
}

/// Appends labels, with a dot before each.
fn put_others(labels: &[Bytes], out: &mut Vec<u8>) -> Result<(), NoMemory>
    ensures ok { OnOk result (out.new.items ≡ out.old.items ++ flat_map (λ next. 46 ∷ next) labels.now) }
{
    for label in labels {
        out.push(b'.')?;
        out.extend_from_slice(label.as_slice())?;
    }
    Ok(())
}

#[tactic(auto, unfolding(crate::specs::Target::v4_at))]
fn read_v4(bytes: &[u8]) -> Result<(Target, &[u8]), FieldFault>
    ensures exact { Gives (λ x. (x.0, x.1.now)) result (v4_at bytes.now) }
    ensures within { Within (λ x. x.1.now) bytes.now result }
{
    match bytes {
        [a, b, c, d, rest @ ..] => Ok((Target::Ip(Address::V4([*a, *b, *c, *d])), rest)),
        _ => Err(FieldFault::Left(bytes.len())),
    }
}

#[tactic(auto, unfolding(crate::specs::Target::v6_at))]
fn read_v6(bytes: &[u8]) -> Result<(Target, &[u8]), FieldFault>
    ensures exact { Gives (λ x. (x.0, x.1.now)) result (v6_at bytes.now) }
    ensures within { Within (λ x. x.1.now) bytes.now result }
{
    if bytes.len() < 16 {
        return Err(FieldFault::Left(bytes.len()));
    }
    let (octets, rest) = bytes.split_at(16);
    Ok((Target::Ip(Address::V6(sixteen(octets))), rest))
}

#[tactic(auto, unfolding(crate::specs::Target::name_at))]
fn read_name(alloc: Global, bytes: &[u8]) -> Result<(Target, &[u8]), FieldFault>
    ensures exact { Gives (λ x. (x.0, x.1.now)) result (name_at bytes.now) }
    ensures within { Within (λ x. x.1.now) bytes.now result }
{
    let (wild, rest) = read_truth(bytes)?;
    let (target, rest) = read_text(alloc, wild, rest)?;
    Ok((target, rest))
}

#[tactic(auto, unfolding(crate::specs::Target::text_at))]
fn read_text(alloc: Global, wild: bool, bytes: &[u8]) -> Result<(Target, &[u8]), FieldFault>
    ensures exact { Gives (λ x. (x.0, x.1.now)) result (text_at wild bytes.now) }
    ensures within { Within (λ x. x.1.now) bytes.now result }
{
    let (text, rest) = counted8(bytes)?;
    match name_behind(alloc, wild, text)? {
        Some(name) => Ok((Target::Dns(name), rest)),
        None => Err(FieldFault::Left(bytes.len())),
    }
}
