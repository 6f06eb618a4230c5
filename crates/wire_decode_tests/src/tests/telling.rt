//! Decoded messages as short texts.

use gate_base::{Bytes, CaaAnswer, CaaSeen, Method, Seen, Target};
use gate_entries::{Caller, Command};
use names_core::target_text;
use std::alloc::Global;
use wire_decode::{Decoded, WireFault};

fn number(alloc: Global, number: u64) -> Option<String> {
    format!(in alloc; "{number}").ok()
}

/// A space and the bytes as text.
fn push_bytes(text: &mut String, bytes: &Bytes) -> Option<()> {
    text.push_str(" ").ok()?;
    text.push_str(std::str::from_utf8(bytes.as_slice()).ok()?)
        .ok()
}

fn push_number(alloc: Global, text: &mut String, value: u64) -> Option<()> {
    text.push_str(" ").ok()?;
    text.push_str(number(alloc, value)?.as_str()).ok()
}

fn push_target(alloc: Global, text: &mut String, target: &Target) -> Option<()> {
    let mut bytes = Vec::new(alloc);
    target_text(target, &mut bytes).ok()?;
    push_bytes(text, &Bytes::from_vec(bytes))
}

fn method_word(method: Method) -> &'static str {
    match method {
        Method::DnsChange => " dns",
        Method::WebChange => " web",
        Method::AcmeHttp => " acme",
    }
}

fn push_seen(alloc: Global, text: &mut String, seen: &Seen) -> Option<()> {
    match seen {
        Seen::Dns(seen) => {
            text.push_str(" dns").ok()?;
            push_bytes(text, &seen.prefix)?;
            for txt in seen.txts.as_slice() {
                push_bytes(text, txt)?;
            }
            text.push_str(" ->").ok()?;
            for cname in seen.cnames.as_slice() {
                push_bytes(text, cname)?;
            }
        }
        Seen::Web(seen) => {
            push_bytes(text, &seen.url)?;
            for hop in seen.hops.as_slice() {
                push_number(alloc, text, u64::from(hop.status))?;
                push_bytes(text, &hop.location)?;
            }
            push_number(alloc, text, u64::from(seen.status))?;
            push_bytes(text, &seen.body)?;
        }
    }
    Some(())
}

fn push_caa(alloc: Global, text: &mut String, caa: &CaaSeen) -> Option<()> {
    for answer in caa.answers.as_slice() {
        match answer {
            CaaAnswer::Failed => text.push_str(" failed").ok()?,
            CaaAnswer::Set { ttl, rows } => {
                push_number(alloc, text, u64::from(*ttl))?;
                for row in rows.as_slice() {
                    push_number(alloc, text, u64::from(row.flags))?;
                    push_bytes(text, &row.tag)?;
                    push_bytes(text, &row.value)?;
                }
            }
        }
    }
    Some(())
}

fn push_command(alloc: Global, text: &mut String, command: &Command) -> Option<()> {
    match command {
        Command::Order {
            key,
            targets,
            days,
            common,
            request,
        } => {
            text.push_str(if *common { " order common" } else { " order" })
                .ok()?;
            push_bytes(text, key)?;
            push_number(alloc, text, u64::from(*days))?;
            for target in targets.as_slice() {
                push_target(alloc, text, target)?;
            }
            push_bytes(text, request)
        }
        Command::Challenge {
            key,
            order,
            target,
            method,
        } => {
            text.push_str(method_word(*method)).ok()?;
            push_bytes(text, key)?;
            push_number(alloc, text, *order)?;
            push_target(alloc, text, target)
        }
        Command::Observe {
            key,
            challenge,
            seen_at,
            seen,
        } => {
            text.push_str(" observe").ok()?;
            push_bytes(text, key)?;
            push_number(alloc, text, *challenge)?;
            push_number(alloc, text, *seen_at)?;
            push_seen(alloc, text, seen)
        }
        Command::ObserveCaa {
            key,
            order,
            target,
            seen_at,
            caa,
        } => {
            text.push_str(" caa").ok()?;
            push_bytes(text, key)?;
            push_number(alloc, text, *order)?;
            push_target(alloc, text, target)?;
            push_number(alloc, text, *seen_at)?;
            push_caa(alloc, text, caa)
        }
        Command::Finalize { order } => {
            text.push_str(" finalize").ok()?;
            push_number(alloc, text, *order)
        }
        Command::Block { key, spki } => {
            text.push_str(" block").ok()?;
            push_bytes(text, key)?;
            push_bytes(text, spki)
        }
    }
}

fn asked(alloc: Global, caller: &Caller, command: &Command) -> Option<String> {
    let mut text = String::new(alloc);
    text.push_str(std::str::from_utf8(caller.id.as_slice()).ok()?)
        .ok()?;
    push_command(alloc, &mut text, command)?;
    Some(text)
}

fn fault_word(alloc: Global, fault: WireFault) -> Option<String> {
    match fault {
        WireFault::BadForm(rule) => format!(in alloc; "W0{rule}").ok(),
        WireFault::NoCaller => String::from_str(alloc, "no caller").ok(),
        WireFault::NotFound => String::from_str(alloc, "not found").ok(),
        WireFault::TooLarge | WireFault::NotOffered => None,
    }
}

/// The caller's id and the command, or the fault.
pub fn told(alloc: Global, decoded: &Decoded) -> Option<String> {
    match decoded {
        Decoded::Ask(caller, command) => asked(alloc, caller, command),
        Decoded::Fault(fault) => fault_word(alloc, *fault),
        Decoded::NoMemory => None,
    }
}
