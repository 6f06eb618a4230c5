//! Look-ups in the list of entries.
ghost use Rattle.std.specs.Prelude.{◌≡◌, Some, option_copied, option_map, IfOk};
ghost use Rattle.std.specs.List.{find};
ghost use Rattle.gate_settings.specs.Meaning.{IsReadable, settings_of};
ghost use Rattle.evidence_index.specs.Lookups as spec;
ghost use Rattle.evidence_index.specs.Lookups.{find_last};
ghost use Rattle.evidence_index.specs.Noting.{AreSound, IsReadableIn};

use domain_methods::Challenge;
use gate_base::{NoMemory, Plain};
use gate_entries::{Entry, What};
use gate_settings::{Settings, SettingsFault, one_settings, read_settings};
use perspectives::{Panel, Perspective};
use std::alloc::Global;

pub fn is_by(caller: &[u8], entry: &Entry) -> bool
    ensures { result ≡ spec.is_by caller.now entry.now }
{
    entry.caller.as_slice() == caller
}

fn is_settings(what: &What) -> bool
    ensures { result ≡ spec.is_settings what.now }
{
    match what {
        What::Settings { .. } => true,
        _ => false,
    }
}

fn is_settings_by(number: u64, entry: &Entry) -> bool
    ensures { result ≡ spec.is_settings_by number entry.now }
{
    is_settings(&entry.what) && entry.number <= number
}

/// The entry of the settings in force at the entry with this number.
fn settings_entry(entries: &[Entry], number: u64) -> Option<&Entry>
    ensures { option_copied result ≡ find_last (spec.is_settings_by number) entries.now }
{
    entries
        .iter()
        .rev()
        .find(|entry| is_settings_by(number, entry))
}

/// The settings that readable bytes say.
fn settings_of(alloc: Global, bytes: &[u8]) -> Result<Settings, NoMemory>
    requires { IsReadable bytes.now }
    ensures { IfOk result (λ settings. settings_of bytes.now ≡ Some settings) }
{
    one_settings();
    match read_settings(alloc, bytes) {
        Ok(settings) => Ok(settings),
        Err(SettingsFault::NoMemory) => Err(NoMemory),
        Err(SettingsFault::Rule { .. }) => unreachable!(),
    }
}

/// The settings that an entry says.
fn settings_in(alloc: Global, what: &What) -> Result<Option<Settings>, NoMemory>
    requires { IsReadableIn what.now }
    ensures { IfOk result (λ settings. settings ≡ spec.settings_in what.now) }
{
    match what {
        What::Settings { bytes } => Ok(Some(settings_of(alloc, bytes.as_slice())?)),
        _ => Ok(None),
    }
}

/// The settings in force at the entry with this number.
#[tactic(auto, using(crate::proofs::Found::found_readable))]
pub fn settings_at(
    alloc: Global,
    entries: &[Entry],
    number: u64,
) -> Result<Option<Settings>, NoMemory>
    requires { AreSound entries.now }
    ensures { IfOk result (λ settings. settings ≡ spec.settings_at number entries.now) }
{
    match settings_entry(entries, number) {
        Some(entry) => settings_in(alloc, &entry.what),
        None => Ok(None),
    }
}

/// The last entry of settings.
fn last_settings(entries: &[Entry]) -> Option<&Entry>
    ensures { option_copied result ≡ spec.last_settings entries.now }
{
    entries.iter().rev().find(|entry| is_settings(&entry.what))
}

/// The bytes of settings that an entry says.
fn bytes_in(what: &What) -> Option<&[u8]>
    ensures { option_map (λ bytes. bytes.now) result ≡ spec.bytes_in what.now }
{
    match what {
        What::Settings { bytes } => Some(bytes.as_slice()),
        _ => None,
    }
}

/// The bytes of the settings in force: those of the last entry of settings.
pub fn settings_bytes(entries: &[Entry]) -> Option<&[u8]>
    ensures { option_map (λ bytes. bytes.now) result ≡ spec.settings_bytes entries.now }
{
    match last_settings(entries) {
        Some(entry) => bytes_in(&entry.what),
        None => None,
    }
}

/// The settings in force.
#[tactic(auto, using(crate::proofs::Found::found_readable))]
pub fn settings_now(alloc: Global, entries: &[Entry]) -> Result<Option<Settings>, NoMemory>
    requires { AreSound entries.now }
    ensures { IfOk result (λ settings. settings ≡ spec.settings_now entries.now) }
{
    match last_settings(entries) {
        Some(entry) => settings_in(alloc, &entry.what),
        None => Ok(None),
    }
}

fn is_challenge(what: &What) -> bool
    ensures { result ≡ spec.is_challenge what.now }
{
    match what {
        What::Challenge { .. } => true,
        _ => false,
    }
}

fn is_challenge_of(account: &[u8], number: u64, entry: &Entry) -> bool
    ensures { result ≡ spec.is_challenge_of account.now number entry.now }
{
    is_by(account, entry) && (entry.number == number && is_challenge(&entry.what))
}

fn challenge_entry<'a>(entries: &'a [Entry], account: &[u8], number: u64) -> Option<&'a Entry>
    ensures { option_copied result ≡ find (spec.is_challenge_of account.now number) entries.now }
{
    entries
        .iter()
        .find(|entry| is_challenge_of(account, number, entry))
}

/// The challenge that an entry makes.
fn challenge_in(alloc: Global, entry: &Entry) -> Result<Option<Challenge>, NoMemory>
    ensures { IfOk result (λ challenge. challenge ≡ spec.challenge_in entry.now) }
{
    match &entry.what {
        What::Challenge {
            order,
            method,
            target,
            value,
            thumb,
            ..
        } => Ok(Some(Challenge {
            number: entry.number,
            order: *order,
            target: target.copied(alloc)?,
            method: *method,
            value: *value,
            made: entry.moment,
            thumb: thumb.copied(alloc)?,
        })),
        _ => Ok(None),
    }
}

/// The account's own challenge with this number.
pub fn challenge_of(
    alloc: Global,
    entries: &[Entry],
    account: &[u8],
    number: u64,
) -> Result<Option<Challenge>, NoMemory>
    ensures { IfOk result (λ challenge. challenge ≡ spec.challenge_of account.now number entries.now) }
{
    match challenge_entry(entries, account, number) {
        Some(entry) => challenge_in(alloc, entry),
        None => Ok(None),
    }
}

/// When a perspective saw what the entry keeps.
pub fn seen_at_in(what: &What) -> u64
    ensures { result ≡ spec.seen_at_in what.now }
{
    match what {
        What::Observation { seen_at, .. } | What::CaaAnswer { seen_at, .. } => *seen_at,
        _ => 0,
    }
}

/// The panel's primary perspective.
pub fn primary_of(panel: &Panel) -> &Perspective
    ensures { Some result.now ≡ spec.primary_of panel.now }
{
    panel.primary()
}
