ghost use Rattle.std.specs.Prelude.{◌≡◌, Some, Ok, IfOk, OnOk, IfErr};
ghost use Rattle.cert_fields.specs.Profile.{IsSoundProfile};
ghost use Rattle.names_core.specs.Suffix.{rules_read};
ghost use Rattle.gate_settings.specs.Meaning.{AreSettingsOf, IsReadable, Says};
ghost use Rattle.gate_settings.specs.Reading as reading;
ghost use Rattle.gate_settings.specs.Rules.{Breaks, DocumentBreaks, IfRule, IsKept, IsLeastFault};
ghost use Rattle.gate_settings.specs.Rules.{NoneBefore, NoneBroken, TellsLeast, TellsOf};

use crate::authority::profile_of;
use crate::callers::{Callers, callers_of};
use crate::document::Document;
use crate::fault::SettingsFault;
use crate::issuers::check_issuers;
use crate::panel::panel_of;
use crate::reading::{document_of, toml_of};
use crate::rule::{Broken, Rule, refusal};
use gate_base::{ByteLists, Plain, Profile};
use names_core::{SuffixFault, Suffixes};
use perspectives::Panel;
use std::alloc::Global;

/// A file has at most this many bytes.
const MOST_BYTES: usize = 1_048_576;

/// What an operator sets.
#[derive(Drop)]
pub struct Settings {
    pub callers: Callers,
    pub panel: Panel,
    pub suffixes: Suffixes,
    /// The names under which the authority is known in CAA records.
    pub issuers: ByteLists,
    pub profile: Profile,
}

fn suffixes_of(alloc: Global, document: &Document) -> Result<Suffixes, Broken>
    ensures ok { IfOk result (λ suffixes. rules_read document.now.rules ≡ Ok suffixes) }
    ensures kept { OnOk result (IsKept (DocumentBreaks document.now) Rule.S09) }
    ensures err { IfErr result (λ fault. TellsOf (DocumentBreaks document.now) Rule.S09 fault) }
{
    match Suffixes::from_rules(alloc, document.rules.as_slice()) {
        Ok(suffixes) => Ok(suffixes),
        Err(SuffixFault::Line(number)) => Err(Broken::Rule(Rule::S09, number)),
        Err(SuffixFault::TooMany) => Err(Broken::Rule(Rule::S09, 0)),
        Err(SuffixFault::NoMemory) => Err(Broken::NoMemory),
    }
}

/// The settings that a file says, if it keeps every rule from the fourth on.
fn settings_of(alloc: Global, document: &Document) -> Result<Settings, Broken>
    ensures ok { IfOk result (λ settings. AreSettingsOf document.now settings) }
    ensures sound { IfOk result (λ settings. IsSoundProfile settings.profile) }
    ensures kept { OnOk result (NoneBroken (DocumentBreaks document.now)) }
    ensures err { IfErr result (λ fault. TellsLeast (DocumentBreaks document.now) fault) }
{
    let profile = profile_of(alloc, document)?;
    let suffixes = suffixes_of(alloc, document)?;
    let callers = callers_of(alloc, document)?;
    let panel = panel_of(alloc, document)?;
    check_issuers(document)?;
    let issuers = document.issuers.copied(alloc)?;
    Ok(Settings {
        callers,
        panel,
        suffixes,
        issuers,
        profile,
    })
}

/// What a file says, if it keeps the first three rules.
#[tactic(auto, unfolding(crate::specs::Reading::document_of))]
fn read_document(alloc: Global, bytes: &[u8]) -> Result<Document, Broken>
    ensures ok { IfOk result (λ document. reading.document_of bytes.now ≡ Some document) }
    ensures kept { OnOk result (NoneBefore (Breaks bytes.now) Rule.S04) }
    ensures err { IfErr result (λ fault. TellsLeast (Breaks bytes.now) fault) }
{
    if bytes.len() > MOST_BYTES {
        return Err(Broken::Rule(Rule::S01, 0));
    }
    let members = match toml_of(alloc, bytes) {
        Ok(members) => members,
        Err(fault) => return Err(refusal(Rule::S02, 0, fault)),
    };
    match document_of(alloc, &members) {
        Ok(document) => Ok(document),
        Err(fault) => Err(refusal(Rule::S03, 0, fault)),
    }
}

fn read(alloc: Global, bytes: &[u8]) -> Result<Settings, Broken>
    ensures ok { IfOk result (λ settings. Says bytes.now settings) }
    ensures sound { IfOk result (λ settings. IsSoundProfile settings.profile) }
    ensures kept { OnOk result (NoneBroken (Breaks bytes.now)) }
    ensures err { IfErr result (λ fault. TellsLeast (Breaks bytes.now) fault) }
{
    let document = read_document(alloc, bytes)?;
    settings_of(alloc, &document)
}

/// The settings that a file says, or the first rule that it breaks.
#[tactic(auto, using(crate::proofs::Readable::readable))]
pub fn read_settings(alloc: Global, bytes: &[u8]) -> Result<Settings, SettingsFault>
    // They are those that the file says,
    ensures ok { IfOk result (λ settings. Says bytes.now settings) }
    // certificates can be made by their profile,
    ensures sound { IfOk result (λ settings. IsSoundProfile settings.profile) }
    // and the file breaks no rule: its bytes are readable settings.
    ensures readable { OnOk result (IsReadable bytes.now) }
    // Where a rule is told they aren't,
    ensures unreadable { IfErr result (λ fault. IfRule fault (¬ (IsReadable bytes.now))) }
    // and the rule told is broken, with this item, and none before it.
    ensures fault { IfErr result (λ fault. IsLeastFault bytes.now fault) }
{
    match read(alloc, bytes) {
        Ok(settings) => Ok(settings),
        Err(Broken::Rule(rule, item)) => Err(SettingsFault::Rule {
            rule: rule.number(),
            item,
        }),
        Err(Broken::NoMemory) => Err(SettingsFault::NoMemory),
    }
}
