//! Who may call.
ghost use Rattle.std.specs.Prelude.{◌≡◌, [], unwrap_or, option_copied, IfSome, IfNone, IfOk, OnOk, IfErr};
ghost use Rattle.std.specs.List.{list_all};
ghost use Rattle.gate_settings.specs.Callers as spec;
ghost use Rattle.gate_settings.specs.Callers.{HasId, HasToken, IsFirstRow, IsOfNoRow};
ghost use Rattle.gate_settings.specs.Reading.{Gives};
ghost use Rattle.gate_settings.specs.Rules.{DocumentBreaks, GivesAt, IsKept, TellsOf};

use crate::document::{CallerTable, Document, PerspectiveTable};
use crate::part::PartFault;
use crate::row::CallerRow;
use crate::rule::{Broken, Rule, refusal};
use cert_fields::are_visible;
use gate_base::{Bytes, NoMemory, Plain, Role, Sequence};
use std::alloc::Global;
use std::marker::Model;

/// The callers, in the order of their file.
#[derive(Debug, Drop)]
pub struct Callers {
    rows: Sequence<CallerRow>,
}

impl Model for Callers {
    ghost use Rattle.std.specs.Prelude.{List};
    ghost use Rattle.gate_settings.specs.declared.row.CallerRow.{CallerRow as CallerRowValue};

    ghost Value = { List CallerRowValue };

    ghost view = { λ callers. callers.rows };
}

impl Callers {
    /// The caller with this token.
    #[tactic(auto, using(crate::proofs::Rows::tokens))]
    pub fn find(&self, token: &[u8]) -> Option<&CallerRow>
        ensures exact { option_copied result ≡ spec.with_token token.now self.now }
        // It is the first row with the token,
        ensures first { IfSome result (λ row. IsFirstRow (HasToken token.now) self.now row.now) }
        // and where none is found, no row has it.
        ensures none { IfNone result (IsOfNoRow (HasToken token.now) self.now) }
    {
        with_token(self.rows.as_slice(), token)
    }

    /// The caller with this id.
    #[tactic(auto, using(crate::proofs::Rows::ids))]
    pub fn find_id(&self, id: &[u8]) -> Option<&CallerRow>
        ensures exact { option_copied result ≡ spec.with_id id.now self.now }
        // It is the first row with the id,
        ensures first { IfSome result (λ row. IsFirstRow (HasId id.now) self.now row.now) }
        // and where none is found, no row has it.
        ensures none { IfNone result (IsOfNoRow (HasId id.now) self.now) }
    {
        with_id(self.rows.as_slice(), id)
    }
}

fn with_token<'a>(rows: &'a [CallerRow], token: &[u8]) -> Option<&'a CallerRow>
    ensures { option_copied result ≡ spec.with_token token.now rows.now }
{
    rows.iter().find(|row| row.token.as_slice() == token)
}

fn with_id<'a>(rows: &'a [CallerRow], id: &[u8]) -> Option<&'a CallerRow>
    ensures { option_copied result ≡ spec.with_id id.now rows.now }
{
    rows.iter().find(|row| row.id.as_slice() == id)
}

/// An id or a token has at most this many bytes.
const LONGEST_WORD: usize = 64;

/// SHA-256 in base64url has this many characters.
const THUMB_LEN: usize = 43;

fn is_word(text: &[u8]) -> bool
    ensures { result ≡ spec.is_word text.now }
{
    1 <= text.len() && text.len() <= LONGEST_WORD && are_visible(text)
}

fn is_base64url(byte: u8) -> bool
    ensures { result ≡ spec.is_base64url byte }
{
    byte.is_ascii_alphanumeric() || byte == b'-' || byte == b'_'
}

fn are_base64url(text: &[u8]) -> bool
    ensures { result ≡ list_all spec.is_base64url text.now }
{
    text.iter().all(|byte| is_base64url(*byte))
}

fn is_thumb(text: &[u8]) -> bool
    ensures { result ≡ spec.is_thumb text.now }
{
    text.len() == THUMB_LEN && are_base64url(text)
}

fn has_good_thumb(thumb: &Option<Bytes>) -> bool
    ensures { result ≡ spec.has_good_thumb thumb.now }
{
    match thumb {
        Some(text) => is_thumb(text.as_slice()),
        None => true,
    }
}

fn is_taken(before: &[CallerTable], caller: &CallerTable) -> bool
    ensures { result ≡ spec.is_taken before.now caller.now }
{
    before.iter().any(|other| other.id == caller.id || other.token == caller.token)
}

fn is_member(perspectives: &[PerspectiveTable], id: &Bytes) -> bool
    ensures { result ≡ spec.is_member perspectives.now id.now }
{
    perspectives.iter().any(|perspective| perspective.id == *id)
}

fn has_good_role(perspectives: &[PerspectiveTable], role: Option<Role>, id: &Bytes) -> bool
    ensures { result ≡ spec.has_good_role perspectives.now role id.now }
{
    match role {
        Some(Role::Account) | Some(Role::Operator) => true,
        Some(Role::Perspective) => is_member(perspectives, id),
        None => false,
    }
}

fn is_good(perspectives: &[PerspectiveTable], before: &[CallerTable], caller: &CallerTable) -> bool
    ensures { result ≡ spec.is_good perspectives.now before.now caller.now }
{
    is_word(caller.id.as_slice())
        && is_word(caller.token.as_slice())
        && !is_taken(before, caller)
        && has_good_thumb(&caller.thumb)
        && has_good_role(perspectives, caller.role, &caller.id)
}

fn thumb_of(alloc: Global, thumb: &Option<Bytes>) -> Result<Bytes, NoMemory>
    ensures { IfOk result (λ text. text ≡ unwrap_or thumb.now []) }
{
    match thumb {
        Some(text) => text.copied(alloc),
        None => Ok(Bytes::new(alloc)),
    }
}

/// The row of a caller that keeps every rule.
fn row_of(
    alloc: Global,
    perspectives: &[PerspectiveTable],
    before: &[CallerTable],
    caller: &CallerTable,
) -> Result<CallerRow, PartFault>
    ensures { Gives (λ row. row) result (spec.row_of perspectives.now before.now caller.now) }
{
    if !is_good(perspectives, before, caller) {
        return Err(PartFault::Refused);
    }
    let Some(role) = caller.role else {
        return Err(PartFault::Refused);
    };
    Ok(CallerRow {
        token: caller.token.copied(alloc)?,
        id: caller.id.copied(alloc)?,
        role,
        thumb: thumb_of(alloc, &caller.thumb)?,
    })
}

/// The rows of all callers, or the place of the first that offends, counted from 1.
#[tactic(auto, unfolding(crate::specs::Callers::rows_of))]
fn rows_of(
    alloc: Global,
    perspectives: &[PerspectiveTable],
    callers: &[CallerTable],
) -> Result<Sequence<CallerRow>, Broken>
    ensures { GivesAt Rule.S10 result (spec.rows_of perspectives.now callers.now) }
{
    let mut rows = Sequence::new(alloc);
    for k in 0..callers.len() {
        match row_of(alloc, perspectives, &callers[..k], &callers[k]) {
            Ok(row) => rows.push(row)?,
            Err(fault) => return Err(refusal(Rule::S10, k as u64 + 1, fault)),
        }
    }
    Ok(rows)
}

/// The callers of a file, if none offends.
pub fn callers_of(alloc: Global, document: &Document) -> Result<Callers, Broken>
    ensures ok { IfOk result (λ callers. spec.rows_of document.now.perspectives document.now.callers ≡ Ok callers) }
    ensures kept { OnOk result (IsKept (DocumentBreaks document.now) Rule.S10) }
    ensures err { IfErr result (λ fault. TellsOf (DocumentBreaks document.now) Rule.S10 fault) }
{
    let rows = rows_of(
        alloc,
        document.perspectives.as_slice(),
        document.callers.as_slice(),
    )?;
    Ok(Callers { rows })
}
