ghost use Rattle.std.specs.Prelude.{◌≡◌, ◌&&◌};
ghost use Rattle.std.specs.List.{list_any, position};
ghost use Rattle.std.specs.Str.{str_eq_ignore_ascii_case};
ghost use Rattle.caa_climb.specs.Permission.{has_tag, is_critical, restricting_tag, is_among, named, permits, is_allowed, permission_of};

use crate::answer::Permission;
use crate::issue_value::read_issue_value;
use gate_base::{ByteLists, CaaRow, CaaRows};

/// The tag of the rows that say who may issue.
const ISSUE: &[u8] = b"issue";

/// The tag of the rows that say who may issue for a wildcard.
const ISSUEWILD: &[u8] = b"issuewild";

/// The tag of the rows that say whom to tell.
const IODEF: &[u8] = b"iodef";

/// The issuer critical flag (RFC 8659, section 4.1).
const CRITICAL: u8 = 128;

/// Whether the records permit that one of these issuers issues.
#[tactic(auto, using(crate::proofs::EmptyNames::permission_named))]
pub fn permission(rows: &CaaRows, wild: bool, issuers: &ByteLists) -> Permission
    ensures exact { result ≡ permission_of rows.now wild issuers.now }
    // An empty name among the issuers permits nobody: it is as if it weren't there.
    ensures nobody { result ≡ permission_of rows.now wild (named issuers.now) }
{
    judge(rows, wild, issuers)
}

fn judge(rows: &CaaRows, wild: bool, issuers: &ByteLists) -> Permission
    ensures { result ≡ permission_of rows.now wild issuers.now }
{
    let rows = rows.as_slice();
    if let Some(row) = first_critical(rows) {
        return Permission::Critical { row: row as u64 };
    }
    if is_allowed(restricting_tag(rows, wild), rows, issuers) {
        Permission::Allowed
    } else {
        Permission::Denied
    }
}

/// The first row that is critical and isn't understood.
fn first_critical(rows: &[CaaRow]) -> Option<usize>
    ensures { result ≡ position is_critical rows.now }
{
    rows.iter().position(|row| is_critical(row))
}

fn is_critical(row: &CaaRow) -> bool
    ensures { result ≡ is_critical row.now }
{
    row.flags & CRITICAL == CRITICAL
        && !(has_tag(ISSUE, row) || has_tag(ISSUEWILD, row) || has_tag(IODEF, row))
}

fn has_tag(tag: &[u8], row: &CaaRow) -> bool
    ensures { result ≡ has_tag tag.now row.now }
{
    is_same(row.tag.as_slice(), tag)
}

/// Whether two texts are the same but for case.
fn is_same(a: &[u8], b: &[u8]) -> bool
    ensures { result ≡ str_eq_ignore_ascii_case a.now b.now }
{
    a.eq_ignore_ascii_case(b)
}

/// The tag of the rows that restrict who may issue.
fn restricting_tag(rows: &[CaaRow], wild: bool) -> &'static [u8]
    ensures { result.now ≡ restricting_tag rows.now wild }
{
    if wild && restricts(ISSUEWILD, rows) {
        ISSUEWILD
    } else {
        ISSUE
    }
}

/// Whether a row has the tag.
fn restricts(tag: &[u8], rows: &[CaaRow]) -> bool
    ensures { result ≡ list_any (has_tag tag.now) rows.now }
{
    rows.iter().any(|row| has_tag(tag, row))
}

/// Whether no row with the tag restricts, or one permits one of the issuers.
fn is_allowed(tag: &[u8], rows: &[CaaRow], issuers: &ByteLists) -> bool
    ensures { result ≡ is_allowed tag.now rows.now issuers.now }
{
    !restricts(tag, rows) || permits_by(tag, rows, issuers)
}

/// Whether a row with the tag permits one of the issuers.
fn permits_by(tag: &[u8], rows: &[CaaRow], issuers: &ByteLists) -> bool
    ensures { result ≡ list_any (λ row. has_tag tag.now row && permits issuers.now row) rows.now }
{
    rows.iter()
        .any(|row| has_tag(tag, row) && permits(row, issuers))
}

fn permits(row: &CaaRow, issuers: &ByteLists) -> bool
    ensures { result ≡ permits issuers.now row.now }
{
    match read_issue_value(row.value.as_slice()) {
        Some(value) => is_among(value.issuer, issuers),
        None => false,
    }
}

/// Whether the issuer is one of these, without regard to case; the empty issuer is none.
fn is_among(issuer: &[u8], issuers: &ByteLists) -> bool
    ensures { result ≡ is_among issuers.now issuer.now }
{
    !issuer.is_empty() && are_any_same(issuer, issuers)
}

fn are_any_same(issuer: &[u8], issuers: &ByteLists) -> bool
    ensures { result ≡ list_any (λ one. str_eq_ignore_ascii_case one issuer.now) issuers.now }
{
    issuers
        .as_slice()
        .iter()
        .any(|one| is_same(one.as_slice(), issuer))
}
