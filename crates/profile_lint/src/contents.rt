//! What bytes say that the rules judge.
ghost use Rattle.std.specs.Prelude.{◌≡◌, option_map, IfOk};
ghost use Rattle.der_text.specs.View.{node};
ghost use Rattle.tbs_shape.specs.Shape.{IsBody};
ghost use Rattle.profile_lint.specs.Contents as said;
ghost use Rattle.profile_lint.specs.View as shown;

use crate::extension::extension_named;
use crate::identifiers as id;
use cert_time::read_time;
use der_text::{ReadFault, Tree, read_tree};
use gate_base::NoMemory;
use public_key::behind_zero;
use std::alloc::Global;
use tbs_shape::{Body, Extension, Primitive};

/// An extension, if it is there, and the tree that its value spells.
#[derive(Drop)]
pub struct Judged<'b, 'a> {
    pub extension: Option<&'b Extension<'a>>,
    pub tree: Option<Tree<'a>>,
}

/// A body, and the trees that its key and the values of its extensions spell.
#[derive(Drop)]
pub struct Contents<'b, 'a> {
    pub body: &'b Body<'a>,
    /// The seconds of notBefore, where it has its form.
    pub begins: Option<i64>,
    /// The seconds of notAfter, where it has its form.
    pub ends: Option<i64>,
    pub key: Option<Tree<'a>>,
    pub names: Judged<'b, 'a>,
    pub usage: Judged<'b, 'a>,
    pub purposes: Judged<'b, 'a>,
    pub policies: Judged<'b, 'a>,
    pub points: Judged<'b, 'a>,
    pub access: Judged<'b, 'a>,
}

/// The tree that bytes spell, if they spell one.
fn reading<'a>(alloc: Global, bytes: &'a [u8]) -> Result<Option<Tree<'a>>, NoMemory>
    ensures { IfOk result (λ found. said.IsReading bytes.now (option_map node found)) }
{
    match read_tree(alloc, bytes) {
        Ok(tree) => Ok(Some(tree)),
        Err(ReadFault::Der(_)) => Ok(None),
        Err(ReadFault::NoMemory) => Err(NoMemory),
    }
}

fn reading_of<'a>(alloc: Global, bytes: Option<&'a [u8]>) -> Result<Option<Tree<'a>>, NoMemory>
    ensures { IfOk result (λ found. said.IsReadingOf (option_map (λ b. b.now) bytes.entry) (option_map node found)) }
{
    match bytes {
        None => Ok(None),
        Some(bytes) => reading(alloc, bytes),
    }
}

fn time_of(time: &Primitive<'_>) -> Option<i64>
    ensures { said.IsTime time.now result }
{
    read_time(time.tag(), time.content())
}

fn value_of<'a>(extension: Option<&Extension<'a>>) -> Option<&'a [u8]>
    ensures { option_map (λ b. b.now) result ≡ said.value_of (option_map (λ e. e.now) extension.entry) }
{
    match extension {
        None => None,
        Some(extension) => Some(extension.value()),
    }
}

fn judge<'b, 'a>(
    alloc: Global,
    body: &'b Body<'a>,
    identifier: &[u8],
) -> Result<Judged<'b, 'a>, NoMemory>
    ensures { IfOk result (λ judged. said.IsJudged body.now identifier.now (shown.judged judged)) }
{
    let extension = extension_named(identifier, body);
    let tree = reading_of(alloc, value_of(extension))?;
    Ok(Judged { extension, tree })
}

/// What a body says.
pub fn contents_of<'b, 'a>(alloc: Global, body: &'b Body<'a>) -> Result<Contents<'b, 'a>, NoMemory>
    ensures says { IfOk result (λ contents. (bytes : _) → IsBody bytes body.now →
        said.Says bytes (shown.contents contents)) }
    ensures body { IfOk result (λ contents. contents.body.now ≡ body.now) }
{
    let key = reading_of(alloc, behind_zero(body.key_bits()))?;
    let names = judge(alloc, body, &id::SUBJECT_ALT_NAME)?;
    let usage = judge(alloc, body, &id::KEY_USAGE)?;
    let purposes = judge(alloc, body, &id::EXT_KEY_USAGE)?;
    let policies = judge(alloc, body, &id::CERTIFICATE_POLICIES)?;
    let points = judge(alloc, body, &id::CRL_DISTRIBUTION_POINTS)?;
    let access = judge(alloc, body, &id::AUTHORITY_INFO_ACCESS)?;
    Ok(Contents {
        body,
        begins: time_of(body.not_before()),
        ends: time_of(body.not_after()),
        key,
        names,
        usage,
        purposes,
        policies,
        points,
        access,
    })
}
