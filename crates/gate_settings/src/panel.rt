//! The panel of a file's perspectives.
ghost use Rattle.std.specs.Prelude.{◌≡◌, IfOk, OnOk, IfErr};
ghost use Rattle.perspectives.specs.Panel.{IsFirstFault};
ghost use Rattle.gate_settings.specs.Members as spec;
ghost use Rattle.gate_settings.specs.Reading.{Gives};
ghost use Rattle.gate_settings.specs.Rules.{DocumentBreaks, GivesAt, IsKept, IsPanelBroken, TellsOf};

use crate::document::{Document, PerspectiveTable};
use crate::part::PartFault;
use crate::rule::{Broken, Rule, refusal};
use gate_base::{Plain, Sequence};
use perspectives::{Panel, PanelFault, Perspective};
use std::alloc::Global;

/// The member of a row whose region is known.
fn member_of(alloc: Global, row: &PerspectiveTable) -> Result<Perspective, PartFault>
    ensures { Gives (λ member. member) result (spec.member_of row.now) }
{
    let Some(region) = row.region else {
        return Err(PartFault::Refused);
    };
    Ok(Perspective {
        id: row.id.copied(alloc)?,
        primary: row.primary,
        region,
        x: row.x,
        y: row.y,
        z: row.z,
    })
}

/// The members of all rows, or the place of the first whose region is unknown, counted from 1.
#[tactic(auto, unfolding(crate::specs::Members::members_of))]
fn members_of(alloc: Global, rows: &[PerspectiveTable]) -> Result<Sequence<Perspective>, Broken>
    ensures { GivesAt Rule.S11 result (spec.members_of rows.now) }
{
    let mut members = Sequence::new(alloc);
    let mut place = 1;
    for row in rows {
        match member_of(alloc, row) {
            Ok(member) => members.push(member)?,
            Err(fault) => return Err(refusal(Rule::S11, place, fault)),
        }
        place += 1;
    }
    Ok(members)
}

/// What is told of a fault of the panel.
fn panel_broken(members: &[Perspective], fault: PanelFault) -> Broken
    requires { IsFirstFault members.now fault }
    ensures { IsPanelBroken members.now result }
{
    match fault {
        PanelFault::TooMany
        | PanelFault::NoPrimary
        | PanelFault::TwicePrimary
        | PanelFault::TwiceNamed => Broken::Rule(Rule::S11, 0),
        PanelFault::BadPlace(at) => Broken::Rule(Rule::S11, at + 1),
        PanelFault::TooNear(_, second) => Broken::Rule(Rule::S11, second + 1),
        PanelFault::NoMemory => Broken::NoMemory,
    }
}

/// The panel, if every region is known and the perspectives are one.
pub fn panel_of(alloc: Global, document: &Document) -> Result<Panel, Broken>
    ensures ok { IfOk result (λ panel. spec.members_of document.now.perspectives ≡ Ok panel) }
    ensures kept { OnOk result (IsKept (DocumentBreaks document.now) Rule.S11) }
    ensures err { IfErr result (λ fault. TellsOf (DocumentBreaks document.now) Rule.S11 fault) }
{
    let members = members_of(alloc, document.perspectives.as_slice())?;
    match Panel::from_list(alloc, members.as_slice()) {
        Ok(panel) => Ok(panel),
        Err(fault) => Err(panel_broken(members.as_slice(), fault)),
    }
}
