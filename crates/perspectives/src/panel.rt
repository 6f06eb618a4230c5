ghost use Rattle.std.specs.Prelude.{◌≡◌, ◌≤◌, length, slice_get, OnOk, IfOk, IfErr};
ghost use Rattle.std.specs.List.{AllPass};
ghost use Rattle.std.specs.Option.{option_copied};
ghost use Rattle.perspectives.specs.Panel.{IsPanel, IsFirstFault, HasNoConflict, HasNoOther, IsPrimaryOf, primary_count, is_placed};

use crate::fault::PanelFault;
use crate::perspective::Perspective;
use crate::rules::{Conflict, first_conflict, first_misplaced, only_primary, primary_count};
use gate_base::{NoMemory, Sequence};
use std::alloc::Global;
use std::marker::Model;

/// A panel has at most this many members.
const MOST_MEMBERS: usize = 33;

/// The perspectives that check control of names, one of them the primary.
#[derive(Debug, Drop)]
pub struct Panel {
    members: Sequence<Perspective>,
}

impl Model for Panel {
    ghost use Rattle.std.specs.Prelude.{List};
    ghost use Rattle.perspectives.specs.declared.perspective.Perspective.{Perspective as PerspectiveValue};
    ghost use Rattle.perspectives.specs.Panel.{IsPanel};

    ghost Value = { List PerspectiveValue };

    ghost view = { λ panel. panel.members };

    ghost invariant = { λ panel. IsPanel panel.members };
}

impl Panel {
    /// The panel of these members, in this order.
    pub fn from_list(alloc: Global, list: &[Perspective]) -> Result<Panel, PanelFault>
        ensures ok { IfOk result (λ panel. panel ≡ list.now) }
        ensures rules { IfOk result (λ panel. IsPanel list.now) }
        ensures err { IfErr result (λ fault. IsFirstFault list.now fault) }
    {
        check_members(list)?;
        check_places(list)?;
        let members = copied(alloc, list)?;
        Ok(Panel { members })
    }

    /// How many members there are.
    pub fn len(&self) -> u64
        ensures count { result ≡ length self.now }
        ensures rules { IsPanel self.now }
    {
        self.members.len() as u64
    }

    /// The member at this place, counted from 0.
    pub fn member(&self, i: u64) -> Option<&Perspective>
        ensures { option_copied result ≡ slice_get self.now i }
    {
        self.members.get(i as usize)
    }

    /// The primary perspective.
    pub fn primary(&self) -> &Perspective
        // It is a member that calls itself the primary,
        ensures is { IsPrimaryOf self.now result.now }
        // and there is no other such member.
        ensures only { HasNoOther self.now result.now }
    {
        only_primary(self.members.as_slice())
    }

    /// The members in order.
    pub(crate) fn members(&self) -> &[Perspective]
        ensures { result.now ≡ self.now }
    {
        self.members.as_slice()
    }
}

/// How many there are, which is the primary, and what they are called.
fn check_members(list: &[Perspective]) -> Result<(), PanelFault>
    ensures few { OnOk result (length list.now ≤ 33) }
    ensures primary { OnOk result (primary_count list.now ≡ 1) }
    ensures names { OnOk result (HasNoConflict Conflict.Name list.now) }
    ensures err { IfErr result (λ fault. IsFirstFault list.now fault) }
{
    if list.len() > MOST_MEMBERS {
        return Err(PanelFault::TooMany);
    }
    let primaries = primary_count(list);
    if primaries == 0 {
        return Err(PanelFault::NoPrimary);
    }
    if primaries > 1 {
        return Err(PanelFault::TwicePrimary);
    }
    match first_conflict(Conflict::Name, list) {
        Some(_) => Err(PanelFault::TwiceNamed),
        None => Ok(()),
    }
}

/// Where they stand.
fn check_places(list: &[Perspective]) -> Result<(), PanelFault>
    requires few { length list.now ≤ 33 }
    requires primary { primary_count list.now ≡ 1 }
    requires names { HasNoConflict Conflict.Name list.now }
    ensures places { OnOk result (AllPass is_placed list.now) }
    ensures apart { OnOk result (HasNoConflict Conflict.Place list.now) }
    ensures err { IfErr result (λ fault. IsFirstFault list.now fault) }
{
    if let Some(place) = first_misplaced(list) {
        return Err(PanelFault::BadPlace(place as u64));
    }
    match first_conflict(Conflict::Place, list) {
        Some((first, second)) => Err(PanelFault::TooNear(first as u64, second as u64)),
        None => Ok(()),
    }
}

fn copied(alloc: Global, list: &[Perspective]) -> Result<Sequence<Perspective>, NoMemory>
    ensures { IfOk result (λ members. members ≡ list.now) }
{
    let mut members = Sequence::new(alloc);
    for member in list {
        members.push(member.copied(alloc)?)?;
    }
    Ok(members)
}
