//! Since when each queued unit is promised as it is.
ghost use Rattle.std.specs.Prelude.{
  ◌≡◌,
  ◌<◌,
  ℕ,
  IfOk,
  OnOk,
  Some,
  if◌then◌else◌,
  is_some,
  length,
  nat_eq,
  true,
};
ghost use Rattle.turn_rules.specs.Own.{is_barred};
ghost use Rattle.scheduler.specs.Waiting.{AreSeen, AreSince, is_same_promise, is_seen, since_of};
ghost use Rattle.engine.specs.Division.{number_of};
ghost use Rattle.indexmap.specs.IndexMap.{get};

use crate::wishing::promised;
use claims::Claim;
use faults::Memory;
use indexmap::IndexMap;
use member::Member;
use std::alloc::Global;
use std::time::Instant;

/// The claim that the member promised last for a queued unit, if it promised any, and since when
/// both are so.
#[derive(Clone, Copy)]
pub(crate) struct Seen {
    pub promised: Option<Claim>,
    pub since: Instant,
}

/// All queued units, each with its promise and since when it has that, by what was seen before.
pub(crate) fn seen_units(
    alloc: Global,
    member: &Member<'_>,
    before: &IndexMap<u32, Seen>,
    now: Instant,
) -> Result<IndexMap<u32, Seen>, Memory>
    ensures { IfOk result (λ seen.
        AreSeen member.now (get nat_eq before.now) now (get nat_eq seen)) }
{
    let mut seen = IndexMap::new(alloc);
    let mut from = 0;
    for _ in 0..member.tree().len() {
        let Some(position) = member.queued_from(from) else {
            return Ok(seen);
        };
        see(&mut seen, member, position, before, now)?;
        from = position + 1;
    }
    Ok(seen)
}

/// Adds the package's unit to what was seen.
fn see(
    seen: &mut IndexMap<u32, Seen>,
    member: &Member<'_>,
    position: u32,
    before: &IndexMap<u32, Seen>,
    now: Instant,
) -> Result<(), Memory>
    requires { position < length member.now.division.tree }
    ensures since { OnOk result
        (AreSince member.now (get nat_eq before.now) now (get nat_eq seen.old)
        → AreSince member.now (get nat_eq before.now) now (get nat_eq seen.new)) }
    ensures more { OnOk result ((u : ℕ) → is_seen (get nat_eq seen.old) u ≡ true
        → is_seen (get nat_eq seen.new) u ≡ true) }
    ensures noticed { OnOk result (is_barred (is_seen (get nat_eq seen.new))
        (number_of member.now.division position) ≡ true) }
{
    let Some(unit) = member.units().unit_of(position) else {
        return Ok(());
    };
    let promised = promised(member, unit);
    let since = since_of(before, unit, promised, now);
    keep(seen, unit, Seen { promised, since })?;
    Ok(())
}

/// Keeps what was seen of the unit.
fn keep(all: &mut IndexMap<u32, Seen>, unit: u32, seen: Seen) -> Result<(), Memory>
    ensures { OnOk result ((u : ℕ) → get nat_eq all.new u
        ≡ (if nat_eq unit u then Some seen else get nat_eq all.old u)) }
{
    all.insert(unit, seen)?;
    Ok(())
}

/// Since when the unit has this promise: since it had it before, or since now.
fn since_of(
    before: &IndexMap<u32, Seen>,
    unit: u32,
    promised: Option<Claim>,
    now: Instant,
) -> Instant
    ensures { result ≡ since_of (get nat_eq before.now unit) promised now }
{
    match before.get(&unit) {
        Some(seen) => since_under(seen, promised, now),
        None => now,
    }
}

/// Since when a unit has this promise that was seen so before.
fn since_under(before: &Seen, promised: Option<Claim>, now: Instant) -> Instant
    ensures { result ≡ since_of (Some before.now) promised now }
{
    if is_same_promise(before.promised, promised) {
        before.since
    } else {
        now
    }
}

/// Whether both are the same claim, or both none.
pub(crate) fn is_same_promise(one: Option<Claim>, other: Option<Claim>) -> bool
    ensures { result ≡ is_same_promise one other }
{
    match one {
        Some(one) => match other {
            Some(other) => one == other,
            None => false,
        },
        None => match other {
            Some(_) => false,
            None => true,
        },
    }
}
