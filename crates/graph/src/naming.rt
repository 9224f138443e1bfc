//! Builds, for each position, the list of the positions that name it. This reverses lists.
ghost use Rattle.std.specs.Prelude.{◌≡◌, ◌<◌, ◌≤◌, ◌+◌, ◌++◌, ℕ, All, IfOk, OnErr, OnOk, cond, length, nat_eq, replicate, []};
ghost use Rattle.graph.specs.Lists.{list_at, times};
ghost use Rattle.graph.specs.inside.Links.{IsLinked, linked_list};

use crate::reversed::{Range, Reversed};
use faults::Memory;
use std::alloc::Global;
use std::marker::Model;

/// A position that names another, and the link of the previous name at that other position, counted
/// from 1; 0 if this is the first.
#[derive(Clone, Copy)]
struct Link {
    who: u32,
    earlier: u32,
}

/// For each position, those that name it so far. Each name is a link appended to all others, and
/// each position has the number of its latest link, counted from 1; 0 if nothing names it.
#[derive(Drop)]
pub struct Naming {
    latest: Vec<u32>,
    links: Vec<Link>,
}

impl Model for Naming {
    ghost use Rattle.std.specs.Prelude.{ℕ, List};

    ghost Value = { List (List ℕ) };

    ghost use Rattle.graph.specs.inside.Links.{AreLinked, linked_lists};

    ghost view = { λ n. linked_lists n.links.items n.latest.items };

    ghost invariant = { λ n. AreLinked n.links.items n.latest.items };
}

impl Naming {
    /// A list of `len` positions that nothing names.
    pub fn new(alloc: Global, len: u32) -> Result<Naming, Memory>
        ensures { IfOk result (λ naming. naming ≡ replicate len []) }
    {
        let latest = vec![in alloc; 0u32; len as usize]?;
        let links = Vec::new(alloc);
        Ok(Naming { latest, links })
    }

    /// Adds `position` to the lists of the positions that it names. If memory runs out, it adds
    /// nothing.
    pub fn add(&mut self, position: u32, named: &[u32]) -> Result<(), Memory>
        requires { All (λ d. d < length self.old) named.now }
        ensures each { length self.new ≡ length self.old }
        ensures named { OnOk result ((d x : ℕ) → times x (list_at self.new d)
            ≡ times x (list_at self.old d) + cond (nat_eq position x) (times d named.now) 0) }
        ensures same { OnErr result (self.new ≡ self.old) }
    {
        if self.links.len() + named.len() > u32::MAX as usize {
            return Err(Memory);
        }
        self.links.reserve(named.len())?;
        for other in named {
            let latest = &mut self.latest[*other as usize];
            self.links.push_reserved(Link {
                who: position,
                earlier: *latest,
            });
            *latest = self.links.len() as u32;
        }
        Ok(())
    }

    /// The same lists in read-only form, stored one after another in order of position.
    pub fn turned(&self, alloc: Global) -> Result<Reversed, Memory>
        ensures { IfOk result (λ lists. lists ≡ self.now) }
    {
        let mut ranges = Vec::with_capacity(alloc, self.latest.len())?;
        let mut names = Vec::with_capacity(alloc, self.links.len())?;
        for latest in &self.latest {
            let from = narrowed(names.len())?;
            append_linked(&mut names, self.links.as_slice(), *latest)?;
            let to = narrowed(names.len())?;
            ranges.push(Range { from, to })?;
        }
        Ok(Reversed { ranges, names })
    }
}

/// Appends the names in the links from the latest one backwards.
fn append_linked(names: &mut Vec<u32>, links: &[Link], latest: u32) -> Result<(), Memory>
    requires linked { IsLinked links.now }
    requires latest { latest ≤ length links.now }
    ensures { OnOk result (names.new.items ≡ names.old.items ++ linked_list links.now latest) }
{
    let mut left = latest;
    'links: while left > 0 {
        let link = &links[left as usize - 1];
        names.push(link.who)?;
        left = link.earlier;
    }
    Ok(())
}

/// The length as a `u32`; `Memory` if it doesn't fit.
fn narrowed(len: usize) -> Result<u32, Memory>
    ensures { IfOk result (λ narrow. narrow ≡ len) }
{
    if len > u32::MAX as usize {
        return Err(Memory);
    }
    Ok(len as u32)
}
