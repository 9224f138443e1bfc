//! Laws of worlds, whatever happens to them.
ghost use Rattle.world.specs.Laws.{
  DatagramsKeepTheirNumbers,
  EventsLeadToLaterWorlds,
  LeadsInParts,
  LeadsTogether,
  ListsGrow,
  ListsHaveOneAPath,
  WhatIsListedIsHeldAlike,
};

/// Runs split and compose: a concatenation of events leads to a world if and only if the first part
/// leads to some world from which the second part leads to it.
pub fn events_in_parts()
    ensures parts { LeadsInParts }
    ensures together { LeadsTogether }
{}

/// From any world, whatever happens, the tree, its units, the weights and the number of nodes stay,
/// and the notes of each node, the datagrams sent and the agreed list only grow.
pub fn events_lead_to_later_worlds()
    ensures { EventsLeadToLaterWorlds }
{}

/// At every point of a run the list is a prefix of the list at its end, and has at most one package
/// for each path.
pub fn lists_grow()
    ensures grows { ListsGrow }
    ensures one_a_path { ListsHaveOneAPath }
{}

/// A datagram that was sent keeps its number, and no datagram has two.
pub fn datagrams_keep_their_numbers()
    ensures { DatagramsKeepTheirNumbers }
{}

/// Two nodes, at the same point of a run or at different ones, never hold different packages for
/// one path, if all that they hold is in the list.
pub fn nodes_hold_alike()
    ensures { WhatIsListedIsHeldAlike }
{}
