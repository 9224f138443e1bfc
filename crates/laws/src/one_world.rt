//! Laws of nodes on separate hosts.
ghost use Rattle.laws.specs.Laws.{
  EachRunOfAWorldIsOne,
  InstallableIsHeldThere,
  LaterEventsLeadOn,
  LoneNodesMakeAWorld,
  NodesHoldAlike,
  NothingOfferedIsForeign,
  WhatNodesHoldIsListed,
};

/// Nodes are started over one listing and the same weights, each on a host of its own, with a log
/// that is empty at first. They take turns in any order. What arrives was sent by one of them,
/// unaltered; datagrams may be reordered, repeated or lost. Nodes end between turns or during one,
/// and are opened again on what their logs were left as.
///
/// All that is a list of events, which lead from the start to a world that has these nodes. So
/// there is one list of packages at each moment. No node refuses as foreign what another sent, and
/// no run of a world is left out.
pub fn lone_nodes_make_a_world()
    ensures world { LoneNodesMakeAWorld }
    ensures later { LaterEventsLeadOn }
    ensures each { EachRunOfAWorldIsOne }
    ensures foreign { NothingOfferedIsForeign }
{}

/// So each node holds only what is in that list. Two of them never hold different packages for one
/// path, at the same moment or at different ones. If a node shows a path as installable, it holds
/// the path's whole run closure.
pub fn lone_nodes_hold_alike()
    ensures listed { WhatNodesHoldIsListed }
    ensures alike { NodesHoldAlike }
    ensures installable { InstallableIsHeldThere }
{}
