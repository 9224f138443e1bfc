//! Laws of ways.
ghost use Rattle.ways_on.specs.Laws.{EachHasAWay, OneReason, WaysArrive};

/// In a reachable world, taking the events of a way in order reaches its goal: each event is at a
/// node that is up; the first one that is refused, is refused only because a log is full; and if
/// none is refused, the node holds the unit.
pub fn ways_arrive()
    ensures { WaysArrive }
{}

/// In a reachable world, suppose that a node that is up shows a unit as queued. If a majority is
/// up, a round is left, the files make a build of the unit, and the host has 16 bits, there is a
/// short way for the node to the unit. A way is either granted or refused, never both, and it is
/// refused for only one reason.
pub fn each_has_a_way()
    ensures way { EachHasAWay }
    ensures reason { OneReason }
{}
