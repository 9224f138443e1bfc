//! The kind of an event, its node, and whether what it refers to exists.
ghost use Rattle.std.specs.Prelude.{◌≡◌, List, Some, length};
ghost use Rattle.protocol.specs.Events as events;
ghost use Rattle.protocol.specs.Events.{event_view};
ghost use Rattle.faults.specs.Bytes.{Text};
ghost use Rattle.node.specs.Step.{Asked, IsAsked};
ghost use Rattle.simulator.specs.inside.Asking.{asked_by};
ghost use Rattle.world.specs.Happening as happening;
ghost use Rattle.world.specs.World as worlds;

use protocol::Event;

/// The node of the event.
pub fn node_of(event: &Event) -> u8
    ensures { result ≡ events.node_of (event_view event.now) }
{
    match event {
        Event::Claim { node, .. }
        | Event::Built { node, .. }
        | Event::Failed { node, .. }
        | Event::Nudge { node }
        | Event::Ask { node, .. }
        | Event::Deliver { node, .. }
        | Event::Stop { node }
        | Event::Restart { node } => *node,
        Event::StopIn { input, left: _ } => node_of(input),
    }
}

/// Whether the event is a step that a stop may interrupt.
pub(crate) fn is_step(event: &Event) -> bool
    ensures { result ≡ events.is_step (event_view event.now) }
{
    match event {
        Event::Stop { .. } | Event::StopIn { .. } | Event::Restart { .. } => false,
        _ => true,
    }
}

/// Whether the event is a stop inside something other than a step.
pub(crate) fn is_bad_stop(event: &Event) -> bool
    ensures { result ≡ happening.is_bad_stop (event_view event.now) }
{
    match event {
        Event::StopIn { input, left: _ } => !is_step(input),
        _ => false,
    }
}

/// Whether the event is a restart.
pub(crate) fn is_restart(event: &Event) -> bool
    ensures { result ≡ happening.is_restart (event_view event.now) }
{
    match event {
        Event::Restart { .. } => true,
        _ => false,
    }
}

/// Whether the event delivers a datagram whose number is not below the number of sent ones.
pub(crate) fn lacks_datagram(sent: usize, event: &Event) -> bool
    ensures { (w : worlds.World) → sent ≡ length w.sent
        → result ≡ happening.lacks_datagram w (event_view event.now) }
{
    match event {
        Event::Deliver { datagram, node: _ } => *datagram >= sent as u64,
        Event::StopIn { input, left: _ } => lacks_datagram(sent, input),
        _ => false,
    }
}

/// The hosts that the event names have numbers of 16 bits.
pub(crate) fn host_fits(event: &Event)
    ensures { (sent : List Text) (asked : Asked)
        → asked_by sent (event_view event.now) ≡ Some asked → IsAsked asked }
{
    if let Event::Claim { host, .. } = event {
        let _host = *host;
    }
}
