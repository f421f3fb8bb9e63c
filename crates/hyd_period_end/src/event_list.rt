//! A list of events.
#![tactic(auto)]

ghost use Rattle.std.specs.Prelude.{◌≡◌, ◌<◌, ◌≤◌, ◌+◌, ◌++◌, ◌∷◌, [], length};
ghost use Rattle.hyd_spec.specs.Lists.{present};

use hyd_net::List;
use hyd_spec_certificates::Event;

/// Appends an event where there is one, for which there is room.
pub(crate) fn add_event(events: &mut List<Event>, event: Option<Event>)
    requires { 0 < events.old.spare }
    ensures list { events.new.list ≡ events.old.list ++ present (event ∷ []) }
    ensures spare { events.old.spare ≤ events.new.spare + 1 }
    ensures room { length events.old.list + events.old.spare ≤ length events.new.list + events.new.spare }
{
    if let Some(event) = event {
        events.push(event).unwrap();
    }
}
