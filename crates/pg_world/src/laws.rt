//! The law on enabled events.

ghost use Rattle.std.specs.Prelude.{true, ◌≡◌, ◌↔◌, [], ◌∷◌};
ghost use Rattle.std.specs.List.{Contains};
ghost use Rattle.pg_messages.specs.declared.messages.WorldEvent.{WorldEvent};
ghost use Rattle.pg_messages.specs.declared.messages.WorldEvent.TheVariants.{Issue, Request, Ordered, Reply};
ghost use Rattle.pg_controllers.specs.Worlds.{Picks, World, is_enabled};
ghost use Rattle.pg_world.specs.Enabled.{events_of, enabled_events};

/// The events of a world in their order, and that no other event is ever enabled.
pub fn enabled_events_are_all()
    ensures order { events_of 2 1 ≡ Issue 0 ∷ Issue 1 ∷ Request 0 ∷ Request 1 ∷ Ordered 0 ∷ Ordered 1 ∷ Reply 0 ∷ [] }
    ensures member { (p : Picks) (w : World) (e : WorldEvent) → (is_enabled p w e ≡ true) ↔ Contains (enabled_events p w) e }
{}
