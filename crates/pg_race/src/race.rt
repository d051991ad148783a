ghost use Rattle.std.specs.Prelude.{◌≡◌};
ghost use Rattle.pg_race.specs.Sides as sides;

use pg_perm::{Event, FwdClass, Role, Side};

fn side_of_start(start: Role, class: FwdClass) -> Side
    ensures { result ≡ sides.side_of_start start class }
{
    match start {
        Role::Out => Side::After,
        Role::Shared if class == FwdClass::Inv => Side::Before,
        Role::Shared => Side::After,
        Role::Owner => Side::Before,
    }
}

/// Whether a forward of this class is earlier or later than the operation that a cache has outstanding, which began in a state of the role
/// `start`: whether its transaction comes before that operation's, or after it.
///
/// It is `granted` once data or a count was taken for it, or a later forward; an acknowledgement grants nothing. docs/MODEL.md has the order and
/// why it is so.
pub fn order(start: Role, event: Event, granted: bool, class: FwdClass) -> Side
    requires { sides.IsOutstanding start event granted }
    ensures { result ≡ sides.side start event granted class }
{
    if granted {
        return Side::After;
    }
    match event {
        Event::Load | Event::Store => side_of_start(start, class),
        Event::Evict => Side::Before,
    }
}
