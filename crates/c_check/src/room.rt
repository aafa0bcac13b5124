ghost use Rattle.std.specs.Prelude.{◌≡◌};
ghost use Rattle.c_meaning.specs.Breaches.{may_stand, next_room, room_of};
ghost use Rattle.c_check.specs.Roles.{role_as, room_as, room_after};

use crate::role::Role;

/// What may stand at a place: any statement, the one labelled `for` of a function of a module, or nothing.
#[derive(Clone, Copy)]
pub enum Room {
    Free,
    ToLoop,
    Over,
}

impl Room {
    /// At the first statement of a function.
    pub fn of(role: Role) -> Room
        ensures { room_as result ≡ room_of (role_as role) }
    {
        match role {
            Role::Function => Room::ToLoop,
            _ => Room::Free,
        }
    }

    /// Whether a statement may stand here, which is a loop or isn't.
    pub fn may_hold(self, is_loop: bool) -> bool
        ensures { result ≡ may_stand (room_as self) is_loop }
    {
        match self {
            Room::Free => true,
            Room::ToLoop => is_loop,
            Room::Over => false,
        }
    }

    /// Behind a statement.
    pub fn behind(self) -> Room
        ensures { room_as result ≡ next_room (room_as self) }
    {
        match self {
            Room::Free => Room::Free,
            Room::ToLoop => Room::Over,
            Room::Over => Room::Over,
        }
    }

    /// Behind a statement whose blocks are over, of which this stood around; here, where none is open.
    pub fn after(self, around: Option<Room>) -> Room
        ensures { room_as result ≡ room_after (room_as self) around }
    {
        match around {
            None => self,
            Some(room) => room.behind(),
        }
    }
}
