//! The room for users and idle connections: what is given back makes room again.

use event_loop::{IdlePermit, Room, UserPermit};
use std::sync::Arc;
use std::test::Fail;

/// What is done in a room, and whether there is room for it.
#[derive(Clone, Copy)]
enum RoomStep {
    /// A user comes.
    Enters(bool),
    /// The user goes, and nobody is left.
    Leaves,
    /// A connection is kept idle.
    Rests(bool),
    /// The idle connection is closed.
    Closes,
}

/// A step with its name.
type Named = (&'static str, RoomStep);

/// There is room for one user, and for one idle connection.
const ONE_OF_EACH: &[Named] = &[
    ("a user", RoomStep::Enters(true)),
    ("a second user", RoomStep::Enters(false)),
    ("an idle connection beside it", RoomStep::Rests(true)),
    ("a second idle connection", RoomStep::Rests(false)),
    ("the user goes", RoomStep::Leaves),
    ("a user in its place", RoomStep::Enters(true)),
    ("a second user beside the next one", RoomStep::Enters(false)),
    ("the idle connection is closed", RoomStep::Closes),
    ("an idle connection in its place", RoomStep::Rests(true)),
];

/// A room, and who has a permit.
#[derive(Drop)]
struct RoomStage {
    room: Arc<Room>,
    user: Option<UserPermit>,
    idle: Option<IdlePermit>,
}

/// Whether a step is answered as it should be.
fn is_answered(stage: &mut RoomStage, step: RoomStep) -> bool {
    match step {
        RoomStep::Enters(has_room) => match Room::enter(&stage.room) {
            Some(permit) => {
                stage.user = Some(permit);
                has_room
            }
            None => !has_room,
        },
        RoomStep::Leaves => {
            stage.user = None;
            stage.room.is_empty()
        }
        RoomStep::Rests(has_room) => match Room::keep(&stage.room) {
            Some(permit) => {
                stage.idle = Some(permit);
                has_room
            }
            None => !has_room,
        },
        RoomStep::Closes => {
            stage.idle = None;
            true
        }
    }
}

/// The name of the first step that isn't answered as it should be.
fn first_wrong(stage: &mut RoomStage, steps: &[Named]) -> Option<&'static str> {
    for (name, step) in steps {
        if !is_answered(stage, *step) {
            return Some(*name);
        }
    }
    None
}

#[test]
fn what_is_given_back_makes_room(rt: HostRuntime) -> Result<(), Fail> {
    let mut stage = RoomStage {
        room: Arc::new(rt.alloc(), Room::new(1, 1))?,
        user: None,
        idle: None,
    };
    let wrong = first_wrong(&mut stage, ONE_OF_EACH);
    drop(stage);
    assert_eq!(rt; wrong, None);
    Ok(())
}
