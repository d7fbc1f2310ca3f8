//! What users, an origin, a service and the administrator do, in this order, and what they get.

use super::loopback::LoopbackScene;
use super::loopback::LoopbackScene::{
    Adapted, AllAdapted, Apart, ByIcapd, Forwarded, HeldBack, OneConnection,
};
use super::player::Deed::{Ends, Gets, GetsOffer, HearsEnd, HearsNothing, Passes, Says};
use super::player::ScenePeer::{Origin, Service, User};
use super::player::SceneStep::{Admin, Awaits, Closes, New, On, Releases, Silent, Stops};
use super::player::{Deed, SceneStep};
use super::texts::{
    ADAPTED, ALMOST_A_REQUEST, BAD_GATEWAY, BAD_LINES, BAD_REQUEST, BEHIND, BY_EXTENSION, CHANGED,
    CHANGED_TO_ORIGIN, CLOSED, CONTINUE, EMPTY_LINES, FINAL, FORWARDED, GO_AHEAD, HEAD_END,
    NO_CONNECTIONS, OFFERED, ONE_CONNECTION, ONE_REQUEST, POST, POST_TO_ORIGIN, POSTED, PREVIEWS,
    REQUEST, RESPONSE, RESPONSE_FRONT, RETAGGED, TIMEOUT, TO_ORIGIN, TWO_LENGTHS, UNAVAILABLE,
    UNMODIFIED, WAITING_POST,
};

pub const ASKS: &[Deed] = &[Says(REQUEST)];

pub const ANSWERS: &[Deed] = &[Gets(TO_ORIGIN), Says(RESPONSE)];

/// The service gets a preview, asks for the rest, and answers.
pub const ADAPTS: &[Deed] = &[GetsOffer, Says(CONTINUE), Gets(BEHIND), Says(FINAL)];

/// The service leaves the message as it is.
const LEAVES: &[Deed] = &[Passes(OFFERED), Says(UNMODIFIED)];

const WAITS: &[Deed] = &[Says(WAITING_POST)];

const SAYS_ONE_REQUEST: &[Deed] = &[Passes(HEAD_END), Says(ONE_REQUEST)];

pub const SAYS_PREVIEWS: &[Deed] = &[Passes(HEAD_END), Says(PREVIEWS)];

pub const SAYS_ONE_CONNECTION: &[Deed] = &[Passes(HEAD_END), Says(ONE_CONNECTION)];

const GETS_TIMEOUT: &[Deed] = &[Gets(TIMEOUT), HearsEnd];

pub const IS_REFUSED: &[Deed] = &[Gets(UNAVAILABLE), HearsEnd];

/// The worked exchange, twice on one connection of the user, and of the service.
const WORKED: &[SceneStep] = &[
    New(User, ASKS),
    New(Origin, ANSWERS),
    New(Service, SAYS_PREVIEWS),
    On(2, ADAPTS),
    On(0, &[Gets(ADAPTED), Says(REQUEST)]),
    New(Origin, ANSWERS),
    On(2, ADAPTS),
    On(0, &[Gets(ADAPTED)]),
];

/// The service of responses gets the user's own request with the response, and judges by its extension, even if the origin
/// got another one.
const CHANGED_REQUEST: &[SceneStep] = &[
    New(User, ASKS),
    New(Service, SAYS_ONE_REQUEST),
    On(1, &[Passes(REQUEST), Says(CHANGED)]),
    New(Origin, &[Gets(CHANGED_TO_ORIGIN), Says(RESPONSE)]),
    New(Service, &[Passes(HEAD_END), Says(BY_EXTENSION)]),
    On(3, ADAPTS),
    On(0, &[Gets(ADAPTED)]),
];

/// The service takes no connection, as it says.
const REFUSING: &[SceneStep] = &[
    New(User, ASKS),
    New(Origin, ANSWERS),
    New(Service, &[Passes(HEAD_END), Says(NO_CONNECTIONS)]),
    On(0, &[Gets(BAD_GATEWAY), HearsEnd]),
];

/// The service closes the connection on which it was asked for its options.
const CLOSED_OPTIONS: &[SceneStep] = &[
    New(User, ASKS),
    New(Origin, ANSWERS),
    New(Service, &[Passes(HEAD_END), Says(CLOSED)]),
    Closes(2),
    New(Service, ADAPTS),
    On(0, &[Gets(ADAPTED)]),
];

/// Nothing comes of a request's rest, of an origin's answer, of a service's options.
const DEADLINES: &[SceneStep] = &[
    New(User, &[Says(b"GET http://o.test/a."), HearsEnd]),
    New(User, ASKS),
    New(Origin, &[]),
    On(1, GETS_TIMEOUT),
    New(User, ASKS),
    New(Origin, ANSWERS),
    New(Service, &[]),
    On(3, GETS_TIMEOUT),
];

/// A request's head isn't whole within its time.
const SLOW_HEAD: &[SceneStep] = &[New(User, &[Says(b"GET http://o.test/a."), HearsEnd])];

/// Nothing comes of a service's reply.
const SILENT_SERVICE: &[SceneStep] = &[
    New(User, ASKS),
    New(Origin, ANSWERS),
    New(Service, SAYS_PREVIEWS),
    On(2, &[GetsOffer]),
    On(0, GETS_TIMEOUT),
];

/// The service closes its idle connection, and the next request begins anew.
const RETRY: &[SceneStep] = &[
    New(User, ASKS),
    New(Origin, ANSWERS),
    New(Service, SAYS_PREVIEWS),
    On(2, LEAVES),
    On(0, &[Gets(FORWARDED)]),
    Closes(2),
    On(0, ASKS),
    New(Origin, ANSWERS),
    New(Service, LEAVES),
    On(0, &[Gets(FORWARDED)]),
];

/// The service closes its idle connection, on which the proxy would ask it for its options, since it has given another tag.
const STALE_OPTIONS: &[SceneStep] = &[
    New(User, ASKS),
    New(Origin, ANSWERS),
    New(Service, SAYS_PREVIEWS),
    On(2, &[Passes(OFFERED), Says(RETAGGED)]),
    On(0, &[Gets(FORWARDED)]),
    Closes(2),
    On(0, ASKS),
    New(Origin, ANSWERS),
    New(Service, SAYS_PREVIEWS),
    On(4, LEAVES),
    On(0, &[Gets(FORWARDED)]),
];

/// A user is refused while another one is served, and holds no room: once that one has left, the next is served.
const CROWDED: &[SceneStep] = &[
    New(User, &[Says(POST)]),
    New(Origin, &[Gets(POST_TO_ORIGIN)]),
    New(User, ASKS),
    On(2, IS_REFUSED),
    On(0, &[Says(b"abc")]),
    On(1, &[Gets(b"abc"), Says(RESPONSE)]),
    On(0, &[Gets(FORWARDED), Ends, HearsEnd]),
    New(User, ASKS),
    New(Origin, ANSWERS),
    On(3, &[Gets(FORWARDED)]),
];

/// A user that waits for `100 Continue` gets the refusal and nothing else if the budget has no room for it. If there is
/// room, it gets the 100.
const WAITS_FOR_ROOM: &[SceneStep] = &[
    Admin("capacity 4096\n", "ok\n"),
    New(User, WAITS),
    On(0, IS_REFUSED),
    Admin("capacity 16384\n", "ok\n"),
    New(User, WAITS),
    On(1, &[Gets(GO_AHEAD), Says(b"abc")]),
    New(
        Origin,
        &[Gets(POST_TO_ORIGIN), Gets(b"abc"), Says(RESPONSE)],
    ),
    On(1, &[Gets(FORWARDED)]),
];

/// A user that waits for `100 Continue` gets the refusal and nothing else if another shard's user has the only row.
const WAITS_FOR_A_ROW: &[SceneStep] = &[
    New(User, &[Says(POST)]),
    New(Origin, &[Gets(POST_TO_ORIGIN)]),
    New(User, WAITS),
    On(2, IS_REFUSED),
    On(0, &[Says(b"abc")]),
    On(1, &[Gets(b"abc"), Says(RESPONSE)]),
    On(0, &[Gets(FORWARDED)]),
];

/// A user that waits for `100 Continue` gets the refusal and nothing else if the only connection of the service has another
/// user's request.
const WAITS_FOR_THE_SERVICE: &[SceneStep] = &[
    New(User, &[Says(POST)]),
    New(Service, SAYS_ONE_REQUEST),
    On(1, &[Passes(POST)]),
    New(User, WAITS),
    On(2, IS_REFUSED),
    On(0, &[Says(b"abc")]),
    On(1, &[Passes(POSTED), Says(UNMODIFIED)]),
    New(
        Origin,
        &[Gets(POST_TO_ORIGIN), Gets(b"abc"), Says(RESPONSE)],
    ),
    New(Service, SAYS_PREVIEWS),
    On(4, LEAVES),
    On(0, &[Gets(FORWARDED)]),
];

/// The capacity changes.
const CAPACITY: &[SceneStep] = &[
    Admin("capacity 4096\n", "ok\n"),
    Admin("book\n", "rows 0 held 0 claimed 0 capacity 4096\n"),
    Admin("capacity 0\n", "bad\n"),
    New(User, ASKS),
    On(0, IS_REFUSED),
];

/// Administrators who say nothing have all seats. Further ones are answered all the same, each of their lines; so is a user.
const SILENT_ONES: &[SceneStep] = &[
    Silent(16),
    Admin("book\n", "rows 0 held 0 claimed 0 capacity 16777216\n"),
    Admin("capacity 0\n", "bad\n"),
    Admin(EMPTY_LINES, BAD_LINES),
    New(User, ASKS),
    New(Origin, ANSWERS),
    On(16, &[Gets(FORWARDED)]),
];

/// The capacity changes while four bytes of a message are held that the service has got and hasn't answered.
const HELD_BYTES: &[SceneStep] = &[
    New(User, ASKS),
    New(Origin, &[Gets(TO_ORIGIN), Says(RESPONSE_FRONT)]),
    New(Service, SAYS_PREVIEWS),
    On(2, &[GetsOffer]),
    Admin("book\n", "rows 1 held 4 claimed 16384 capacity 16777216\n"),
    Admin("capacity 16383\n", "refused 16384\n"),
    Admin("book\n", "rows 1 held 4 claimed 16384 capacity 16777216\n"),
    Admin("capacity 16384\n", "ok\n"),
    Admin("book\n", "rows 1 held 4 claimed 16384 capacity 16384\n"),
    New(User, ASKS),
    On(3, IS_REFUSED),
    Admin("capacity 32768\n", "ok\n"),
    Admin("book\n", "rows 1 held 4 claimed 16384 capacity 32768\n"),
    On(2, &[Says(CONTINUE)]),
    Awaits("book\n", "rows 1 held 0 claimed 16384 capacity 32768\n"),
    On(1, &[Says(b"ef")]),
    On(2, &[Gets(BEHIND), Says(FINAL)]),
    On(0, &[Gets(ADAPTED)]),
    Awaits("book\n", "rows 0 held 0 claimed 0 capacity 32768\n"),
];

/// Users whose connections end inside a request's head get nothing, and the next one is served.
const CUT_HEADS: &[SceneStep] = &[
    New(User, &[Says(b"G"), Ends, HearsEnd]),
    New(User, ASKS),
    New(Origin, ANSWERS),
    On(1, &[Gets(FORWARDED)]),
    New(User, &[Says(b"GET http:/"), Ends, HearsEnd]),
    New(User, ASKS),
    New(Origin, ANSWERS),
    On(4, &[Gets(FORWARDED)]),
    New(User, &[Says(ALMOST_A_REQUEST), Ends, HearsEnd]),
    New(User, ASKS),
    New(Origin, ANSWERS),
    On(7, &[Gets(FORWARDED)]),
];

/// A request with two lengths is refused, and the origin hears nothing of it.
const TWO_LENGTHS_SAID: &[SceneStep] = &[New(
    User,
    &[Says(TWO_LENGTHS), Gets(BAD_REQUEST), HearsEnd],
)];

/// The proxy stops while the service has a message.
const STOPPED: &[SceneStep] = &[
    New(User, ASKS),
    New(Origin, ANSWERS),
    New(Service, SAYS_PREVIEWS),
    On(2, &[Passes(OFFERED)]),
    Stops,
    On(0, IS_REFUSED),
];

/// The second user's shard serves it while the first one's is held back. Then the first one's shard uses the connection
/// that the other one has opened.
const HELD_BACK: &[SceneStep] = &[
    New(User, ASKS),
    New(Origin, &[]),
    New(User, ASKS),
    New(Origin, ANSWERS),
    New(Service, SAYS_PREVIEWS),
    On(4, ADAPTS),
    On(2, &[Gets(ADAPTED)]),
    On(1, &[HearsNothing]),
    Releases,
    On(1, ANSWERS),
    On(4, SAYS_PREVIEWS),
    On(4, ADAPTS),
    On(0, &[Gets(ADAPTED)]),
];

/// A scene with its name, and lines of its configuration.
pub type Named = (&'static str, LoopbackScene, &'static str);

/// Exchanges that a service adapts.
pub const ADAPTED_ONES: &[Named] = &[
    ("the worked exchange", Adapted(WORKED), "allow_limit = 0\n"),
    (
        "a changed request",
        AllAdapted(CHANGED_REQUEST),
        "allow_limit = 0\n",
    ),
    (
        "a service that takes no connection",
        Adapted(REFUSING),
        "allow_limit = 0\n",
    ),
    (
        "a service that closes after its options",
        Adapted(CLOSED_OPTIONS),
        "allow_limit = 0\n",
    ),
];

/// Connections that were idle, or that take too long.
pub const LATE_ONES: &[Named] = &[
    (
        "nobody waits for ever",
        Adapted(DEADLINES),
        "deadline = 1\nallow_limit = 0\n",
    ),
    (
        "a head has a time in all",
        Forwarded(SLOW_HEAD),
        "deadline = 3600\nhead_deadline = 1\n",
    ),
    (
        "a silent service",
        Adapted(SILENT_SERVICE),
        "deadline = 1\nallow_limit = 0\n",
    ),
    (
        "a request begins anew after an idle connection",
        Adapted(RETRY),
        "",
    ),
    (
        "the options are asked anew after an idle connection",
        Adapted(STALE_OPTIONS),
        "",
    ),
];

/// Users for whom there is no room.
pub const CROWDED_ONES: &[Named] = &[
    (
        "no row beside another user",
        Forwarded(CROWDED),
        "rows = 1\nshards = 1\n",
    ),
    ("no room for one that waits", Forwarded(WAITS_FOR_ROOM), ""),
    (
        "no row for one that waits",
        Forwarded(WAITS_FOR_A_ROW),
        "rows = 1\nshards = 2\n",
    ),
    (
        "no connection for one that waits",
        AllAdapted(WAITS_FOR_THE_SERVICE),
        "shards = 1\n",
    ),
];

/// What the administrator does, and what users do wrong.
pub const CUT_ONES: &[Named] = &[
    ("the capacity changes", Forwarded(CAPACITY), ""),
    ("silent administrators", Forwarded(SILENT_ONES), ""),
    (
        "the capacity changes while bytes are held",
        Adapted(HELD_BYTES),
        "allow_limit = 0\n",
    ),
    ("the proxy stops", Adapted(STOPPED), ""),
    ("heads that break off", Forwarded(CUT_HEADS), ""),
    ("two lengths", Forwarded(TWO_LENGTHS_SAID), ""),
];

/// Several shards.
pub const SHARDED_ONES: &[Named] = &[
    (
        "one pool serves all shards",
        OneConnection,
        "allow_limit = 0\nshards = 2\n",
    ),
    (
        "one shard is held back",
        HeldBack(HELD_BACK),
        "allow_limit = 0\nshards = 2\n",
    ),
    (
        "a user, an origin and a service in a thread each",
        Apart,
        "allow_limit = 0\n",
    ),
    (
        "icapd adapts what many users ask, who share a small budget",
        ByIcapd,
        "allow_limit = 0\nshards = 4\ncapacity = 20000\n",
    ),
];
