//! What an exchange waits for: one closed list of words.

ghost use Rattle.std.specs.Prelude.{◌≡◌};
ghost use Rattle.trace_core.specs.History.{shows};
ghost use Rattle.exchange_report.specs.Live.{point_word, awaited_word, awaited_in, taken_by, source_at, is_refusal, may, is_on_its_way, is_offered_more, awaits_reply, awaits_adapted, awaited_by};

use exchange_core::Due;
use trace_core::{Event, Point, State};

/// What an exchange waits for.
#[derive(Clone, Copy)]
pub enum Awaited {
    /// What the user sends.
    UserBody,
    /// The body of the origin's response.
    OriginBody,
    /// A connection of the service: all are in use, and the message is in the queue.
    ServiceConnection,
    /// What the service says of its options.
    ServiceOptions,
    /// The service to take what is offered to it.
    ServiceTakes,
    /// The service's reply, or its 100: it has all that it may have now.
    ServiceReply,
    /// The rest of the adapted body.
    ServiceBody,
    /// The origin to take the request.
    OriginTakes,
    /// The head of the origin's response.
    OriginAnswer,
    /// The user to take what goes to it: a message, the word to go on, or a refusal.
    UserTakes,
    /// The user to close: all is said, and what it still sends is dropped.
    UserCloses,
    /// Nobody else: the next step is the proxy's own, and others have their turn first.
    Proxy,
}

/// What goes out of a message that moves.
#[derive(Clone, Copy)]
pub enum Outgoing {
    /// The chosen message: a request to the origin, a response to the user.
    Message,
    /// A service's answer to a request, which goes back to the user.
    Answer,
    /// The proxy's own refusal, which is due to the user.
    Refusal,
}

impl Awaited {
    /// The word for it.
    pub fn word(self) -> &'static [u8]
        ensures { result.now ≡ awaited_word self }
    {
        match self {
            Awaited::UserBody => b"user-body",
            Awaited::OriginBody => b"origin-body",
            Awaited::ServiceConnection => b"service-connection",
            Awaited::ServiceOptions => b"service-options",
            Awaited::ServiceTakes => b"service-takes",
            Awaited::ServiceReply => b"service-reply",
            Awaited::ServiceBody => b"service-body",
            Awaited::OriginTakes => b"origin-takes",
            Awaited::OriginAnswer => b"origin-answer",
            Awaited::UserTakes => b"user-takes",
            Awaited::UserCloses => b"user-closes",
            Awaited::Proxy => b"proxy",
        }
    }
}

/// The word of a point.
pub fn point_word(point: Point) -> &'static [u8]
    ensures { result.now ≡ point_word point }
{
    match point {
        Point::Reqmod => b"reqmod",
        Point::Respmod => b"respmod",
    }
}

/// What an exchange waits for by what is due, where no message moves.
pub fn awaited_in(due: Due) -> Awaited
    ensures { result ≡ awaited_in due }
{
    match due {
        Due::Await => Awaited::ServiceConnection,
        Due::Ask | Due::Hear => Awaited::ServiceOptions,
        Due::ReadResponse => Awaited::OriginAnswer,
        Due::Tell | Due::Refuse(_) | Due::TryRefusal(_) => Awaited::UserTakes,
        Due::ReadRequest => Awaited::UserBody,
        Due::Linger => Awaited::UserCloses,
        _ => Awaited::Proxy,
    }
}

/// Who takes what goes out next.
fn taken_by(outgoing: Outgoing, point: Point) -> Awaited
    ensures { result ≡ taken_by outgoing point }
{
    match (outgoing, point) {
        (Outgoing::Message, Point::Reqmod) => Awaited::OriginTakes,
        _ => Awaited::UserTakes,
    }
}

/// Who sends the original body.
fn source_at(point: Point) -> Awaited
    ensures { result ≡ source_at point }
{
    match point {
        Point::Reqmod => Awaited::UserBody,
        Point::Respmod => Awaited::OriginBody,
    }
}

/// Whether an event may come next.
fn may(state: &State, event: Event) -> bool
    ensures { result ≡ may (shows state.now) event }
{
    state.fault(event).is_none()
}

/// Whether a byte of the chosen message may go out, or its end.
fn is_on_its_way(state: &State) -> bool
    ensures { result ≡ is_on_its_way (shows state.now) }
{
    may(state, Event::Usr(1)) || may(state, Event::Done)
}

/// Whether a byte of the original may go to the service, or the last chunk.
fn is_offered_more(state: &State) -> bool
    ensures { result ≡ is_offered_more (shows state.now) }
{
    may(state, Event::Svc(1)) || may(state, Event::Stop)
}

/// Whether the service has all that it may have now, and no final reply has come.
fn awaits_reply(state: &State) -> bool
    ensures { result ≡ awaits_reply (shows state.now) }
{
    let seen = state.seen();
    let waiting = seen.plan.kind.is_preview() && seen.stopped && !seen.ieof && !seen.continued;
    (seen.last_stop || waiting) && !(seen.no_mod || seen.modified)
}

/// Whether the adapted body comes, and hasn't ended.
fn awaits_adapted(state: &State) -> bool
    ensures { result ≡ awaits_adapted (shows state.now) }
{
    let seen = state.seen();
    seen.modified && !seen.adapted_over
}

/// What a message waits for that moves: that what may go out is taken, else that the service takes what is offered to it, else its
/// reply, else the adapted body, else the original one.
pub fn awaited_by(state: &State, outgoing: Outgoing) -> Awaited
    ensures { result ≡ awaited_by (shows state.now) outgoing }
{
    if matches!(outgoing, Outgoing::Refusal) {
        return Awaited::UserTakes;
    }
    if state.is_closed() {
        return Awaited::Proxy;
    }
    if is_on_its_way(state) {
        return taken_by(outgoing, state.point());
    }
    if is_offered_more(state) {
        return Awaited::ServiceTakes;
    }
    if awaits_reply(state) {
        return Awaited::ServiceReply;
    }
    if awaits_adapted(state) {
        return Awaited::ServiceBody;
    }
    if state.seen().ended {
        return Awaited::Proxy;
    }
    source_at(state.point())
}
