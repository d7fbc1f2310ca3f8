//! The course of one user's connection, from its first event to its last.

ghost use Rattle.std.specs.Prelude.{◌≡◌, ◌||◌, true, false};

use crate::due::Due;
use crate::event::{Event, RefusalCause};
use crate::state::CourseState;
use std::marker::Model;

/// The course of one user's connection. To a contract it is its state, to which some legal log of events leads: so the laws hold of it.
///
/// ```
/// let mut course = Course::begin();
/// assert_eq!(rt; course.due(), Due::ReadRequest);
/// assert_eq!(rt; course.may(Event::Served { usable: true }), false);
/// if course.may(Event::RequestRead) {
///     course.take(Event::RequestRead);
/// }
/// assert_eq!(rt; course.due(), Due::Plan);
/// ```
#[derive(Drop)]
pub struct Course {
    state: CourseState,
}

impl Model for Course {
    ghost use Rattle.exchange_core.specs.declared.state.CourseState.{CourseState};

    ghost Value = { CourseState };

    ghost use Rattle.exchange_core.specs.Log.{IsReached};

    ghost view = { λ course. course.state };

    ghost invariant = { λ course. IsReached course.state };
}

impl Course {
    ghost use Rattle.exchange_core.specs.declared.event.Event.TheVariants.{Failed, UserLost, Dropped, Late};
    ghost use Rattle.exchange_core.specs.declared.due.Due.TheVariants.{Await, Start, Turn, ReadResponse};
    ghost use Rattle.exchange_core.specs.Course.{start, after};
    ghost use Rattle.exchange_core.specs.May.{may_come, is_free, is_refusing, is_gone};
    ghost use Rattle.exchange_core.specs.Dues.{due_of, comes_of, fits, is_wait, fails_of, is_for_user, is_between};
    ghost use Rattle.exchange_core.specs.Log.{IsReached, Goes};

    /// Before the first event: the head of the first request comes.
    pub fn begin() -> Course
        ensures { result ≡ start }
    {
        Course {
            state: CourseState::start(),
        }
    }

    /// Whether an event may come next.
    #[inline(always)]
    pub fn may(&self, event: Event) -> bool
        ensures { result ≡ may_come self.now event }
    {
        self.state.may(event)
    }

    /// Takes an event that may come next.
    #[inline(always)]
    pub fn take(&mut self, event: Event)
        requires { may_come self.old event ≡ true }
        ensures after { self.new ≡ after self.old event }
        ensures goes { Goes self.old self.new }
    {
        self.state = self.state.after(event);
    }

    /// Takes what came of doing what is due, where it fits what is there.
    #[inline(always)]
    pub fn done(&mut self, event: Event)
        requires due { comes_of (due_of self.old) event ≡ true }
        requires fits { fits self.old event ≡ true }
        ensures after { self.new ≡ after self.old event }
        ensures goes { Goes self.old self.new }
    {
        self.state = self.state.after(event);
    }

    /// Takes a deadline, where what is due may have to wait.
    #[inline(always)]
    pub fn late(&mut self)
        requires { is_wait (due_of self.old) ≡ true }
        ensures after { self.new ≡ after self.old Late }
        ensures goes { Goes self.old self.new }
    {
        self.state = self.state.after(Event::Late);
    }

    /// Takes it that the message, or the head before it, goes no further, for a cause of which what is due may fail.
    #[inline(always)]
    pub fn failed(&mut self, why: RefusalCause)
        requires { fails_of (due_of self.old) why ≡ true }
        ensures after { self.new ≡ after self.old (Failed why) }
        ensures goes { Goes self.old self.new }
    {
        self.state = self.state.after(Event::Failed(why));
    }

    /// Takes it that the user is lost, while something is due for it.
    #[inline(always)]
    pub fn lost(&mut self)
        requires { is_for_user (due_of self.old) ≡ true }
        ensures after { self.new ≡ after self.old UserLost }
        ensures goes { Goes self.old self.new }
    {
        self.state = self.state.after(Event::UserLost);
    }

    /// Takes it that the user's connection was closed at once, while no request of it is under way.
    #[inline(always)]
    pub fn dropped(&mut self)
        requires { is_between (due_of self.old) ≡ true }
        ensures after { self.new ≡ after self.old Dropped }
        ensures goes { Goes self.old self.new }
    {
        self.state = self.state.after(Event::Dropped);
    }

    /// What is due. While that is for the user, the proxy doesn't stop. Who waits in the queue has no lease and no reservation. A
    /// transaction starts and turns with a reservation and the origin's connection, and the origin is heard on its connection.
    #[inline(always)]
    pub fn due(&self) -> Due
        ensures due { result ≡ due_of self.now }
        ensures serves { is_for_user result ≡ true → self.now.stopping ≡ false }
        ensures queues { result ≡ Await → is_free self.now ≡ true }
        ensures starts { result ≡ Start → (self.now.stake ≡ true) × (self.now.origin ≡ true) }
        ensures turns { result ≡ Turn → (self.now.stake ≡ true) × (self.now.origin ≡ true) }
        ensures hears { result ≡ ReadResponse → self.now.origin ≡ true }
    {
        self.state.due()
    }

    /// Where it stands. Once the proxy stops, a refusal may be tried, and what is held goes back.
    #[inline(always)]
    pub fn state(&self) -> CourseState
        ensures same { result ≡ self.now }
        ensures reached { IsReached result }
        ensures stops { result.stopping ≡ true → (is_refusing result.phase || is_gone result.phase) ≡ true }
    {
        self.state
    }
}
