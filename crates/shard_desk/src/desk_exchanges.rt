//! The exchanges of a thread, at its desk: what becomes of each is done with the desk as its surroundings.

ghost use Rattle.std.specs.Prelude.{◌≡◌, ◌⊎◌, is_some, None, Some, true};
ghost use Rattle.exchange_core.specs.Course.{start, after};
ghost use Rattle.exchange_core.specs.declared.event.Event.TheVariants.{Failed};
ghost use Rattle.exchange_core.specs.declared.event.RefusalCause.TheVariants.{Scarce};
ghost use Rattle.exchange_core.specs.Dues.{due_of, is_over};
ghost use Rattle.shard_exchange.specs.Hand.{IsEmpty};
ghost use Rattle.shard_exchange.specs.Outcomes.{Does};
ghost use Rattle.shard_exchange.specs.Resting.{RestsOn};
ghost use Rattle.shard_exchange.specs.Steps.{is_step};
ghost use Rattle.shard_desk.specs.Stepped.{IsDoneAt, IsRestedAt};

use crate::desk::Desk;
use crate::exchanges::Exchanges;
use crate::seat::Purpose;
use crate::shard::turn_away;
use crate::shared::Shares;
use crate::showing::show;
use crate::spot::Spot;
use adapt_sides::Scratch;
use event_loop::{Question, Sheet};
use proxy_rules::Incoming;
use shard_exchange::{Exchange, Holder, InHand, Step, Stepping, Task};
use shard_message::{Holdings, Kinds, Outside};
use socket_wire::{Dial, Unread, UserWire};
use std::alloc::{AllocError, AllocFailed, Global};
use std::boxed::Box;
use std::sync::Wait;
use std::time::Clock;
use wire_kit::Gate;

/// The first request of a user for whom there is room. `None` if no memory was found for it.
fn first_message(alloc: Global, purpose: Purpose) -> Option<Box<Incoming>>
    ensures { purpose ≡ Purpose.Refusal → result ≡ None }
{
    match purpose {
        Purpose::Requests => match Box::new(alloc, Incoming::request(alloc)) {
            Ok(message) => Some(message),
            Err(_) => None,
        },
        Purpose::Refusal => None,
    }
}

/// What a user's connection begins with: its first request, or the refusal where there is none.
fn begin_with<O: Kinds>(user: O::User, message: Option<Box<Incoming>>) -> Exchange<Holdings<O>>
    ensures empty { IsEmpty (⟦<Holdings<O> as InHand>⟧.hand result.holdings) }
    ensures has { (result.holdings.user ≡ Some user) × (result.holdings.message ≡ message) }
    ensures served { is_some message ≡ true → result.course ≡ start }
    ensures refused { message ≡ None → result.course ≡ after start (Failed Scarce) }
{
    match message {
        Some(message) => Exchange::begin(Holdings::new(user, Some(message))),
        None => Exchange::turn_away(Holdings::new(user, None)),
    }
}

/// A user's connection, on the heap for as long as it lives. Where no memory is found for that, the user's wire comes back.
fn begin<O: Kinds>(
    alloc: Global,
    user: O::User,
    purpose: Purpose,
) -> Result<Box<Exchange<Holdings<O>>>, Option<O::User>> {
    match Box::new(alloc, begin_with(user, first_message(alloc, purpose))) {
        Ok(exchange) => Ok(exchange),
        Err(AllocFailed { value }) => Err(value.into_holdings().into_user()),
    }
}

/// Has an exchange do a task, in whatever surroundings. At the types of a desk and its spots the prover gives up on `Exchange::act`, so
/// this stands apart from `DeskExchanges::act`.
#[inline(always)]
fn act_on<P, O: Outside<P>, R: Wait>(
    rt: &R,
    at: &P,
    outside: &mut O,
    scratch: &mut Box<Scratch>,
    exchange: &mut Exchange<Holdings<O>>,
    task: Task,
) -> Step
    ensures over { result ≡ Step.Over → is_over exchange.new.course ≡ true }
    ensures lost { task ≡ Task.Lose → is_over exchange.new.course ≡ true }
    ensures does { is_step task exchange.old.course ≡ true
        → Does (⟦<Exchange<Holdings<O>> as Stepping<P, O>>⟧.does exchange.old outside.old exchange.new outside.new at.now) (due_of exchange.old.course) }
    ensures rests { is_step task exchange.old.course ≡ true → result ≡ Step.Waits
        → RestsOn (⟦<Exchange<Holdings<O>> as Stepping<P, O>>⟧.tried exchange.old outside.old exchange.new outside.new at.now) (due_of exchange.old.course)
        ⊎ (task ≡ Task.TakeLeave) }
{
    exchange.act(rt, at, outside, scratch, task)
}

/// The user's connection, where no byte of a request was read.
fn unheard<O: Kinds>(exchange: &Exchange<Holdings<O>>) -> Option<&O::User> {
    if exchange.holdings().has_begun() {
        None
    } else {
        exchange.holdings().user()
    }
}

/// The exchanges of a thread, at its desk.
#[derive(Drop)]
pub struct DeskExchanges<S> {
    desk: Desk<S>,
    /// The buffers that the turns of this thread are lent.
    scratch: Box<Scratch>,
}

impl<S: Shares + Drop> DeskExchanges<S> {
    /// A thread's exchanges before the first user; `rows` users may be served at once. `Err` if no memory was found.
    pub fn new(alloc: Global, shared: S, rows: usize) -> Result<DeskExchanges<S>, AllocError> {
        let desk = Desk::new(alloc, shared, rows)?;
        let scratch = Scratch::new(alloc)?;
        Ok(DeskExchanges { desk, scratch })
    }
}

impl<S: Shares> Exchanges for DeskExchanges<S> {
    type Exchange = Exchange<Holdings<Desk<S>>>;

    type Seating = Desk<S>;

    ghost users_of = { λ exchanges. exchanges.desk };

    fn users(&self) -> &Desk<S> {
        &self.desk
    }

    fn users_mut(&mut self) -> &mut Desk<S> {
        &mut self.desk
    }

    fn begin(&self, user: UserWire, purpose: Purpose) -> Option<Box<Exchange<Holdings<Desk<S>>>>> {
        match begin(self.desk.alloc, user, purpose) {
            Ok(exchange) => Some(exchange),
            Err(user) => {
                if let Some(user) = user {
                    turn_away(user.into_stream());
                }
                None
            }
        }
    }

    #[inline(always)]
    fn act<'r, R: Wait + Dial + Clock, G: Gate>(
        &mut self,
        at: &Spot<'r, R, G>,
        exchange: &mut Exchange<Holdings<Desk<S>>>,
        task: Task,
    ) -> Step
        ensures over { result ≡ Step.Over → is_over exchange.new.course ≡ true }
        ensures lost { task ≡ Task.Lose → is_over exchange.new.course ≡ true }
        ensures does { is_step task exchange.old.course ≡ true
            → IsDoneAt (λ before. ⟦<Exchange<Holdings<Desk<S>>> as Stepping<Spot<'r, R, G>, Desk<S>>>⟧.does exchange.old before exchange.new self.new.desk at.entry.now)
            (due_of exchange.old.course) }
        ensures rests { is_step task exchange.old.course ≡ true → result ≡ Step.Waits
            → IsRestedAt (λ before. ⟦<Exchange<Holdings<Desk<S>>> as Stepping<Spot<'r, R, G>, Desk<S>>>⟧.tried exchange.old before exchange.new self.new.desk at.entry.now)
            (due_of exchange.old.course) task }
    {
        self.desk.take_up(at.rt, at.key);
        act_on(at.rt, at, &mut self.desk, &mut self.scratch, exchange, task)
    }

    fn show<R: Clock>(
        &self,
        rt: &R,
        key: usize,
        exchange: &Exchange<Holdings<Desk<S>>>,
        question: Question,
        now: u64,
        sheet: &mut Sheet,
    ) {
        show(rt, &self.desk, key, exchange, question, now, sheet);
    }

    fn is_wanted(exchange: &Exchange<Holdings<Desk<S>>>) -> bool {
        match unheard(exchange) {
            Some(user) => user.unread() == Unread::Bytes,
            None => false,
        }
    }
}
