//! A pool as one thread sees it: its idle connections, and its numbers with their journal. Nothing
//! here knows a lock.
ghost use Rattle.std.specs.Prelude.{◌≡◌, ◌↔◌, ◌+◌, ◌≤◌, ◌<◌, ◌⊎◌, true, false, [], ◌∷◌, ◌++◌, take, drop, IsErr, IfOk, OnOk, OnErr, IfSome, IfNone, slice_get, length, vec_len, vec_capacity};
ghost use Rattle.std.specs.Fn.{FnReturnsAt};
ghost use Rattle.std.specs.VecDeque.{deque_len, deque_capacity};
ghost use Rattle.service_pool.specs.Pooled.{Takes, Chooses, Closes, IsPicked, NonePicked, NonePreferred, IsFirst, Tests, IsBusy, IsKept, lease_count, choice_count, none_open};
ghost use Rattle.service_pool.specs.Replay.{open_count, replay};
ghost use Rattle.service_pool.specs.Journal.{opening, stepped};

use crate::NoMemory;
use crate::journal::Journal;
use crate::step::{Numbers, Over, PoolStep};
use adapt_bytes::MAX_CONNECTIONS;
use std::alloc::Global;
use std::collections::VecDeque;
use std::marker::Model;

/// The idle connections of a pool, and its numbers with their journal.
///
/// Each change that isn't refused is one step, which is added to the journal; `close_idle` is two where it closes, else none.
/// The journal's steps replay from its base to the numbers now. A call that is refused is no step, and changes nothing. `J` is
/// the journal's form: `Window`, or `RebasingJournal`.
#[derive(Drop)]
pub struct PoolState<C, J: Journal> {
    // Oldest first.
    idle: VecDeque<C>,
    journal: J,
}

impl<C, J: Journal> Model for PoolState<C, J> {
    ghost use Rattle.std.specs.Prelude.{◌≤◌};
    ghost use Rattle.std.specs.VecDeque.{deque_capacity};
    ghost use Rattle.adapt_bytes.specs.declared.limits.TheConstants.{MAX_CONNECTIONS};
    ghost use Rattle.service_pool.specs.Pooled.{Pooled, IsKept};

    ghost Value = { Pooled C };

    ghost view = { λ s. record { idle = s.idle.items; journal = J.seen s.journal } };

    ghost invariant = { λ s. IsKept (record { idle = s.idle.items; journal = J.seen s.journal })
        × (MAX_CONNECTIONS ≤ deque_capacity s.idle) };
}

/// The result of a `take`.
#[derive(Debug, Drop)]
pub enum Found<C> {
    /// The idle connection that was put last.
    Idle(C),
    /// No connection is idle, and one may be opened.
    Fresh,
    /// No connection is idle, and no more may be opened.
    Busy,
}

/// The result of a `take_preferred`.
#[derive(Debug, Drop)]
pub enum Choice<C> {
    /// The first idle connection of those that the test picks.
    Picked(C),
    /// The youngest idle connection: the test picks none.
    Unpicked(C),
    /// No connection is idle, and one may be opened.
    Fresh,
    /// No connection is idle, and no more may be opened.
    Busy,
}

/// The result of a look at an idle connection.
#[derive(Drop)]
pub enum Checked<C> {
    /// It left the pool, and is to be closed.
    Closed(C),
    /// It stays.
    Stays,
    /// There is no connection at this index.
    Missing,
}

impl<C, J: Journal> PoolState<C, J> {
    /// A pool without connections, of which at most `maximum` may be open, with room for
    /// `MAX_CONNECTIONS` idle connections and `journal` steps. `Err` if that room finds no memory.
    pub fn new(alloc: Global, maximum: u64, journal: usize) -> Result<PoolState<C, J>, NoMemory>
        requires maximum { maximum ≤ MAX_CONNECTIONS }
        requires journal { 1 ≤ journal }
        ensures idle { IfOk result (λ s. s.idle ≡ []) }
        ensures journal { IfOk result (λ s. s.journal ≡ opening (none_open maximum) journal) }
    {
        let none = Numbers {
            idle: 0,
            leased: 0,
            maximum,
        };
        let journal = J::new(alloc, none, journal)?;
        // Shows that the journal is sound.
        let _numbers = journal.numbers();
        let idle = VecDeque::with_capacity(alloc, MAX_CONNECTIONS as usize)?;
        Ok(PoolState { idle, journal })
    }

    /// The numbers now, which the journal's steps replay to from its base.
    pub fn numbers(&self) -> Numbers
        ensures numbers { result ≡ self.now.journal.numbers }
        ensures replayed { replay self.now.journal.base self.now.journal.steps ≡ result }
        ensures kept { IsKept self.now }
    {
        self.journal.numbers()
    }

    /// The journal's base, a checkpoint: the numbers before the oldest step that it keeps.
    pub fn base(&self) -> Numbers
        ensures { result ≡ self.now.journal.base }
    {
        self.journal.base()
    }

    /// The step at an index of the journal, 0 being the oldest that it keeps; `None` after the
    /// last.
    pub fn journal_at(&self, index: usize) -> Option<PoolStep>
        ensures { result ≡ slice_get self.now.journal.steps index }
    {
        self.journal.step_at(index)
    }

    /// Takes the idle connection that was put last, or the right to open one, as the step `Take`.
    pub fn take(&mut self) -> Found<C>
        ensures take { Takes J.makes_room self.old self.new result }

        // It is refused exactly if no connection is idle and the leased aren't below the maximum.
        ensures busy { (result ≡ Found.Busy) ↔ IsBusy self.old }
        ensures leased { self.new.journal.numbers.leased
            ≡ self.old.journal.numbers.leased + lease_count result }
        ensures kept { IsKept self.new }
    {
        let numbers = self.journal.numbers();
        match self.idle.pop_back() {
            Some(connection) => {
                self.journal.apply(PoolStep::Take);
                Found::Idle(connection)
            }
            None if numbers.leased < numbers.maximum => {
                self.journal.apply(PoolStep::Take);
                Found::Fresh
            }
            None => Found::Busy,
        }
    }

    /// Takes the first idle connection of those that the one test picks, whatever younger ones there are: the
    /// youngest that the other test prefers, or the youngest where it prefers none. Where none is picked it
    /// takes the youngest of all, or the right to open one. It is the step `Take`, and the others keep their
    /// order.
    pub fn take_preferred<F: Fn(&C) -> bool, G: Fn(&C) -> bool>(
        &mut self,
        picked: &F,
        prefers: &G,
    ) -> Choice<C>
        requires picked { F.IsAlwaysCallable picked.now }
        requires prefers { G.IsAlwaysCallable prefers.now }
        ensures take { Chooses J.makes_room F.Fn picked.now G.Fn prefers.now self.old self.new result }

        // A preference refuses nothing.
        ensures busy { (result ≡ Choice.Busy) ↔ IsBusy self.old }
        ensures leased { self.new.journal.numbers.leased
            ≡ self.old.journal.numbers.leased + choice_count result }
        ensures kept { IsKept self.new }
    {
        let Some(index) = first_picked(&self.idle, picked, prefers) else {
            return match self.take() {
                Found::Idle(connection) => Choice::Unpicked(connection),
                Found::Fresh => Choice::Fresh,
                Found::Busy => Choice::Busy,
            };
        };
        // Shows that one is idle.
        let _numbers = self.journal.numbers();
        match self.idle.remove(index) {
            Some(connection) => {
                self.journal.apply(PoolStep::Take);
                Choice::Picked(connection)
            }
            None => unreachable!(),
        }
    }

    /// Puts a leased connection back, as the step `Put`. It is kept as an idle one if at most the
    /// maximum are open, itself included. Otherwise it is handed back to be closed.
    pub fn put(&mut self, connection: C) -> Option<C>
        requires { 1 ≤ self.old.journal.numbers.leased }
        ensures stays { IfNone result
            ((open_count self.old.journal.numbers ≤ self.old.journal.numbers.maximum)
            × (self.new.idle ≡ self.old.idle ++ connection ∷ [])) }
        ensures back { IfSome result (λ c. (c ≡ connection)
            × (self.old.journal.numbers.maximum < open_count self.old.journal.numbers)
            × (self.new.idle ≡ self.old.idle)) }
        ensures step { self.new.journal ≡ stepped J.makes_room self.old.journal PoolStep.Put }
        ensures leased { self.new.journal.numbers.leased + 1 ≡ self.old.journal.numbers.leased }
        ensures kept { IsKept self.new }
    {
        let numbers = self.journal.numbers();
        self.journal.apply(PoolStep::Put);
        if numbers.idle + numbers.leased <= numbers.maximum {
            self.idle.push_back_reserved(connection);
            None
        } else {
            Some(connection)
        }
    }

    /// Releases a leased connection, which the caller closes, as the step `GiveUp`.
    pub fn give_up(&mut self)
        requires { 1 ≤ self.old.journal.numbers.leased }
        ensures idle { self.new.idle ≡ self.old.idle }
        ensures step { self.new.journal ≡ stepped J.makes_room self.old.journal PoolStep.GiveUp }
        ensures leased { self.new.journal.numbers.leased + 1 ≡ self.old.journal.numbers.leased }
        ensures kept { IsKept self.new }
    {
        self.journal.apply(PoolStep::GiveUp);
    }

    /// Opens a connection in place of a leased one that broke, as the step `Replace`. `Over` if
    /// more than the maximum are open; then it isn't a step.
    pub fn replace(&mut self) -> Result<(), Over>
        requires { 1 ≤ self.old.journal.numbers.leased }
        ensures over { IsErr result
            ↔ (self.old.journal.numbers.maximum < open_count self.old.journal.numbers) }
        ensures idle { self.new.idle ≡ self.old.idle }
        ensures step { OnOk result
            (self.new.journal ≡ stepped J.makes_room self.old.journal PoolStep.Replace) }
        ensures err { OnErr result (self.new ≡ self.old) }
        ensures leased { self.new.journal.numbers.leased ≡ self.old.journal.numbers.leased }
        ensures kept { IsKept self.new }
    {
        let numbers = self.journal.numbers();
        if numbers.idle + numbers.leased > numbers.maximum {
            return Err(Over);
        }
        self.journal.apply(PoolStep::Replace);
        Ok(())
    }

    /// Hands out the idle connection at this index, 0 being the oldest, to be closed, where the test picks
    /// it. It leaves as one that is taken and given up at once, by these two steps. One that stays is no
    /// step.
    pub fn close_idle<F: Fn(&C) -> bool>(&mut self, index: usize, is_over: &F) -> Checked<C>
        requires { F.IsAlwaysCallable is_over.now }
        ensures closes { Closes J.makes_room self.old self.new index result }

        // None is closed that the test doesn't pick, and none stays that it does.
        ensures picked { IsPicked F.Fn is_over.now self.old.idle index result }
        ensures leased { self.new.journal.numbers.leased ≡ self.old.journal.numbers.leased }
        ensures kept { IsKept self.new }
    {
        let picked = match self.idle.get(index) {
            Some(connection) => picks(is_over, connection),
            None => return Checked::Missing,
        };
        if !picked {
            return Checked::Stays;
        }
        // Shows that one is idle.
        let _numbers = self.journal.numbers();
        match self.idle.remove(index) {
            Some(connection) => {
                self.journal.apply(PoolStep::Take);
                self.journal.apply(PoolStep::GiveUp);
                Checked::Closed(connection)
            }
            None => unreachable!(),
        }
    }

    /// Sets the largest number of open connections, as the step `Limit`, and hands back idle ones to
    /// be closed: oldest first, until at most that many are open or no connection is idle. `Err` if
    /// their list finds no memory.
    pub fn set_max(&mut self, alloc: Global, maximum: u64) -> Result<Vec<C>, NoMemory>
        requires { maximum ≤ MAX_CONNECTIONS }
        ensures oldest { IfOk result (λ closed. closed.items ++ self.new.idle ≡ self.old.idle) }
        ensures few { IfOk result (λ closed. vec_len closed ≤ MAX_CONNECTIONS) }
        ensures step { OnOk result
            (self.new.journal ≡ stepped J.makes_room self.old.journal (PoolStep.Limit maximum)) }
        ensures err { OnErr result (self.new ≡ self.old) }
        ensures leased { self.new.journal.numbers.leased ≡ self.old.journal.numbers.leased }
        ensures kept { IsKept self.new }
    {
        let numbers = self.journal.numbers();
        let keep = maximum.saturating_sub(numbers.leased);
        let surplus = numbers.idle.saturating_sub(keep) as usize;
        let mut closed = Vec::with_capacity(alloc, surplus)?;
        move_oldest(&mut self.idle, &mut closed, surplus);
        self.journal.apply(PoolStep::Limit(maximum));
        Ok(closed)
    }
}

// Whether the test picks a connection.
fn picks<C, F: Fn(&C) -> bool>(is_over: &F, connection: &C) -> bool
    requires { F.IsAlwaysCallable is_over.now }
    ensures { FnReturnsAt F.Fn is_over.now connection.now result }
{
    is_over(connection)
}

// The index of the first connection of those that the one test picks, 0 being the oldest.
fn first_picked<C, F: Fn(&C) -> bool, G: Fn(&C) -> bool>(
    idle: &VecDeque<C>,
    picked: &F,
    prefers: &G,
) -> Option<usize>
    requires picked { F.IsAlwaysCallable picked.now }
    requires prefers { G.IsAlwaysCallable prefers.now }
    ensures picked { IfSome result (λ index. (index < length idle.now.items)
        × Tests F.Fn picked.now idle.now.items index true
        × IsFirst F.Fn picked.now G.Fn prefers.now idle.now.items index) }
    ensures none { IfNone result (NonePicked F.Fn picked.now idle.now.items 0) }
{
    match youngest_preferred(idle, picked, prefers) {
        Some(index) => Some(index),
        None => youngest_picked(idle, picked),
    }
}

// Whether the one test picks a connection and the other one prefers it.
fn is_preferred<C, F: Fn(&C) -> bool, G: Fn(&C) -> bool>(
    picked: &F,
    prefers: &G,
    connection: &C,
) -> bool
    requires picked { F.IsAlwaysCallable picked.now }
    requires prefers { G.IsAlwaysCallable prefers.now }
    ensures yes { result ≡ true → FnReturnsAt F.Fn picked.now connection.now true
        × FnReturnsAt G.Fn prefers.now connection.now true }
    ensures no { result ≡ false → FnReturnsAt F.Fn picked.now connection.now false
        ⊎ FnReturnsAt G.Fn prefers.now connection.now false }
{
    picks(picked, connection) && picks(prefers, connection)
}

// The index of the youngest connection that the one test picks and the other one prefers.
fn youngest_preferred<C, F: Fn(&C) -> bool, G: Fn(&C) -> bool>(
    idle: &VecDeque<C>,
    picked: &F,
    prefers: &G,
) -> Option<usize>
    requires picked { F.IsAlwaysCallable picked.now }
    requires prefers { G.IsAlwaysCallable prefers.now }
    ensures picked { IfSome result (λ index. (index < length idle.now.items)
        × Tests F.Fn picked.now idle.now.items index true
        × Tests G.Fn prefers.now idle.now.items index true
        × NonePreferred F.Fn picked.now G.Fn prefers.now idle.now.items (index + 1)) }
    ensures none { IfNone result (NonePreferred F.Fn picked.now G.Fn prefers.now idle.now.items 0) }
{
    let count = idle.len();
    for passed in 0..count {
        let index = count - 1 - passed;
        if is_preferred(picked, prefers, &idle[index]) {
            return Some(index);
        }
    }
    None
}

// The index of the youngest connection that the test picks.
fn youngest_picked<C, F: Fn(&C) -> bool>(idle: &VecDeque<C>, picked: &F) -> Option<usize>
    requires { F.IsAlwaysCallable picked.now }
    ensures picked { IfSome result (λ index. (index < length idle.now.items)
        × Tests F.Fn picked.now idle.now.items index true
        × NonePicked F.Fn picked.now idle.now.items (index + 1)) }
    ensures none { IfNone result (NonePicked F.Fn picked.now idle.now.items 0) }
{
    let count = idle.len();
    for passed in 0..count {
        let index = count - 1 - passed;
        if picks(picked, &idle[index]) {
            return Some(index);
        }
    }
    None
}

// Moves the first items of a queue to the end of a list, which has room for them.
fn move_oldest<C>(from: &mut VecDeque<C>, to: &mut Vec<C>, count: usize)
    requires enough { count ≤ deque_len from.old }
    requires room { vec_len to.old + count ≤ vec_capacity to.old }
    ensures moved { to.new.items ≡ to.old.items ++ take count from.old.items }
    ensures left { from.new.items ≡ drop count from.old.items }
    ensures capacity { deque_capacity from.new ≡ deque_capacity from.old }
{
    for _moved in 0..count {
        let Some(oldest) = from.pop_front() else {
            unreachable!()
        };
        to.push_reserved(oldest);
    }
}
