//! A row's exchange, step by step, and what happens to it from outside.

ghost use Rattle.shard_exchange.specs.Hand.{IsFresh};

use crate::exchanges::memory::RowMoment;
use crate::stage::{LineOwner, RowStage, first_word, name_of};
use adapt_sides::Scratch;
use exchange_core::Phase;
use proxy_rules::Incoming;
use shard_exchange::{Effects, Exchange, Holder, Step, Task};
use shard_message::{Holdings, Outside};
use std::boxed::Box;
use std::sync::Wait;
use test_rows::{Scene, Values, number_by, parts};

/// The most steps of a row.
const STEPS: usize = 20_000;

/// How often all wait before it is clear that nothing more comes.
const WAITS: usize = 4;

/// An exchange with its surroundings. What these are made of isn't seen by what plays a row.
pub trait Playable {
    /// What the user's connection is in the midst of.
    fn phase(&self) -> Phase;

    /// Does a task.
    fn act<R: Wait>(&mut self, rt: &R, at: RowMoment, task: Task) -> Step;

    /// The proxy drains.
    fn drain(&mut self);
}

/// An exchange, and its surroundings.
#[must_use]
pub struct LiveExchange<H: Holder> {
    exchange: Exchange<H>,
    memory: H::Outside,
}

impl<H: Effects<RowMoment>> Playable for LiveExchange<H> {
    fn phase(&self) -> Phase {
        self.exchange.phase()
    }

    fn act<R: Wait>(&mut self, rt: &R, at: RowMoment, task: Task) -> Step {
        self.exchange
            .act(rt, &at, &mut self.memory, &mut Scratch::zeroed(), task)
    }

    fn drain(&mut self) {
        self.exchange.drain();
    }
}

/// What is left of a row that was played.
#[must_use]
pub struct PlayedRow<H: Holder> {
    /// Whether it came to an end.
    pub ends: bool,
    /// Where the exchange stood then.
    pub phase: Phase,
    pub holdings: H,
    pub memory: H::Outside,
}

impl<H: Holder> LiveExchange<H> {
    /// An exchange at whose beginning this is held.
    pub fn begin(holdings: H, memory: H::Outside) -> LiveExchange<H>
        requires { IsFresh (H.hand holdings) }
    {
        let exchange = Exchange::begin(holdings);
        LiveExchange { exchange, memory }
    }

    /// What is left of it.
    pub fn into_played(self, ends: bool) -> PlayedRow<H> {
        let LiveExchange { exchange, memory } = self;
        PlayedRow {
            ends,
            phase: exchange.phase(),
            holdings: exchange.into_holdings(),
            memory,
        }
    }
}

/// Plays a row to its end, at whose beginning this is held.
fn play_held<H: Effects<RowMoment>, R: Wait>(
    rt: &R,
    stage: &RowStage,
    scene: Scene<'_>,
    values: Values,
    holdings: H,
    memory: H::Outside,
) -> PlayedRow<H>
    requires { IsFresh (H.hand holdings) }
{
    let live = LiveExchange::begin(holdings, memory);
    let mut play = Play::new(stage, scene, values, live);
    let ends = play.play(rt);
    play.into_live().into_played(ends)
}

/// Plays a row to its end, whose user has sent nothing yet.
pub fn play_row<O: Outside<RowMoment>, R: Wait>(
    rt: &R,
    stage: &RowStage,
    scene: Scene<'_>,
    values: Values,
    user: O::User,
    message: Box<Incoming>,
    memory: O,
) -> PlayedRow<Holdings<O>> {
    let holdings = Holdings::new(user, Some(message));
    play_held(rt, stage, scene, values, holdings, memory)
}

/// A row's exchange in play.
struct Play<'a, X: Playable> {
    live: X,
    stage: &'a RowStage,
    values: Values,
    /// The words of what happens from outside, and where.
    outside: &'a [u8],
    at: RowMoment,
    /// How often all have waited in a row.
    waits: usize,
    phase: Phase,
}

/// Nothing is late.
pub const IN_TIME: RowMoment = RowMoment {
    late: false,
    rested: false,
    waited: false,
};

impl<'a, X: Playable> Play<'a, X> {
    /// Before the first step.
    fn new(stage: &'a RowStage, scene: Scene<'a>, values: Values, live: X) -> Play<'a, X> {
        Play {
            live,
            stage,
            values,
            outside: scene.get(b"outside"),
            at: IN_TIME,
            waits: 0,
            phase: Phase::Head,
        }
    }

    /// Whether what happens next from outside happens here: `stop@moving` when the exchange is in a phase, `stop@~moving` when all
    /// wait there, and `stop@7` before the eighth step.
    fn is_here(&self, phase: &[u8], step: usize) -> bool {
        let here = name_of(self.live.phase());
        match phase {
            [b'~', phase @ ..] => phase == here && self.waits > 0,
            phase => phase == here || number_by(phase, self.values) == Some(step),
        }
    }

    /// Has happen what comes from outside. A deadline passes only where all wait. False where the proxy has stopped.
    fn meet<R: Wait>(&mut self, rt: &R, step: usize) -> bool {
        let (word, rest) = first_word(self.outside);
        let Some((what, phase)) = parts(word, b'@') else {
            return true;
        };
        let is_timed = matches!(what, b"late" | b"rested" | b"waited");
        if !self.is_here(phase, step) || is_timed && self.waits == 0 {
            return true;
        }
        self.outside = rest;
        match what {
            b"late" => self.at.late = true,
            b"rested" => self.at.rested = true,
            b"waited" => self.at.waited = true,
            b"drain" => self.live.drain(),
            b"lost" => {
                self.stage.lose(LineOwner::User);
                self.live.act(rt, self.at, Task::Lose);
            }
            _ => {
                self.live.act(rt, self.at, Task::Halt);
                self.take_leave(rt);
                return false;
            }
        }
        true
    }

    /// Has the user of a stopped exchange take its leave, until it takes no more for a few waits.
    fn take_leave<R: Wait>(&mut self, rt: &R) {
        let mut waits: usize = 0;
        for _ in 0..STEPS {
            match self.live.act(rt, self.at, Task::TakeLeave) {
                Step::Over => return,
                Step::On | Step::Turned { .. } | Step::Unmoved => waits = 0,
                Step::Waits => {
                    self.stage.wait();
                    waits = waits.saturating_add(1);
                    if waits == WAITS {
                        return;
                    }
                }
            }
        }
    }

    /// A step. Whether there may be a further one: all wait for something that comes.
    fn goes_on<R: Wait>(&mut self, rt: &R) -> bool {
        match self.live.act(rt, self.at, Task::Step) {
            Step::On | Step::Turned { .. } => {
                self.at = IN_TIME;
                self.waits = 0;
                true
            }
            Step::Unmoved => true,
            Step::Waits => {
                self.stage.wait();
                self.waits = self.waits.saturating_add(1);
                self.waits < WAITS
            }
            Step::Over => false,
        }
    }

    /// Takes note of the phase, where the row asks for it.
    fn note_phase(&mut self) {
        let phase = self.live.phase();
        if phase != self.phase {
            self.stage.note_phase(name_of(phase));
            self.phase = phase;
        }
    }

    /// Steps until it is over, or nothing more comes. False where it goes on and on.
    fn run<R: Wait>(&mut self, rt: &R) -> bool {
        for step in 0..STEPS {
            self.note_phase();
            let runs = self.meet(rt, step);
            self.note_phase();
            if !runs || !self.goes_on(rt) {
                return true;
            }
        }
        false
    }

    /// Plays it to its end. False where it has none.
    fn play<R: Wait>(&mut self, rt: &R) -> bool {
        let ends = self.run(rt);
        self.note_phase();
        self.stage.end();
        ends
    }

    /// The exchange with its surroundings.
    fn into_live(self) -> X {
        let Play {
            live,
            stage: _,
            values: _,
            outside: _,
            at: _,
            waits: _,
            phase: _,
        } = self;
        live
    }
}
