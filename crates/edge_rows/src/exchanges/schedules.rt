//! Schedules of exchanges that are driven only where something was news for them, as a thread's loop drives them. No second passes that
//! would drive all: so one that rests though it could go on was never woken.

ghost use Rattle.shard_exchange.specs.Hand.{IsFresh};

use crate::exchanges::memory::RowMoment;
use crate::exchanges::play::{IN_TIME, LiveExchange, Playable, PlayedRow};
use crate::stage::RowStage;
use exchange_core::Phase;
use shard_exchange::{Effects, Step, Task};
use std::sync::Wait;
use test_rows::{Scene, Values};

/// The most turns of a schedule.
const TURNS: u64 = 5_000;

/// What a schedule came to.
#[derive(Clone, Copy, PartialEq, Eq)]
pub enum ScheduleEnd {
    /// All exchanges are over.
    Over,
    /// One rests: nothing that it waits for can come any more.
    Rests,
    /// One rests, though it could go on.
    Lost,
    /// It goes on and on.
    On,
}

/// Plays a schedule of two exchanges, or of one, at whose beginning this is held.
pub fn play_both<H: Effects<RowMoment>, R: Wait>(
    rt: &R,
    stage: &RowStage,
    scene: Scene<'_>,
    values: Values,
    one: H,
    two: H,
    outsides: (H::Outside, H::Outside),
) -> (ScheduleEnd, PlayedRow<H>, PlayedRow<H>)
    requires one { IsFresh (H.hand one) }
    requires two { IsFresh (H.hand two) }
{
    let has_two = scene.has(b"user 2");
    let mut schedule = Schedule {
        one: LiveExchange::begin(one, outsides.0),
        two: LiveExchange::begin(two, outsides.1),
        stage,
        scene,
        values,
        marks: [true, has_two],
        overs: [false, !has_two],
        task: Task::Step,
    };
    let came = schedule.run(rt);
    let Schedule {
        one,
        two,
        stage: _,
        scene: _,
        values: _,
        marks: _,
        overs: _,
        task: _,
    } = schedule;
    (came, one.into_played(true), two.into_played(true))
}

/// Two exchanges in play.
struct Schedule<'a, X: Playable> {
    one: X,
    two: X,
    stage: &'a RowStage,
    scene: Scene<'a>,
    values: Values,
    /// Which of them have more to do, and which are over.
    marks: [bool; 2],
    overs: [bool; 2],
    /// What a drive has them do.
    task: Task,
}

impl<'a, X: Playable> Schedule<'a, X> {
    /// What an exchange is in the midst of.
    fn phase(&self, key: usize) -> Phase {
        if key == 0 {
            self.one.phase()
        } else {
            self.two.phase()
        }
    }

    /// Has an exchange do a task. One whose user is lost ends.
    fn act<R: Wait>(&mut self, rt: &R, key: usize, task: Task) -> Step {
        let waits = matches!(self.phase(key), Phase::InQueue { .. });
        let task = if self.stage.turn_to(key, waits) {
            Task::Lose
        } else {
            task
        };
        if key == 0 {
            self.one.act(rt, IN_TIME, task)
        } else {
            self.two.act(rt, IN_TIME, task)
        }
    }

    /// Takes note of how far an exchange came. Whether its drive goes on.
    fn heed(&mut self, key: usize, step: Step) -> bool {
        if step == Step::Over
            && let Some(over) = self.overs.get_mut(key)
        {
            *over = true;
        }
        step != Step::Over && step != Step::Waits
    }

    /// Drives an exchange until all its connections wait, or it is cut short: then it has a mark. Meanwhile things happen outside.
    fn drive<R: Wait>(&mut self, rt: &R, key: usize) {
        for _ in 0..self.stage.below(8).saturating_add(1) {
            if self.stage.below(3) == 0 {
                self.stage.happen(self.scene, self.values);
            }
            let step = self.act(rt, key, self.task);
            if !self.heed(key, step) {
                return;
            }
        }
        if !self.scene.is(b"plant", b"no mark")
            && let Some(mark) = self.marks.get_mut(key)
        {
            *mark = true;
        }
    }

    /// Stops the proxy: each exchange is to have its user take its leave from now on.
    fn halt<R: Wait>(&mut self, rt: &R) {
        self.task = Task::TakeLeave;
        for key in 0..2 {
            if !self.overs[key] {
                let step = self.act(rt, key, Task::Halt);
                self.heed(key, step);
                self.marks[key] = true;
            }
        }
    }

    /// What it came to once nothing can happen any more: whether a step that is forced goes on, when all is told once more.
    fn end<R: Wait>(&mut self, rt: &R) -> ScheduleEnd {
        self.stage.hear(true);
        let mut came = ScheduleEnd::Over;
        for key in 0..2 {
            if !self.overs[key] {
                if self.act(rt, key, self.task) != Step::Waits {
                    return ScheduleEnd::Lost;
                }
                came = ScheduleEnd::Rests;
            }
        }
        came
    }

    /// Takes turns of the loop: a poll, which waits where nobody has a mark, and a drive of each for whom it has news, or who has a mark.
    fn run<R: Wait>(&mut self, rt: &R) -> ScheduleEnd {
        let stop = self.stage.below(60);
        for turn in 0..TURNS {
            if turn == stop && self.scene.is(b"stops", b"yes") {
                self.halt(rt);
            }
            let news = self.stage.hear(false);
            let has_more = self.marks[0] || self.marks[1] || news[0] || news[1];
            if !has_more && !self.stage.happen(self.scene, self.values) {
                return self.end(rt);
            }
            for key in 0..2 {
                let is_driven = (news[key] || self.marks[key]) && !self.overs[key];
                self.marks[key] = false;
                if is_driven {
                    self.drive(rt, key);
                    if self.scene.is(b"plant", b"no news") {
                        self.stage.hear(false);
                    }
                }
            }
        }
        ScheduleEnd::On
    }
}
