//! A row's exchange on a budget of its own, whose ledgers are picked here, once for all.
ghost use Rattle.std.specs.Prelude.{◌≡◌};

use crate::exchanges::memory::{MemoryOutside, RowOutside};
use crate::exchanges::play::{PlayedRow, play_row};
use crate::exchanges::schedules::{ScheduleEnd, play_both};
use crate::stage::{
    EndedRow, LineOwner, PolledWire, RowStage, StageWire, TalkWire, put_ended, put_happenings,
};
use proxy_config::{Config, ConfigFault, read_config};
use proxy_rules::Incoming;
use shard_message::{Held, Holdings};
use span_bank::{Bank, Blanks, Ledgers, Pages};
use std::alloc::Global;
use std::boxed::Box;
use std::marker::Brand;
use std::sync::Wait;
use std::sync::ledger::Ledger;
use test_rows::{NoMemory, Scene, Values, number, parts, put_line, put_number};

/// What is left of an exchange, which is over, or was stopped. Its reservation is closed.
fn left_of<O: RowOutside, R: Wait>(
    rt: &R,
    bank: &Bank<O::Ledgers>,
    played: PlayedRow<Holdings<O>>,
) -> EndedRow {
    let PlayedRow {
        ends: _,
        phase,
        holdings,
        memory,
    } = played;
    let Held { lease, stake } = holdings.into_held(rt, bank);
    let ended = EndedRow {
        phase,
        lease: lease.is_some(),
        stake: stake.is_some(),
    };
    if let Some(stake) = stake {
        bank.close(rt, stake, Pages::none());
    }
    memory.end(lease);
    ended
}

/// Plays the row's exchange: whether it came to an end, and what is left.
fn ended_with<O: RowOutside, R: Wait>(
    rt: &R,
    bank: &Bank<O::Ledgers>,
    stage: &RowStage,
    scene: Scene<'_>,
    values: Values,
    user: O::User,
    message: Box<Incoming>,
    memory: O,
) -> (bool, EndedRow) {
    let played = play_row(rt, stage, scene, values, user, message, memory);
    let ends = played.ends;
    (ends, left_of(rt, bank, played))
}

/// Plays the row's exchange over its user's connection.
fn ended_of<'a, W: StageWire<'a>, B: Ledgers, R: Wait>(
    rt: &R,
    alloc: Global,
    bank: &Bank<B>,
    stage: &'a RowStage,
    scene: Scene<'a>,
    values: Values,
    memory: MemoryOutside<'a, W, B>,
) -> Result<(bool, EndedRow), NoMemory> {
    let message = Box::new(alloc, Incoming::request(alloc))?;
    let user = W::open(stage, scene, values, LineOwner::User, b"user");
    Ok(ended_with(rt, bank, stage, scene, values, user, message, memory))
}

/// Adds what the row's exchange reports on this budget.
fn put_scene<B: Ledgers, R: Wait>(
    rt: &R,
    alloc: Global,
    bank: &Bank<B>,
    config: &Config,
    scene: Scene<'_>,
    values: Values,
    out: &mut Vec<u8>,
) -> Result<(), NoMemory> {
    let stage = RowStage::new(alloc, scene, 0)?;
    let memory: MemoryOutside<'_, TalkWire<'_>, B> = MemoryOutside::new(
        alloc, &stage, scene, values, config, bank,
    );
    let (ends, ended) = ended_of(rt, alloc, bank, &stage, scene, values, memory)?;
    put_ended(out, scene, &stage, ended)?;
    if ends {
        Ok(())
    } else {
        put_line(out, b"it goes on and on")
    }
}

/// Plays the schedule of a seed, of two exchanges or of one.
fn came_of<O: RowOutside, R: Wait>(
    rt: &R,
    bank: &Bank<O::Ledgers>,
    stage: &RowStage,
    scene: Scene<'_>,
    values: Values,
    users: (O::User, O::User),
    messages: (Box<Incoming>, Box<Incoming>),
    outsides: (O, O),
) -> ScheduleEnd {
    let one = Holdings::new(users.0, Some(messages.0));
    let two = Holdings::new(users.1, Some(messages.1));
    let (came, first, second) = play_both(rt, stage, scene, values, one, two, outsides);
    left_of(rt, bank, first);
    left_of(rt, bank, second);
    came
}

/// Plays the schedule of a seed over two users' connections.
fn play_pair<'a, W: StageWire<'a>, B: Ledgers, R: Wait>(
    rt: &R,
    alloc: Global,
    bank: &Bank<B>,
    stage: &'a RowStage,
    scene: Scene<'a>,
    values: Values,
    one: MemoryOutside<'a, W, B>,
    two: MemoryOutside<'a, W, B>,
) -> Result<ScheduleEnd, NoMemory> {
    let first = Box::new(alloc, Incoming::request(alloc))?;
    let second = Box::new(alloc, Incoming::request(alloc))?;
    let user = W::open(stage, scene, values, LineOwner::User, b"user");
    stage.turn_to(1, false);
    let other = W::open(stage, scene, values, LineOwner::User, b"user 2");
    Ok(came_of(
        rt,
        bank,
        stage,
        scene,
        values,
        (user, other),
        (first, second),
        (one, two),
    ))
}

/// Plays the schedule of a seed, and adds what happened where the row asks for that.
fn play_seed<B: Ledgers, R: Wait>(
    rt: &R,
    alloc: Global,
    bank: &Bank<B>,
    config: &Config,
    scene: Scene<'_>,
    values: Values,
    seed: u64,
    out: &mut Vec<u8>,
) -> Result<ScheduleEnd, NoMemory> {
    let stage = RowStage::new(alloc, scene, seed)?;
    let one: MemoryOutside<'_, PolledWire<'_>, B> = MemoryOutside::new(
        alloc, &stage, scene, values, config, bank,
    );
    let two: MemoryOutside<'_, PolledWire<'_>, B> = MemoryOutside::new(
        alloc, &stage, scene, values, config, bank,
    );
    let came = play_pair(rt, alloc, bank, &stage, scene, values, one, two)?;
    put_happenings(out, &stage)?;
    Ok(came)
}

/// Adds what the schedules of the row's seeds came to: the first that isn't as it should be, with its seed, or else that none is.
fn put_seeds<B: Ledgers, R: Wait>(
    rt: &R,
    alloc: Global,
    bank: &Bank<B>,
    config: &Config,
    scene: Scene<'_>,
    values: Values,
    out: &mut Vec<u8>,
) -> Result<(), NoMemory> {
    let (first, last) = parts(scene.get(b"seeds"), b'-').unwrap_or((b"", b""));
    let first = number(first).unwrap_or(0);
    let last = number(last).unwrap_or(0);
    for seed in first..last {
        match play_seed(rt, alloc, bank, config, scene, values, seed, out)? {
            ScheduleEnd::Lost => return put_number(out, b"lost with seed", seed),
            ScheduleEnd::On => return put_number(out, b"goes on and on with seed", seed),
            ScheduleEnd::Rests => return put_number(out, b"rests with seed", seed),
            ScheduleEnd::Over => {}
        }
    }
    put_number(out, b"seeds", last.saturating_sub(first))?;
    put_line(out, b"lost 0")
}

/// Adds what the row's exchange reports on this budget, of which another may hold the only slot.
fn put_beside<B: Ledgers, R: Wait>(
    rt: &R,
    alloc: Global,
    bank: &Bank<B>,
    config: &Config,
    scene: Scene<'_>,
    values: Values,
    out: &mut Vec<u8>,
) -> Result<(), NoMemory> {
    if scene.has(b"seeds") {
        return put_seeds(rt, alloc, bank, config, scene, values, out);
    }
    if scene.is(b"slot", b"taken")
        && let Ok(other) = bank.open(rt, 1)
    {
        let told = put_scene(rt, alloc, bank, config, scene, values, out);
        bank.close(rt, other, Pages::none());
        return told;
    }
    put_scene(rt, alloc, bank, config, scene, values, out)
}

/// Whether no reservation is left of a budget.
fn is_empty<B: Ledgers>(alloc: Global, bank: Bank<B>) -> bool {
    match bank.audit(Vec::new(alloc)) {
        Ok(audit) => audit.rows == 0 && audit.held == 0 && audit.claimed == 0 && audit.pages == 0,
        Err((_, stakes, _)) => {
            stakes.destroy_empty();
            false
        }
    }
}

/// Plays the row on a new budget, which has to be empty after it.
fn put_on_bank<H: Ledger, F: Ledger, S: Ledger, P: Ledger, R: Wait>(
    rt: &R,
    alloc: Global,
    blanks: Blanks,
    config: &Config,
    scene: Scene<'_>,
    values: Values,
    out: &mut Vec<u8>,
) -> Result<(), NoMemory>
    requires held { (blanks.held.name ≡ H.name) × (blanks.held.parts ≡ H.parts) × (blanks.held.parts ≡ 2) }
    requires free { (blanks.free.name ≡ F.name) × (blanks.free.parts ≡ F.parts) × (blanks.free.parts ≡ 2) }
    requires slack { (blanks.slack.name ≡ S.name) × (blanks.slack.parts ≡ S.parts) × (blanks.slack.parts ≡ 2) }
    requires pages { (blanks.pages.name ≡ P.name) × (blanks.pages.parts ≡ P.parts) × (blanks.pages.parts ≡ 2) }
{
    let bank: Bank<(H, F, S, P)> = Bank::new(alloc, blanks, config.capacity, 1, 16)?;
    let told = put_beside(rt, alloc, &bank, config, scene, values, out);
    let is_empty = is_empty(alloc, bank);
    told?;
    if is_empty {
        Ok(())
    } else {
        put_line(out, b"something is left of the budget")
    }
}

/// Adds what a run of the row reports.
pub fn put_exchange<R: Wait>(
    rt: &R,
    alloc: Global,
    scene: Scene<'_>,
    values: Values,
    out: &mut Vec<u8>,
) -> Result<(), NoMemory> {
    match read_config(alloc, scene.get(b"config")) {
        Ok(config) => {
            let put = put_on_bank::<Brand, Brand, Brand, Brand, R>(
                rt,
                alloc,
                Blanks::new(2),
                &config,
                scene,
                values,
                out,
            );
            // Written as a call, the drop is proved once, and not at each place.
            drop(config);
            put
        }
        Err(ConfigFault::NoMemory) => Err(NoMemory),
        Err(_) => put_line(out, b"no configuration"),
    }
}
