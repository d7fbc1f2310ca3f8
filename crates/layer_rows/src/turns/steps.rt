//! The steps of a row, in words.

use crate::stage::Game;
use crate::turns::case::Case;
use adapt_turn::{Side, TurnAnswer};
use std::alloc::Global;
use test_rows::{
    NoMemory, Scene, Values, index_of, number_by, parts, put_line, put_number, put_shown, words_of,
};

/// Turns of each side.
pub const ROUND: [Side; 3] = [Side::Source, Side::Service, Side::NextHop];

/// How many turns moved just one byte, how many answered that it is finished, and how many did something else.
#[derive(Clone, Copy)]
struct Counted {
    moved: usize,
    finished: usize,
    other: usize,
}

/// The sides that a key lists: `source`, `service` and `hop`.
fn order_of(alloc: Global, words: &[u8]) -> Result<Vec<Side>, NoMemory> {
    let mut order = Vec::new(alloc);
    for word in words_of(words) {
        if let Some(place) = index_of(b"source service hop", word)
            && let Some(side) = ROUND.get(place)
        {
            order.push(*side)?;
        }
    }
    Ok(order)
}

/// The turns that the key `first` lists, each of a side at a moment: `source@101`.
pub fn first_turns(alloc: Global, scene: Scene<'_>) -> Result<Vec<(Side, u64)>, NoMemory> {
    let mut turns = Vec::new(alloc);
    for word in words_of(scene.get(b"first")) {
        if let Some((name, moment)) = parts(word, b'@')
            && let Some(place) = index_of(b"source service hop", name)
            && let Some(side) = ROUND.get(place)
            && let Some(now) = test_rows::number(moment)
        {
            turns.push((*side, now))?;
        }
    }
    Ok(turns)
}

/// Whether the transaction is over, and nothing of a refusal is due any more.
fn is_finished<G: Game>(game: &mut G) -> bool {
    game.ending().is_some() && matches!(game.take_turn(Side::Source, 0), TurnAnswer::Finished(_))
}

/// Up to `count` rounds of turns at the moment of the last moved byte, until the transaction is over.
fn play_rounds<G: Game>(game: &mut G, order: &[Side], count: usize) {
    for _ in 0..count {
        game.take_turns(order);
        game.mend();
        if is_finished(game) {
            return;
        }
    }
}

/// `count` rounds of turns at a moment.
fn play_rounds_at<G: Game>(game: &mut G, order: &[Side], now: usize, count: usize) {
    for _ in 0..count {
        for side in order {
            game.take_turn(*side, now as u64);
        }
    }
}

/// A turn of each side in order, as long as the transaction isn't over.
fn play_until_over<G: Game>(game: &mut G, order: &[Side]) {
    for side in order {
        if game.ending().is_none() {
            game.take_turns(&[*side]);
        }
    }
}

/// Counts the turns of each side in order, `count` times.
fn count_turns<G: Game>(game: &mut G, order: &[Side], count: usize) -> Counted {
    let mut counted = Counted {
        moved: 0,
        finished: 0,
        other: 0,
    };
    for _ in 0..count {
        for side in order {
            let kind = match game.take_turn(*side, 0) {
                TurnAnswer::Moved(1) => &mut counted.moved,
                TurnAnswer::Finished(_) => &mut counted.finished,
                _ => &mut counted.other,
            };
            *kind = kind.saturating_add(1);
        }
    }
    counted
}

/// Adds what was counted, where there are this many places.
fn put_tally(tally: Counted, places: usize, out: &mut Vec<u8>) -> Result<(), NoMemory> {
    if tally.moved == places {
        put_line(out, b"moved a byte n times")?;
    } else {
        put_number(out, b"moved a byte", tally.moved as u64)?;
    }
    if tally.finished > 0 {
        put_line(out, b"then finished")?;
    }
    put_number(out, b"otherwise", tally.other as u64)
}

/// Turns of these sides at a moment; adds what each answers.
fn put_turns<G: Game>(
    game: &mut G,
    order: &[Side],
    now: usize,
    out: &mut Vec<u8>,
) -> Result<(), NoMemory> {
    for side in order {
        let turned = game.take_turn(*side, now as u64);
        put_shown(out, b"turn", &turned)?;
    }
    Ok(())
}

/// What a row's steps go by.
#[derive(Clone, Copy)]
struct Orders<'a> {
    order: &'a [Side],
    tally: &'a [Side],
    at: Option<usize>,
}

/// Adds what becomes of the service's connection where it is given up.
fn put_freed(freed: Option<bool>, out: &mut Vec<u8>) -> Result<(), NoMemory> {
    let text: &[u8] = match freed {
        Some(true) => b"free for another request",
        Some(false) => b"free to be closed",
        None => b"not free",
    };
    put_line(out, text)
}

/// Plays a step: `rounds=500`, `tally=80`, `until-over`, `halt`, `free`, or turns whose answers are added, as `source@190` and `each@189`.
fn put_step<G: Game>(
    game: &mut G,
    orders: &Orders<'_>,
    values: &Values,
    word: &[u8],
    out: &mut Vec<u8>,
) -> Result<(), NoMemory> {
    if let Some((sides, moment)) = parts(word, b'@') {
        let now = number_by(moment, *values).unwrap_or(0);
        return match index_of(b"source service hop", sides) {
            Some(0) => put_turns(game, &[Side::Source], now, out),
            Some(1) => put_turns(game, &[Side::Service], now, out),
            Some(2) => put_turns(game, &[Side::NextHop], now, out),
            _ => put_turns(game, &ROUND, now, out),
        };
    }
    let (name, count) = parts(word, b'=').unwrap_or((word, b"0"));
    let count = number_by(count, *values).unwrap_or(0);
    match index_of(b"rounds until-over halt free", name) {
        Some(0) => match orders.at {
            Some(now) => play_rounds_at(game, orders.order, now, count),
            None => play_rounds(game, orders.order, count),
        },
        Some(1) => play_until_over(game, orders.order),
        Some(2) => game.stop(),
        Some(3) => return put_freed(game.free(), out),
        _ => return put_tally(count_turns(game, orders.tally, count), values.n, out),
    }
    Ok(())
}

/// Plays the row's steps by these orders, and adds what they answer.
fn put_all_steps<G: Game>(
    game: &mut G,
    orders: &Orders<'_>,
    case: &Case<'_>,
    out: &mut Vec<u8>,
) -> Result<(), NoMemory> {
    for word in words_of(case.get(b"steps")) {
        put_step(game, orders, &case.values, word, out)?;
    }
    Ok(())
}

/// Plays the row's steps, and adds what they answer.
pub fn put_steps<G: Game>(
    game: &mut G,
    case: &Case<'_>,
    out: &mut Vec<u8>,
) -> Result<(), NoMemory> {
    let order = order_of(case.alloc, case.get(b"order"))?;
    let tally = order_of(case.alloc, case.get(b"tally"))?;
    let orders = Orders {
        order: &order,
        tally: &tally,
        at: number_by(case.get(b"at"), case.values),
    };
    put_all_steps(game, &orders, case, out)
}
