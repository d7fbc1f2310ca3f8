//! One step a call, on both forms of the journal, and how a full one makes room.
use crate::questions::Subject;
use crate::resources::steps::put_whole;
use crate::resources::words::{
    is_picked, is_preferred, number_after, put_back, put_closed, put_numbers,
};
use adapt_bytes::MAX_CONNECTIONS;
use service_pool::{Checked, Journal, PoolState, RebasingJournal, Window};
use std::alloc::Global;
use test_rows::{NoMemory, Row, put_line, put_number, put_shown, says};

/// Adds the steps that the journal has.
fn put_journal<J: Journal>(out: &mut Vec<u8>, state: &PoolState<u32, J>) -> Result<(), NoMemory> {
    for index in 0..16 {
        if let Some(step) = state.journal_at(index) {
            put_shown(out, b"then", &step)?;
        }
    }
    put_line(out, b"and no more")
}

/// Adds what becomes of the idle connection at an index, where those above 20 are picked.
fn put_checked<J: Journal>(
    out: &mut Vec<u8>,
    state: &mut PoolState<u32, J>,
    index: u64,
) -> Result<(), NoMemory> {
    match state.close_idle(index.min(16) as usize, &is_picked) {
        Checked::Closed(connection) => put_number(out, b"closes", u64::from(connection)),
        Checked::Stays => put_line(out, b"stays"),
        Checked::Missing => put_line(out, b"none"),
    }
}

/// Adds what a step answers that needs a lease.
fn put_leased<J: Journal>(
    out: &mut Vec<u8>,
    state: &mut PoolState<u32, J>,
    step: &[u8],
) -> Result<(), NoMemory> {
    if state.numbers().leased == 0 {
        return put_line(out, b"nothing is leased");
    }
    if let Some(connection) = number_after(step, b"put") {
        return put_back(out, state.put(connection.min(1000) as u32));
    }
    if says(step, b"replace") {
        return match state.replace() {
            Ok(()) => put_line(out, b"fresh"),
            Err(_) => put_line(out, b"over"),
        };
    }
    if says(step, b"give up") {
        state.give_up();
        return put_line(out, b"closed");
    }
    put_line(out, b"no step")
}

impl<J: Journal> Subject for PoolState<u32, J> {
    /// Adds what a step answers, or what a question is.
    fn put_said(&mut self, step: &[u8], out: &mut Vec<u8>) -> Result<(), NoMemory> {
        if says(step, b"take") {
            return put_shown(out, b"found", &self.take());
        }
        if says(step, b"prefer") {
            let chosen = self.take_preferred(&is_picked, &is_preferred);
            return put_shown(out, b"chosen", &chosen);
        }
        if let Some(maximum) = number_after(step, b"limit") {
            let closed = self.set_max(*out.allocator(), maximum.min(MAX_CONNECTIONS))?;
            return put_closed(out, &closed);
        }
        if let Some(index) = number_after(step, b"close") {
            return put_checked(out, self, index);
        }
        if says(step, b"base") {
            put_numbers(out, self.base())
        } else if says(step, b"numbers") {
            put_numbers(out, self.numbers())
        } else if says(step, b"journal") {
            put_journal(out, self)
        } else {
            put_leased(out, self, step)
        }
    }
}

/// Adds what the row's steps answer on a new pool with such a journal.
fn put_on<J: Journal>(alloc: Global, row: &Row<'_>, out: &mut Vec<u8>) -> Result<(), NoMemory> {
    let maximum = row.number(b"maximum").unwrap_or(0).min(MAX_CONNECTIONS);
    let journal = row.number(b"steps").unwrap_or(16).max(1).min(16) as usize;
    let state: PoolState<u32, J> = PoolState::new(alloc, maximum, journal)?;
    put_whole(state, row.get(b"want"), out)
}

/// Adds what the row's steps answer with the row's journal.
pub fn put_state(alloc: Global, row: &Row<'_>, out: &mut Vec<u8>) -> Result<(), NoMemory> {
    if row.has(b"rebasing") {
        put_on::<RebasingJournal>(alloc, row, out)
    } else {
        put_on::<Window>(alloc, row, out)
    }
}
