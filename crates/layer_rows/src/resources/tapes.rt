//! Pages that come with bytes and go with them, on a bank's store.
use span_bank::{Bank, Ledgers, Store};
use span_tape::SpanTape;
use std::sync::Wait;
use test_rows::{NoMemory, put_count, put_decimal, put_line, put_number};

/// What a tape and its bank showed.
#[derive(Clone, Copy)]
pub struct TapeFigures {
    stores: [Store; 2],
    needed: [u64; 4],
    given: u64,
    copied: usize,
    byte: u8,
}

/// Writes 4,096 bytes and one, lets the first page go, and reads what is left.
pub fn write_and_drop<B: Ledgers, R: Wait>(rt: &R, bank: &Bank<B>) -> Option<TapeFigures> {
    let new = bank.store(rt);
    let Ok(mut stake) = bank.open(rt, 8192) else {
        return None;
    };
    let mut tape = SpanTape::new();
    let first = tape.pages_for(4096);
    let mut pages = bank.grow(rt, &mut stake, 4096, first);
    tape.append(&[7; 4096], &mut pages);
    let second = tape.pages_for(1);
    pages.join(bank.grow(rt, &mut stake, 1, second));
    tape.append(&[9], &mut pages);
    let gone = tape.drop_to(4096);
    let given = gone.count();
    bank.shrink(rt, &mut stake, 4096, gone);
    let used = bank.store(rt);
    let needed = [first, second, tape.pages_for(4095), tape.pages_for(4096)];
    let mut out = [0; 3];
    let copied = tape.copy_out(4096, &mut out);
    let rest = tape.drop_to(4097);
    bank.shrink(rt, &mut stake, 1, rest);
    bank.close(rt, stake, pages);
    Some(TapeFigures {
        stores: [new, used],
        needed,
        given,
        copied,
        byte: out[0],
    })
}

/// Adds how many pages a store has, and how many are in use.
fn put_store(out: &mut Vec<u8>, name: &[u8], store: Store) -> Result<(), NoMemory> {
    out.extend_from_slice(name)?;
    out.extend_from_slice(b" ")?;
    put_decimal(out, store.total)?;
    put_number(out, b" pages, in use", store.used)
}

/// Adds what a tape and its bank show.
pub fn put_seen(out: &mut Vec<u8>, seen: Option<TapeFigures>) -> Result<(), NoMemory> {
    let Some(seen) = seen else {
        return put_line(out, b"no reservation");
    };
    put_store(out, b"at first", seen.stores[0])?;
    put_store(out, b"at last", seen.stores[1])?;
    for needed in seen.needed {
        put_number(out, b"needs", needed)?;
    }
    put_number(out, b"gives back", seen.given)?;
    put_number(out, b"copies", seen.copied as u64)?;
    put_count(out, u64::from(seen.byte))
}
