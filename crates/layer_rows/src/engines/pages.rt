//! Rows that need pages of a reservation, whose ledgers are picked here, once for all.
ghost use Rattle.std.specs.Prelude.{◌≡◌};

use crate::engines::exchanges::put_exchange;
use crate::engines::gives::put_given;
use crate::engines::kept::KeptBytes;
use crate::engines::relays::put_relayed;
use span_bank::{Bank, Blanks, OpenFault, Pages, Stake};
use std::alloc::Global;
use std::marker::Brand;
use std::sync::Wait;
use std::sync::ledger::Ledger;
use test_rows::{NoMemory, Scene, Values, index_of, put_line};

/// Adds what a run reports.
fn put_run(
    alloc: Global,
    scene: Scene<'_>,
    values: Values,
    kept: &mut KeptBytes,
    out: &mut Vec<u8>,
) -> Result<(), NoMemory> {
    match index_of(b"relay give exchange", scene.get(b"call")) {
        Some(0) => put_relayed(alloc, scene, values, kept, out),
        Some(1) => put_given(alloc, scene, values, kept, out),
        Some(2) => put_exchange(alloc, scene, values, kept, out),
        _ => put_line(out, b"no such call"),
    }
}

/// Adds what a run reports, with two pages of a new bank.
fn put_on_bank<H: Ledger, F: Ledger, S: Ledger, P: Ledger, R: Wait>(
    rt: &R,
    alloc: Global,
    blanks: Blanks,
    scene: Scene<'_>,
    values: Values,
    out: &mut Vec<u8>,
) -> Result<(), NoMemory>
    requires held { (blanks.held.name ≡ H.name) × (blanks.held.parts ≡ H.parts) × (blanks.held.parts ≡ 3) }
    requires free { (blanks.free.name ≡ F.name) × (blanks.free.parts ≡ F.parts) × (blanks.free.parts ≡ 3) }
    requires slack { (blanks.slack.name ≡ S.name) × (blanks.slack.parts ≡ S.parts) × (blanks.slack.parts ≡ 3) }
    requires pages { (blanks.pages.name ≡ P.name) × (blanks.pages.parts ≡ P.parts) × (blanks.pages.parts ≡ 3) }
{
    let bank: Bank<(H, F, S, P)> = Bank::new(alloc, blanks, 8192, 2, 16)?;
    let opened: Result<Stake<(H, F, S, P)>, OpenFault> = bank.open(rt, 8192);
    let Ok(mut stake) = opened else {
        return put_line(out, b"no reservation");
    };
    let pages = bank.grow(rt, &mut stake, 1, 2);
    let mut kept = KeptBytes::new(pages);
    let found = put_run(alloc, scene, values, &mut kept, out);
    bank.shrink(rt, &mut stake, 1, kept.give_back());
    bank.close(rt, stake, Pages::none());
    found
}

/// Plays a row on two pages of a new bank, whose ledgers are picked here.
pub fn put_on_pages<R: Wait>(
    rt: &R,
    alloc: Global,
    scene: Scene<'_>,
    values: Values,
    out: &mut Vec<u8>,
) -> Result<(), NoMemory> {
    put_on_bank::<Brand, Brand, Brand, Brand, R>(rt, alloc, Blanks::new(3), scene, values, out)
}
