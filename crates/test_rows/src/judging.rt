//! A program of rows: each of its arguments names a file, which is a table, and it prints the report on each.
use crate::memory::allocate;
use crate::report::Report;
use crate::row::{Row, number};
use crate::table::{Table, read_table};
use std::alloc::{AllocError as NoMemory, Global};
use std::io::Write;
use std::rt::{Env, Files};
use std::{env, fs, io};

/// What runs the calls that rows name.
pub trait Driver {
    /// Adds the answer to a row of a table with this head. For a call that there isn't it adds nothing.
    fn put_answer(&self, head: &Row<'_>, row: &Row<'_>, out: &mut Vec<u8>) -> Result<(), NoMemory>;
}

/// Judges the row at a place of a table.
fn judge_row<D: Driver>(
    alloc: Global,
    driver: &D,
    table: &Table,
    at: usize,
    report: &mut Report,
) -> Result<(), NoMemory> {
    let head = table.head();
    let row = table.row(at);
    let mut answer = Vec::new(alloc);
    driver.put_answer(&head, &row, &mut answer)?;
    report.judge(&head, &row, &answer)
}

/// The report on the rows of a file.
fn judge_rows<D: Driver>(alloc: Global, driver: &D, text: &[u8]) -> Result<Report, NoMemory> {
    let table = read_table(alloc, text)?;
    let mut report = Report::new(alloc);
    for at in 1..table.len() {
        judge_row(alloc, driver, &table, at, &mut report)?;
    }
    report.finish(&table.head())?;
    Ok(report)
}

/// Prints the report on a file.
fn judge_file<D: Driver>(
    rt: &(impl Files + AllocGlobal),
    driver: &D,
    path: &str,
    output: &mut impl Write,
) -> io::Result<()> {
    let text = fs::read(rt, path)?;
    let report = judge_rows(rt.alloc(), driver, &text)?;
    output.write_all(report.lines())
}

/// Prints the report on each file that an argument names. An argument that is a number stands for this number of
/// allocations, each of which is given back. A row that isn't good is no error: its file's report says it.
pub fn judge_files<D: Driver>(
    rt: &(impl Env + Files + AllocGlobal),
    driver: &D,
    output: &mut impl Write,
) -> io::Result<()> {
    for path in env::args(rt)?.skip(1) {
        match number(path.as_bytes()) {
            Some(count) => allocate(rt.alloc(), count)?,
            None => judge_file(rt, driver, path.as_str(), output)?,
        }
    }
    Ok(())
}
