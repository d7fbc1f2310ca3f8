//! The plan of a message, and what it reserves.
use crate::decisions::claims::limits_of;
use crate::decisions::events::read_plan;
use crate::decisions::options::response_of;
use adapt_bytes::COUNT_LIMIT;
use options_book::{Record, extension, read_record};
use plan_rules::{Limits, claim, least_claim, plan};
use std::alloc::Global;
use test_rows::{NoMemory, Row, put_fault, put_line, put_number, put_shown};
use trace_core::Point;

fn put_planned(
    out: &mut Vec<u8>,
    record: &Record,
    limits: &Limits,
    row: &Row<'_>,
) -> Result<(), NoMemory> {
    let point = if row.has(b"request") {
        Point::Reqmod
    } else {
        Point::Respmod
    };
    let len = match row.number(b"len") {
        Some(len) if len < COUNT_LIMIT => Some(len),
        _ => None,
    };
    let planned = plan(record, limits, point, extension(row.get(b"path")), len);
    put_shown(out, b"kind", &planned.kind)?;
    put_shown(out, b"allow", &planned.allow)?;
    put_shown(out, b"retry", &planned.retry)?;
    put_number(out, b"claim", claim(&planned, limits))
}

/// Adds the plan of a message.
pub fn put_plan(alloc: Global, row: &Row<'_>, out: &mut Vec<u8>) -> Result<(), NoMemory> {
    let Some(limits) = limits_of(row) else {
        return put_line(out, b"no limits");
    };
    let response = response_of(alloc, row)?;
    match read_record(alloc, &response, Point::Respmod, 1000) {
        Ok(record) => put_planned(out, &record, &limits, row),
        Err(fault) => put_fault(out, fault.number(), &fault),
    }
}

/// Adds whether there are such limits.
pub fn put_limits(row: &Row<'_>, out: &mut Vec<u8>) -> Result<(), NoMemory> {
    match limits_of(row) {
        Some(_) => put_line(out, b"limits"),
        None => put_line(out, b"no limits"),
    }
}

/// Adds the least that a plan reserves.
pub fn put_least(row: &Row<'_>, out: &mut Vec<u8>) -> Result<(), NoMemory> {
    match read_plan(row.get(b"plan")) {
        Some(plan) => put_number(out, b"claim", least_claim(&plan)),
        None => put_line(out, b"no plan"),
    }
}
