//! Judges the edge by rows of plain text: what the proxy decides beside a message's transaction, the command lines of `adaptproxy` and
//! `icapd`, and whole connections of users. Each file that an argument names is a table. An argument that is a number has the program
//! make that number of allocations, and give each back.
//!
//! It ends with status 0 once all rows are judged, whatever their answers: its output says which failed.
//!
//! It is a program for its layer alone, so that a change of a layer proves no rows of the layers below.
#![tactic(auto)]

mod commands;
mod exchanges;
mod rules;
mod stage;

use std::alloc::Global;
use std::io;
use std::rt::Files;
use std::sync::Wait;
use test_rows::{Driver, NoMemory, Player, Row, Scene, Values, call_of, judge_files, put_runs};

/// What runs the calls of the rows. A row without a call is an exchange to be played.
#[derive(Drop)]
struct Edge<'r, R> {
    rt: &'r R,
    alloc: Global,
}

impl<'r, R: Wait> Player for Edge<'r, R> {
    fn put_run(&self, scene: Scene<'_>, values: Values, out: &mut Vec<u8>) -> Result<(), NoMemory> {
        exchanges::put_exchange(self.rt, self.alloc, scene, values, out)
    }
}

impl<'r, R: Wait + Files + AllocGlobal> Driver for Edge<'r, R> {
    fn put_answer(&self, head: &Row<'_>, row: &Row<'_>, out: &mut Vec<u8>) -> Result<(), NoMemory> {
        let scene = Scene {
            head: *head,
            row: *row,
        };
        let call = call_of(head, row);
        if call.is_empty() {
            return put_runs(self.alloc, self, scene, out);
        }
        commands::put_answer(self.rt, self.alloc, call, row, out)?;
        rules::put_answer(self.alloc, scene, out)
    }
}

fn main(rt: HostRuntime) -> io::Result<()> {
    let edge = Edge {
        rt: &rt,
        alloc: rt.alloc(),
    };
    judge_files(&rt, &edge, &mut rt.stdout())
}
