//! Histories of one transaction: each line of `want` is an event or a question, and what is said of it.
use crate::decisions::claims::put_claim;
use crate::decisions::events::{answered, read_event, read_part, read_plan};
use crate::decisions::marks::put_mark;
use crate::decisions::printed::is_printed_so;
use crate::decisions::scripts::put_script;
use crate::questions::{Subject, asked, put_lines};
use exchange_report::write_range;
use std::alloc::Global;
use test_rows::{NoMemory, Row, lines_of, parts_of, put_line};
use trace_core::{Answer, Event, Plan, State, StepFault, run};

/// Adds a fault's number and its text.
fn put_step_fault(out: &mut Vec<u8>, fault: StepFault) -> Result<(), NoMemory> {
    let text = format!(in *out.allocator(); "fault {} {fault}\n", fault.number())?;
    out.extend_from_slice(text.as_bytes())
}

fn put_held(out: &mut Vec<u8>, answer: Answer) -> Result<(), NoMemory> {
    match answer {
        Answer::Held(original, adapted) => {
            out.extend_from_slice(b"held ")?;
            write_range(out, original)?;
            if let Some(adapted) = adapted {
                out.extend_from_slice(b" adapted ")?;
                write_range(out, adapted)?;
            }
            out.extend_from_slice(b"\n")
        }
        Answer::Fault(fault) => put_step_fault(out, fault),
    }
}

/// A history, with the limits that its row says.
#[derive(Drop)]
struct Told<'a> {
    state: &'a mut State,
    row: Row<'a>,
}

impl<'a> Subject for Told<'a> {
    /// Adds what is said of an event or of a question.
    fn put_said(&mut self, question: &[u8], out: &mut Vec<u8>) -> Result<(), NoMemory> {
        if let Some(event) = read_event(question) {
            return put_held(out, answered(self.state, event));
        }
        put_mark(out, self.state, question)?;
        put_script(out, self.state, question)?;
        put_claim(out, self.state, question, &self.row)
    }
}

/// The events among the wanted lines.
fn events_of(alloc: Global, lines: &[u8]) -> Result<Vec<Event>, NoMemory> {
    let mut events = Vec::new(alloc);
    for line in lines_of(lines) {
        if let Some(event) = read_event(asked(line)) {
            events.push(event)?;
        }
    }
    Ok(events)
}

/// Whether these are the answers to these events, one by one.
fn are_answered_so(plan: Plan, events: &[Event], answers: &[Answer]) -> bool {
    let mut state = State::begin(plan);
    for (event, answer) in events.iter().zip(answers) {
        if answered(&mut state, *event) != *answer {
            return false;
        }
    }
    answers.len() == events.len()
}

/// Whether all events in one go are answered as one by one.
fn is_run_so(alloc: Global, plan: Plan, lines: &[u8]) -> Result<bool, NoMemory> {
    let events = events_of(alloc, lines)?;
    let answers = run(alloc, plan, &events)?;
    Ok(are_answered_so(plan, &events, &answers))
}

/// Takes events with a comma between each two, if each is one that may come next.
pub fn are_taken(state: &mut State, events: &[u8]) -> bool {
    for part in parts_of(events, b',') {
        if let Some(event) = read_part(part) {
            if state.step(event).is_err() {
                return false;
            }
        }
    }
    true
}

/// Adds what is said of a row's history.
pub fn put_history(alloc: Global, row: &Row<'_>, out: &mut Vec<u8>) -> Result<(), NoMemory> {
    let Some(plan) = read_plan(row.get(b"plan")) else {
        return put_line(out, b"no plan");
    };
    let lines = row.get(b"want");
    let mut state = State::begin(plan);
    if !are_taken(&mut state, row.get(b"after")) {
        return put_line(out, b"an event is refused");
    }
    let mut told = Told {
        state: &mut state,
        row: *row,
    };
    put_lines(&mut told, lines, out)?;
    if !is_printed_so(alloc, &state)? {
        return put_line(out, b"another answer as it is printed");
    }
    if row.has(b"after") || is_run_so(alloc, plan, lines)? {
        Ok(())
    } else {
        put_line(out, b"another answer in one go")
    }
}

/// Adds whether there is such a plan.
pub fn put_plan(row: &Row<'_>, out: &mut Vec<u8>) -> Result<(), NoMemory> {
    match read_plan(row.get(b"plan")) {
        Some(_) => put_line(out, b"a plan"),
        None => put_line(out, b"no plan"),
    }
}
