//! `adaptproxy trace`: reads a script, and prints its answers.

ghost use Rattle.std.specs.Prelude.{◌≡◌, ◌++◌, ◌≤◌, [], length, OnOk, IfOk, MatchResult};
ghost use Rattle.adapt_bytes.specs.declared.limits.TheConstants.{MAX_INPUT};
ghost use Rattle.trace_core.specs.History.{History, shows};
ghost use Rattle.trace_core.specs.Run.{shown_adapted};
ghost use Rattle.trace_core.specs.View.{answer_to, after_answer};
ghost use Rattle.proxy_commands.specs.Script.{IsRefused};
ghost use Rattle.proxy_commands.specs.Answers.{line_output, seen_behind, output_of, IsOutput};

use crate::answers::{write_answer, write_witness};
use crate::error::Error;
use crate::script::{Line, Script, read_script};
use need_witness::witness;
use std::alloc::{AllocError as NoMemory, Global};
use trace_core::{Answer, Event, State};

/// The range of adapted bytes that an answer shows; no range before a 200 with a body.
fn shown_adapted(state: &State) -> Option<(u64, u64)>
    ensures { result ≡ shown_adapted (shows state.now) }
{
    if state.seen().has_body {
        Some(state.held_adapted())
    } else {
        None
    }
}

/// Takes an event, or refuses it.
fn answer_event(state: &mut State, event: Event) -> Answer
    ensures answer { result ≡ answer_to (shows state.old) event }
    ensures after { shows state.new ≡ after_answer (shows state.old) event }
{
    // For the proof alone: a state's trace is legal.
    let _legal = state.trace();
    match state.step(event) {
        Ok(()) => Answer::Held(state.held_original(), shown_adapted(state)),
        Err(fault) => Answer::Fault(fault),
    }
}

/// Adds the answer to a line.
fn answer_line(out: &mut Vec<u8>, state: &mut State, line: Line) -> Result<(), NoMemory>
    ensures text { OnOk result (out.new.items ≡ out.old.items ++ line_output (shows state.old) line) }
    ensures behind { shows state.new ≡ seen_behind (shows state.old) line }
{
    match line {
        Line::Step(event) => write_answer(out, answer_event(state, event)),
        Line::Need(tape, place) => write_witness(out, witness(state, tape, place)),
    }
}

/// The answers to a script's lines, in order, as they are printed. `NoMemory` if their text finds no
/// memory.
pub fn write_answers(alloc: Global, script: &Script) -> Result<Vec<u8>, NoMemory>
    ensures { IfOk result (λ out. out.items ≡ output_of script.now.plan script.now.lines.items) }
{
    let mut state = State::begin(script.plan);
    let mut out = Vec::new(alloc);
    for line in &script.lines {
        answer_line(&mut out, &mut state, *line)?;
    }
    Ok(out)
}

/// What `adaptproxy trace` prints for its input: one line for each line after the plan that is no comment.
///
/// The errors are those of [`read_script`]; `NoMemory` also if the answers find no memory.
pub fn trace_output(alloc: Global, input: &[u8]) -> Result<Vec<u8>, Error>
    ensures output { MatchResult result (λ out. IsOutput input.now out.items) (IsRefused input.now) }
    ensures short { OnOk result (length input.now ≤ MAX_INPUT) }
{
    let script = read_script(alloc, input)?;
    match write_answers(alloc, &script) {
        Ok(out) => Ok(out),
        Err(_) => Err(Error::NoMemory),
    }
}
