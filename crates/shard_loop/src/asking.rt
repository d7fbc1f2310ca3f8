//! How the administrator asks the threads what goes on in them.

ghost use Rattle.std.specs.Prelude.{◌≡◌, ◌++◌, if◌then◌else◌, IfOk, codes, nat_eq};
ghost use Rattle.std.specs.List.{starts_with};
ghost use Rattle.proxy_commands.specs.Printed.{last_comment};

use event_loop::{Inbox, Question, Sheet, shown};
use exchange_report::ExchangeId;
use std::alloc::{AllocError, Global};
use std::sync::Wait;
use std::time::{Clock, Duration, Instant};

/// How many milliseconds all threads together have for their answers.
const PATIENCE: u64 = 2000;

/// How much of that is left after the moment at which they were asked; nothing where there is no clock.
fn left<R: Clock>(rt: &R, asked: &Option<Instant>) -> Duration {
    let most = Duration::from_millis(PATIENCE);
    match asked {
        Some(asked) => match asked.elapsed(rt) {
            Ok(passed) => most.saturating_sub(passed),
            Err(_) => Duration::from_millis(0),
        },
        None => Duration::from_millis(0),
    }
}

/// Asks threads by their inboxes, all before the first is waited for, and takes their answers in this order. `None` stands for a thread that
/// doesn't answer within two seconds, or that still owes an earlier answer. `Err` where no memory was found.
pub(crate) fn ask_threads<R: Wait + Clock>(
    rt: &R,
    alloc: Global,
    inboxes: &[Inbox],
    question: Question,
) -> Result<Vec<Option<Sheet>>, AllocError> {
    let mut are_asked = Vec::with_capacity(alloc, inboxes.len())?;
    for inbox in inboxes {
        are_asked.push(inbox.ask(rt, question, Sheet::new(alloc)?))?;
    }
    let asked = Instant::now(rt).ok();
    let mut sheets = Vec::with_capacity(alloc, inboxes.len())?;
    for (inbox, is_asked) in inboxes.iter().zip(are_asked.iter()) {
        let sheet = if *is_asked {
            inbox.answer(rt, left(rt, &asked))
        } else {
            None
        };
        sheets.push(sheet)?;
    }
    Ok(sheets)
}

/// What is said of a thread that doesn't answer.
fn no_answer(alloc: Global, thread: u64) -> Result<Vec<u8>, AllocError> {
    let text = format!(in alloc; "# thread {thread}: no answer\n# EOF\n")?;
    Ok(text.into_bytes())
}

/// A script, with a last line by which whoever reads it knows that it is whole; a text of one line stays as it is.
fn ended(alloc: Global, text: &[u8]) -> Result<Vec<u8>, AllocError>
    ensures { IfOk result (λ answer. answer.items ≡ (if starts_with nat_eq text.now (codes "#") then text.now ++ last_comment else text.now)) }
{
    let mut answer = text.to_vec(alloc)?;
    if text.starts_with(b"#") {
        answer.extend_from_slice(b"# EOF\n")?;
    }
    Ok(answer)
}

/// What the thread says that this exchange is in: its script, what it waits for, or that it is over.
fn tell_one<R: Wait + Clock>(
    rt: &R,
    alloc: Global,
    inboxes: &[Inbox],
    id: ExchangeId,
) -> Result<Vec<u8>, AllocError> {
    let number = id.thread as usize;
    let question = Question::Trace(id);
    let inbox = inboxes.get(number..number.saturating_add(1));
    let sheets = ask_threads(rt, alloc, inbox.unwrap_or(&[]), question)?;
    match sheets.as_slice() {
        [Some(sheet)] if !sheet.lines().is_empty() => ended(alloc, sheet.text()),
        [None] => no_answer(alloc, id.thread),
        _ => b"gone\n".to_vec(alloc),
    }
}

/// What the threads of these inboxes say of their exchanges.
pub(crate) fn tell_exchanges<R: Wait + Clock>(
    rt: &R,
    alloc: Global,
    inboxes: &[Inbox],
    question: Question,
) -> Result<Vec<u8>, AllocError> {
    match question {
        Question::Trace(id) => tell_one(rt, alloc, inboxes, id),
        Question::Exchanges | Question::Waiting => {
            let sheets = ask_threads(rt, alloc, inboxes, question)?;
            shown(
                alloc,
                sheets.as_slice(),
                matches!(question, Question::Waiting),
            )
        }
    }
}
