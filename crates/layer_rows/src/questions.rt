//! Lines of a row's `want`, each a question, an event or a step with what is said of it.
use test_rows::{NoMemory, lines_of};

/// What stands before this mark, or all if there is no mark, and what stands after it.
pub fn cut<'a>(text: &'a [u8], mark: &[u8]) -> (&'a [u8], &'a [u8]) {
    for at in 0..text.len() {
        if let Some(rest) = text[at..].strip_prefix(mark) {
            return (&text[..at], rest);
        }
    }
    (text, b"")
}

/// What a line of the wanted answers asks: what stands before ` = `.
pub fn asked(line: &[u8]) -> &[u8] {
    cut(line, b" = ").0
}

/// What is asked, or takes steps.
pub trait Subject {
    /// Adds what is said of a question, or what a step answers.
    fn put_said(&mut self, question: &[u8], out: &mut Vec<u8>) -> Result<(), NoMemory>;
}

/// Adds each question among the wanted lines with what is said of it.
pub fn put_lines<S: Subject>(
    what: &mut S,
    lines: &[u8],
    out: &mut Vec<u8>,
) -> Result<(), NoMemory> {
    for line in lines_of(lines) {
        let question = asked(line);
        if question.len() < line.len() {
            out.extend_from_slice(question)?;
            out.extend_from_slice(b" = ")?;
            what.put_said(question, out)?;
        }
    }
    Ok(())
}
