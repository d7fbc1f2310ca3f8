//! The plan of a script: its first line.

ghost use Rattle.std.specs.Prelude.{◌≡◌, IfSome, IfNone};
ghost use Rattle.trace_core.specs.declared.history.Plan.{Plan as AnyPlan};
ghost use Rattle.proxy_commands.specs.Reading.{up_to_space, from_space, kind_of, length_of, allow_of, parts_of};
ghost use Rattle.proxy_commands.specs.Script.{SaysPlan};

use crate::reading::{behind, number};
use trace_core::{Kind, Plan, Point};

/// The text up to its first space, and from there on.
fn split_at_space(text: &[u8]) -> (&[u8], &[u8])
    ensures front { result.0.now ≡ up_to_space text.now }
    ensures back { result.1.now ≡ from_space text.now }
{
    match text.iter().position(|byte| *byte == b' ') {
        Some(end) => text.split_at(end),
        None => text.split_at(text.len()),
    }
}

/// The kind at the beginning, and what follows it.
#[tactic(auto, unfolding(crate::specs::Reading::kind_of))]
fn read_kind(text: &[u8]) -> Option<(Kind, &[u8])>
    ensures none { IfNone result (kind_of text.now ≡ None) }
    ensures some { IfSome result (λ found. kind_of text.now ≡ Some (found.0, found.1.now)) }
{
    if let Some(rest) = behind(text, b"plain") {
        return Some((Kind::Plain, rest));
    }
    if let Some(rest) = behind(text, b"whole") {
        return Some((Kind::Whole, rest));
    }
    let (digits, rest) = split_at_space(behind(text, b"preview ")?);
    Some((Kind::Preview(number(digits)?), rest))
}

/// The length of the body: not known if nothing is written.
#[tactic(auto, unfolding(crate::specs::Reading::length_of))]
fn read_length(text: &[u8]) -> Option<Option<u64>>
    ensures { result ≡ length_of text.now }
{
    if text.is_empty() {
        return Some(None);
    }
    let digits = behind(text, b" len ")?;
    Some(Some(number(digits)?))
}

/// Whether the request carries `Allow: 204`, whether it may begin anew, and what follows that.
fn read_allow(text: &[u8]) -> ((bool, bool), &[u8])
    ensures allow { result.0 ≡ (allow_of text.now).0 }
    ensures rest { result.1.now ≡ (allow_of text.now).1 }
{
    if let Some(rest) = behind(text, b" allow retry") {
        return ((true, true), rest);
    }
    if let Some(rest) = behind(text, b" allow") {
        return ((true, false), rest);
    }
    match behind(text, b" retry") {
        Some(rest) => ((false, true), rest),
        None => ((false, false), text),
    }
}

/// The parts of a plan's line.
#[tactic(auto, unfolding(crate::specs::Reading::parts_of))]
fn read_parts(line: &[u8]) -> Option<(Kind, (bool, bool), Option<u64>)>
    ensures { result ≡ parts_of line.now }
{
    let (kind, options) = read_kind(behind(line, b"plan ")?)?;
    let (allow, rest) = read_allow(options);
    Some((kind, allow, read_length(rest)?))
}

/// The plan that a line says: `plan plain`, `plan whole` or `plan preview P`, then ` allow` where the request carries `Allow: 204`
/// (RFC 3507, section 4.6), then ` retry` where the plan lets it begin anew, then ` len N` where the body's length is known. `None` for
/// a line of another form, and where P or N is above `2^62 - 1`.
///
/// A script doesn't say the vectoring point, which changes no answer: the plan is a response's.
pub fn read_plan(line: &[u8]) -> Option<Plan>
    ensures found { IfSome result (SaysPlan line.now) }
    ensures none { IfNone result ((plan : AnyPlan) → SaysPlan line.now plan → ⊥) }
{
    let (kind, (allow, retry), len) = read_parts(line)?;
    Plan::new(kind, allow, retry, len, Point::Respmod)
}
