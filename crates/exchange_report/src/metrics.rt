//! Counters as OpenMetrics text.

ghost use Rattle.std.specs.Prelude.{◌≡◌, ◌++◌, OnOk, IfOk, codes};
ghost use Rattle.exchange_report.specs.Metrics.{kind_word, ending, type_text, help_text, family_text, sample_text, reason_labels, reason_text, sum_text, metric_text, metrics_text};

use crate::why::Why;
use crate::words::write_number;
use adapt_bytes::three_digits;
use std::alloc::{AllocError, Global};

/// What kind of numbers a family has.
#[derive(Clone, Copy)]
pub enum Kind {
    /// They only grow.
    Counter,
    /// They rise and fall.
    Gauge,
    /// How many took up to each of some bounds, in seconds.
    Histogram,
}

/// Numbers of one name.
#[derive(Clone, Copy)]
pub struct Family {
    /// Letters, digits and underscores.
    pub name: &'static [u8],
    pub kind: Kind,
    /// What it is, in one line.
    pub help: &'static [u8],
}

/// A line or two of the text.
#[derive(Clone, Copy)]
pub enum Metric {
    /// A family begins: all its numbers follow.
    Family(Family),
    /// A number of a family, with its labels, as `{point="reqmod"}`, or none.
    Sample(Family, &'static [u8], u64),
    /// A number of a family, of a point, as `reqmod`, and a reason.
    Reason(Family, &'static [u8], Why, u64),
    /// How many of a histogram took up to the bound of these labels, in seconds, as `{le="0.005"}`. The bounds rise, and `+Inf` is the
    /// last.
    Bucket(Family, &'static [u8], u64),
    /// How many there were of a histogram in all, and the milliseconds that they took. It comes after the bounds.
    Times(Family, u64, u64),
}

/// The word of a kind.
fn kind_word(kind: Kind) -> &'static [u8]
    ensures { result.now ≡ kind_word kind }
{
    match kind {
        Kind::Counter => b" counter\n",
        Kind::Gauge => b" gauge\n",
        Kind::Histogram => b" histogram\n",
    }
}

/// What stands after the name of a number of this kind.
fn ending(kind: Kind) -> &'static [u8]
    ensures { result.now ≡ ending kind }
{
    match kind {
        Kind::Counter => b"_total",
        Kind::Gauge | Kind::Histogram => b"",
    }
}

/// Adds the line that says the kind of a family.
fn write_type(out: &mut Vec<u8>, family: &Family) -> Result<(), AllocError>
    ensures { OnOk result (out.new.items ≡ out.old.items ++ type_text family.now) }
{
    out.extend_from_slice(b"# TYPE ")?;
    out.extend_from_slice(family.name)?;
    out.extend_from_slice(kind_word(family.kind))
}

/// Adds the line that says what a family is.
fn write_help(out: &mut Vec<u8>, family: &Family) -> Result<(), AllocError>
    ensures { OnOk result (out.new.items ≡ out.old.items ++ help_text family.now) }
{
    out.extend_from_slice(b"# HELP ")?;
    out.extend_from_slice(family.name)?;
    out.extend_from_slice(b" ")?;
    out.extend_from_slice(family.help)?;
    out.extend_from_slice(b"\n")
}

/// Adds the lines with which a family begins.
fn write_family(out: &mut Vec<u8>, family: &Family) -> Result<(), AllocError>
    ensures { OnOk result (out.new.items ≡ out.old.items ++ family_text family.now) }
{
    write_type(out, family)?;
    write_help(out, family)
}

/// Adds the line of a number, by what stands after its family's name, and its labels.
fn write_sample(
    out: &mut Vec<u8>,
    family: &Family,
    ending: &[u8],
    labels: &[u8],
    value: u64,
) -> Result<(), AllocError>
    ensures { OnOk result (out.new.items ≡ out.old.items ++ sample_text family.now ending.now labels.now value) }
{
    out.extend_from_slice(family.name)?;
    out.extend_from_slice(ending)?;
    out.extend_from_slice(labels)?;
    out.extend_from_slice(b" ")?;
    write_number(out, value)?;
    out.extend_from_slice(b"\n")
}

/// Adds the labels of a point and a reason.
#[tactic(auto, unfolding(crate::specs::Metrics::reason_labels))]
fn write_reason_labels(out: &mut Vec<u8>, point: &[u8], why: Why) -> Result<(), AllocError>
    ensures { OnOk result (out.new.items ≡ out.old.items ++ reason_labels point.now why) }
{
    out.extend_from_slice(b"{point=\"")?;
    out.extend_from_slice(point)?;
    out.extend_from_slice(b"\",why=\"")?;
    out.extend_from_slice(why.word())?;
    out.extend_from_slice(b"\"}")
}

/// Adds the line of a number of a point and a reason.
fn write_reason(
    out: &mut Vec<u8>,
    family: &Family,
    point: &[u8],
    why: Why,
    value: u64,
) -> Result<(), AllocError>
    ensures { OnOk result (out.new.items ≡ out.old.items ++ reason_text family.now point.now why value) }
{
    out.extend_from_slice(family.name)?;
    out.extend_from_slice(ending(family.kind))?;
    write_reason_labels(out, point, why)?;
    out.extend_from_slice(b" ")?;
    write_number(out, value)?;
    out.extend_from_slice(b"\n")
}

/// Adds the line of the seconds that all of a histogram took.
#[tactic(auto, unfolding(crate::specs::Metrics::sum_text))]
fn write_sum(out: &mut Vec<u8>, family: &Family, milliseconds: u64) -> Result<(), AllocError>
    ensures { OnOk result (out.new.items ≡ out.old.items ++ sum_text family.now milliseconds) }
{
    out.extend_from_slice(family.name)?;
    out.extend_from_slice(b"_sum ")?;
    write_number(out, milliseconds / 1000)?;
    out.extend_from_slice(b".")?;
    out.extend_from_slice(&three_digits((milliseconds % 1000) as u16))?;
    out.extend_from_slice(b"\n")
}

/// Adds a line or two.
fn write_metric(out: &mut Vec<u8>, metric: &Metric) -> Result<(), AllocError>
    ensures { OnOk result (out.new.items ≡ out.old.items ++ metric_text metric.now) }
{
    match metric {
        Metric::Family(family) => write_family(out, family),
        Metric::Sample(family, labels, value) => {
            write_sample(out, family, ending(family.kind), labels, *value)
        }
        Metric::Reason(family, point, why, value) => {
            write_reason(out, family, point, *why, *value)
        }
        Metric::Bucket(family, labels, value) => {
            write_sample(out, family, b"_bucket", labels, *value)
        }
        Metric::Times(family, count, milliseconds) => {
            write_sample(out, family, b"_count", b"", *count)?;
            write_sum(out, family, *milliseconds)
        }
    }
}

/// Adds all of them, one after another.
fn write_metrics(out: &mut Vec<u8>, metrics: &[Metric]) -> Result<(), AllocError>
    ensures { OnOk result (out.new.items ≡ out.old.items ++ metrics_text metrics.now) }
{
    for metric in metrics {
        write_metric(out, metric)?;
    }
    Ok(())
}

/// The text of these numbers, whose last line says that it is whole.
pub fn metrics_text(alloc: Global, metrics: &[Metric]) -> Result<Vec<u8>, AllocError>
    ensures { IfOk result (λ text. text.items ≡ metrics_text metrics.now ++ codes "# EOF\n") }
{
    let mut out = Vec::new(alloc);
    write_metrics(&mut out, metrics)?;
    out.extend_from_slice(b"# EOF\n")?;
    Ok(out)
}
