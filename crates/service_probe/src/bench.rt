//! All that a configuration's services are tried with.

ghost use Rattle.std.specs.Prelude.{◌≡◌, ◌≤◌, ◌++◌, ◌&&◌, ◌==◌, nat_lt, IfSome, OnOk};
ghost use Rattle.std.specs.Option.{ForSome};
ghost use Rattle.adapt_bytes.specs.declared.limits.TheConstants.{MAX_PREVIEW};
ghost use Rattle.service_probe.specs.ProbeOutcome.{counted_text, tally_text};

use crate::attempt::ProbeAttempt;
use crate::choice::SampleChoice;
use crate::options::OptionsAnswer;
use crate::report::{ConnectionUse, put_attempt, put_spread};
use crate::samples::{SAMPLES, Sample, Trial};
use crate::service::{BenchedService, ProbedService};
use crate::text::put_number;
use plan_rules::Limits;
use proxy_config::{Config, ServicePoint};
use proxy_rules::limits_of;
use socket_wire::Dial;
use span_bank::{Bank, Ledgers};
use std::alloc::{AllocError, Global};
use std::io::{self, Write};
use std::net::Net;
use std::sync::Wait;
use std::time::Clock;
use trace_core::Point;

/// The size that stands for a preview's where a service wants none.
const NO_PREVIEW: u64 = 1_024;

/// What services are tried with.
#[derive(Drop)]
pub struct Bench<'a, B: Ledgers, R> {
    pub rt: &'a R,
    pub alloc: Global,
    /// A budget that has room for one message.
    pub bank: &'a Bank<B>,
    pub config: &'a Config,
    /// Which samples, and how often.
    pub choice: SampleChoice,
}

/// How many attempts there were, and how many of them brought no answer by the rules.
#[derive(Clone, Copy)]
struct Tally {
    all: u64,
    broken: u64,
}

impl Tally {
    /// Counts an attempt.
    fn count(&mut self, attempt: &ProbeAttempt) {
        self.all = self.all.saturating_add(1);
        if !attempt.came.is_good() {
            self.broken = self.broken.saturating_add(1);
        }
    }

    /// Whether answers came, and all of them were by the rules.
    fn is_good(self) -> bool
        ensures { result ≡ (nat_lt 0 self.all && self.broken == 0) }
    {
        self.all > 0 && self.broken == 0
    }
}

/// Adds a number, and words.
#[tactic(auto, unfolding(crate::specs::ProbeOutcome::counted_text))]
fn put_counted(out: &mut Vec<u8>, number: u64, words: &[u8]) -> Result<(), AllocError>
    ensures { OnOk result (out.new.items ≡ out.old.items ++ counted_text number words.now) }
{
    put_number(out, number)?;
    out.extend_from_slice(words)
}

/// Adds the last line: how many answers came, and how many of them broke a rule.
fn put_tally(out: &mut Vec<u8>, all: u64, broken: u64) -> Result<(), AllocError>
    ensures { OnOk result (out.new.items ≡ out.old.items ++ tally_text all broken) }
{
    put_counted(out, all, b" answers, of which ")?;
    put_counted(out, broken, b" broke a rule\n")
}

/// What a service is tried with: the messages of a point, for previews of the size that it wants, if it wants some.
#[derive(Clone, Copy)]
struct Target {
    point: Point,
    preview: Option<u64>,
    ghost small: { ForSome preview (λ most. most ≤ MAX_PREVIEW) },
}

impl Target {
    /// A sample's message for this service. `None` where it has none.
    fn trial(&self, sample: Sample) -> Option<Trial> {
        let most = match self.preview {
            Some(most) => most,
            None => NO_PREVIEW,
        };
        let size = sample.size(most)?;
        Some(Trial {
            sample,
            plan: sample.plan(self.point, self.preview, size),
            size,
        })
    }
}

/// The size of the previews that the proxy sends to a service that wants them of this size, or wants none.
fn preview_of(wanted: Option<u64>, limits: &Limits) -> Option<u64>
    ensures { IfSome result (λ most. most ≤ MAX_PREVIEW) }
{
    match wanted {
        Some(size) => Some(size.min(limits.preview_limit)),
        None => None,
    }
}

/// What a service is tried with by what it said of its options. `None` where it doesn't serve.
fn target_of(point: Point, told: &OptionsAnswer, limits: &Limits) -> Option<Target> {
    let said = told.said.as_ref()?;
    Some(Target {
        point,
        preview: preview_of(said.preview, limits),
    })
}

/// Prints the line of an attempt.
fn print_attempt<O: Write>(
    alloc: Global,
    way: ConnectionUse,
    trial: &Trial,
    attempt: &ProbeAttempt,
    output: &mut O,
) -> io::Result<()> {
    let mut line = Vec::new(alloc);
    put_attempt(
        &mut line,
        way,
        trial.sample.name(),
        Some(trial.size),
        attempt,
    )?;
    output.write_all(&line)
}

/// Prints the spread of times, where there are several.
fn print_spread<O: Write>(alloc: Global, times: &mut [u64], output: &mut O) -> io::Result<()> {
    if times.len() < 2 {
        return Ok(());
    }
    times.sort_unstable();
    let mut line = Vec::new(alloc);
    put_spread(&mut line, times)?;
    output.write_all(&line)
}

/// Tries a service with a sample once more, and prints a line of the first answer and of each other one that broke a rule.
fn try_once<S: ProbedService, O: Write>(
    alloc: Global,
    service: &mut S,
    trial: &Trial,
    way: ConnectionUse,
    tally: &mut Tally,
    times: &mut Vec<u64>,
    output: &mut O,
) -> io::Result<()> {
    let attempt = service.try_sample(trial, way)?;
    let is_told = times.is_empty() || !attempt.came.is_good();
    tally.count(&attempt);
    times.push(attempt.micros)?;
    if is_told {
        print_attempt(alloc, way, trial, &attempt, output)?;
    }
    Ok(())
}

/// Tries a service with a sample so many times over connections of one kind, and prints the spread of the times.
fn try_over<S: ProbedService, O: Write>(
    alloc: Global,
    count: u64,
    service: &mut S,
    trial: &Trial,
    way: ConnectionUse,
    tally: &mut Tally,
    output: &mut O,
) -> io::Result<()> {
    let mut times = Vec::new(alloc);
    for _ in 0..count {
        try_once(alloc, service, trial, way, tally, &mut times, output)?;
    }
    print_spread(alloc, &mut times, output)?;
    output.flush()
}

/// Tries a service with all samples that are chosen, over connections of one kind.
fn try_samples<S: ProbedService, O: Write>(
    alloc: Global,
    choice: SampleChoice,
    service: &mut S,
    target: Target,
    way: ConnectionUse,
    tally: &mut Tally,
    output: &mut O,
) -> io::Result<()> {
    for sample in SAMPLES.iter() {
        if choice.has(*sample)
            && let Some(trial) = target.trial(*sample)
        {
            try_over(alloc, choice.count, service, &trial, way, tally, output)?;
        }
    }
    Ok(())
}

/// Adds the line of a service: its point, and where it is.
fn put_service(out: &mut Vec<u8>, point: Point, place: &str, path: &str) -> Result<(), AllocError> {
    out.extend_from_slice(match point {
        Point::Reqmod => b"reqmod icap://",
        Point::Respmod => b"respmod icap://",
    })?;
    out.extend_from_slice(place.as_bytes())?;
    out.extend_from_slice(path.as_bytes())?;
    out.extend_from_slice(b"\n")
}

/// Adds the line of a service, and that of what came of asking for its options.
fn put_told(
    out: &mut Vec<u8>,
    alloc: Global,
    service: &ServicePoint,
    point: Point,
    attempt: &ProbeAttempt,
) -> Result<(), AllocError> {
    let place = format!(in alloc; "{}", service.address)?;
    put_service(out, point, place.as_str(), service.path.as_str())?;
    put_attempt(out, ConnectionUse::Fresh, b"options", None, attempt)
}

/// Prints a service, what came of asking for its options, and what they say.
fn print_told<O: Write>(
    alloc: Global,
    service: &ServicePoint,
    point: Point,
    told: &OptionsAnswer,
    output: &mut O,
) -> io::Result<()> {
    let mut text = Vec::new(alloc);
    put_told(&mut text, alloc, service, point, &told.attempt)?;
    output.write_all(&text)?;
    if let Some(said) = &told.said {
        output.write_all(&said.words)?;
    }
    output.flush()
}

/// Tries a service: its options, and then all samples that are chosen, over one connection and over a fresh one for each.
fn try_service<S: ProbedService, O: Write>(
    alloc: Global,
    choice: SampleChoice,
    limits: &Limits,
    service: &mut S,
    tally: &mut Tally,
    output: &mut O,
) -> io::Result<()> {
    let told = service.ask()?;
    tally.count(&told.attempt);
    let (place, point) = service.place();
    print_told(alloc, place, point, &told, output)?;
    let Some(target) = target_of(point, &told, limits) else {
        return Ok(());
    };
    try_samples(
        alloc,
        choice,
        service,
        target,
        ConnectionUse::Kept,
        tally,
        output,
    )?;
    try_samples(
        alloc,
        choice,
        service,
        target,
        ConnectionUse::Fresh,
        tally,
        output,
    )
}

/// Tries the service of a point, if there is one.
fn try_point<B: Ledgers, R: Wait + Net + Dial + Clock, O: Write>(
    bench: &Bench<'_, B, R>,
    place: &Option<ServicePoint>,
    point: Point,
    tally: &mut Tally,
    output: &mut O,
) -> io::Result<()> {
    let Some(place) = place else {
        return Ok(());
    };
    let mut service = BenchedService {
        bench,
        service: place,
        point,
        kept: None,
    };
    let limits = limits_of(bench.config);
    try_service(
        bench.alloc,
        bench.choice,
        &limits,
        &mut service,
        tally,
        output,
    )
}

/// Prints the last line. Whether answers came, and all of them were by the rules.
fn print_tally<O: Write>(alloc: Global, tally: Tally, output: &mut O) -> io::Result<bool> {
    let mut line = Vec::new(alloc);
    put_tally(&mut line, tally.all, tally.broken)?;
    output.write_all(&line)?;
    output.flush()?;
    Ok(tally.is_good())
}

/// Tries each configured service, and prints what came. Whether answers came, and all of them were by the rules.
///
/// An error where the output or the clock fails, or no memory was found for a line or a message.
pub fn probe<B: Ledgers, R: Wait + Net + Dial + Clock, O: Write>(
    bench: &Bench<'_, B, R>,
    output: &mut O,
) -> io::Result<bool> {
    let mut tally = Tally { all: 0, broken: 0 };
    let config = bench.config;
    try_point(bench, &config.reqmod, Point::Reqmod, &mut tally, output)?;
    try_point(bench, &config.respmod, Point::Respmod, &mut tally, output)?;
    print_tally(bench.alloc, tally, output)
}
