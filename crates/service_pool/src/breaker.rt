//! A circuit breaker: a service that failed so often in a row gets nothing for a while, and then one message that tries it.

ghost use Rattle.std.specs.Prelude.{◌≡◌, true, false, not};
ghost use Rattle.service_pool.specs.Pauses.{is_same as is_one, is_past, is_closed, admits, after_admission, after_trial, after_failure, after_closed, after_end};

use crate::queue::Waiter;

/// After how many failures in a row a service is paused, and for how many seconds. `Breakers` never pauses it where `failures` is 0.
#[derive(Clone, Copy, Drop)]
pub struct PauseRule {
    pub failures: u64,
    pub seconds: u64,
}

/// What a message, or a question for options, came to at its service.
#[derive(Clone, Copy, Drop)]
pub enum ServiceEnd {
    /// The service answered.
    Answered,
    /// It was refused by the service, or broken or late there.
    Failed,
    /// It ended for other reasons before the service had answered.
    Untold,
}

/// How a breaker stands.
#[derive(Clone, Copy, Drop)]
pub(crate) enum Standing {
    /// Messages go to the service. So many of the last ones failed.
    Closed(u64),
    /// The service is paused since this moment.
    Paused(u64),
    /// Its pause is over: the next message tries it.
    Over,
    /// This one tries it since this moment.
    Trying(Waiter, u64),
}

/// The breaker of one service.
///
/// ```
/// let rule = PauseRule { failures: 1, seconds: 30 };
/// let mut breaker = Breaker::new(rule);
/// let first = Waiter { thread: 0, key: 7 };
/// let second = Waiter { thread: 1, key: 4 };
/// breaker.end(first, 100, ServiceEnd::Failed);
/// assert!(rt; !breaker.admit(first, 129));
/// // The pause is over: one tries the service, and no other until it has.
/// assert!(rt; breaker.admit(second, 130));
/// assert!(rt; !breaker.admit(first, 131));
/// breaker.end(second, 132, ServiceEnd::Answered);
/// assert!(rt; breaker.admit(first, 132));
/// ```
#[derive(Clone, Copy, Drop)]
pub struct Breaker {
    rule: PauseRule,
    standing: Standing,
}

impl Breaker {
    /// The breaker of a service that hasn't failed.
    pub fn new(rule: PauseRule) -> Breaker
        ensures { (result.rule ≡ rule) × (result.standing ≡ Standing.Closed 0) }
    {
        Breaker {
            rule,
            standing: Standing::Closed(0),
        }
    }

    /// Whether the service was paused, and isn't yet known to answer again. The next message may still be let through, to try it.
    pub fn is_paused(&self) -> bool
        ensures { result ≡ not (is_closed self.now.standing) }
    {
        !matches!(self.standing, Standing::Closed(_))
    }

    /// Whether a pause, or a try, that began at this moment has lasted for so long.
    fn is_past(&self, since: u64, now: u64) -> bool
        ensures { result ≡ is_past self.now.rule.seconds since now }
    {
        now.saturating_sub(since) >= self.rule.seconds
    }

    /// Whether a message of this one may go to the service at this moment.
    fn admits(&self, who: Waiter, now: u64) -> bool
        ensures { result ≡ admits self.now.rule.seconds self.now.standing who now }
    {
        match self.standing {
            Standing::Closed(_) | Standing::Over => true,
            Standing::Paused(since) => self.is_past(since, now),
            Standing::Trying(trial, since) => is_same(trial, who) || self.is_past(since, now),
        }
    }

    /// Lets a message of this one through to the service at this moment, if it may go there.
    pub fn admit(&mut self, who: Waiter, now: u64) -> bool
        ensures admits { result ≡ admits self.old.rule.seconds self.old.standing who now }
        ensures noted { result ≡ true → self.new.standing ≡ after_admission self.old.standing who now }
        ensures same { result ≡ false → self.new ≡ self.old }
        ensures rule { self.new.rule ≡ self.old.rule }
    {
        let admits = self.admits(who, now);
        if admits {
            self.standing = tried(self.standing, who, now);
        }
        admits
    }

    /// How it stands where messages go to the service, of which so many failed, once one more came to this.
    fn after_closed(&self, failed: u64, now: u64, end: ServiceEnd) -> Standing
        ensures { result ≡ after_closed self.now.rule failed now end }
    {
        match end {
            ServiceEnd::Answered => Standing::Closed(0),
            ServiceEnd::Failed => after_failure(failed, self.rule.failures, now),
            ServiceEnd::Untold => Standing::Closed(failed),
        }
    }

    /// Takes note of what a message, or a question, of this one came to at the service.
    pub fn end(&mut self, who: Waiter, now: u64, end: ServiceEnd)
        ensures stands { self.new.standing ≡ after_end self.old.rule self.old.standing who now end }
        ensures rule { self.new.rule ≡ self.old.rule }
    {
        match self.standing {
            Standing::Closed(failed) => self.standing = self.after_closed(failed, now, end),
            Standing::Trying(trial, _) if is_same(trial, who) => {
                self.standing = after_trial(now, end);
            }
            _ => {}
        }
    }
}

/// Whether it is the same one.
fn is_same(a: Waiter, b: Waiter) -> bool
    ensures { result ≡ is_one a b }
{
    a.thread == b.thread && a.key == b.key
}

/// How a breaker stands after one failure more than so many in a row, of which `most` begin a pause.
fn after_failure(failed: u64, most: u64, now: u64) -> Standing
    ensures { result ≡ after_failure failed most now }
{
    match failed.checked_add(1) {
        Some(more) if more < most => Standing::Closed(more),
        _ => Standing::Paused(now),
    }
}

/// How a breaker stands once this one was let through.
fn tried(standing: Standing, who: Waiter, now: u64) -> Standing
    ensures { result ≡ after_admission standing who now }
{
    match standing {
        Standing::Closed(failed) => Standing::Closed(failed),
        _ => Standing::Trying(who, now),
    }
}

/// How a breaker stands once the one that tried the service came to this.
fn after_trial(now: u64, end: ServiceEnd) -> Standing
    ensures { result ≡ after_trial now end }
{
    match end {
        ServiceEnd::Answered => Standing::Closed(0),
        ServiceEnd::Failed => Standing::Paused(now),
        ServiceEnd::Untold => Standing::Over,
    }
}
