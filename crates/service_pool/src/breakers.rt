//! The breakers of both services, which all threads share.

ghost use Rattle.std.specs.Prelude.{◌≡◌, ◌↔◌, None, IfSome, true, false};
ghost use Rattle.std.specs.Option.{ForSome, ForNone};
ghost use Rattle.service_pool.specs.Pauses.{admits};

use crate::breaker::{Breaker, PauseRule, ServiceEnd};
use crate::queue::Waiter;
use std::sync::{Mutex, Wait};
use trace_core::Point;

/// The breakers of both services. None is looked at where no service is ever paused.
#[derive(Drop)]
pub struct Breakers {
    rule: PauseRule,
    request: Mutex<Breaker>,
    response: Mutex<Breaker>,
}

/// That a message may go to its service: the breaker lets it through. Only `pass_of` makes one.
#[derive(Drop)]
pub(crate) struct Pass {
    failures: u64,
    who: Waiter,
    /// The moment at which it was let through.
    pub moment: u64,
    found: Option<Breaker>,
    // its breaker was found so, and admitted it at that moment; none was looked at where no service is ever paused
    ghost admitted: { ForSome found (λ breaker. admits breaker.rule.seconds breaker.standing who moment ≡ true) },
    ghost off: { ForNone found (failures ≡ 0) },
}

impl Breakers {
    /// The breakers of services that haven't failed.
    pub fn new(rule: PauseRule) -> Breakers
        ensures { result.rule ≡ rule }
    {
        Breakers {
            rule,
            request: Mutex::new(Breaker::new(rule)),
            response: Mutex::new(Breaker::new(rule)),
        }
    }

    /// The breaker of a point's service.
    fn breaker(&self, point: Point) -> &Mutex<Breaker> {
        match point {
            Point::Reqmod => &self.request,
            Point::Respmod => &self.response,
        }
    }

    /// Lets a message through to its service, if it may go there.
    pub(crate) fn pass_of<R: Wait>(
        &self,
        rt: &R,
        point: Point,
        who: Waiter,
        now: u64,
    ) -> Option<Pass>
        ensures passes { IfSome result (λ pass. (pass.failures ≡ self.now.rule.failures) × (pass.who ≡ who) × (pass.moment ≡ now)) }
        ensures off { self.now.rule.failures ≡ 0 → result ≡ None → ⊥ }
    {
        let failures = self.rule.failures;
        if failures == 0 {
            return Some(Pass {
                failures,
                who,
                moment: now,
                found: None,
            });
        }
        let mut breaker = self.breaker(point).lock(rt);
        let found = *breaker;
        if breaker.admit(who, now) {
            Some(Pass {
                failures,
                who,
                moment: now,
                found: Some(found),
            })
        } else {
            None
        }
    }

    /// Takes note of what a message, or a question, of this one came to at its service.
    pub fn end<R: Wait>(&self, rt: &R, point: Point, who: Waiter, now: u64, end: ServiceEnd) {
        if self.rule.failures > 0 {
            self.breaker(point).lock(rt).end(who, now, end);
        }
    }

    /// Whether a point's service was paused, and isn't yet known to answer again. False where no service is ever paused.
    pub fn is_paused<R: Wait>(&self, rt: &R, point: Point) -> bool
        ensures off { self.now.rule.failures ≡ 0 → result ≡ false }
    {
        self.rule.failures > 0 && self.breaker(point).lock(rt).is_paused()
    }
}
