//! What holds of each refusal that is noted: a law is the contract of a function that does nothing.

ghost use Rattle.std.specs.Prelude.{◌≡◌};
ghost use Rattle.adapt_turn.specs.Refusals.{refusal_status};
ghost use Rattle.exchange_core.specs.declared.event.RefusalCause.TheVariants.{Elsewhere};
ghost use Rattle.exchange_report.specs.Reasons.{cause_of};
ghost use Rattle.shard_desk.specs.Failures.{HasStatus};
ghost use Rattle.shard_report.specs.Reasons.{failed_word};
ghost use Rattle.shard_report.specs.declared.reasons.Evidence.{Evidence};
ghost use Rattle.trace_core.specs.declared.history.Cause.{Cause};
ghost use Rattle.trace_core.specs.declared.history.Seen.{Seen};

/// A transaction that failed is noted with the status of its refusal, unless its user is gone. Of a service it is noted that it lies
/// there.
pub fn a_failure_has_the_status_of_its_refusal()
    ensures { (cause : Cause) → (seen : Seen) → (evidence : Evidence) → cause_of evidence.service ≡ Elsewhere
        → HasStatus (refusal_status cause seen.plan.point) (failed_word cause seen evidence) }
{}
