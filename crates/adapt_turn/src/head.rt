//! The head with which the chosen message goes on.

ghost use Rattle.std.specs.Prelude.{ℕ, Bool, List, Option, IfOk, IfErr, option_copied};
ghost use Rattle.trace_core.specs.declared.history.Cause.{Cause as AnyCause};
ghost use Rattle.trace_core.specs.declared.history.Seen.{Seen};
ghost use Rattle.trace_core.specs.History.{shows};

use adapt_sides::{Hop, Source};
use std::alloc::Global;
use trace_core::{Cause, State};

/// Makes the head of the message that is chosen, and says how its body goes.
pub trait MakesHead<S: Source, K: Hop>: Drop {
    // of the source's head, where this is seen, and of an adapted head, which is a response's or not: this head, and how the
    // body goes with it
    ghost makes: { Self → S.Head → Seen → Option (List ℕ) → Bool → List ℕ → K.Framing → Type 0 };

    // why it makes none of them
    ghost makes_none: { Self → S.Head → Seen → Option (List ℕ) → Bool → AnyCause → Type 0 };

    /// The head of the original, or of the adapted message where its head is given: a response where that stood as res-hdr (RFC 3507,
    /// section 4.4.1), else a message of the original's kind. A head that can't be read is the service's fault.
    fn forward(
        &mut self,
        alloc: Global,
        state: &State,
        source: &S,
        adapted: Option<&[u8]>,
        is_response: bool,
    ) -> Result<(Vec<u8>, K::Framing), Cause>
        ensures made { IfOk result (λ made. makes self.new (S.head source.now) (shows state.now) (option_copied adapted.entry) is_response made.0.items made.1) }
        ensures refused { IfErr result (λ cause. makes_none self.old (S.head source.now) (shows state.now) (option_copied adapted.entry) is_response cause) };
}
