//! The newest acts of a connector.

ghost use Rattle.std.specs.Prelude.{◌≡◌, List, [], ◌∷◌, None, Some};
ghost use Rattle.service_pool.specs.declared.connector.Act.{Act as AnyAct};
ghost use Rattle.service_pool.specs.Latest.{IsLatest};

use crate::connector::Act;

/// What a connector was asked last, and what before that. Two acts tell whether a connection was looked at before it was used, or before
/// it was laid down.
#[derive(Clone, Copy, Drop)]
pub struct Latest {
    last: Option<Act>,
    before: Option<Act>,
}

impl Latest {
    /// Before anything was asked.
    pub fn new() -> Latest
        ensures { IsLatest result [] }
    {
        Latest {
            last: None,
            before: None,
        }
    }

    /// Takes note of an act.
    pub fn note(&mut self, act: Act)
        ensures { (p : List AnyAct) → IsLatest self.old p → IsLatest self.new (act ∷ p) }
    {
        self.before = self.last;
        self.last = Some(act);
    }
}
