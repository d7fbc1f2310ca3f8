//! The configurations that others took the place of: they are freed here, so that no thread with users spends its time on their names.

ghost use Rattle.std.specs.Prelude.{◌≡◌, ◌<◌, ◌++◌, ◌∷◌, [], IsOk};
ghost use Rattle.std.specs.Vec.{vec_len, vec_capacity};

use proxy_config::Config;
use std::alloc::{AllocError, Global};
use std::sync::Arc;

/// Configurations that stand no more, which threads may still go by.
#[derive(Drop)]
pub struct Replaced {
    configs: Vec<Arc<Config>>,
}

impl Replaced {
    /// None yet.
    pub fn new(alloc: Global) -> Replaced
        ensures { result.configs.items ≡ [] }
    {
        Replaced {
            configs: Vec::new(alloc),
        }
    }

    /// Has room for one more. `Err` where no memory was found.
    pub fn reserve(&mut self) -> Result<(), AllocError>
        ensures room { IsOk result → vec_len self.new.configs < vec_capacity self.new.configs }
        ensures kept { self.new.configs.items ≡ self.old.configs.items }
    {
        self.configs.reserve(1)
    }

    /// One more is replaced. Where there is no room for it, it is let go at once.
    pub fn put(&mut self, config: Arc<Config>)
        ensures room { vec_len self.old.configs < vec_capacity self.old.configs → self.new.configs.items ≡ self.old.configs.items ++ config ∷ [] }
    {
        let _ = self.configs.push(config);
    }

    /// Frees those that no thread goes by any more.
    pub fn tidy(&mut self) {
        // Nobody else can come to hold one of which this is the only owner.
        self.configs.retain(|config| Arc::strong_count(config) > 1);
    }
}
