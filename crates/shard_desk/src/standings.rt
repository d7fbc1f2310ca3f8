//! The configuration as the exchanges of one thread have it: each goes on by what stood when it began.

ghost use Rattle.std.specs.Prelude.{◌≡◌, true, false, slice_get};
ghost use Rattle.shard_desk.specs.Standings.{HasNone, IsAsOf, SameButAt, goes_by};

use event_loop::{DatedConfig, LatestConfig, LiveConfig};
use proxy_config::Config;
use std::alloc::{AllocError, Global};
use std::sync::{Arc, Wait};

/// The configuration as one thread has it: what stands now, and what each exchange goes by.
#[derive(Drop)]
pub struct Standings {
    latest: LatestConfig,
    /// What the exchange under each key goes by.
    own: Vec<Option<DatedConfig>>,
    /// The key of the exchange that is served.
    serving: usize,
}

impl Standings {
    /// No exchange yet. `None` where the configuration that stands can't be had.
    pub fn of<R: Wait>(rt: &R, alloc: Global, live: &Arc<LiveConfig>) -> Option<Standings> {
        let latest = LatestConfig::of(rt, live)?;
        Some(Standings {
            latest,
            own: Vec::new(alloc),
            serving: 0,
        })
    }

    /// Has room for the exchanges of so many keys. `Err` where no memory was found.
    pub fn seat(&mut self, keys: usize) -> Result<(), AllocError> {
        for _ in 0..keys {
            self.own.push(None)?;
        }
        Ok(())
    }

    /// What the exchange goes by that is served.
    pub fn config(&self) -> &Config
        ensures { result.now ≡ goes_by self.now self.now.serving }
    {
        match self.own.get(self.serving) {
            Some(Some(own)) => own.config(),
            _ => self.latest.config(),
        }
    }

    /// The exchange under this key is served from now on. One that is open goes on by what stood when it began; another one by what stands
    /// now.
    #[inline(always)]
    pub fn take_up<R: Wait>(&mut self, rt: &R, key: usize, is_open: bool)
        ensures serving { self.new.serving ≡ key }
        ensures open { is_open ≡ true → goes_by self.new key ≡ goes_by self.old key }
        ensures others { SameButAt key self.old.own.items self.new.own.items }
        ensures now { is_open ≡ false → IsAsOf self.new.latest.dated.number (slice_get self.new.own.items key) }
    {
        self.serving = key;
        if is_open {
            return;
        }
        self.latest.renew(rt);
        let number = self.latest.dated().number();
        if let Some(own) = self.own.get_mut(key) {
            let is_known = match own {
                Some(own) => own.number() == number,
                None => false,
            };
            if !is_known {
                *own = self.latest.dated().share();
            }
        }
    }

    /// The user under this key has left.
    pub fn leave(&mut self, key: usize)
        ensures gone { HasNone (slice_get self.new.own.items key) }
        ensures others { SameButAt key self.old.own.items self.new.own.items }
        ensures kept { self.new ≡ record self.old { own = self.new.own } }
    {
        if let Some(own) = self.own.get_mut(key) {
            *own = None;
        }
    }
}
