//! The configuration that stands: the threads share it, and another one may take its place while they run.

ghost use Rattle.std.specs.Prelude.{◌≡◌, IfSome};
ghost use Rattle.std.specs.Arc.{arc_value};

use proxy_config::Config;
use std::mem;
use std::sync::atomic::{AtomicU64, Ordering};
use std::sync::{Arc, Mutex, Wait};

/// The configuration that the threads share.
///
/// ```
/// let live = Arc::new(alloc, LiveConfig::new(Arc::new(alloc, config)?))?;
/// let mut latest = LatestConfig::of(rt, &live)?;
/// let old = live.change(rt, Arc::new(alloc, other)?);
/// // The thread has the first one until it asks.
/// latest.renew(rt);
/// ```
#[derive(Drop)]
pub struct LiveConfig {
    config: Mutex<Arc<Config>>,
    /// How often another one took its place.
    changes: AtomicU64,
}

impl LiveConfig {
    /// This one stands first.
    pub fn new(config: Arc<Config>) -> LiveConfig {
        LiveConfig {
            config: Mutex::new(config),
            changes: AtomicU64::new(0),
        }
    }

    /// Another one takes its place, and the old one is handed out. Threads may still hold it: whoever is the last to let it go frees all
    /// its names, which takes a while where they are many.
    pub fn change<R: Wait>(&self, rt: &R, config: Arc<Config>) -> Arc<Config> {
        let mut stands = self.config.lock(rt);
        let old = mem::replace(&mut *stands, config);
        let _ = self.changes.fetch_add(1, Ordering::SeqCst);
        old
    }

    /// The one that stands, with its number. `None` where too many hold it.
    fn dated<R: Wait>(&self, rt: &R) -> Option<DatedConfig> {
        // One that takes its place meanwhile has a later number: then it is asked for again.
        let number = self.changes.load(Ordering::SeqCst);
        match Arc::clone(&*self.config.lock(rt)) {
            Ok(config) => Some(DatedConfig { config, number }),
            Err(_) => None,
        }
    }

    /// Whether the one of this number stands.
    fn is_at(&self, number: u64) -> bool {
        self.changes.load(Ordering::SeqCst) == number
    }
}

/// A configuration that stands or stood, and how often another one had taken its place when it was asked for.
#[derive(Drop)]
pub struct DatedConfig {
    config: Arc<Config>,
    number: u64,
}

impl DatedConfig {
    /// The configuration.
    pub fn config(&self) -> &Config
        ensures { result.now ≡ arc_value self.now.config }
    {
        &self.config
    }

    /// Its number.
    pub fn number(&self) -> u64
        ensures { result ≡ self.now.number }
    {
        self.number
    }

    /// The same once more. `None` where too many hold it.
    pub fn share(&self) -> Option<DatedConfig>
        ensures { IfSome result (λ other. (arc_value other.config ≡ arc_value self.now.config) × (other.number ≡ self.now.number)) }
    {
        match Arc::clone(&self.config) {
            Ok(config) => Some(DatedConfig {
                config,
                number: self.number,
            }),
            Err(_) => None,
        }
    }
}

/// The configuration that stands, as one thread knows it.
#[derive(Drop)]
pub struct LatestConfig {
    live: Arc<LiveConfig>,
    dated: DatedConfig,
}

impl LatestConfig {
    /// The one that stands now. `None` where too many hold it.
    pub fn of<R: Wait>(rt: &R, live: &Arc<LiveConfig>) -> Option<LatestConfig> {
        let dated = live.dated(rt)?;
        match Arc::clone(live) {
            Ok(live) => Some(LatestConfig { live, dated }),
            Err(_) => None,
        }
    }

    /// The one that the thread knows, with its number.
    pub fn dated(&self) -> &DatedConfig
        ensures { result.now ≡ self.now.dated }
    {
        &self.dated
    }

    /// The one that the thread knows.
    pub fn config(&self) -> &Config
        ensures { result.now ≡ arc_value self.now.dated.config }
    {
        self.dated.config()
    }

    /// Takes the one that stands now, where it is another one.
    pub fn renew<R: Wait>(&mut self, rt: &R)
        ensures { self.new.live ≡ self.old.live }
    {
        if self.live.is_at(self.dated.number) {
            return;
        }
        if let Some(dated) = self.live.dated(rt) {
            self.dated = dated;
        }
    }
}
