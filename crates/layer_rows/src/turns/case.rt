//! A row's transaction.

use crate::stage::Subject;
use adapt_turn::Side;
use std::alloc::Global;
use test_rows::{NoMemory, Scene, Values, put_text};
use trace_core::Plan;

/// A row's transaction: its plan, the turns that come first, and the values of the row's letters.
#[derive(Clone, Copy)]
pub struct Case<'a> {
    pub alloc: Global,
    pub plan: Plan,
    pub first: &'a [(Side, u64)],
    pub scene: Scene<'a>,
    pub values: Values,
}

impl<'a> Case<'a> {
    /// The text of a key.
    pub fn get(&self, key: &[u8]) -> &'a [u8] {
        self.scene.get(key)
    }

    /// Whether the row says something of a key.
    pub fn has(&self, key: &[u8]) -> bool {
        self.scene.has(key)
    }

    /// What the transaction is of.
    pub fn subject(&self) -> Subject<'a> {
        Subject {
            plan: self.plan,
            request: self.get(b"request"),
            head: self.get(b"head"),
            path: self.get(b"path"),
        }
    }

    /// Adds what a wire took, by the row's texts.
    pub fn put_taken(&self, out: &mut Vec<u8>, name: &[u8], taken: &[u8]) -> Result<(), NoMemory> {
        put_text(out, self.scene, name, taken, self.values)
    }
}
