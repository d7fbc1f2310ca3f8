//! What several threads do at once.
use std::thread;
use std::thread::Threads;

/// What a thread does with what it shares with others.
pub trait ThreadTask {
    /// What it has at the end.
    type Kept;

    /// Does it.
    fn run(&self) -> Self::Kept;
}

/// What each of four threads has.
pub type Four<K> = ((K, K), (K, K));

/// What two threads have.
pub fn two<S: ThreadTask + Sync, T: ThreadTask + Sync, R: Threads + Sync>(
    rt: &R,
    first: &S,
    second: &T,
) -> (S::Kept, T::Kept)
where
    S::Kept: Send,
    T::Kept: Send,
{
    thread::join(rt, move || first.run(), move || second.run())
}

/// What four threads have that do the same.
pub fn four<T: ThreadTask + Sync, R: Threads + Sync>(rt: &R, task: &T) -> Four<T::Kept>
where
    T::Kept: Send,
{
    thread::join(rt, move || two(rt, task, task), move || two(rt, task, task))
}
