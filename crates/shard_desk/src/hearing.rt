//! What a connection is that may have to say first where it comes from.

use crate::seat::Purpose;
use socket_wire::UserWire;
use std::alloc::{AllocError, Global};

/// What came of a connection's header.
#[derive(Clone, Copy)]
pub enum Hearing {
    /// It isn't whole yet.
    Waits,
    /// It is whole: the connection is for this from now on.
    Begins(Purpose),
    /// There is no seat for its user.
    Full,
    /// What came is no header, or it isn't whole in time, or no user may come from there: the connection is to be closed.
    Ends,
}

/// The connections whose header isn't whole yet, each under its key.
#[derive(Drop)]
pub(crate) struct Unannounced {
    all: Vec<Option<UserWire>>,
}

impl Unannounced {
    /// There is none; so many may be there. `Err` if no memory was found for them.
    pub(crate) fn new(alloc: Global, count: usize) -> Result<Unannounced, AllocError> {
        let mut all = Vec::with_capacity(alloc, count)?;
        for _ in 0..count {
            all.push(None)?;
        }
        Ok(Unannounced { all })
    }

    /// The header of this connection isn't whole yet. False where there is no such key: then the connection is closed.
    pub(crate) fn place(&mut self, key: usize, user: UserWire) -> bool {
        if let Some(place) = self.all.get_mut(key) {
            *place = Some(user);
            true
        } else {
            false
        }
    }

    /// Takes the connection under this key, if there is one.
    pub(crate) fn take(&mut self, key: usize) -> Option<UserWire> {
        match self.all.get_mut(key) {
            Some(place) => place.take(),
            None => None,
        }
    }
}
