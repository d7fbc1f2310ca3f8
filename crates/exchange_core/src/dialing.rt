//! How a request's origin is dialed.

/// How the origin of a request is to be dialed (RFC 9112, section 9.3.1).
#[derive(Clone, Copy)]
pub enum Dialing {
    /// Over a fresh connection alone.
    Fresh,
    /// Over one that was kept from an earlier exchange, where there is one that fits. Else over a fresh one.
    KeptFirst,
}
