//! Methods of ICAP requests (RFC 3507, section 4.3.2).
ghost use Rattle.std.specs.Prelude.{◌≡◌, IfOk, OnErr};
ghost use Rattle.adapt_bytes.specs.Methods.{NamesNoMethod};

use adapt_bytes::Method;
use std::alloc::{AllocError, Global};

/// A name that isn't one of ICAP's methods.
#[derive(Drop)]
pub struct OtherMethod {
    name: Vec<u8>,
    ghost other: { NamesNoMethod name.items },
}

/// The method of a request. Case matters.
#[derive(Drop)]
pub enum RequestMethod {
    /// One of ICAP's methods.
    Known(Method),
    /// Any other name.
    Other(OtherMethod),
}

impl RequestMethod {
    ghost use Rattle.icap_head.specs.Methods.{request_method_name};

    /// The method of this name. Only a name that isn't one of ICAP's methods allocates.
    pub fn of_name(alloc: Global, name: &[u8]) -> Result<RequestMethod, AllocError>
        ensures ok { IfOk result (λ method. request_method_name method ≡ name.now) }
        ensures named { OnErr result (NamesNoMethod name.now) }
    {
        match Method::of_name(name) {
            Some(method) => Ok(RequestMethod::Known(method)),
            None => Ok(RequestMethod::Other(OtherMethod {
                name: name.to_vec(alloc)?,
            })),
        }
    }

    /// The method's name.
    pub fn name(&self) -> &[u8]
        ensures { result.now ≡ request_method_name self.now }
    {
        match self {
            RequestMethod::Known(method) => method.name(),
            RequestMethod::Other(other) => &other.name,
        }
    }
}
