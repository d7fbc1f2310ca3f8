//! The ICAP methods, and their names.
ghost use Rattle.std.specs.Prelude.{◌≡◌, IfSome, IfNone};
ghost use Rattle.adapt_bytes.specs.Methods.{method_name, NamesNoMethod};

/// The ICAP method of a request, or of the request that a response answers (RFC 3507, sections 4.8 to 4.10).
#[derive(Clone, Copy)]
pub enum Method {
    /// `REQMOD`: an HTTP request is offered.
    Reqmod,
    /// `RESPMOD`: an HTTP response is offered.
    Respmod,
    /// `OPTIONS`: the service says what it takes.
    Options,
}

impl Method {
    /// The method of this name, if it is one. Case matters.
    pub fn of_name(name: &[u8]) -> Option<Method>
        ensures some { IfSome result (λ method. name.now ≡ method_name method) }
        ensures none { IfNone result (NamesNoMethod name.now) }
    {
        if name == Method::Reqmod.name() {
            Some(Method::Reqmod)
        } else if name == Method::Respmod.name() {
            Some(Method::Respmod)
        } else if name == Method::Options.name() {
            Some(Method::Options)
        } else {
            None
        }
    }

    /// The name in a request line (RFC 3507, section 4.3.2).
    pub fn name(self) -> &'static [u8]
        ensures { result.now ≡ method_name self }
    {
        match self {
            Method::Reqmod => b"REQMOD",
            Method::Respmod => b"RESPMOD",
            Method::Options => b"OPTIONS",
        }
    }
}
