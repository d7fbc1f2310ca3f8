//! Whether the connection that a response came over may carry a further one (RFC 9112, sections 6.3 and 9.3).
ghost use Rattle.std.specs.Prelude.{◌≡◌};
ghost use Rattle.http_side.specs.Lasting.{lets_last};

use crate::connection::is_named_by;
use crate::response::HttpResponse;

impl HttpResponse {
    /// Whether the head lets the connection last after the response: it is of HTTP/1.1, no Connection names `close`, and
    /// Content-Length doesn't stand beside Transfer-Encoding, after which no further response can be trusted.
    pub fn lets_last(&self) -> bool
        ensures { result ≡ lets_last self.now }
    {
        self.minor() == 1
            && !is_named_by(&self.fields(), b"close")
            && !self.length_fields().has_both()
    }
}
