//! Which way a message with a list goes.

/// Whether the message is a request to a service or its response.
#[derive(Clone, Copy, Debug)]
pub enum Direction {
    /// From the ICAP client to the service.
    Request,
    /// From the service back.
    Response,
}
