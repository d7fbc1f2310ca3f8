//! Connections to services that go back.

ghost use Rattle.std.specs.Prelude.{◌≡◌, true};
ghost use Rattle.exchange_core.specs.Course.{is_ready};

use exchange_core::Course;

/// A connection to a service that may carry another request: nothing is under way on it by the course of its exchange, so the exchange
/// that was on it is whole. Only such a one is put back.
#[derive(Drop)]
pub struct Reusable<W> {
    wire: W,
}

impl<W> Reusable<W> {
    /// The connection that is leased at this course.
    pub fn new(wire: W, course: &Course) -> Reusable<W>
        requires { is_ready course.now.connection ≡ true }
        ensures { result.wire ≡ wire }
    {
        // For the proof alone: what is required is said of the course.
        let _ = course;
        Reusable { wire }
    }

    /// The connection itself.
    pub fn into_wire(self) -> W
        ensures { result ≡ self.wire }
    {
        self.wire
    }
}
