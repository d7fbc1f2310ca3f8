//! Connections to origins that go on to another exchange.

ghost use Rattle.std.specs.Prelude.{◌≡◌, true};
ghost use Rattle.exchange_core.specs.May.{may_keep_origin};

use exchange_core::Course;

/// A connection to an origin on which another request may go out: by the course of its exchange the answer was read whole, and nothing is
/// left over on it. Only such a one is kept.
#[derive(Drop)]
pub struct LastingOrigin<W> {
    wire: W,
}

impl<W> LastingOrigin<W> {
    /// The origin's connection at this course.
    pub fn new(wire: W, course: &Course) -> LastingOrigin<W>
        requires { may_keep_origin course.now ≡ true }
        ensures { result.wire ≡ wire }
    {
        // For the proof alone: what is required is said of the course.
        let _ = course;
        LastingOrigin { wire }
    }

    /// The connection itself.
    pub fn into_wire(self) -> W
        ensures { result ≡ self.wire }
    {
        self.wire
    }
}
