//! What an exchange holds beside its course.

ghost use Rattle.std.specs.Prelude.{◌≡◌, Bool, Option, Some, true, false, IfSome};
ghost use Rattle.exchange_core.specs.Dues.{due_of, is_for_telling};
ghost use Rattle.exchange_core.specs.May.{is_gone};
ghost use Rattle.http_side.specs.declared.fault.HttpFault.{HttpFault as AnyHttpFault};
ghost use Rattle.icap_head.specs.Heads.{Response as AnyResponse};
ghost use Rattle.wire_kit.specs.Past.{Past};
ghost use Rattle.shard_exchange.specs.Hand.{Hand, IsEmpty, Keeps, KeepsButTold, KeepsButOrigin};
ghost use Rattle.shard_exchange.specs.Saying.{SaysOn, interim_text};
ghost use Rattle.shard_exchange.specs.declared.answers.HeadTurn.{HeadTurn as AnyHeadTurn};
ghost use Rattle.shard_exchange.specs.declared.answers.Withdrawal.{Withdrawal as AnyWithdrawal};
ghost use Rattle.shard_exchange.specs.declared.ends.End.{End as AnyEnd};

use crate::answers::{HeadTurn, OptionsTurn};
use adapt_sides::{Said, WIRE_ROOM};
use exchange_core::Course;
use http_side::HttpFault;

/// What is held of what the course of an exchange counts.
pub trait InHand {
    // what is held
    ghost hand: { Self → Hand };
}

/// What an exchange holds beside its course: the connections, the message, its plan, its reservation and its transaction.
pub trait Holder: InHand {
    // a byte of an answer of the message that moves went to its user
    ghost answered: { Self → Bool };

    // the connection to its service may carry another request
    ghost reusable: { Self → Bool };

    // what may have happened on the user's connection so far, where no transaction has it
    ghost user_past: { Self → Past → Type 0 };

    // the connection on which a service was asked for its options may carry another request after this answer
    ghost usable_after: { Self → AnyResponse → Bool };

    // what the course is told of the message that moves where nothing else ends it: by how its transaction ended, and whether the course
    // lets it be withdrawn
    ghost ends: { Self → (may_withdraw : Bool) → AnyEnd → Type 0 };

    // the service's connection went back, and nothing else of what is held changed
    ghost stays: { Self → Self → Type 0 };

    // the message that is held is the one that was held first, and so is its plan
    ghost bears_message: { (first : Self) → Self → Type 0 };

    // and so are the user's connection and the origin's, on which nothing was said or read since
    ghost bears: { (first : Self) → Self → Type 0 };

    // the service's connection stays as it is, beside its lease
    ghost keeps_line: { Self → Self → Type 0 };

    // the origin's connection stays as it is, with how much it had given when it was dialed
    ghost keeps_origin: { Self → Self → Type 0 };

    // the message that is held stays as it is, and so does the user's connection
    ghost keeps_message: { Self → Self → Type 0 };

    // the connection of a service that has said all comes out of the transaction, and may carry another request or not; or none comes out,
    // since it hasn't said all, or is gone. The message that moves is the same
    ghost frees: { Self → Self → Option Bool → Type 0 };

    // the origin's connection has given no byte since it was dialed
    ghost repeats: { Self → Type 0 };

    // what came of a request that was to be the message again: what is held before that and after it
    ghost withdraws: { Self → Self → AnyWithdrawal → Type 0 };

    // a turn at the head of the user's request leads from the one to the other, and brings this
    ghost reads: { Self → Self → Option AnyHeadTurn → Type 0 };

    // so does one at the head of the origin's response
    ghost hears: { Self → Self → Option AnyHeadTurn → Type 0 };

    // the service's connection is there, beside its lease
    ghost has_line: { Self → Bool };

    // a turn at asking a service for its options found nothing to read or to write now: what is held before it and after it
    ghost hears_nothing: { Self → Self → Type 0 };

    // by whether a byte of an answer went to its user: that one's connection is cut, so that the user sees that the answer isn't whole
    ghost cut_is: { Self → (answered cut : Bool) → Type 0 };

    /// The surroundings of the exchanges of a thread.
    type Outside;

    // a byte of the head came that is read
    ghost has_begun: { Self → Bool };

    /// Whether a byte of the head came that is read.
    fn has_begun(&self) -> bool
        ensures { result ≡ has_begun self.now };

    // what is at fault in the head that is read
    ghost head_fault: { Self → Option AnyHttpFault };

    /// What is at fault in the head that is read.
    fn head_fault(&self) -> Option<HttpFault>
        ensures { result ≡ head_fault self.now };

    /// Whether a message's transaction is held.
    fn is_moving(&self) -> bool
        ensures { result ≡ (Self.hand self.now).moving };

    /// A turn at the head of the user's request. `None` where nobody reads it, or the user is gone.
    fn read_request(&mut self, buffer: &mut [u8; WIRE_ROOM]) -> Option<HeadTurn>
        ensures reads { Self.reads self.old self.new result }
        ensures kept { Keeps (Self.hand self.old) (Self.hand self.new) };

    /// A turn at the head of the origin's response. `None` where nobody reads it, or there is no connection.
    fn read_response(&mut self, buffer: &mut [u8; WIRE_ROOM]) -> Option<HeadTurn>
        ensures hears { Self.hears self.old self.new result }
        ensures kept { Keeps (Self.hand self.old) (Self.hand self.new) };

    /// A turn at asking the service for its options. `None` where nobody asks, or there is no connection for it.
    fn hear(&mut self, buffer: &mut [u8; WIRE_ROOM]) -> Option<OptionsTurn>
        ensures nothing { result ≡ Some OptionsTurn.Nothing → hears_nothing self.old self.new }
        ensures line { has_line self.new ≡ has_line self.old }
        ensures bears { (first : Self) → bears first self.old → bears first self.new }
        ensures kept { Keeps (Self.hand self.old) (Self.hand self.new) };

    /// Tells the user to send its body, as far as it takes the text, from where the last call ended. At this course that is due.
    fn tell(&mut self, course: &Course) -> Said
        requires due { is_for_telling (due_of course.now) ≡ true }
        ensures says { SaysOn (user_past self.old) (user_past self.new) interim_text (Self.hand self.old).told (Self.hand self.new).told result }
        ensures bears { (first : Self) → bears_message first self.old → bears_message first self.new }
        ensures line { keeps_line self.old self.new }
        ensures origin { keeps_origin self.old self.new }
        ensures kept { KeepsButTold (Self.hand self.old) (Self.hand self.new) };

    /// Whether the user was told that nothing more comes.
    fn is_finished(&self) -> bool
        ensures { result ≡ (Self.hand self.now).finished };

    /// Closes the user's connection. At this course the user is gone.
    fn lose_user(&mut self, course: &Course)
        requires gone { is_gone course.now.phase ≡ true }
        ensures bears { (first : Self) → bears_message first self.old → bears_message first self.new }
        ensures kept { Keeps (Self.hand self.old) (Self.hand self.new) };

    /// Closes the origin's connection.
    fn hang_up(&mut self)
        ensures hung { (Self.hand self.new).origin ≡ false }
        ensures kept { KeepsButOrigin (Self.hand self.old) (Self.hand self.new) };

    /// Whether a byte of an answer went to the user.
    fn has_answered(&self) -> bool
        requires { (Self.hand self.now).moving ≡ true }
        ensures { result ≡ answered self.now };

    /// Takes the service's connection back from the transaction once the service has said all: whether it may carry another request.
    fn free_service(&mut self) -> Option<bool>
        requires { (Self.hand self.old).moving ≡ true }
        ensures kept { Keeps (Self.hand self.old) (Self.hand self.new) }
        ensures freed { frees self.old self.new result }
        ensures served { IfSome result (λ usable. usable ≡ reusable self.old) };

    /// Lets all go of an exchange that is over.
    fn finish(self)
        requires { IsEmpty (Self.hand self) };
}
