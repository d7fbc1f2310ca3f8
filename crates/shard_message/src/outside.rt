//! What an exchange asks of its surroundings: connections, the budget, the clock, and what is noted of it.

ghost use Rattle.std.specs.Prelude.{◌≡◌, ◌⊎◌, ℕ, Bool, List, Option as AnyOption, IfOk, IfErr, IfSome, IsTrue, true, false, ⊤};
ghost use Rattle.exchange_report.specs.Pages.{IsPageRefusal};
ghost use Rattle.http_side.specs.Refusals.{is_own_status};
ghost use Rattle.options_book.specs.Options.{Options as AnyOptions};
ghost use Rattle.plan_rules.specs.declared.limits.Limits.{Limits as AnyLimits};
ghost use Rattle.proxy_config.specs.declared.config.Config.{Config as AnyConfig};
ghost use Rattle.service_pool.specs.declared.connector.LendFault.{LendFault as AnyFault};
ghost use Rattle.service_pool.specs.declared.book.PointBook.{PointBook as AnyBook};
ghost use Rattle.shard_exchange.specs.Reasons.{lies_elsewhere};
ghost use Rattle.shard_exchange.specs.declared.answers.Lingered.{Lingered as AnyLingered};
ghost use Rattle.exchange_core.specs.declared.dialing.Dialing.TheVariants.{KeptFirst};
ghost use Rattle.std.specs.declared.net.ipv4_addr.Ipv4Addr.{Ipv4Addr as AnyIp};
ghost use Rattle.std.specs.declared.net.socket_addr.SocketAddrV4.{SocketAddrV4 as AnyAddress};
ghost use Rattle.trace_core.specs.declared.history.Point.{Point as AnyPoint};
ghost use Rattle.shard_message.specs.Taking.{taken_of};
ghost use Rattle.shard_message.specs.Waits.{GivesNone};

use crate::lasting::LastingOrigin;
use crate::reusable::Reusable;
use adapt_sides::ClientFault;
use adapt_turn::Outcome;
use exchange_core::Dialing;
use icap_client::Found;
use options_book::Record;
use plan_rules::Limits;
use proxy_config::Config;
use proxy_rules::{Incoming, Route};
use service_pool::{LendFault, PointBook};
use shard_exchange::{Lingered, Reason};
use span_bank::{Bank, Ledgers};
use std::alloc::{AllocError, Global};
use std::net::{Ipv4Addr, SocketAddrV4};
use trace_core::{Point, Seen};
use wire_kit::Wire;

/// What an exchange is made of: its three connections, the right to one of a service, and the ledgers of the budget.
pub trait Kinds {
    /// The user's connection.
    type User: Wire + Drop;
    /// A connection to an origin.
    type Origin: Wire + Drop;
    /// A connection to a service.
    type Service: Wire + Drop;
    /// The right to a connection of a service. It has no `Drop`: it is put back with its connection, or given up.
    type Lease;

    type Ledgers: Ledgers;
}

/// What became of a message whose transaction is over.
#[derive(Drop)]
pub struct MessageEnd<'m> {
    pub seen: Seen,
    /// How it ended. `None` where its user was gone before it did.
    pub outcome: Option<Outcome>,
    /// Why the service's side failed, where it did.
    pub service_fault: Option<ClientFault>,
    /// Whether nothing went over the service's connection, where it was still held.
    pub service_is_fresh: bool,
    /// Whether nothing went over the connection to the next hop: over an origin's since it was dialed.
    pub next_is_fresh: bool,
    /// What the service said that it found in the message, where there was one.
    pub found: Option<Found<'m>>,
    /// The head of the adapted message, where one was read.
    pub adapted_head: Option<&'m [u8]>,
    /// Whether a byte of an answer went to the user.
    pub has_answered: bool,
}

/// A connection to an origin that was dialed.
#[derive(Drop)]
pub struct Dialed<W> {
    pub wire: W,
    /// Whether an earlier exchange left it. Else it was opened just now.
    pub is_kept: bool,
}

/// What holds for all exchanges of a thread, at each moment.
pub trait ThreadSettings: Kinds {
    // what messages are planned by, where the surroundings say what that is
    ghost config_is: { Self → AnyConfig → Type 0 } = { λ _ _. ⊤ };

    ghost limits_are: { Self → AnyLimits → Type 0 } = { λ _ _. ⊤ };

    fn alloc(&self) -> Global;

    fn config(&self) -> &Config
        ensures { config_is self.now result.now };

    fn limits(&self) -> Limits
        ensures { limits_are self.now result };

    fn bank(&self) -> &Bank<Self::Ledgers>;
}

/// The clock of an exchange. `P` is its place in the surroundings: its key, the moment, and what reaches the system.
pub trait Clocked<P>: Kinds {
    // no byte of the exchange moved for longer than the deadline
    ghost is_late: { Self → P → Bool };

    // its user has said nothing for so long that a proxy that drains lets it go
    ghost has_rested: { Self → P → Bool };

    // the message has waited for a connection to its service as long as it may, or hasn't
    ghost has_waited: { Self → P → Bool → Type 0 } = { λ _ _ _. ⊤ };

    ghost now_is: { Self → P → ℕ → Type 0 } = { λ _ _ _. ⊤ };

    // the gate was asked whether the transaction of a message may move, and answered this: the surroundings before that and after it
    ghost lets_pass: { Self → Self → P → Bool → Type 0 } = { λ _ _ _ _. ⊤ };

    /// The moment, in seconds.
    fn now(&self, at: &P) -> u64
        ensures { now_is self.now at.now result };

    /// Whether no byte moved for longer than the deadline.
    fn is_late(&self, at: &P) -> bool
        ensures { result ≡ is_late self.now at.now };

    /// Whether the user has said nothing for so long that a proxy that drains lets it go.
    fn has_rested(&self, at: &P) -> bool
        ensures { result ≡ has_rested self.now at.now };

    /// Whether the message has waited for a connection to its service as long as it may.
    fn has_waited(&self, at: &P) -> bool
        ensures { has_waited self.now at.now result };

    /// Whether the transaction of a message may move.
    fn may_pass(&mut self, at: &P) -> bool
        ensures { lets_pass self.old self.new at.now result };
}

/// The services of an exchange: what they said last, and the connections to them that are leased.
pub trait Services<P>: Kinds {
    // the point whose service the lease is of
    ghost point_of: { Self.Lease → AnyPoint };

    // its connection was idle before, and was not replaced since
    ghost is_reused: { Self.Lease → Bool };

    // this connection leads to the service whose lease this is, as these surroundings have it
    ghost serves: { Self → Self.Service → Self.Lease → Type 0 } = { λ _ _ _. ⊤ };

    // no connection was lent, for this fault: the surroundings after that
    ghost fails: { Self → P → AnyFault → Type 0 } = { λ _ _ _. ⊤ };

    // the message was to wait for a connection, and does, or doesn't: the surroundings after that
    ghost joins: { Self → P → AnyPoint → Bool → Type 0 } = { λ _ _ _ _. ⊤ };

    // the message waits no more in the queue for a connection of this point's service: the surroundings after that
    ghost leaves: { Self → P → AnyPoint → Type 0 } = { λ _ _ _. ⊤ };

    // what the surroundings are once a connection was put back with its lease, or a lease given up: before that and after it
    ghost puts: { Self → Self → P → Self.Service → Self.Lease → Type 0 } = { λ _ _ _ _ _. ⊤ };

    ghost gives_up: { Self → Self → P → Self.Lease → Type 0 } = { λ _ _ _ _. ⊤ };

    // what messages are planned by, where the surroundings say what that is
    ghost book_is: { Self → AnyPoint → AnyBook → Type 0 } = { λ _ _ _. ⊤ };

    // the user's connection comes from this address, or nobody knows from where
    ghost user_is_at: { Self → P → AnyOption AnyIp → Type 0 } = { λ _ _ _. ⊤ };

    // what the service of a point said is kept: before and after that
    ghost keeps: { Self → Self → P → AnyPoint → AnyOptions → Type 0 } = { λ _ _ _ _ _. ⊤ };

    // this connection was opened just now
    ghost is_opened: { Self → P → Self.Service → Type 0 } = { λ _ _ _. ⊤ };

    /// What the service of a point said last.
    fn book(&self, point: Point) -> &PointBook
        ensures { book_is self.now point result.now };

    /// The address that the user's connection comes from. `None` where nobody knows it.
    fn user_address(&self, at: &P) -> Option<Ipv4Addr>
        ensures { user_is_at self.now at.now result };

    /// Keeps what a service said, with the most connections that it allows. `Err` where no memory was found: then nothing has changed.
    fn keep(&mut self, at: &P, point: Point, said: Record) -> Result<(), AllocError>
        ensures { IfOk result (λ _. keeps self.old self.new at.now point said) };

    /// Takes note of the tag of a service's answer (RFC 3507, section 4.7).
    fn note_tag(&mut self, point: Point, tag: &[u8]);

    /// Leases a connection to a point's service, an idle one first. One that comes while others wait for theirs gets none.
    fn lend(&mut self, at: &P, point: Point) -> Result<(Self::Service, Self::Lease), LendFault>
        ensures point { IfOk result (λ lent. point_of lent.1 ≡ point) }
        ensures serves { IfOk result (λ lent. serves self.old lent.0 lent.1) }
        ensures fails { IfErr result (fails self.new at.now) };

    /// Leases a connection to a message that waits, once it is its turn. With a connection it has left the queue.
    fn lend_in_turn(
        &mut self,
        at: &P,
        point: Point,
    ) -> Result<(Self::Service, Self::Lease), LendFault>
        ensures point { IfOk result (λ lent. point_of lent.1 ≡ point) }
        ensures serves { IfOk result (λ lent. serves self.old lent.0 lent.1) }
        ensures fails { IfErr result (fails self.new at.now) };

    /// Has a message wait for a connection. False where it may not.
    fn join_queue(&mut self, at: &P, point: Point) -> bool
        ensures { joins self.new at.now point result };

    /// Has a message wait no more.
    fn leave_queue(&mut self, at: &P, point: Point)
        ensures { leaves self.new at.now point };

    /// A fresh connection in place of a leased one that broke and is closed, where one may be opened. It is of the same service.
    fn reopen(&mut self, at: &P, lease: &mut Self::Lease) -> Result<Self::Service, LendFault>
        ensures point { point_of lease.new ≡ point_of lease.old }
        ensures fresh { IfOk result (λ _. is_reused lease.new ≡ false) }
        ensures serves { IfOk result (λ wire. serves self.old wire lease.new) }
        ensures opened { IfOk result (λ wire. is_opened self.new at.now wire) };

    /// Whether the leased connection was idle before, and was not replaced since.
    fn is_reused(lease: &Self::Lease) -> bool
        ensures { result ≡ is_reused lease.now };

    /// Puts a connection back that may serve again.
    fn put(&mut self, at: &P, connection: Reusable<Self::Service>, lease: Self::Lease)
        ensures { puts self.old self.new at.now connection.wire lease };

    /// Gives up the lease of a connection that is closed.
    fn give_up(&mut self, at: &P, lease: Self::Lease)
        ensures { gives_up self.old self.new at.now lease };
}

/// The origins of an exchange: connections to them that are opened, and those that lie idle between exchanges.
pub trait Origins<P>: Kinds {
    // this connection to an origin leads there
    ghost leads: { Self.Origin → AnyAddress → Type 0 } = { λ _ _. ⊤ };

    // this connection to an origin lies idle here, since an exchange left it
    ghost has_kept: { Self → Self.Origin → Type 0 } = { λ _ _. ⊤ };

    // this one was taken of those that lie idle and lead to an address; or none was, since none of them may be used: before that and after it
    ghost takes: { Self → Self → P → AnyAddress → AnyOption Self.Origin → Type 0 } = { λ _ _ _ _ _. ⊤ };

    // what the surroundings are once an origin's connection was laid down for later exchanges: before that and after it; or once they
    // had no room for it
    ghost lays: { Self → Self → P → Self.Origin → Type 0 } = { λ _ _ _ _. ⊤ };

    ghost turns_down: { Self → Self → P → Self.Origin → Type 0 } = { λ _ _ _ _. ⊤ };

    /// Opens a connection to an origin, or takes one that an earlier exchange left, where it may: the very one that lies idle here. What
    /// was given and taken on it hasn't changed since it was laid down. Where one may be taken, one is opened only if none of them may be
    /// used.
    fn dial(
        &mut self,
        at: &P,
        address: SocketAddrV4,
        dialing: Dialing,
    ) -> Result<Dialed<Self::Origin>, Reason>
        ensures leads { IfOk result (λ dialed. leads dialed.wire address) }
        ensures allowed { IfOk result (λ dialed. dialed.is_kept ≡ true → dialing ≡ KeptFirst) }
        ensures kept { IfOk result (λ dialed. dialed.is_kept ≡ true → has_kept self.old dialed.wire) }
        ensures takes { dialing ≡ KeptFirst → takes self.old self.new at.now address (taken_of result) }
        ensures suits { IfErr result (λ reason. lies_elsewhere reason ≡ true) };

    /// Lays an origin's connection down for later exchanges, and says whether it lies there. It is closed where it isn't quiet, or there is
    /// no room for it.
    fn keep_origin(&mut self, at: &P, connection: LastingOrigin<Self::Origin>) -> bool
        ensures laid { result ≡ true → lays self.old self.new at.now connection.wire }
        ensures down { result ≡ false → turns_down self.old self.new at.now connection.wire };
}

/// The user of an exchange, at its end.
pub trait UserEnd: Kinds {
    /// Says to the user that nothing more comes.
    fn finish(user: &Self::User);

    /// Has the user see that what it got isn't whole: its connection is reset at once, and what it hasn't got yet is dropped.
    fn cut(user: &Self::User);

    // what the user still sends was dropped as far as this: its connection before that and after it
    ghost lingers: { (before after : Self.User) → AnyLingered → Type 0 } = { λ _ _ _. ⊤ };

    /// Reads and drops what the user still sends.
    fn linger(&mut self, user: &mut Self::User) -> Lingered
        ensures lingers { lingers user.old user.new result }
        ensures waits { result ≡ Lingered.Waiting → GivesNone (Self.User.past user.old) (Self.User.past user.new) };
}

/// What is noted of an exchange.
pub trait Noting<P>: Kinds {
    // refusals of this status have this page, where the surroundings say what pages they have
    ghost has_page: { Self → P → (status : ℕ) → List ℕ → Type 0 } = { λ _ _ _ _. ⊤ };

    // a further message came, which hasn't waited for a connection: the surroundings before that and after it
    ghost begins: { Self → Self → P → Type 0 } = { λ _ _ _. ⊤ };

    /// The head of a request was read.
    fn note_request(&mut self, at: &P, request: &Incoming)
        ensures { begins self.old self.new at.now };

    /// The head of the origin's response was read.
    fn note_response(&mut self, at: &P, response: &Incoming)
        ensures { begins self.old self.new at.now };

    /// The connection by this route is there: one was opened, or one that was kept was taken.
    fn note_route(&mut self, at: &P, route: Route);

    /// The request is begun anew: the connection that it went out on, which was kept, has ended.
    fn note_anew(&mut self, at: &P);

    /// The service's options aren't kept: its connection failed for this, or `None` where it said something else, or no memory
    /// was found. `is_fresh`: nothing went over its connection.
    fn blame_service(&mut self, at: &P, fault: Option<ClientFault>, is_fresh: bool);

    /// The proxy refuses a message for this reason. `None` where the message is gone.
    fn note_refusal(
        &mut self,
        at: &P,
        user: &Self::User,
        message: Option<&Incoming>,
        reason: Reason,
    );

    /// The refusal of this status that goes out, with its page: what is noted of it stands in the page. `None` where refusals of this
    /// status have no page, or no memory was found.
    fn refusal_page(&mut self, at: &P, status: u16) -> Option<Vec<u8>>
        requires { IsTrue (is_own_status status) }
        ensures { IfSome result (λ text. (page : List ℕ) × has_page self.old at.now status page × IsPageRefusal status page text.items) };

    /// The transaction of a message is over.
    fn note_end(&mut self, at: &P, user: &Self::User, end: MessageEnd<'_>);

    /// The exchange ends because the proxy stops, and no refusal goes out: an answer that is out ends unfinished.
    fn note_stop(&mut self, at: &P);
}

/// The surroundings of the exchanges of a thread. `P` is an exchange's place in them: its key, the moment, and what reaches the system.
///
/// What is asked of them is in traits by subjects: what an exchange meets is compared whole where it is proved, and the parts are small.
pub trait Outside<P>: ThreadSettings
    + Clocked<P>
    + Services<P>
    + Origins<P>
    + UserEnd
    + Noting<P> {}
