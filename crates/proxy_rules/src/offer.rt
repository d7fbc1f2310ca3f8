//! What a service is asked: its options, and one request for each message (RFC 3507, sections 4.8 to 4.10).

ghost use Rattle.std.specs.Prelude.{◌≡◌, ◌+◌, ◌<◌, ◌≤◌, ◌↔◌, ◌&&◌, not, is_some, [], length, string_bytes, Bool, true, false, None, Some, Ok, IfOk, IfSome, option_copied};
ghost use Rattle.std.specs.Net.Socket.{v4_port};
ghost use Rattle.trace_core.specs.declared.history.Point.TheVariants as points;
ghost use Rattle.trace_core.specs.History.{is_plain, is_preview, is_null};
ghost use Rattle.http_side.specs.Framings.{request_framing, response_framing};
ghost use Rattle.icap_client.specs.Asking.{options_request};
ghost use Rattle.icap_client.specs.RequestHead.{request_head};
ghost use Rattle.proxy_rules.specs.Origins.{bare_path};
ghost use Rattle.proxy_rules.specs.Plans.{known_length, IsPlanned};
ghost use Rattle.proxy_rules.specs.Offers.{IsUnused, Binds, AsksFor, with_turn, previews_nothing, options_for, offered_request, offered_response};

use crate::plans::{request_plan, response_plan};
use adapt_bytes::COUNT_LIMIT;
use http_side::{Encapsulated, HttpRequest, HttpResponse, Message, encapsulated_head};
use icap_client::{OptionsSide, ServiceSide};
use options_book::Record;
use plan_rules::{Limits, Plan};
use proxy_config::ServicePoint;
use std::alloc::{AllocError, Global};
use std::marker::Model;
use std::net::Ipv4Addr;
use trace_core::Kind;

/// The side that asks a service for its options.
pub fn ask_options(alloc: Global, service: &ServicePoint) -> Result<OptionsSide, AllocError>
    ensures { IfOk result (λ side. side.waiting ≡ options_request (string_bytes service.now.host) (v4_port service.now.address) (string_bytes service.now.path)) }
{
    OptionsSide::new(
        alloc,
        service.host.as_bytes(),
        service.address.port(),
        service.path.as_bytes(),
    )
}

/// A message's plan, and the side that offers it to its service by this plan; none where it isn't offered.
///
/// The side is one that was just made: its request's text is of this plan, nothing of it was written, nothing was read, and it has no
/// fault. Without a side the plan is Plain. A preview of a body that is known to be empty is no offer (RFC 3507, section 4.5).
#[derive(Drop)]
pub struct Offer {
    plan: Plan,
    side: Option<ServiceSide>,
}

impl Model for Offer {
    ghost use Rattle.proxy_rules.specs.Offers.{Offered, Binds};

    ghost Value = { Offered };

    ghost view = { λ o. record { plan = o.plan; side = o.side } };

    ghost invariant = { λ o. Binds o.plan o.side };
}

/// Whether the plan previews a body that is known to be empty.
fn previews_nothing(plan: &Plan) -> bool
    ensures { result ≡ previews_nothing plan.now }
{
    match plan.kind {
        Kind::Preview(_) => plan.len == Some(0),
        Kind::Plain | Kind::Whole => false,
    }
}

impl Offer {
    /// An offer of a message by this plan to the service at this host, port and path, with these encapsulated heads. The service is told
    /// the user's address `from`, where there is one, and the field lines `carried`. Under Plain it has no side. `None` for a preview of a
    /// body that is known to be empty. `Err` where no memory was found, or the heads together have `COUNT_LIMIT` bytes or more.
    pub fn new(
        alloc: Global,
        plan: Plan,
        from: Option<Ipv4Addr>,
        carried: &[u8],
        host: &[u8],
        port: u16,
        path: &[u8],
        req: &[u8],
        res: &[u8],
    ) -> Result<Option<Offer>, AllocError>
        ensures plan { IfOk result (λ made. IfSome made (λ offer. offer.plan ≡ plan)) }
        ensures text { IfOk result (λ made. IfSome made (λ offer. IfSome offer.side (IsUnused (request_head plan from carried.now host.now port path.now req.now res.now)))) }
        ensures none { result ≡ Ok None ↔ (previews_nothing plan ≡ true) }
    {
        if previews_nothing(&plan) {
            return Ok(None);
        }
        if plan.kind.is_plain() {
            return Ok(Some(Offer::unoffered(plan)));
        }
        let limit = COUNT_LIMIT as usize;
        if req.len() >= limit || res.len() >= limit - req.len() {
            return Err(AllocError);
        }
        let side = ServiceSide::new(alloc, &plan, from, carried, host, port, path, req, res)?;
        let offer = Offer {
            plan,
            side: Some(side),
        };
        Ok(Some(offer))
    }

    /// Plans a user's request by what its service says, and offers it to that service where the plan says so: its head goes in absolute
    /// form. The service is told the user's address `from`, where there is one. Without a service, or its record, it isn't offered.
    pub fn of_request(
        alloc: Global,
        service: Option<&ServicePoint>,
        options: Option<&Record>,
        limits: &Limits,
        from: Option<Ipv4Addr>,
        user: &HttpRequest,
    ) -> Result<Offer, AllocError>
        ensures planned { IfOk result (λ offer. IsPlanned (options_for (option_copied service.entry) (option_copied options.entry)) limits.now points.Reqmod (bare_path user.now.target) (known_length (request_framing user.now)) offer.plan) }
        ensures text { IfOk result (λ offer. AsksFor (option_copied service.entry) from [] (offered_request user.now) [] offer) }
        ensures turn { IfOk result (λ offer. IfSome offer.side (λ side. side.turn ≡ limits.now.turn)) }
    {
        let Some(service) = service else {
            return Ok(Offer::unoffered(request_plan(None, limits, user)));
        };
        let plan = request_plan(options, limits, user);
        if plan.kind.is_plain() {
            return Ok(Offer::unoffered(plan));
        }
        let message = Message::Request(user);
        let req = encapsulated_head(alloc, &Encapsulated { user, message })?;
        Offer::to(alloc, service, plan, limits, from, &[], &req, &[])
    }

    /// Plans an origin's response to a user's request by what its service says, and offers it to that service where the plan says so:
    /// the head of the user's own request goes before its head, also where a service changed what the origin got. The service is told
    /// the user's address `from`, where there is one, and the field lines `carried`, of the answer to the request. Without a service, or
    /// its record, it isn't offered.
    pub fn of_response(
        alloc: Global,
        service: Option<&ServicePoint>,
        options: Option<&Record>,
        limits: &Limits,
        from: Option<Ipv4Addr>,
        carried: &[u8],
        user: &HttpRequest,
        response: &HttpResponse,
    ) -> Result<Offer, AllocError>
        ensures planned { IfOk result (λ offer. IsPlanned (options_for (option_copied service.entry) (option_copied options.entry)) limits.now points.Respmod (bare_path user.now.target) (known_length (response_framing response.now)) offer.plan) }
        ensures text { IfOk result (λ offer. AsksFor (option_copied service.entry) from carried.now (offered_request user.now) (offered_response response.now) offer) }
        ensures turn { IfOk result (λ offer. IfSome offer.side (λ side. side.turn ≡ limits.now.turn)) }
    {
        let Some(service) = service else {
            return Ok(Offer::unoffered(response_plan(None, limits, user, response)));
        };
        let plan = response_plan(options, limits, user, response);
        if plan.kind.is_plain() {
            return Ok(Offer::unoffered(plan));
        }
        let own = Message::Request(user);
        let req = encapsulated_head(alloc, &Encapsulated { user, message: own })?;
        let message = Message::Response(response);
        let res = encapsulated_head(alloc, &Encapsulated { user, message })?;
        Offer::to(alloc, service, plan, limits, from, carried, &req, &res)
    }

    /// A message that isn't offered.
    fn unoffered(plan: Plan) -> Offer
        requires { is_plain plan.kind ≡ true }
        ensures { result ≡ record { plan = plan; side = None } }
    {
        Offer { plan, side: None }
    }

    /// An offer by a plan that was made for it, by turns of these limits.
    fn to(
        alloc: Global,
        service: &ServicePoint,
        plan: Plan,
        limits: &Limits,
        from: Option<Ipv4Addr>,
        carried: &[u8],
        req: &[u8],
        res: &[u8],
    ) -> Result<Offer, AllocError>
        requires { previews_nothing plan ≡ false }
        ensures plan { IfOk result (λ offer. offer.plan ≡ plan) }
        ensures text { IfOk result (AsksFor (Some service.now) from carried.now req.now res.now) }
        ensures turn { IfOk result (λ offer. IfSome offer.side (λ side. side.turn ≡ limits.now.turn)) }
    {
        let host = service.host.as_bytes();
        let path = service.path.as_bytes();
        let port = service.address.port();
        match Offer::new(alloc, plan, from, carried, host, port, path, req, res)? {
            Some(offer) => Ok(offer.with_turn(limits.turn)),
            None => unreachable!(),
        }
    }

    /// The same offer, of whose body one turn writes at most this many bytes.
    pub fn with_turn(self, turn: u64) -> Offer
        requires { 1 ≤ turn }
        ensures { result ≡ with_turn turn self }
    {
        let Offer { plan, side } = self;
        let side = match side {
            Some(side) => Some(side.with_turn(turn)),
            None => None,
        };
        Offer { plan, side }
    }

    /// The plan.
    pub fn plan(&self) -> &Plan
        ensures { result.now ≡ self.now.plan }
    {
        &self.plan
    }

    /// Whether the message is offered to a service.
    pub fn is_offered(&self) -> bool
        ensures { result ≡ is_some self.now.side }
    {
        self.side.is_some()
    }

    /// The plan, and the side.
    pub fn into_plan(self) -> (Plan, Option<ServiceSide>)
        ensures plan { result.0 ≡ self.plan }
        ensures side { result.1 ≡ self.side }
        ensures binds { Binds result.0 result.1 }
    {
        let Offer { plan, side } = self;
        (plan, side)
    }
}
