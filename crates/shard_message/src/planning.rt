//! Where a message goes, and what it is offered to, by what its service said of its options.

ghost use Rattle.std.specs.Prelude.{◌≡◌, ◌⊎◌, ◌↔◌, None, Some, Err, is_some, IsTrue, IfSome, IfOk, IfErr, option_copied, true};
ghost use Rattle.exchange_report.specs.declared.reason.Reason.TheVariants.{NoMemory};
ghost use Rattle.shard_exchange.specs.declared.answers.Unplanned.TheVariants.{Refused};
ghost use Rattle.shard_exchange.specs.Reasons.{lies_elsewhere, unplanned_reason};
ghost use Rattle.proxy_rules.specs.Routes.{IsRoute};
ghost use Rattle.shard_message.specs.Planning.{missing, grounds, heads_of, service_of, told_of, waits, repeats, GoesTo, GoesNowhere, IsWithoutRoute, IsOfferBy, IsStale, IsPlan, HasNoPlan, PlansBy};

use crate::outside::Outside;
use crate::slots::lay;
use http_side::HttpRequest;
use options_book::Record;
use plan_rules::Limits;
use proxy_config::{Config, ServicePoint};
use proxy_rules::{Incoming, Offer, Route, Unrouted, awaits_continue, may_repeat, route_of};
use service_pool::PointBook;
use shard_exchange::{Marks, Reason, Unplanned};
use std::alloc::{AllocError, Global};
use std::boxed::Box;
use std::net::Ipv4Addr;
use trace_core::Point;

/// What a message was planned to be.
#[derive(Drop)]
pub struct Planned {
    pub offer: Offer,
    /// Where a request goes.
    pub route: Option<Route>,
}

/// The service of a point.
pub fn service_of(config: &Config, point: Point) -> Option<&ServicePoint>
    ensures { option_copied result ≡ service_of config.now point }
{
    let service = match point {
        Point::Reqmod => &config.reqmod,
        Point::Respmod => &config.respmod,
    };
    match service {
        Some(service) => Some(service),
        None => None,
    }
}

/// Where a request goes, or why it goes nowhere.
fn request_route(config: &Config, user: &HttpRequest) -> Result<Route, Reason>
    ensures goes { IfOk result (IsRoute config.now user.now) }
    ensures nowhere { IfErr result (IsWithoutRoute config.now user.now) }
    ensures suits { IfErr result (λ reason. lies_elsewhere reason ≡ true) }
{
    match route_of(config, user) {
        Ok(route) => Ok(route),
        Err(Unrouted::Unknown) => Err(Reason::UnknownHost),
        Err(Unrouted::Denied) => Err(Reason::Denied),
    }
}

/// Where a message goes: a request to its origin, or to the parent. A response goes to its user.
fn route_for(config: &Config, message: &Incoming) -> Result<Option<Route>, Reason>
    ensures goes { IfOk result (GoesTo config.now (heads_of message.now)) }
    ensures nowhere { IfErr result (GoesNowhere config.now (heads_of message.now)) }
    ensures suits { IfErr result (λ reason. lies_elsewhere reason ≡ true) }
{
    let Some(user) = message.user_head() else {
        return Err(Reason::OriginRefused);
    };
    match (message.point(), message.response_head()) {
        (Point::Reqmod, _) => match request_route(config, user) {
            Ok(route) => Ok(Some(route)),
            Err(reason) => Err(reason),
        },
        (Point::Respmod, Some(_)) => Ok(None),
        (Point::Respmod, None) => Err(Reason::OriginRefused),
    }
}

/// The address that the services are told of the user at this one.
fn told_of(config: &Config, user: Option<Ipv4Addr>) -> Option<Ipv4Addr>
    ensures { result ≡ told_of config.now user }
{
    if config.client_ip { user } else { None }
}

/// The offer of a message, by its service's record. The service is told the user's address `from`, where there is one, and of a response
/// the field lines that are carried on.
fn offer_of(
    alloc: Global,
    service: Option<&ServicePoint>,
    said: Option<&Record>,
    limits: &Limits,
    from: Option<Ipv4Addr>,
    message: &Incoming,
) -> Result<Offer, Reason>
    ensures offer { IfOk result (IsOfferBy (option_copied service.entry) (option_copied said.entry) limits.now from message.now.carried (heads_of message.now)) }
    ensures refused { IfErr result (λ reason. (reason ≡ Reason.NoMemory) ⊎ (heads_of message.now ≡ missing)) }
    ensures suits { IfErr result (λ reason. lies_elsewhere reason ≡ true) }
{
    let Some(user) = message.user_head() else {
        return Err(Reason::OriginRefused);
    };
    if service.is_some() && said.is_none() {
        return Err(Reason::NoMemory);
    }
    let offer = match (message.point(), message.response_head()) {
        (Point::Reqmod, _) => Offer::of_request(alloc, service, said, limits, from, user),
        (Point::Respmod, Some(response)) => {
            let carried = message.carried();
            Offer::of_response(alloc, service, said, limits, from, carried, user, response)
        }
        (Point::Respmod, None) => return Err(Reason::OriginRefused),
    };
    match offer {
        Ok(offer) => Ok(offer),
        Err(AllocError) => Err(Reason::NoMemory),
    }
}

/// A plan, on the heap.
fn placed(alloc: Global, offer: Offer, route: Option<Route>) -> Result<Box<Planned>, AllocError>
    ensures { IfOk result (λ planned. (planned.value.offer ≡ offer) × (planned.value.route ≡ route)) }
{
    match Box::new(alloc, Planned { offer, route }) {
        Ok(planned) => Ok(planned),
        Err(_) => Err(AllocError),
    }
}

/// Whether a service is to be asked for its options before a message is planned. What it said when it was asked for this very message
/// serves, whatever its time.
fn is_stale(service: Option<&ServicePoint>, book: &PointBook, now: u64, asked: bool) -> bool
    ensures { IsTrue result ↔ IsStale (option_copied service.entry) book.now now asked }
{
    service.is_some() && !asked && !book.is_fresh(now)
}

/// Plans a message of the user at this address by what its service said.
fn make_plan(
    alloc: Global,
    config: &Config,
    limits: &Limits,
    book: &PointBook,
    now: u64,
    asked: bool,
    user: Option<Ipv4Addr>,
    message: &Incoming,
) -> Result<Box<Planned>, Unplanned>
    ensures planned { IfOk result (λ planned. IsPlan (grounds config.now limits.now book.now now asked user) message.now planned.value) }
    ensures unplanned { IfErr result (HasNoPlan (grounds config.now limits.now book.now now asked user) message.now) }
    ensures suits { IfErr result (λ unplanned. lies_elsewhere (unplanned_reason unplanned) ≡ true) }
{
    let route = match route_for(config, message) {
        Ok(route) => route,
        Err(reason) => return Err(Unplanned::Refused(reason)),
    };
    let service = service_of(config, message.point());
    if is_stale(service, book, now, asked) {
        return Err(Unplanned::Stale);
    }
    let from = told_of(config, user);
    match offer_of(alloc, service, book.record(), limits, from, message) {
        Ok(offer) => match placed(alloc, offer, route) {
            Ok(planned) => Ok(planned),
            Err(AllocError) => Err(Unplanned::Refused(Reason::NoMemory)),
        },
        Err(reason) => Err(Unplanned::Refused(reason)),
    }
}

/// Whether the user of a message waits to be told to send its body.
fn waits(message: &Incoming) -> bool
    ensures { result ≡ waits (heads_of message.now) }
{
    match message.user_head() {
        Some(head) => message.point() == Point::Reqmod && awaits_continue(head),
        None => false,
    }
}

/// Whether a message may be sent again where nothing of an answer to it came.
fn repeats(message: &Incoming) -> bool
    ensures { result ≡ repeats (heads_of message.now) }
{
    match message.user_head() {
        Some(head) => message.point() == Point::Reqmod && may_repeat(head),
        None => false,
    }
}

/// Keeps the plan of a message, and says what it is.
fn keep_planned(message: &Incoming, planned: Box<Planned>, plan: &mut Option<Box<Planned>>) -> Marks
    ensures kept { plan.new ≡ Some planned }
    ensures offered { result.offered ≡ is_some planned.value.offer.side }
    ensures waits { result.waits ≡ waits (heads_of message.now) }
    ensures repeats { result.repeatable ≡ repeats (heads_of message.now) }
{
    let offered = planned.offer.is_offered();
    let waits = waits(message);
    let repeatable = repeats(message);
    lay(plan, planned);
    Marks {
        offered,
        waits,
        repeatable,
    }
}

/// Plans a message by what its surroundings say, and keeps its plan.
pub fn keep_plan<P, O: Outside<P>>(
    at: &P,
    out: &O,
    message: &Option<Box<Incoming>>,
    asked: bool,
    plan: &mut Option<Box<Planned>>,
) -> Result<Marks, Unplanned>
    ensures planned { IfSome message.now (λ m. PlansBy (O.config_is out.now) (O.limits_are out.now) (O.book_is out.now) (O.now_is out.now at.now)
        (O.user_is_at out.now at.now) asked m.value plan.old plan.new result) }
    ensures none { message.now ≡ None → (result ≡ Err (Refused NoMemory)) × (plan.new ≡ plan.old) }
    ensures suits { IfErr result (λ unplanned. lies_elsewhere (unplanned_reason unplanned) ≡ true) }
{
    let Some(message) = message else {
        return Err(Unplanned::Refused(Reason::NoMemory));
    };
    let limits = out.limits();
    let book = out.book(message.point());
    let now = out.now(at);
    match make_plan(
        out.alloc(),
        out.config(),
        &limits,
        book,
        now,
        asked,
        out.user_address(at),
        message,
    ) {
        Ok(planned) => Ok(keep_planned(message, planned, plan)),
        Err(unplanned) => Err(unplanned),
    }
}
