//! Whether and by which plan a message is offered (RFC 3507, sections 4.5, 4.6 and 4.10.2).

ghost use Rattle.std.specs.Prelude.{◌≡◌, ◌<◌, IfSome, option_copied};
ghost use Rattle.adapt_bytes.specs.declared.limits.TheConstants.{COUNT_LIMIT};
ghost use Rattle.trace_core.specs.declared.history.Point.TheVariants as points;
ghost use Rattle.http_side.specs.Framings.{request_framing, response_framing};
ghost use Rattle.proxy_rules.specs.Origins.{bare_path};
ghost use Rattle.proxy_rules.specs.Plans.{known_length, IsPlanned, AreLimits};

use crate::scan::bare_path;
use adapt_bytes::COUNT_LIMIT;
use http_side::{Framing, HttpRequest, HttpResponse};
use options_book::{Record, extension};
use plan_rules::{Limits, Plan, plan};
use proxy_config::Config;
use trace_core::{Kind, Point};

/// The limits that the configuration says.
pub fn limits_of(config: &Config) -> Limits
    ensures { AreLimits config.now result }
{
    Limits {
        preview_limit: config.preview_limit,
        allow_limit: config.allow_limit,
        window: config.window,
        turn: config.turn,
        retry: config.retry,
    }
}

/// The length of a body, if its framing gives it.
fn known_length(framing: Framing) -> Option<u64>
    ensures length { result ≡ known_length framing }
    ensures small { IfSome result (λ n. n < COUNT_LIMIT) }
{
    match framing {
        Framing::None => Some(0),
        Framing::Length(n) if n < COUNT_LIMIT => Some(n),
        _ => None,
    }
}

/// The plan of a message, by what the point's service says, where it has one.
fn plan_of(
    options: Option<&Record>,
    limits: &Limits,
    point: Point,
    path: &[u8],
    framing: Framing,
) -> Plan
    ensures { IsPlanned (option_copied options.entry) limits.now point path.now (known_length framing) result }
{
    let len = known_length(framing);
    match options {
        Some(record) => plan(record, limits, point, extension(path), len),
        None => Plan {
            kind: Kind::Plain,
            allow: false,
            retry: false,
            len,
            point,
        },
    }
}

/// The plan of a user's request, by the record of the service of requests; without one it isn't offered.
pub fn request_plan(options: Option<&Record>, limits: &Limits, user: &HttpRequest) -> Plan
    ensures { IsPlanned (option_copied options.entry) limits.now points.Reqmod (bare_path user.now.target) (known_length (request_framing user.now)) result }
{
    plan_of(
        options,
        limits,
        Point::Reqmod,
        bare_path(user.target()),
        user.framing(),
    )
}

/// The plan of an origin's response to a user's request, by the record of the service of responses; without one it isn't
/// offered. The extension is that of the request's path.
pub fn response_plan(
    options: Option<&Record>,
    limits: &Limits,
    user: &HttpRequest,
    response: &HttpResponse,
) -> Plan
    ensures { IsPlanned (option_copied options.entry) limits.now points.Respmod (bare_path user.now.target) (known_length (response_framing response.now)) result }
{
    plan_of(
        options,
        limits,
        Point::Respmod,
        bare_path(user.target()),
        response.framing(),
    )
}
