//! The messages that a service is tried with.

ghost use Rattle.std.specs.Prelude.{◌≡◌, ◌≤◌, IfSome, Some, None, false};
ghost use Rattle.adapt_bytes.specs.declared.limits.TheConstants.{MAX_PREVIEW};
ghost use Rattle.service_probe.specs.Samples.{body_size, sample_kind, sample_length, sample_name, allows};

use trace_core::{Kind, Plan, Point};

/// A message that a service is tried with, by its body, and whether the request has `Allow: 204` (RFC 3507, section 4.6).
#[derive(Clone, Copy, Debug)]
pub enum Sample {
    /// No body, with Allow.
    NoBody,
    /// A byte less than a preview.
    Below,
    BelowAllow,
    /// Just a preview.
    Preview,
    PreviewAllow,
    /// A byte more than a preview.
    Above,
    AboveAllow,
    /// 1,000,000 bytes.
    Million,
    MillionAllow,
    /// 10,000 bytes, whose number isn't said before they come.
    Chunked,
    /// The test text of EICAR, which scanners take for a virus, with Allow.
    Eicar,
}

/// All samples, in their order.
pub const SAMPLES: [Sample; 11] = [
    Sample::NoBody,
    Sample::Below,
    Sample::BelowAllow,
    Sample::Preview,
    Sample::PreviewAllow,
    Sample::Above,
    Sample::AboveAllow,
    Sample::Million,
    Sample::MillionAllow,
    Sample::Chunked,
    Sample::Eicar,
];

/// A sample for a service.
#[derive(Clone, Copy)]
pub struct Trial {
    pub sample: Sample,
    pub plan: Plan,
    /// How many bytes its body has.
    pub size: u64,
}

impl Sample {
    /// How many bytes its body has where a preview has so many. `None` where there is no such body, or it would be none.
    pub fn size(self, preview: u64) -> Option<u64>
        requires { preview ≤ MAX_PREVIEW }
        ensures exact { result ≡ body_size self preview }
        ensures small { IfSome result (λ size. size ≤ 1000000) }
    {
        match self {
            Sample::NoBody => Some(0),
            Sample::Below | Sample::BelowAllow if preview > 1 => Some(preview - 1),
            Sample::Preview | Sample::PreviewAllow if preview > 0 => Some(preview),
            Sample::Below | Sample::BelowAllow => None,
            Sample::Preview | Sample::PreviewAllow => None,
            Sample::Above | Sample::AboveAllow => Some(preview + 1),
            Sample::Million | Sample::MillionAllow => Some(1_000_000),
            Sample::Chunked => Some(10_000),
            Sample::Eicar => Some(68),
        }
    }

    /// Its name, as `below-allow`.
    pub fn name(self) -> &'static [u8]
        ensures { result.now ≡ sample_name self }
    {
        match self {
            Sample::NoBody => b"no-body",
            Sample::Below => b"below",
            Sample::BelowAllow => b"below-allow",
            Sample::Preview => b"preview",
            Sample::PreviewAllow => b"preview-allow",
            Sample::Above => b"above",
            Sample::AboveAllow => b"above-allow",
            Sample::Million => b"million",
            Sample::MillionAllow => b"million-allow",
            Sample::Chunked => b"chunked",
            Sample::Eicar => b"eicar",
        }
    }

    /// Whether its request has `Allow: 204`.
    fn allows(self) -> bool
        ensures { result ≡ allows self }
    {
        match self {
            Sample::NoBody | Sample::Eicar => true,
            Sample::BelowAllow | Sample::PreviewAllow => true,
            Sample::AboveAllow | Sample::MillionAllow => true,
            Sample::Below | Sample::Preview | Sample::Above => false,
            Sample::Million | Sample::Chunked => false,
        }
    }

    /// The length that is said of its body before it comes.
    fn length(self, size: u64) -> Option<u64>
        ensures { result ≡ sample_length self size }
    {
        match self {
            Sample::Chunked => None,
            _ => Some(size),
        }
    }

    /// The plan by which its body of so many bytes is offered at a point, to a service that wants previews of this size, or none.
    pub fn plan(self, point: Point, preview: Option<u64>, size: u64) -> Plan
        requires preview { IfSome preview (λ most. most ≤ MAX_PREVIEW) }
        requires size { size ≤ 1000000 }
        ensures kind { result.kind ≡ sample_kind preview size }
        ensures length { result.len ≡ sample_length self size }
        ensures allow { result.allow ≡ allows self }
        ensures others { (result.retry ≡ false) × (result.point ≡ point) }
    {
        Plan {
            kind: kind(preview, size),
            allow: self.allows(),
            retry: false,
            len: self.length(size),
            point,
        }
    }
}

/// How a body of so many bytes goes to a service that wants previews of this size, or none (RFC 3507, section 4.5).
fn kind(preview: Option<u64>, size: u64) -> Kind
    ensures { result ≡ sample_kind preview size }
{
    match preview {
        Some(most) if size > 0 => Kind::Preview(most),
        _ => Kind::Whole,
    }
}
