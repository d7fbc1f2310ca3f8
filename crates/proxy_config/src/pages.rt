//! The pages of refusals.

ghost use Rattle.std.specs.Prelude.{◌≡◌, ℕ, None, option_map};
ghost use Rattle.std.specs.Option.{option_copied};
ghost use Rattle.proxy_config.specs.Pages.{page_of, page_after};

/// The statuses of the refusals that the proxy makes itself.
pub const OWN_STATUSES: [u16; 5] = [400, 501, 502, 503, 504];

/// The most bytes of a page.
pub const MAX_PAGE: usize = 16_384;

/// The pages of refusals, each the body that a refusal of one status has; without a page it has no body.
#[derive(Drop)]
pub struct Pages {
    bad_request: Option<Vec<u8>>,
    not_implemented: Option<Vec<u8>>,
    bad_gateway: Option<Vec<u8>>,
    unavailable: Option<Vec<u8>>,
    late: Option<Vec<u8>>,
}

/// The bytes of a page.
fn bytes_of(page: &Option<Vec<u8>>) -> Option<&[u8]>
    ensures { option_copied result ≡ option_map (λ page. page.items) page.now }
{
    match page {
        Some(page) => Some(page.as_slice()),
        None => None,
    }
}

impl Pages {
    /// No page for any status.
    pub fn new() -> Pages
        ensures { (status : ℕ) → page_of result status ≡ None }
    {
        Pages {
            bad_request: None,
            not_implemented: None,
            bad_gateway: None,
            unavailable: None,
            late: None,
        }
    }

    /// The page of a status; none where its refusals have their plain text.
    pub fn of(&self, status: u16) -> Option<&[u8]>
        ensures { option_copied result ≡ page_of self.now status }
    {
        match status {
            400 => bytes_of(&self.bad_request),
            501 => bytes_of(&self.not_implemented),
            502 => bytes_of(&self.bad_gateway),
            503 => bytes_of(&self.unavailable),
            504 => bytes_of(&self.late),
            _ => None,
        }
    }

    /// Puts a page in place of the one of a status. Nothing changes for a status that isn't one of [`OWN_STATUSES`].
    pub fn set(&mut self, status: u16, page: Vec<u8>)
        ensures { (other : ℕ) → page_of self.new other ≡ page_after self.old status page.items other }
    {
        match status {
            400 => self.bad_request = Some(page),
            501 => self.not_implemented = Some(page),
            502 => self.bad_gateway = Some(page),
            503 => self.unavailable = Some(page),
            504 => self.late = Some(page),
            _ => {}
        }
    }
}
