//! Four ledgers as one: the type that names them, their books and their shares.
ghost use Rattle.std.specs.Prelude.{◌≡◌, ◌+◌, ◌≤◌, ◌<◌};
ghost use Rattle.span_bank.specs.Ledgers.{Amounts, Parted, plus, no_amounts, IsWithin};

use std::marker::Model;
use std::sync::ledger::{Blank, Book, Ledger, Share};

/// The ledgers of a bank, as one type. Each bank has its own.
pub trait Ledgers {
    /// Counts the bytes held.
    type Held: Ledger;
    /// Counts the rest of the claims.
    type Free: Ledger;
    /// Counts what each reservation may still have in pages, in bytes.
    type Slack: Ledger;
    /// Counts the pages in use.
    type Pages: Ledger;
}

/// Four ledgers are the ledgers of a bank.
impl<H: Ledger, F: Ledger, S: Ledger, P: Ledger> Ledgers for (H, F, S, P) {
    type Held = H;

    type Free = F;

    type Slack = S;

    type Pages = P;
}

/// New ledgers of a bank, which no type stands for yet.
#[derive(Drop)]
pub struct Blanks {
    pub held: Blank,
    pub free: Blank,
    pub slack: Blank,
    pub pages: Blank,
}

impl Blanks {
    /// New ledgers of this many parts each.
    pub fn new(parts: u64) -> Blanks
        ensures held { result.held.parts ≡ parts }
        ensures free { result.free.parts ≡ parts }
        ensures slack { result.slack.parts ≡ parts }
        ensures pages { result.pages.parts ≡ parts }
    {
        Blanks {
            held: Blank::new(parts),
            free: Blank::new(parts),
            slack: Blank::new(parts),
            pages: Blank::new(parts),
        }
    }
}

/// An amount for each ledger.
#[derive(Clone, Copy)]
pub(crate) struct Change {
    pub(crate) held: u64,
    pub(crate) free: u64,
    pub(crate) slack: u64,
    pub(crate) pages: u64,
}

// The amounts that change nothing.
pub(crate) const NOTHING: Change = Change {
    held: 0,
    free: 0,
    slack: 0,
    pages: 0,
};

/// The totals of all ledgers.
#[derive(Drop)]
pub(crate) struct Books<B: Ledgers> {
    held: Book<B::Held>,
    free: Book<B::Free>,
    slack: Book<B::Slack>,
    pages: Book<B::Pages>,
}

impl<B: Ledgers> Model for Books<B> {
    ghost use Rattle.span_bank.specs.Ledgers.{Amounts};

    ghost Value = { Amounts };

    ghost view = { λ b. record { held = b.held.total; free = b.free.total; slack = b.slack.total; pages = b.pages.total } };
}

/// As many parts of each ledger, with an amount of each.
#[derive(Drop)]
pub(crate) struct Parts<B: Ledgers> {
    held: Share<B::Held>,
    free: Share<B::Free>,
    slack: Share<B::Slack>,
    pages: Share<B::Pages>,
}

impl<B: Ledgers> Model for Parts<B> {
    ghost use Rattle.std.specs.Prelude.{◌≡◌};
    ghost use Rattle.span_bank.specs.Ledgers.{Amounts, Parted};

    ghost Value = { Parted };

    ghost view = { λ s. record { parts = s.held.parts; amounts = record { held = s.held.amount; free = s.free.amount; slack = s.slack.amount; pages = s.pages.amount } } };

    ghost invariant = { λ s. (s.free.parts ≡ s.held.parts) × (s.slack.parts ≡ s.held.parts) × (s.pages.parts ≡ s.held.parts) };
}

// The books of new ledgers, and all their parts.
pub(crate) fn begin<B: Ledgers>(blanks: Blanks) -> (Books<B>, Parts<B>)
    requires held { (blanks.held.name ≡ B.Held.name) × (blanks.held.parts ≡ B.Held.parts) }
    requires free { (blanks.free.name ≡ B.Free.name) × (blanks.free.parts ≡ B.Free.parts) }
    requires slack { (blanks.slack.name ≡ B.Slack.name) × (blanks.slack.parts ≡ B.Slack.parts) }
    requires pages { (blanks.pages.name ≡ B.Pages.name) × (blanks.pages.parts ≡ B.Pages.parts) }
    requires same { (blanks.free.parts ≡ blanks.held.parts) × (blanks.slack.parts ≡ blanks.held.parts) × (blanks.pages.parts ≡ blanks.held.parts) }
    ensures books { result.0 ≡ no_amounts }
    ensures parts { result.1 ≡ record { parts = blanks.held.parts; amounts = no_amounts } }
{
    let Blanks {
        held,
        free,
        slack,
        pages,
    } = blanks;
    let (held_book, held) = held.open::<B::Held>();
    let (free_book, free) = free.open::<B::Free>();
    let (slack_book, slack) = slack.open::<B::Slack>();
    let (pages_book, pages) = pages.open::<B::Pages>();
    (
        Books {
            held: held_book,
            free: free_book,
            slack: slack_book,
            pages: pages_book,
        },
        Parts {
            held,
            free,
            slack,
            pages,
        },
    )
}

impl<B: Ledgers> Books<B> {
    // Adds to the amounts, and to the totals.
    pub(crate) fn add(&mut self, parts: &mut Parts<B>, more: Change)
        requires { 0 < parts.old.parts }
        ensures totals { self.new ≡ plus self.old (record { held = more.held; free = more.free; slack = more.slack; pages = more.pages }) }
        ensures amounts { parts.new ≡ record parts.old { amounts = plus parts.old.amounts (record { held = more.held; free = more.free; slack = more.slack; pages = more.pages }) } }
    {
        self.held.add(&mut parts.held, more.held);
        self.free.add(&mut parts.free, more.free);
        self.slack.add(&mut parts.slack, more.slack);
        self.pages.add(&mut parts.pages, more.pages);
    }

    // Takes off the amounts, and off the totals.
    pub(crate) fn sub(&mut self, parts: &mut Parts<B>, less: Change)
        requires { IsWithin (record { held = less.held; free = less.free; slack = less.slack; pages = less.pages }) parts.old.amounts }
        ensures totals { plus self.new (record { held = less.held; free = less.free; slack = less.slack; pages = less.pages }) ≡ self.old }
        ensures amounts { plus parts.new.amounts (record { held = less.held; free = less.free; slack = less.slack; pages = less.pages }) ≡ parts.old.amounts }
        ensures parts { parts.new.parts ≡ parts.old.parts }
    {
        self.held.sub(&mut parts.held, less.held);
        self.free.sub(&mut parts.free, less.free);
        self.slack.sub(&mut parts.slack, less.slack);
        self.pages.sub(&mut parts.pages, less.pages);
    }

    // Changes nothing, and tells that the amounts are counted.
    pub(crate) fn count(&mut self, parts: &mut Parts<B>)
        ensures totals { self.new ≡ self.old }
        ensures amounts { parts.new ≡ parts.old }
        ensures within { IsWithin parts.old.amounts self.old }
        ensures whole { parts.old.parts ≡ B.Held.parts → (B.Free.parts ≡ B.Held.parts) × (B.Slack.parts ≡ B.Held.parts) × (B.Pages.parts ≡ B.Held.parts) → parts.old.amounts ≡ self.old }
    {
        self.held.audit(&mut parts.held);
        self.free.audit(&mut parts.free);
        self.slack.audit(&mut parts.slack);
        self.pages.audit(&mut parts.pages);
    }
}

impl<B: Ledgers> Parts<B> {
    // One part, with no amount.
    pub(crate) fn lend_one(&mut self) -> Parts<B>
        requires parts { 1 < self.old.parts }
        ensures one { result ≡ record { parts = 1; amounts = no_amounts } }
        ensures rest { self.new.parts + 1 ≡ self.old.parts }
        ensures same { self.new.amounts ≡ self.old.amounts }
    {
        Parts {
            held: self.held.split_off(1, 0),
            free: self.free.split_off(1, 0),
            slack: self.slack.split_off(1, 0),
            pages: self.pages.split_off(1, 0),
        }
    }

    // Adds the parts and amounts of another.
    pub(crate) fn merge(&mut self, other: Parts<B>)
        ensures parts { self.new.parts ≡ self.old.parts + other.parts }
        ensures amounts { self.new.amounts ≡ plus self.old.amounts other.amounts }
        ensures apart { self.new.parts ≤ B.Held.parts }
    {
        let Parts {
            held,
            free,
            slack,
            pages,
        } = other;
        self.held.merge(held);
        self.free.merge(free);
        self.slack.merge(slack);
        self.pages.merge(pages);
    }

    // Changes nothing, and tells that both are parts of the same ledgers.
    pub(crate) fn stand_apart(&mut self, other: &mut Parts<B>)
        requires { self.old.parts ≡ 0 → self.old.amounts.held ≡ 0 }
        ensures same { self.new ≡ self.old }
        ensures other { other.new ≡ other.old }
        ensures apart { self.old.parts + other.old.parts ≤ B.Held.parts }
    {
        self.held.give(&mut other.held, 0, 0);
    }

    // None, with no amount.
    pub(crate) fn empty(&mut self) -> Parts<B>
        ensures none { result ≡ record { parts = 0; amounts = no_amounts } }
        ensures same { self.new ≡ self.old }
    {
        Parts {
            held: self.held.empty(),
            free: self.free.empty(),
            slack: self.slack.empty(),
            pages: self.pages.empty(),
        }
    }
}
