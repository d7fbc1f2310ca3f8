//! The configuration as a whole.

ghost use Rattle.proxy_config.specs.TurnSize.{IsTurn};
ghost use Rattle.proxy_config.specs.Values.{IsWithin};
ghost use Rattle.adapt_bytes.specs.declared.limits.TheConstants.{MAX_ALLOW_LIMIT, MAX_PREVIEW, MAX_WINDOW};
ghost use Rattle.span_bank.specs.declared.limits.TheConstants.{MAX_CAPACITY, MAX_ROWS};
ghost use Rattle.proxy_config.specs.declared.limits.TheConstants.{MAX_SHARDS};

use crate::dial::Dial;
use crate::entrance::Entrance;
use crate::fault::ConfigFault;
use crate::file_path::read_path;
use crate::host_table::Hosts;
use crate::limits::MAX_SHARDS;
use crate::network::Network;
use crate::number_key::{NumberKey, number_key};
use crate::numbers::read_numbers;
use crate::origins::Origins;
use crate::pages::Pages;
use crate::places::Places;
use crate::point::ServicePoint;
use crate::ports::{read_admin, read_metrics};
use crate::unknown::check_keys;
use crate::values::{read_address, read_truth};
use adapt_bytes::{MAX_ALLOW_LIMIT, MAX_PREVIEW, MAX_WINDOW};
use span_bank::{MAX_CAPACITY, MAX_ROWS};
use std::alloc::Global;
use std::net::SocketAddrV4;
use toml::Table;

/// The configuration of `adaptproxy serve`.
///
/// ```
/// let text = b"listen = \"0.0.0.0:3128\"\nadmin = \"127.0.0.1:3129\"\nrows = 100\n";
/// let config = read_config(alloc, text)?;
/// // `rows` is written, `shards` has its default.
/// assert_eq!(rt; (config.rows, config.shards), (100, 2));
/// assert!(rt; config.respmod.is_none());
/// ```
#[derive(Drop)]
pub struct Config {
    /// Where users connect.
    pub listen: SocketAddrV4,
    /// Where the administrator connects.
    pub admin: SocketAddrV4,
    /// Threads, each with an event loop: 1 to 64.
    pub shards: u64,
    /// The most body bytes that all transactions together may reserve: 1 to `2^40`.
    pub capacity: u64,
    /// The most transactions at once: 1 to 4,096.
    pub rows: u64,
    /// The steps that the buffer budget and each pool keep of their past: 1 to 65,536.
    pub journal: u64,
    /// Seconds without a moved byte after which an exchange is ended: 1 to 3,600.
    pub deadline: u64,
    /// The most bytes of a preview: 0 to 65,536.
    pub preview_limit: u64,
    /// The longest known body that a service may answer with 204 outside a preview: 0 to 1,048,576 bytes.
    pub allow_limit: u64,
    /// Bytes that may be read ahead: 1 to 65,536.
    pub window: u64,
    /// Whether a request that may be answered by 204 begins anew once, on a fresh connection, where a reused one broke.
    pub retry: bool,
    /// Seconds that an exchange may wait for a connection to its service where all are in use: 0 to 3,600; 0 where it
    /// doesn't wait.
    pub wait: u64,
    /// The file that a line an exchange is added to, a path of 1 to 4,096 bytes without NUL; none where no log is kept.
    pub log: Option<String>,
    /// Whether the log has what stands after the `?` of a target, and the `?`.
    pub log_query: bool,
    /// Where the counters are asked for over HTTP; none where they aren't served so.
    pub metrics: Option<SocketAddrV4>,
    /// The networks that users may come from; `None` where they may come from everywhere, while an empty list lets nobody in.
    pub users: Option<Vec<Network>>,
    /// The networks to which no request goes, by the address that its target, `hosts` or the hosts file gives. The parent's own address
    /// isn't judged.
    pub denied: Vec<Network>,
    /// The most connections of one address of users at once: 0 to 4,096; 0 where there is no such limit.
    pub user_connections: u64,
    /// Whether each message that is offered to a service says its user's address.
    pub client_ip: bool,
    /// The names, at most eight, of the ICAP fields that go from the last answer of the service of requests to the service of responses, in
    /// the same exchange.
    pub carry: Vec<String>,
    /// Whether each user's connection begins with a header of the PROXY protocol, which says where it comes from.
    pub proxy_protocol: bool,
    /// The file of further host names, a path as that of `log`; none where there is no such file.
    pub hosts_file: Option<String>,
    /// The most idle connections to origins that each thread keeps: 0 to 1,024; 0 where each is closed after its answer.
    pub keep_origins: u64,
    /// Seconds after which an idle connection to an origin is closed: 1 to 3,600.
    pub origin_idle: u64,
    /// When the connection to an origin is opened.
    pub dial: Dial,
    /// The most body bytes of a message that a turn moves: 4,096 to 65,536, a multiple of 4,096. More than 4,096 are at most
    /// `window`.
    pub turn: u64,
    /// Seconds after which an idle connection to a service is closed: 0 to 3,600; 0 where none is kept.
    pub service_idle: u64,
    /// Seconds that the options of a service hold where its answer doesn't say: 0 to `2^31`; 0 where they hold for ever.
    pub options_ttl: u64,
    /// Seconds from the first byte of a request's head to its last: 0 to 3,600; 0 where only silence counts.
    pub head_deadline: u64,
    /// Seconds until an origin or a service must have taken a new connection: 0 to 3,600; 0 where `deadline` holds for it.
    pub connect_deadline: u64,
    /// After how many failures in a row a service is paused: 0 to 1,024; 0 where none is.
    pub service_failures: u64,
    /// Seconds for which it is paused then: 1 to 3,600.
    pub service_pause: u64,
    /// The folder of the pages of refusals, a path as that of `log`; none where refusals have their plain texts.
    pub refusal_pages: Option<String>,
    /// The pages of refusals: none as the configuration is read.
    pub pages: Pages,
    /// Where named hosts are.
    pub hosts: Hosts,
    /// The service of requests; none where they aren't adapted.
    pub reqmod: Option<ServicePoint>,
    /// The service of responses; none where they aren't adapted.
    pub respmod: Option<ServicePoint>,
    /// The proxy to which each request goes whose host isn't named here. Where there is none, such a request goes to its origin if the host
    /// is an IPv4 address, and nowhere if it is a name.
    pub parent: Option<SocketAddrV4>,
    ghost sizes_fit: { IsWithin 1 MAX_SHARDS shards × (IsWithin 1 MAX_CAPACITY capacity × (IsWithin 1 MAX_ROWS rows × (IsWithin 1 65536 journal
        × (IsWithin 1 3600 deadline × (IsWithin 0 MAX_PREVIEW preview_limit × (IsWithin 0 MAX_ALLOW_LIMIT allow_limit
        × IsWithin 1 MAX_WINDOW window)))))) },
    ghost wait_fits: { IsWithin 0 3600 wait },
    ghost crowds_fit: { IsWithin 0 4096 user_connections },
    ghost kept_fit: { IsWithin 0 1024 keep_origins × IsWithin 1 3600 origin_idle },
    ghost times_fit: { IsWithin 0 3600 service_idle × (IsWithin 0 2147483648 options_ttl × (IsWithin 0 3600 head_deadline
        × (IsWithin 0 3600 connect_deadline × (IsWithin 0 1024 service_failures × IsWithin 1 3600 service_pause)))) },
    ghost turn_fits: { IsTurn window turn },
}

/// The keys that say how much there may be, and for how long no byte may move.
pub const SIZES: [NumberKey; 8] = [
    number_key!(fixed "shards", 1 to MAX_SHARDS "threads", default 2),
    number_key!(live "capacity", 1 to MAX_CAPACITY "bytes", default 16_777_216),
    number_key!(fixed "rows", 1 to MAX_ROWS "transactions", default 256),
    number_key!(fixed "journal", 1 to 65_536 "steps", default 1_024),
    number_key!(live "deadline", 1 to 3_600 "seconds", default 60),
    number_key!(fixed "preview_limit", 0 to MAX_PREVIEW "bytes", default 1_024),
    number_key!(fixed "allow_limit", 0 to MAX_ALLOW_LIMIT "bytes", default 65_536),
    number_key!(fixed "window", 1 to MAX_WINDOW "bytes", default 8_192),
];

/// The key that says how long an exchange waits.
pub(crate) const WAITS: [NumberKey; 1] = [
    number_key!(live "wait", 0 to 3_600 "seconds", default 0: "none"),
];

/// The key that says how many connections one address of users may have.
pub(crate) const CROWDS: [NumberKey; 1] = [
    number_key!(fixed "user_connections", 0 to 4_096 "connections", default 0: "no limit"),
];

/// The keys that say which connections to origins are kept.
pub(crate) const KEPT: [NumberKey; 2] = [
    number_key!(fixed "keep_origins", 0 to 1_024 "connections", default 0: "none"),
    number_key!(fixed "origin_idle", 1 to 3_600 "seconds", default 30),
];

/// The keys that say how long connections to services lie idle, what heads and new connections may take, and when a service is paused.
pub const TIMES: [NumberKey; 6] = [
    number_key!(fixed "service_idle", 0 to 3_600 "seconds", default 60),
    number_key!(fixed "options_ttl", 0 to 2_147_483_648 "seconds", default 0: "for ever"),
    number_key!(fixed "head_deadline", 0 to 3_600 "seconds", default 0: "none"),
    number_key!(fixed "connect_deadline", 0 to 3_600 "seconds", default 0: "that of deadline"),
    number_key!(fixed "service_failures", 0 to 1_024 "failures", default 0: "no pause"),
    number_key!(fixed "service_pause", 1 to 3_600 "seconds", default 30),
];

/// The names of the keys.
pub(crate) const KEYS: [&str; 37] = [
    "listen",
    "admin",
    "shards",
    "capacity",
    "rows",
    "journal",
    "deadline",
    "preview_limit",
    "allow_limit",
    "window",
    "retry",
    "wait",
    "log",
    "log_query",
    "metrics",
    "users",
    "denied",
    "user_connections",
    "client_ip",
    "carry",
    "proxy_protocol",
    "hosts_file",
    "keep_origins",
    "origin_idle",
    "dial",
    "turn",
    "service_idle",
    "options_ttl",
    "head_deadline",
    "connect_deadline",
    "service_failures",
    "service_pause",
    "refusal_pages",
    "hosts",
    "reqmod",
    "respmod",
    "parent",
];

impl Config {
    ghost use Rattle.std.specs.Prelude.{◌≡◌, codes, map, IfOk, IfErr, Some};
    ghost use Rattle.toml.specs.View.{table_view};
    ghost use Rattle.proxy_config.specs.Config.{IsConfig, IsFirstFault};
    ghost use Rattle.proxy_config.specs.Fault.{Names};
    ghost use Rattle.proxy_config.specs.Keys.{size_rows, time_rows};
    ghost use Rattle.proxy_config.specs.Numbers.{AreRead, row_rules, window_among};
    ghost use Rattle.proxy_config.specs.TurnSize.{window_at};
    ghost use Rattle.proxy_config.specs.Turns.{IsPast};

    /// Reads the numbers of the keys of [`SIZES`].
    fn read_sizes(alloc: Global, table: &Table) -> Result<[u64; 8], ConfigFault>
        requires next { IsPast (codes "admin") (table_view table.now) }
        ensures ok { IfOk result (AreRead (row_rules size_rows) (table_view table.now)) }
        ensures window { IfOk result (λ sizes. window_at (table_view table.now) ≡ Some (window_among sizes)) }
        ensures past { IfOk result (λ _. IsPast (codes "window") (table_view table.now)) }
        ensures err { IfErr result (Names (IsFirstFault (table_view table.now))) }
    {
        read_numbers(alloc, table, &SIZES)
    }

    /// Reads the numbers of the keys of [`TIMES`].
    fn read_times(alloc: Global, table: &Table) -> Result<[u64; 6], ConfigFault>
        requires next { IsPast (codes "turn") (table_view table.now) }
        ensures ok { IfOk result (AreRead (row_rules time_rows) (table_view table.now)) }
        ensures past { IfOk result (λ _. IsPast (codes "service_pause") (table_view table.now)) }
        ensures err { IfErr result (Names (IsFirstFault (table_view table.now))) }
    {
        read_numbers(alloc, table, &TIMES)
    }

    /// Reads a configuration out of its document, a line a key or a group of keys.
    pub(crate) fn read(alloc: Global, table: &Table) -> Result<Config, ConfigFault>
        ensures ok { IfOk result (IsConfig (table_view table.now)) }
        ensures err { IfErr result (Names (IsFirstFault (table_view table.now))) }
    {
        let listen = read_address(alloc, table, "listen")?;
        let admin = read_admin(alloc, table, listen)?;
        let [
            shards,
            capacity,
            rows,
            journal,
            deadline,
            preview_limit,
            allow_limit,
            window,
        ] = Config::read_sizes(alloc, table)?;
        let retry = read_truth(alloc, table, "retry", true)?;
        let [wait] = read_numbers::<1>(alloc, table, &WAITS)?;
        let log = read_path(alloc, table, "log")?;
        let log_query = read_truth(alloc, table, "log_query", true)?;
        let metrics = read_metrics(alloc, table, listen, admin)?;
        let Entrance {
            users,
            denied,
            user_connections,
            client_ip,
            carry,
            proxy_protocol,
            hosts_file,
        } = Entrance::read(alloc, table)?;
        let Origins {
            keep_origins,
            origin_idle,
            dial,
            turn,
        } = Origins::read(alloc, table, window)?;
        let [
            service_idle,
            options_ttl,
            head_deadline,
            connect_deadline,
            service_failures,
            service_pause,
        ] = Config::read_times(alloc, table)?;
        let refusal_pages = read_path(alloc, table, "refusal_pages")?;
        let Places {
            hosts,
            reqmod,
            respmod,
            parent,
        } = Places::read(alloc, table)?;
        check_keys(alloc, table)?;
        Ok(Config {
            listen,
            admin,
            shards,
            capacity,
            rows,
            journal,
            deadline,
            preview_limit,
            allow_limit,
            window,
            retry,
            wait,
            log,
            log_query,
            metrics,
            users,
            denied,
            user_connections,
            client_ip,
            carry,
            proxy_protocol,
            hosts_file,
            keep_origins,
            origin_idle,
            dial,
            turn,
            service_idle,
            options_ttl,
            head_deadline,
            connect_deadline,
            service_failures,
            service_pause,
            refusal_pages,
            pages: Pages::new(),
            hosts,
            reqmod,
            respmod,
            parent,
        })
    }

    /// The numbers of the keys of [`SIZES`].
    pub fn sizes(&self) -> [u64; 8]
        ensures { result ≡ map (λ row. row.value_in self.now) size_rows }
    {
        [
            self.shards,
            self.capacity,
            self.rows,
            self.journal,
            self.deadline,
            self.preview_limit,
            self.allow_limit,
            self.window,
        ]
    }

    /// The numbers of the keys of [`TIMES`].
    pub fn times(&self) -> [u64; 6]
        ensures { result ≡ map (λ row. row.value_in self.now) time_rows }
    {
        [
            self.service_idle,
            self.options_ttl,
            self.head_deadline,
            self.connect_deadline,
            self.service_failures,
            self.service_pause,
        ]
    }
}
