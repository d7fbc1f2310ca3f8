//! Configurations: the first key that is wrong, the defaults, and where hosts are.
use crate::listed::{index_of, put_address};
use crate::questions::{Subject, cut, put_lines};
use proxy_config::{
    Config, ConfigFault, Hosts, HostsFault, Network, NumberKey, SIZES, ServicePoint, TIMES,
    fixed_change, is_in, may_use, read_config,
};
use std::alloc::Global;
use std::net::{Ipv4Addr, SocketAddrV4};
use test_rows::{
    NoMemory, Row, number, put_all, put_count, put_decimal, put_line, put_number, put_shown,
};

/// The keys that have no default.
const ADDRESSES: &[u8] = b"listen = \"127.0.0.1:3128\"\nadmin = \"127.0.0.1:3129\"\n";

fn put_config_fault(out: &mut Vec<u8>, fault: &ConfigFault) -> Result<(), NoMemory> {
    match fault {
        ConfigFault::Key(key) => {
            out.extend_from_slice(b"key ")?;
            put_line(out, key.as_bytes())
        }
        ConfigFault::NoMemory => Err(NoMemory),
        ConfigFault::Text => put_line(out, b"no document"),
    }
}

fn put_service(out: &mut Vec<u8>, service: &Option<ServicePoint>) -> Result<(), NoMemory> {
    match service {
        Some(service) => {
            put_line(out, service.host.as_bytes())?;
            put_number(out, b"port", u64::from(service.address.port()))?;
            put_line(out, service.path.as_bytes())?;
            put_number(out, b"connections", service.connections)
        }
        None => put_line(out, b"no service"),
    }
}

/// Adds the path that a key has.
fn put_path(out: &mut Vec<u8>, key: &[u8], path: &Option<String>) -> Result<(), NoMemory> {
    match path {
        Some(path) => {
            put_all(out, &[key, b" "])?;
            put_line(out, path.as_bytes())
        }
        None => {
            out.extend_from_slice(b"no ")?;
            put_line(out, key)
        }
    }
}

/// Adds the numbers of these keys, a line each.
fn put_numbers(out: &mut Vec<u8>, keys: &[NumberKey], numbers: &[u64]) -> Result<(), NoMemory> {
    for (key, number) in keys.iter().zip(numbers) {
        put_number(out, key.name.as_bytes(), *number)?;
    }
    Ok(())
}

/// Adds where the counters are asked for.
fn put_metrics(out: &mut Vec<u8>, metrics: &Option<SocketAddrV4>) -> Result<(), NoMemory> {
    match metrics {
        Some(address) => put_number(out, b"metrics", u64::from(address.port())),
        None => put_line(out, b"no metrics"),
    }
}

/// Adds networks, each with its prefix length after a slash.
fn put_networks(out: &mut Vec<u8>, networks: &[Network]) -> Result<(), NoMemory> {
    for network in networks {
        out.extend_from_slice(b" ")?;
        put_address(out, network.address)?;
        out.extend_from_slice(b"/")?;
        put_decimal(out, u64::from(network.prefix_length))?;
    }
    put_line(out, b"")
}

/// Adds who may use the proxy, and where no request goes.
fn put_access(out: &mut Vec<u8>, config: &Config) -> Result<(), NoMemory> {
    match &config.users {
        Some(users) => {
            out.extend_from_slice(b"users")?;
            put_networks(out, users)?;
        }
        None => put_line(out, b"everyone")?,
    }
    out.extend_from_slice(b"denied")?;
    put_networks(out, &config.denied)?;
    put_number(out, b"user_connections", config.user_connections)?;
    put_shown(out, b"client_ip", &config.client_ip)?;
    put_carried(out, &config.carry)?;
    put_shown(out, b"proxy_protocol", &config.proxy_protocol)?;
    put_path(out, b"hosts_file", &config.hosts_file)
}

/// Adds the names of the fields that go on.
fn put_carried(out: &mut Vec<u8>, names: &[String]) -> Result<(), NoMemory> {
    out.extend_from_slice(b"carry")?;
    for name in names {
        out.extend_from_slice(b" ")?;
        out.extend_from_slice(name.as_bytes())?;
    }
    put_line(out, b"")
}

/// Adds an address and its port, with a colon between them.
fn put_socket(out: &mut Vec<u8>, address: SocketAddrV4) -> Result<(), NoMemory> {
    put_address(out, *address.ip())?;
    out.extend_from_slice(b":")?;
    put_count(out, u64::from(address.port()))
}

/// Adds where the parent is.
fn put_parent(out: &mut Vec<u8>, parent: &Option<SocketAddrV4>) -> Result<(), NoMemory> {
    match parent {
        Some(address) => {
            out.extend_from_slice(b"parent ")?;
            put_socket(out, *address)
        }
        None => put_line(out, b"no parent"),
    }
}

/// Adds what the keys between the log and the hosts say.
fn put_tuning(out: &mut Vec<u8>, config: &Config) -> Result<(), NoMemory> {
    put_shown(out, b"log_query", &config.log_query)?;
    put_metrics(out, &config.metrics)?;
    put_access(out, config)?;
    put_number(out, b"keep_origins", config.keep_origins)?;
    put_number(out, b"origin_idle", config.origin_idle)?;
    put_shown(out, b"dial", &config.dial)?;
    put_number(out, b"turn", config.turn)?;
    put_numbers(out, &TIMES, &config.times())?;
    put_path(out, b"refusal_pages", &config.refusal_pages)
}

/// Adds each value.
fn put_values(out: &mut Vec<u8>, config: &Config) -> Result<(), NoMemory> {
    put_number(out, b"listen", u64::from(config.listen.port()))?;
    put_number(out, b"admin", u64::from(config.admin.port()))?;
    put_numbers(out, &SIZES, &config.sizes())?;
    put_shown(out, b"retry", &config.retry)?;
    put_number(out, b"wait", config.wait)?;
    put_path(out, b"log", &config.log)?;
    put_tuning(out, config)?;
    put_service(out, &config.reqmod)?;
    put_service(out, &config.respmod)?;
    put_parent(out, &config.parent)
}

/// Where hosts are.
#[derive(Drop)]
struct Book<'a>(&'a Hosts);

impl<'a> Subject for Book<'a> {
    /// Adds where a host is, with the port after its name, if there is one.
    fn put_said(&mut self, question: &[u8], out: &mut Vec<u8>) -> Result<(), NoMemory> {
        let (name, digits) = cut(question, b" ");
        let port = match number(digits) {
            Some(port) if port < 65536 => Some(port as u16),
            _ => None,
        };
        match self.0.resolve(name, port) {
            Some(address) => put_socket(out, address),
            None => put_line(out, b"unknown"),
        }
    }
}

/// Who may use the proxy, and where no request goes.
#[derive(Drop)]
struct Access<'a>(&'a Config);

impl<'a> Subject for Access<'a> {
    /// Adds whether a user may come from an address, and whether a request may go to it.
    fn put_said(&mut self, question: &[u8], out: &mut Vec<u8>) -> Result<(), NoMemory> {
        let Ok(address) = Ipv4Addr::parse_ascii(question) else {
            return put_line(out, b"no address");
        };
        let user: &[u8] = if may_use(&self.0.users, address) {
            b"user"
        } else {
            b"no user"
        };
        let target: &[u8] = if is_in(&self.0.denied, address) {
            b", denied"
        } else {
            b", not denied"
        };
        out.extend_from_slice(user)?;
        put_line(out, target)
    }
}

/// Single lines of configurations.
#[derive(Drop)]
struct SingleLines(Global);

impl Subject for SingleLines {
    /// Adds whether a configuration is good that has this line after the two addresses, or its fault.
    fn put_said(&mut self, question: &[u8], out: &mut Vec<u8>) -> Result<(), NoMemory> {
        let mut text = Vec::new(self.0);
        put_all(&mut text, &[ADDRESSES, question])?;
        match read_config(self.0, &text) {
            Ok(_) => put_line(out, b"good"),
            Err(fault) => put_config_fault(out, &fault),
        }
    }
}

/// The text of a row, after the two addresses if it isn't whole.
fn text_of(alloc: Global, row: &Row<'_>) -> Result<Vec<u8>, NoMemory> {
    let mut text = Vec::new(alloc);
    let addresses = if row.has(b"whole") { b"" } else { ADDRESSES };
    put_all(&mut text, &[addresses, row.get(b"text")])?;
    Ok(text)
}

/// Adds the values, where hosts are, who may do what, or which single lines are good, as the call asks; else that the configuration is
/// good.
fn put_good(
    alloc: Global,
    out: &mut Vec<u8>,
    call: &[u8],
    config: &Config,
    row: &Row<'_>,
) -> Result<(), NoMemory> {
    match index_of(b"values|hosts|access|ranges", call) {
        Some(0) => put_values(out, config),
        Some(1) => put_lines(&mut Book(&config.hosts), row.get(b"want"), out),
        Some(2) => put_lines(&mut Access(config), row.get(b"want"), out),
        Some(3) => put_lines(&mut SingleLines(alloc), row.get(b"want"), out),
        _ => put_line(out, b"good"),
    }
}

/// Reads the row's hosts file, if it has one, and adds how many names it has, or which line is none, and where hosts are then.
fn put_named(
    alloc: Global,
    config: &mut Config,
    row: &Row<'_>,
    out: &mut Vec<u8>,
) -> Result<(), NoMemory> {
    match config.name_hosts(alloc, row.get(b"file")) {
        Ok(count) => put_number(out, b"names", count)?,
        Err(HostsFault::Line(number)) => put_number(out, b"bad line", number)?,
        Err(HostsFault::NoMemory) => return Err(NoMemory),
    }
    put_lines(&mut Book(&config.hosts), row.get(b"want"), out)
}

/// Adds the first key that keeps the row's other configuration from taking the place of this one.
fn put_change(
    alloc: Global,
    config: &Config,
    row: &Row<'_>,
    out: &mut Vec<u8>,
) -> Result<(), NoMemory> {
    let mut text = Vec::new(alloc);
    put_all(&mut text, &[ADDRESSES, row.get(b"file")])?;
    match read_config(alloc, &text) {
        Ok(other) => match fixed_change(config, &other) {
            Some(key) => put_line(out, key.as_bytes()),
            None => put_line(out, b"no restart"),
        },
        Err(fault) => put_config_fault(out, &fault),
    }
}

/// Adds what is said of the row's configuration, or its fault.
pub fn put_config(
    alloc: Global,
    call: &[u8],
    row: &Row<'_>,
    out: &mut Vec<u8>,
) -> Result<(), NoMemory> {
    let text = text_of(alloc, row)?;
    match read_config(alloc, &text) {
        Ok(mut config) => match index_of(b"hosts file|change", call) {
            Some(0) => put_named(alloc, &mut config, row, out),
            Some(1) => put_change(alloc, &config, row, out),
            _ => put_good(alloc, out, call, &config, row),
        },
        Err(fault) => put_config_fault(out, &fault),
    }
}
