//! What the arguments of a subcommand request.

ghost use Rattle.std.specs.Prelude.{◌≡◌, ℕ, Option, None, IfSome, codes};
ghost use Rattle.std.specs.Option.{option_map};
ghost use Rattle.clap.specs.Words.{first_of, found_of, rows_of, subcommand_rows_of};
ghost use Rattle.cli.specs.CommandLine as spec;
ghost use Rattle.cli.specs.CommandLine.{AreConnections, HasLimit, IsCheck, IsEval, IsLimit, IsPort, IsServe, IsService, IsSimulate};
ghost use Rattle.cli.specs.CommandLine.{AreCommandsAt, AreSeconds, IsFeed, IsLogFormat, IsPortOrAny, IsPublish, IsSubcommand};
ghost use Rattle.cli.specs.declared.requests.Feed.{Feed as FeedType};
ghost use Rattle.cli.specs.declared.requests.LogFormat.{LogFormat as LogFormatType};
ghost use Rattle.cli.specs.declared.requests.Request.{Request as RequestType};
ghost use Rattle.cli.specs.declared.requests.Service.{Service as ServiceType};

use clap::ArgMatches;
use commands::RowOutput;

/// What `serve` serves.
#[derive(Clone, Copy, Debug, PartialEq, Eq)]
pub struct Service {
    /// The port of the loopback interface.
    pub port: u16,
    /// The most commits that the log takes.
    pub limit: u32,
    /// How many connections are accepted in total; none if it is one for each subscription.
    pub connections: Option<usize>,
}

/// How standard error reports connections.
#[derive(Clone, Copy, Debug, PartialEq, Eq)]
pub enum LogFormat {
    /// A line when a connection has ended.
    Text,
    /// A JSON object on a line of its own when a connection is accepted, and one when it has ended.
    Json,
}

/// What `publish` publishes.
#[derive(Clone, Copy, Debug, PartialEq, Eq)]
pub struct Feed<'a> {
    /// The port of the loopback interface; 0 is any free one.
    pub port: u16,
    /// The file to which the ports are written.
    pub port_file: Option<&'a str>,
    /// The port of the loopback interface for commands, where 0 is any free one; none if they come from standard input.
    pub commands: Option<u16>,
    /// The most commits that the log takes.
    pub limit: u32,
    /// How many seconds a client has to start its stream, 1 to 86,400.
    pub start_timeout: u32,
    /// How many seconds a write waits for a client that takes nothing, 1 to 86,400.
    pub write_timeout: u32,
    /// The seconds between two keepalives, 1 to 86,400.
    pub keepalive: u32,
    /// How many seconds a client may be silent once its stream has started, 1 to 86,400.
    pub timeout: u32,
    /// How standard error reports connections.
    pub log: LogFormat,
}

/// What the program is to do with its input.
#[derive(Clone, Copy, Debug, PartialEq, Eq)]
pub enum Request<'a> {
    /// Print this for each row of this table.
    Eval { table: &'a str, wanted: RowOutput },
    /// Print a catalog as it was read.
    Show,
    /// Print whether certificates show that a sharding is sound; before that, print the catalog if it is to be shown.
    Check { shows: bool },
    /// Search for the certificates of a sharding.
    Make,
    /// Execute the steps of a script, with a log of at most this many commits.
    Simulate { limit: u32 },
    /// Serve the subscribers of a sharding.
    Serve(Service),
    /// Publish commits as commands arrive.
    Publish(Feed<'a>),
}

impl Request<'_> {
    ghost use Rattle.std.specs.Prelude.{◌≡◌, true, false};
    ghost use Rattle.cli.specs.Requests.{CanServe};

    /// Whether subscribers have to be served.
    pub fn needs_sockets(&self) -> bool
        ensures yes { result ≡ true → CanServe false self.now → ⊥ }
        ensures no { result ≡ false → CanServe false self.now }
    {
        matches!(self, Request::Serve(_) | Request::Publish(_))
    }
}

/// What the arguments of `eval` request.
fn eval_request<'a>(eval: &ArgMatches<'a>) -> Option<Request<'a>>
    ensures some { IfSome result (IsEval (rows_of (found_of eval.now))) }
    ensures none { result ≡ None → first_of (codes "TABLE") (rows_of (found_of eval.now)) ≡ None }
{
    let table = eval.get_str("TABLE")?;
    let wanted = if eval.get_flag("insert") {
        RowOutput::Insert
    } else {
        RowOutput::Answers
    };
    Some(Request::Eval { table, wanted })
}

/// What the arguments of `check` request.
fn check_request<'a>(check: &ArgMatches<'a>) -> Request<'a>
    ensures { IsCheck (rows_of (found_of check.now)) result }
{
    Request::Check {
        shows: check.get_flag("show"),
    }
}

/// The most commits that a log may take.
pub(crate) const MAX_LIMIT: u32 = 1_000_000_000;

/// How many commits a log takes by default.
const LIMIT: u32 = 1_000_000;

/// The number of commits that a word spells, if a log may take that many.
fn read_limit(word: &str) -> Option<u32>
    ensures some { IfSome result (spec.SpellsLimit word.now) }
    ensures none { result ≡ None → (limit : ℕ) → spec.SpellsLimit word.now limit → ⊥ }
{
    match word.parse::<u32>() {
        Ok(limit) if 1 <= limit && limit <= MAX_LIMIT => Some(limit),
        _ => None,
    }
}

/// The most commits that the log takes, if the word can be read; the default if there is no word.
fn limit_by(word: Option<&str>) -> Option<u32>
    ensures some { IfSome result (IsLimit (option_map (λ word. word.now) word.entry)) }
    ensures none { result ≡ None → (limit : ℕ) → IsLimit (option_map (λ word. word.now) word.entry) limit → ⊥ }
{
    match word {
        Some(word) => read_limit(word),
        None => Some(LIMIT),
    }
}

/// What the arguments of `simulate` request.
fn simulate_request<'a>(simulate: &ArgMatches<'a>) -> Option<Request<'a>>
    ensures some { IfSome result (IsSimulate (rows_of (found_of simulate.now))) }
    ensures none { result ≡ None → (limit : ℕ) → HasLimit (rows_of (found_of simulate.now)) limit → ⊥ }
{
    let limit = limit_by(simulate.get_str("limit"))?;
    Some(Request::Simulate { limit })
}

/// The port that the word spells, if it spells one of 1 to 65,535.
fn port_by(word: Option<&str>) -> Option<u16>
    ensures some { IfSome result (IsPort (option_map (λ word. word.now) word.entry)) }
    ensures none { result ≡ None → (port : ℕ) → IsPort (option_map (λ word. word.now) word.entry) port → ⊥ }
{
    match word?.parse::<u16>() {
        Ok(port) if 1 <= port => Some(port),
        _ => None,
    }
}

/// The most connections that may be accepted.
const MOST_CONNECTIONS: usize = 1_000;

/// The number of connections that a word spells, if that many may be accepted.
fn read_count(word: &str) -> Option<usize>
    ensures some { IfSome result (spec.Spells 1000 word.now) }
    ensures none { result ≡ None → (count : ℕ) → spec.Spells 1000 word.now count → ⊥ }
{
    match word.parse::<usize>() {
        Ok(count) if 1 <= count && count <= MOST_CONNECTIONS => Some(count),
        _ => None,
    }
}

/// How many connections are accepted in total, if the word can be read; none if there is no word.
fn connections_by(word: Option<&str>) -> Option<Option<usize>>
    ensures some { IfSome result (AreConnections (option_map (λ word. word.now) word.entry)) }
    ensures none { result ≡ None → (connections : Option ℕ)
        → AreConnections (option_map (λ word. word.now) word.entry) connections → ⊥ }
{
    match word {
        Some(word) => {
            let count = read_count(word)?;
            Some(Some(count))
        }
        None => Some(None),
    }
}

/// What the arguments of `serve` request.
fn service_of<'a>(serve: &ArgMatches<'a>) -> Option<Service>
    ensures some { IfSome result (IsService (rows_of (found_of serve.now))) }
    ensures none { result ≡ None → (service : ServiceType) → IsService (rows_of (found_of serve.now)) service → ⊥ }
{
    let port = port_by(serve.get_str("port"))?;
    let limit = limit_by(serve.get_str("limit"))?;
    let connections = connections_by(serve.get_str("connections"))?;
    Some(Service {
        port,
        limit,
        connections,
    })
}

/// The request to serve by the arguments of `serve`.
fn serve_request<'a>(serve: &ArgMatches<'a>) -> Option<Request<'a>>
    ensures some { IfSome result (IsServe (rows_of (found_of serve.now))) }
    ensures none { result ≡ None → (service : ServiceType) → IsService (rows_of (found_of serve.now)) service → ⊥ }
{
    let service = service_of(serve)?;
    Some(Request::Serve(service))
}

/// The port that the word spells, if it spells one; 0 is any free port.
fn port_or_any_by(word: Option<&str>) -> Option<u16>
    ensures some { IfSome result (IsPortOrAny (option_map (λ word. word.now) word.entry)) }
    ensures none { result ≡ None → (port : ℕ) → IsPortOrAny (option_map (λ word. word.now) word.entry) port → ⊥ }
{
    match word?.parse::<u16>() {
        Ok(port) => Some(port),
        Err(_) => None,
    }
}

/// The port for commands, if the word can be read; none if there is no word.
fn commands_by(word: Option<&str>) -> Option<Option<u16>>
    ensures some { IfSome result (AreCommandsAt (option_map (λ word. word.now) word.entry)) }
    ensures none { result ≡ None → (commands : Option ℕ)
        → AreCommandsAt (option_map (λ word. word.now) word.entry) commands → ⊥ }
{
    match word {
        Some(word) => {
            let port = port_or_any_by(Some(word))?;
            Some(Some(port))
        }
        None => Some(None),
    }
}

/// The most seconds of any timeout.
pub(crate) const MOST_SECONDS: u32 = 86_400;

/// The number of seconds that a word spells, if a timeout may be that long.
fn read_seconds(word: &str) -> Option<u32>
    ensures some { IfSome result (spec.Spells 86400 word.now) }
    ensures none { result ≡ None → (count : ℕ) → spec.Spells 86400 word.now count → ⊥ }
{
    match word.parse::<u32>() {
        Ok(count) if 1 <= count && count <= MOST_SECONDS => Some(count),
        _ => None,
    }
}

/// The seconds of a timeout, if the word can be read; the default if there is no word.
fn seconds_by(word: Option<&str>, otherwise: u32) -> Option<u32>
    ensures some { IfSome result (AreSeconds otherwise (option_map (λ word. word.now) word.entry)) }
    ensures none { result ≡ None → (seconds : ℕ)
        → AreSeconds otherwise (option_map (λ word. word.now) word.entry) seconds → ⊥ }
{
    match word {
        Some(word) => read_seconds(word),
        None => Some(otherwise),
    }
}

/// The format that a word names, if one has this name; text if there is no word.
fn log_by(word: Option<&str>) -> Option<LogFormat>
    ensures some { IfSome result (IsLogFormat (option_map (λ word. word.now) word.entry)) }
    ensures none { result ≡ None → (format : LogFormatType)
        → IsLogFormat (option_map (λ word. word.now) word.entry) format → ⊥ }
{
    let Some(word) = word else {
        return Some(LogFormat::Text);
    };
    if word == "text" {
        return Some(LogFormat::Text);
    }
    if word == "json" {
        return Some(LogFormat::Json);
    }
    None
}

/// What the arguments of `publish` request.
fn feed_of<'a>(publish: &ArgMatches<'a>) -> Option<Feed<'a>>
    ensures some { IfSome result (IsFeed (rows_of (found_of publish.now))) }
    ensures none { result ≡ None → (feed : FeedType) → IsFeed (rows_of (found_of publish.now)) feed → ⊥ }
{
    let port = port_or_any_by(publish.get_str("port"))?;
    let port_file = publish.get_str("port-file");
    let commands = commands_by(publish.get_str("commands"))?;
    let limit = limit_by(publish.get_str("limit"))?;
    let start_timeout = seconds_by(publish.get_str("start-timeout"), 10)?;
    let write_timeout = seconds_by(publish.get_str("write-timeout"), 60)?;
    let keepalive = seconds_by(publish.get_str("keepalive"), 10)?;
    let timeout = seconds_by(publish.get_str("timeout"), 60)?;
    let log = log_by(publish.get_str("log"))?;
    Some(Feed {
        port,
        port_file,
        commands,
        limit,
        start_timeout,
        write_timeout,
        keepalive,
        timeout,
        log,
    })
}

/// The request to publish by the arguments of `publish`.
fn publish_request<'a>(publish: &ArgMatches<'a>) -> Option<Request<'a>>
    ensures some { IfSome result (IsPublish (rows_of (found_of publish.now))) }
    ensures none { result ≡ None → (feed : FeedType) → IsFeed (rows_of (found_of publish.now)) feed → ⊥ }
{
    let feed = feed_of(publish)?;
    Some(Request::Publish(feed))
}

/// What the subcommand that the arguments name requests.
pub fn request_of<'a>(matches: &ArgMatches<'a>) -> Option<Request<'a>>
    ensures some { IfSome result (IsSubcommand (subcommand_rows_of matches.now)) }
    ensures none { result ≡ None → (request : RequestType) → IsSubcommand (subcommand_rows_of matches.now) request → ⊥ }
{
    if let Some(eval) = matches.subcommand_matches("eval") {
        return eval_request(eval);
    }
    if matches.subcommand_matches("show").is_some() {
        return Some(Request::Show);
    }
    if let Some(check) = matches.subcommand_matches("check") {
        return Some(check_request(check));
    }
    if matches.subcommand_matches("make").is_some() {
        return Some(Request::Make);
    }
    if let Some(simulate) = matches.subcommand_matches("simulate") {
        return simulate_request(simulate);
    }
    if let Some(serve) = matches.subcommand_matches("serve") {
        return serve_request(serve);
    }
    if let Some(publish) = matches.subcommand_matches("publish") {
        return publish_request(publish);
    }
    None
}
