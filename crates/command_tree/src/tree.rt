//! The subcommands and their arguments, as they are described to clap, and the texts of the help.

ghost use Rattle.std.specs.Prelude.{◌≡◌, false, IfOk};
ghost use Rattle.clap.specs.Words.{app_of, rule_of};
ghost use Rattle.clap.specs.declared.builder.command.Command.TheViews.{out-Command};
ghost use Rattle.command_tree.specs.Tree as spec;

use clap::{Arg, ArgAction, Command};
use std::alloc::{AllocError, Global};

const INPUT_HELP: &str =
    "The program reads standard input. Its parts come in this order, separated by lines that are exactly %%:
  make, show       a catalog
  check            a catalog, certificates
  eval             a catalog, rows
  simulate, serve  a catalog, certificates, a script
  publish          a catalog, certificates, commands
A catalog is SQL: CREATE SCHEMA, TABLE, UNIQUE INDEX, PUBLICATION and SUBSCRIPTION, and ALTER TABLE .. REPLICA IDENTITY.

Exit status:
  0  success
  1  a refusal: a row cannot be read or does not fit its table, the sharding is refused,
     or no certificate was found for some table
  2  usage error
  3  the input cannot be read, and a line says why
  4  cannot write the output
  5  out of memory
pgshard serve --help and pgshard publish --help say more.";

const SERVE_HELP: &str =
    "The program reads standard input, whose parts are separated by lines that are exactly %%:
a catalog, the certificates of its tables, one on each line, and a script in which each step is COMMIT.
If the sharding is sound, it listens on 127.0.0.1, prints listening PORT, and accepts the given number of connections.
Each is served as soon as it is accepted, while one session commits the lists of the script, in order. A list that is
refused is skipped. A client speaks the streaming replication protocol without its startup, from START_REPLICATION
on. The slots are the subscriptions of the catalog. A client that loses its connection can reconnect if there are more
connections than subscriptions. When all connections have ended, the program compares what it answered to the session
and sent to the connections with the log, and prints closed COMMITS CONNECTIONS. Standard error has a line for each
subscription that was not sent the whole log.

Exit status:
  0  all connections have ended, and the line closed is printed
  1  the sharding is refused; or the log differs from what was answered and sent, and the line close says how
  2  usage error
  3  the input cannot be read, and a line says why
  4  cannot write the output or use the port, or the listening socket failed
  5  out of memory";

const PUBLISH_HELP: &str =
    "The program reads standard input: a catalog, a line %%, the certificates of its tables, one on each line, a
line %%, and then commands, one on each line. If the sharding is sound, it listens on 127.0.0.1, prints listening PORT,
and answers each line when it has arrived:
  COMMIT [COMMAND, ..];  makes one transaction, and prints commit N, or refused and why
  VIEW;                  prints the number of commits, the publisher's rows, and for each subscription the positions up
                         to which it was sent and has confirmed the log, and whether it is connected
  QUIT;                  ends the input
A line that cannot be read prints script PLACE KIND, and changes nothing. With --commands, the lines come from clients
of that port, one client after another, and the answer to a line goes to its client; the program also prints commands
PORT, and runs until a client sends QUIT;.
Clients are served as by serve, and may connect any number of times. When the input has ended, the clients get what is
left, and have ten seconds to confirm it. Then the program compares what it answered and sent with the log, and prints
closed COMMITS CONNECTIONS. Standard error has a line for each connection that has ended; with --log json, an object
when a connection is accepted, and one when it has ended.

Exit status:
  0  the input and all connections have ended, and the line closed is printed
  1  the sharding is refused; or the log differs from what was answered and sent, and the line close says how
  2  usage error
  3  the catalog or the certificates cannot be read, and a line says why
  4  cannot write the output or use a port
  5  out of memory";

fn eval_command<'a>(alloc: Global) -> Result<Command<'a>, AllocError>
    ensures shape { IfOk result (λ command. app_of command ≡ spec.eval_command) }
    ensures local { IfOk result (λ command. (out-Command command).has_globals ≡ false) }
{
    let table = Arg::new(alloc, "TABLE")
        .help("a table of the schema public, or SCHEMA.TABLE")
        .required(true)
        .action(ArgAction::Set);
    let insert = Arg::new(alloc, "insert")
        .long("insert")
        .help("print the Insert message of each row that some publication carries, in hexadecimal")
        .action(ArgAction::SetTrue);
    Command::new(alloc, "eval")
        .about("reads a catalog and rows, and prints which publications carry each row")
        .arg(table)?
        .arg(insert)
}

fn check_command<'a>(alloc: Global) -> Result<Command<'a>, AllocError>
    ensures shape { IfOk result (λ command. app_of command ≡ spec.check_command) }
    ensures local { IfOk result (λ command. (out-Command command).has_globals ≡ false) }
{
    let show = Arg::new(alloc, "show")
        .long("show")
        .help("print the catalog as it was read, before the verdict")
        .action(ArgAction::SetTrue);
    Command::new(alloc, "check")
        .about(
            "reads a catalog and certificates, and prints whether each row reaches exactly one subscriber",
        )
        .arg(show)
}

fn limit_argument<'a>(alloc: Global) -> Arg<'a>
    ensures rule { rule_of result ≡ spec.limit_rule }
    ensures local { result.global ≡ false }
{
    Arg::new(alloc, "limit")
        .long("limit")
        .value_name("N")
        .help("the most commits that the log takes: 1 to 1000000000 [default: 1000000]")
        .action(ArgAction::Set)
}

fn simulate_command<'a>(alloc: Global) -> Result<Command<'a>, AllocError>
    ensures shape { IfOk result (λ command. app_of command ≡ spec.simulate_command) }
    ensures local { IfOk result (λ command. (out-Command command).has_globals ≡ false) }
{
    let limit = limit_argument(alloc);
    Command::new(alloc, "simulate")
        .about("reads a catalog, certificates and a script, and prints the result of each step")
        .arg(limit)
}

fn port_argument<'a>(alloc: Global, help: &'a str) -> Arg<'a>
    ensures rule { rule_of result ≡ spec.port_rule }
    ensures local { result.global ≡ false }
{
    Arg::new(alloc, "port")
        .long("port")
        .value_name("P")
        .help(help)
        .required(true)
        .action(ArgAction::Set)
}

fn connections_argument<'a>(alloc: Global) -> Arg<'a>
    ensures rule { rule_of result ≡ spec.connections_rule }
    ensures local { result.global ≡ false }
{
    Arg::new(alloc, "connections")
        .long("connections")
        .value_name("N")
        .help(
            "how many connections are accepted in total: 1 to 1000 [default: one for each subscription]",
        )
        .action(ArgAction::Set)
}

fn serve_command<'a>(alloc: Global) -> Result<Command<'a>, AllocError>
    ensures shape { IfOk result (λ command. app_of command ≡ spec.serve_command) }
    ensures local { IfOk result (λ command. (out-Command command).has_globals ≡ false) }
{
    let port = port_argument(alloc, "the port of 127.0.0.1 to listen on: 1 to 65535");
    let limit = limit_argument(alloc);
    let connections = connections_argument(alloc);
    Command::new(alloc, "serve")
        .about("reads a catalog, certificates and a script, and serves subscribers over sockets")
        .after_help(SERVE_HELP)
        .arg(port)?
        .arg(limit)?
        .arg(connections)
}

fn port_file_argument<'a>(alloc: Global) -> Arg<'a>
    ensures rule { rule_of result ≡ spec.port_file_rule }
    ensures local { result.global ≡ false }
{
    Arg::new(alloc, "port-file")
        .long("port-file")
        .value_name("FILE")
        .help("writes the port to FILE, and that of --commands to its second line")
        .action(ArgAction::Set)
}

fn commands_argument<'a>(alloc: Global) -> Arg<'a>
    ensures rule { rule_of result ≡ spec.commands_rule }
    ensures local { result.global ≡ false }
{
    Arg::new(alloc, "commands")
        .long("commands")
        .value_name("PORT")
        .help(
            "reads commands from clients of this port of 127.0.0.1 instead: 1 to 65535, or 0 for any free one",
        )
        .action(ArgAction::Set)
}

fn start_timeout_argument<'a>(alloc: Global) -> Arg<'a>
    ensures rule { rule_of result ≡ spec.start_timeout_rule }
    ensures local { result.global ≡ false }
{
    Arg::new(alloc, "start-timeout")
        .long("start-timeout")
        .value_name("SECONDS")
        .help("ends a connection that starts no stream within this time: 1 to 86400 [default: 10]")
        .action(ArgAction::Set)
}

fn write_timeout_argument<'a>(alloc: Global) -> Arg<'a>
    ensures rule { rule_of result ≡ spec.write_timeout_rule }
    ensures local { result.global ≡ false }
{
    Arg::new(alloc, "write-timeout")
        .long("write-timeout")
        .value_name("SECONDS")
        .help(
            "ends a connection whose client takes no byte for this time: 1 to 86400 [default: 60]",
        )
        .action(ArgAction::Set)
}

fn keepalive_argument<'a>(alloc: Global) -> Arg<'a>
    ensures rule { rule_of result ≡ spec.keepalive_rule }
    ensures local { result.global ≡ false }
{
    Arg::new(alloc, "keepalive")
        .long("keepalive")
        .value_name("SECONDS")
        .help("the time between keepalives to each client: 1 to 86400 [default: 10]")
        .action(ArgAction::Set)
}

fn timeout_argument<'a>(alloc: Global) -> Arg<'a>
    ensures rule { rule_of result ≡ spec.timeout_rule }
    ensures local { result.global ≡ false }
{
    Arg::new(alloc, "timeout")
        .long("timeout")
        .value_name("SECONDS")
        .help("ends a stream whose client sends nothing for this time: 1 to 86400 [default: 60]")
        .action(ArgAction::Set)
}

fn log_argument<'a>(alloc: Global) -> Arg<'a>
    ensures rule { rule_of result ≡ spec.log_rule }
    ensures local { result.global ≡ false }
{
    Arg::new(alloc, "log")
        .long("log")
        .value_name("FORMAT")
        .help("how standard error reports connections: text or json [default: text]")
        .action(ArgAction::Set)
}

fn publish_command<'a>(alloc: Global) -> Result<Command<'a>, AllocError>
    ensures shape { IfOk result (λ command. app_of command ≡ spec.publish_command) }
    ensures local { IfOk result (λ command. (out-Command command).has_globals ≡ false) }
{
    let port = port_argument(
        alloc,
        "the port of 127.0.0.1 to listen on: 1 to 65535, or 0 for any free one",
    );
    let with_port = Command::new(alloc, "publish")
        .about(
            "serves subscribers over sockets, while it reads commands and commits them one after another",
        )
        .after_help(PUBLISH_HELP)
        .arg(port)?;
    let port_file = port_file_argument(alloc);
    let with_port_file = with_port.arg(port_file)?;
    let commands = commands_argument(alloc);
    let with_commands = with_port_file.arg(commands)?;
    let limit = limit_argument(alloc);
    let with_limit = with_commands.arg(limit)?;
    let start_timeout = start_timeout_argument(alloc);
    let with_start_timeout = with_limit.arg(start_timeout)?;
    let write_timeout = write_timeout_argument(alloc);
    let with_write_timeout = with_start_timeout.arg(write_timeout)?;
    let keepalive = keepalive_argument(alloc);
    let with_keepalive = with_write_timeout.arg(keepalive)?;
    let timeout = timeout_argument(alloc);
    let with_timeout = with_keepalive.arg(timeout)?;
    let log = log_argument(alloc);
    with_timeout.arg(log)
}

/// The program and its subcommands.
pub fn command<'a>(alloc: Global) -> Result<Command<'a>, AllocError>
    ensures { IfOk result (λ command. app_of command ≡ spec.pgshard) }
{
    let eval = eval_command(alloc)?;
    let simulate = simulate_command(alloc)?;
    let serve = serve_command(alloc)?;
    let publish = publish_command(alloc)?;
    let check = check_command(alloc)?;
    let show = Command::new(alloc, "show").about(
        "reads a catalog, and prints it as SQL, as it was read",
    );
    let make = Command::new(alloc, "make").about(
        "reads a catalog, and prints for each table a certificate, or a row that shows the fault",
    );
    Command::new(alloc, "pgshard")
        .about(
            "pgshard 0.4.0 checks whether publications send each row of a table to exactly one subscriber",
        )
        .version("0.4.0")
        .propagate_version(true)
        .after_help(INPUT_HELP)
        .subcommand_required(true)
        .subcommand(eval)?
        .subcommand(show)?
        .subcommand(check)?
        .subcommand(make)?
        .subcommand(simulate)?
        .subcommand(serve)?
        .subcommand(publish)
}
