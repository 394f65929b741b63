ghost use Rattle.std.specs.Prelude.{◌≡◌, false};
ghost use Rattle.clap.specs.Words.{App, Rule, rule_of, with_rule};
ghost use Rattle.rly_daemon_args.specs.HelpersBuilt.{IsBuilt};
ghost use Rattle.rly_daemon_args.specs.CommandLine.{at_rule, batch_rule, destination_rule, file_rule, flag_rule, gather_rule};
ghost use Rattle.rly_daemon_args.specs.CommandLine.{limit_rule, number_rule, option_rule, path_rule, paths_rule, payload_rule};
ghost use Rattle.rly_daemon_args.specs.CommandLine.{with_bare_codel_rules, with_codel_rules, with_param_rules, with_size_rules};

use clap::{Arg, ArgAction, Command, value_parser};
use rly_core::limits;
use std::alloc::{AllocError, Global};

/// Maximum number of lines per round.
const MAX_BATCH: i64 = limits::MAX_ROUND as i64;

/// The longest wait of a round for more calls, in milliseconds.
const MAX_GATHER: i64 = 60_000;

/// The last moment of a plan, in microseconds since the Unix epoch.
const LAST_MOMENT: i64 = limits::MOMENT_LIMIT as i64 - 1;

/// The greatest number of a station.
const LAST_STATION: i64 = 65_535;

/// The longest age limit, in milliseconds: in microseconds it is below 2^40.
const LONGEST_LIMIT: i64 = 1_099_511_627;

/// Adds an argument to a command. `Err`: out of memory.
pub(crate) fn with_arg<'a>(
    command: Result<Command<'a>, AllocError>,
    arg: Arg<'a>,
) -> Result<Command<'a>, AllocError>
    requires { arg.global ≡ false }
    ensures { (app : App) (rule : Rule) → IsBuilt app command.entry → rule_of arg.entry ≡ rule
        → IsBuilt (with_rule app rule) result }
{
    command?.arg(arg)
}

/// Adds an option with a number and a default.
pub(crate) fn with_option<'a>(
    alloc: Global,
    command: Result<Command<'a>, AllocError>,
    name: &'a str,
    default: &'a str,
    help: &'a str,
) -> Result<Command<'a>, AllocError>
    ensures { (app : App) → IsBuilt app command.entry
        → IsBuilt (with_rule app (option_rule name.now default.now)) result }
{
    with_arg(command, option(alloc, name, default, help))
}

/// Adds a path argument.
pub(crate) fn with_path<'a>(
    alloc: Global,
    command: Result<Command<'a>, AllocError>,
    name: &'a str,
    value_name: &'a str,
    help: &'a str,
) -> Result<Command<'a>, AllocError>
    ensures { (app : App) → IsBuilt app command.entry → IsBuilt (with_rule app (path_rule name.now)) result }
{
    with_arg(command, path(alloc, name, value_name, help))
}

/// Adds the options for the parameters of a spool.
pub(crate) fn with_params<'a>(
    alloc: Global,
    command: Result<Command<'a>, AllocError>,
) -> Result<Command<'a>, AllocError>
    ensures { (app : App) → IsBuilt app command.entry → IsBuilt (with_param_rules app) result }
{
    let with_sizes = with_sizes(alloc, command);
    let with_codel = with_codel(alloc, with_sizes);
    with_arg(with_codel, payload(alloc))
}

/// Adds the options for the sizes of a spool.
pub(crate) fn with_sizes<'a>(
    alloc: Global,
    command: Result<Command<'a>, AllocError>,
) -> Result<Command<'a>, AllocError>
    ensures { (app : App) → IsBuilt app command.entry → IsBuilt (with_size_rules app) result }
{
    let with_hops = with_option(alloc, command, "hops", "4", "Next hops, 1 to 64");
    let with_peers = with_option(
        alloc,
        with_hops,
        "peers",
        "4",
        "Upstream neighbours, 1 to 64",
    );
    let with_window = with_option(
        alloc,
        with_peers,
        "window",
        "8",
        "Maximum datagrams in flight per hop, 1 to 64",
    );
    let with_items = with_option(
        alloc,
        with_window,
        "items",
        "1024",
        "Maximum live datagrams (waiting or in flight), 1 to 16384",
    );
    with_option(
        alloc,
        with_items,
        "bytes",
        "1048576",
        "Maximum live payload bytes, 1 to 16777216",
    )
}

/// Adds the options for CoDel.
fn with_codel<'a>(
    alloc: Global,
    command: Result<Command<'a>, AllocError>,
) -> Result<Command<'a>, AllocError>
    ensures { (app : App) → IsBuilt app command.entry → IsBuilt (with_codel_rules app) result }
{
    let with_maxpacket = with_option(
        alloc,
        command,
        "maxpacket",
        "1500",
        "CoDel drops nothing while at most this many payload bytes are queued behind a datagram, 0 to 65535",
    );
    let with_target = with_option(
        alloc,
        with_maxpacket,
        "target",
        "5000",
        "CoDel's target queueing delay in microseconds, 1 to the interval",
    );
    with_option(
        alloc,
        with_target,
        "interval",
        "100000",
        "CoDel's interval in microseconds, 1 to 3600000000",
    )
}

/// Adds the options for CoDel without a default of the parser, which would hide whether one is given.
pub(crate) fn with_bare_codel<'a>(
    alloc: Global,
    command: Result<Command<'a>, AllocError>,
) -> Result<Command<'a>, AllocError>
    ensures { (app : App) → IsBuilt app command.entry → IsBuilt (with_bare_codel_rules app) result }
{
    let maxpacket = number(
        alloc,
        "maxpacket",
        "CoDel drops nothing while at most this many payload bytes are queued behind a datagram, 0 to 65535 [default: 1500]",
    );
    let with_maxpacket = with_arg(command, maxpacket);
    let target = number(
        alloc,
        "target",
        "CoDel's target queueing delay in microseconds, 1 to the interval [default: 5000]",
    );
    let with_target = with_arg(with_maxpacket, target);
    let interval = number(
        alloc,
        "interval",
        "CoDel's interval in microseconds, 1 to 3600000000 [default: 100000]",
    );
    with_arg(with_target, interval)
}

/// The option for the longest payload.
pub(crate) fn payload<'a>(alloc: Global) -> Arg<'a>
    ensures rule { rule_of result ≡ payload_rule }
    ensures own { result.global ≡ false }
{
    option(
        alloc,
        "payload",
        "1200",
        "Longest payload of a datagram in bytes, 1 to 8192",
    )
}

/// An option without a value.
pub(crate) fn flag<'a>(alloc: Global, name: &'a str, help: &'a str) -> Arg<'a>
    ensures rule { rule_of result ≡ flag_rule name.now }
    ensures own { result.global ≡ false }
{
    Arg::new(alloc, name)
        .long(name)
        .action(ArgAction::SetTrue)
        .help(help)
}

/// A path argument.
fn path<'a>(alloc: Global, name: &'a str, value_name: &'a str, help: &'a str) -> Arg<'a>
    ensures rule { rule_of result ≡ path_rule name.now }
    ensures own { result.global ≡ false }
{
    Arg::new(alloc, name)
        .value_name(value_name)
        .required(true)
        .action(ArgAction::Set)
        .help(help)
}

/// An argument of one path or more.
pub(crate) fn paths<'a>(alloc: Global, name: &'a str, value_name: &'a str, help: &'a str) -> Arg<'a>
    ensures rule { rule_of result ≡ paths_rule name.now }
    ensures own { result.global ≡ false }
{
    Arg::new(alloc, name)
        .value_name(value_name)
        .required(true)
        .action(ArgAction::Append)
        .help(help)
}

/// An option with the path of a file.
pub(crate) fn file_option<'a>(alloc: Global, name: &'a str, help: &'a str) -> Arg<'a>
    ensures rule { rule_of result ≡ file_rule name.now }
    ensures own { result.global ≡ false }
{
    Arg::new(alloc, name)
        .long(name)
        .value_name("FILE")
        .action(ArgAction::Set)
        .help(help)
}

/// The option for the number of lines per round.
pub(crate) fn batch<'a>(alloc: Global) -> Arg<'a>
    ensures rule { rule_of result ≡ batch_rule }
    ensures own { result.global ≡ false }
{
    option(
        alloc,
        "batch",
        "1",
        "Lines per round (synced and answered together), 1 to 64",
    )
    .value_parser(value_parser!(u64).range(1..=MAX_BATCH))
}

/// The option for the wait of a round for more calls.
pub(crate) fn gather<'a>(alloc: Global) -> Arg<'a>
    ensures rule { rule_of result ≡ gather_rule }
    ensures own { result.global ≡ false }
{
    option(
        alloc,
        "gather",
        "0",
        "Milliseconds for which a round that writes waits for more calls to share its syncs, 0 to 60000",
    )
    .value_parser(value_parser!(u64).range(0..=MAX_GATHER))
}

/// The option for the moment at which a plan is shown.
pub(crate) fn at<'a>(alloc: Global) -> Arg<'a>
    ensures rule { rule_of result ≡ at_rule }
    ensures own { result.global ≡ false }
{
    number(
        alloc,
        "at",
        "Moment in microseconds since the Unix epoch, 0 to 4503599627370495; default: now",
    )
    .value_parser(value_parser!(u64).range(0..=LAST_MOMENT))
}

/// The option for the destination of a file.
pub(crate) fn destination<'a>(alloc: Global) -> Arg<'a>
    ensures rule { rule_of result ≡ destination_rule }
    ensures own { result.global ≡ false }
{
    number(
        alloc,
        "destination",
        "Destination of each payload, a station, 1 to 65535: its two bytes are put before the payload",
    )
    .value_parser(value_parser!(u64).range(1..=LAST_STATION))
}

/// The option for the age limit of a file.
pub(crate) fn limit<'a>(alloc: Global) -> Arg<'a>
    ensures rule { rule_of result ≡ limit_rule }
    ensures own { result.global ≡ false }
{
    number(
        alloc,
        "limit",
        "Age limit of each payload in milliseconds, 1 to 1099511627; default: that of the station's plan",
    )
    .value_parser(value_parser!(u64).range(1..=LONGEST_LIMIT))
}

/// An option with a number and a default.
fn option<'a>(alloc: Global, name: &'a str, default: &'a str, help: &'a str) -> Arg<'a>
    ensures rule { rule_of result ≡ option_rule name.now default.now }
    ensures own { result.global ≡ false }
{
    number(alloc, name, help).default_value(default)
}

/// An option with a number.
pub(crate) fn number<'a>(alloc: Global, name: &'a str, help: &'a str) -> Arg<'a>
    ensures rule { rule_of result ≡ number_rule name.now }
    ensures own { result.global ≡ false }
{
    Arg::new(alloc, name)
        .long(name)
        .value_name("N")
        .action(ArgAction::Set)
        .value_parser(value_parser!(u64))
        .help(help)
}
