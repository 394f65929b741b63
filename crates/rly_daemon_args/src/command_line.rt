ghost use Rattle.std.specs.Prelude.{◌≡◌, ◌≢◌, [], IfErr, IfOk, IfSome, None, OnOk, Some, codes, is_some, map, option_map};
ghost use Rattle.clap.specs.declared.error.kind.ErrorKind.TheVariants as kind;
ghost use Rattle.clap.specs.Words.{first_of, found_of, one_of, rows_of, subcommand_rows_of};
ghost use Rattle.rly_daemon_args.specs.CommandLine.{HasFlag, HasKept, HasNoCodel, HasNumber, HasParams, IsGiven};
ghost use Rattle.rly_daemon_args.specs.CommandLine.{IsSettings, IsTrueFault, ReadsNumber, asked_of, kept_all, kinds_at, path_in};

use crate::commands::program;
use crate::given::{Settings, SettingsFault};
use clap::error::ErrorKind;
use clap::{ArgMatches, Command};
use rly_core::{Params, limits};
use std::alloc::Global;

/// The default number of segments of a device.
const DEFAULT_SEGMENTS: u64 = 4;

/// The default number of lines per round.
const DEFAULT_BATCH: u64 = 1;

/// The default number of turns of each worker: 0, run until stopped.
const DEFAULT_TURNS: u64 = 0;

/// The default number of seconds between two reports: 0, off.
const DEFAULT_REPORT: u64 = 0;

/// The default number of milliseconds for which a round waits for more calls: 0, not at all.
const DEFAULT_GATHER: u64 = 0;

/// Parses a command line, the program's name first. Faults are a value that is no `u64`, a batch, a moment, a wait of a
/// round or a destination out of its limits, an unknown or a repeated option, `--keep-all` beside an option that it
/// sets, a missing command, file or folder, and for `network` another act or number of files; all other limits are
/// checked later.
pub fn settings<'a>(alloc: Global, words: &'a [&'a str]) -> Result<Settings<'a>, SettingsFault>
    // Each name, number and file is that of clap's matches, or the default.
    ensures asked { IfOk result (λ settings. IsSettings (asked_of (map (λ s. s.now) words.now)) settings) }
    // A request for help or the version returns `Asked`, and any other fault `CommandLine`.
    ensures told { IfErr result (λ fault. IsTrueFault (map (λ s. s.now) words.now) fault) }
    // Words that clap refuses are never accepted.
    ensures right { OnOk result (kinds_at (map (λ s. s.now) words.now) ≡ []) }
{
    let mut command: Command<'a> = program(alloc)?;
    let matches = command.try_get_matches_from_mut(words)?;
    match settings_of(&matches, words) {
        Some(settings) => Ok(settings),
        None => {
            let (kind, reason) = fault_of(&matches);
            let error = command.error(kind, reason)?;
            Err(SettingsFault::CommandLine(error))
        }
    }
}

/// The settings of the matched command.
fn settings_of<'a>(matches: &ArgMatches<'a>, words: &'a [&'a str]) -> Option<Settings<'a>>
    ensures { IfSome result (λ settings. IsSettings (subcommand_rows_of matches.now) settings) }
{
    if let Some(options) = options_of(matches, "sim") {
        return Some(Settings::Sim {
            params: params_of(options),
        });
    }
    if let Some(options) = options_of(matches, "format") {
        return Some(Settings::Format {
            file: path_of(options, "file"),
            params: kept_params_of(options)?,
            segments: number_of(options, "segments", DEFAULT_SEGMENTS),
            length: given_number(options, "length"),
            force: has_flag(options, "force"),
            allocate: has_flag(options, "allocate"),
        });
    }
    if let Some(options) = options_of(matches, "play") {
        return Some(Settings::Play {
            file: path_of(options, "file"),
            batch: number_of(options, "batch", DEFAULT_BATCH),
        });
    }
    if let Some(options) = options_of(matches, "audit") {
        return Some(Settings::Audit {
            file: path_of(options, "file"),
            made: has_flag(options, "made"),
            copy: has_flag(options, "copy"),
        });
    }
    if options_of(matches, "key").is_some() {
        return Some(Settings::Key);
    }
    if let Some(options) = options_of(matches, "plan") {
        return Some(Settings::Plan {
            plan: path_of(options, "plan"),
            at: given_number(options, "at"),
            device: given_path(options, "device"),
            was: given_path(options, "was"),
        });
    }
    if let Some(settings) = folder_settings_of(matches) {
        return Some(settings);
    }
    if let Some(options) = options_of(matches, "network") {
        return network_settings_of(options, words);
    }
    let options = options_of(matches, "serve")?;
    Some(Settings::Serve {
        file: path_of(options, "file"),
        plan: path_of(options, "plan"),
        turns: number_of(options, "turns", DEFAULT_TURNS),
        report: number_of(options, "report", DEFAULT_REPORT),
        gather: number_of(options, "gather", DEFAULT_GATHER),
        events: has_flag(options, "events"),
        renumber: has_flag(options, "renumber"),
        patient: has_flag(options, "patient"),
    })
}

/// The settings of the matched command, if it is one over a folder.
fn folder_settings_of<'a>(matches: &ArgMatches<'a>) -> Option<Settings<'a>>
    ensures { IfSome result (λ settings. IsSettings (subcommand_rows_of matches.now) settings) }
{
    if let Some(options) = options_of(matches, "put") {
        return Some(Settings::Put {
            folder: path_of(options, "folder"),
            lines: has_flag(options, "lines"),
            destination: given_number(options, "destination"),
            limit: given_number(options, "limit"),
            wait: given_number(options, "wait"),
        });
    }
    let options = options_of(matches, "get")?;
    Some(Settings::Get {
        folder: path_of(options, "folder"),
        lines: has_flag(options, "lines"),
        raw: has_flag(options, "raw"),
        count: given_number(options, "count"),
        follow: has_flag(options, "follow"),
    })
}

/// The settings of `network`.
fn network_settings_of<'a>(options: &ArgMatches<'a>, words: &'a [&'a str]) -> Option<Settings<'a>>
    ensures { IfSome result (λ settings.
        IsSettings (Some (codes "network", rows_of (found_of options.now))) settings) }
{
    let files = options.get_strs("files")?;
    let changed = has_flag(options, "changed");
    match (path_of(options, "act"), files, changed) {
        ("check", _, false) => Some(Settings::NetworkCheck {
            names: last_words(words, files)?,
        }),
        ("write", [file, folder], _) => Some(Settings::NetworkWrite {
            file: *file,
            folder: *folder,
            changed,
        }),
        ("draw", [file], false) => Some(Settings::NetworkDraw { file: *file }),
        _ => None,
    }
}

/// The last words, if they are these.
fn last_words<'a>(words: &'a [&'a str], wanted: &[&'a str]) -> Option<&'a [&'a str]>
    ensures { IfSome result (λ last. map (λ s. s.now) last.now ≡ map (λ s. s.now) wanted.now) }
{
    let from = words.len().checked_sub(wanted.len())?;
    let last = &words[from..];
    if last == wanted { Some(last) } else { None }
}

/// The options of a command, if it is the matched one.
fn options_of<'b, 'a>(matches: &'b ArgMatches<'a>, name: &str) -> Option<&'b ArgMatches<'a>>
    ensures { IfSome result
        (λ options. subcommand_rows_of matches.now ≡ Some (name.now, rows_of (found_of options.now))) }
{
    matches.subcommand_matches(name)
}

/// The path argument of this name.
fn path_of<'a>(options: &ArgMatches<'a>, name: &str) -> &'a str
    ensures { result.now ≡ path_in name.now (rows_of (found_of options.now)) }
{
    options.get_str(name).unwrap_or("")
}

/// The number of an option, or its default.
fn number_of(options: &ArgMatches<'_>, name: &str, default: u64) -> u64
    ensures { HasNumber (rows_of (found_of options.now)) name.now default result }
{
    given_number(options, name).unwrap_or(default)
}

/// The number of an option.
fn given_number(options: &ArgMatches<'_>, name: &str) -> Option<u64>
    ensures { ReadsNumber (one_of name.now (rows_of (found_of options.now))) result }
{
    options.get_one::<u64>(name)
}

/// Whether an option without a value is given.
fn has_flag(options: &ArgMatches<'_>, name: &str) -> bool
    ensures { HasFlag (rows_of (found_of options.now)) name.now result }
{
    options.get_flag(name)
}

/// The reason why the words give no settings: no command, or options that can't be given together.
fn fault_of(matches: &ArgMatches<'_>) -> (ErrorKind, &'static str)
    ensures { result.0 ≢ kind.DisplayHelp × result.0 ≢ kind.DisplayVersion }
{
    if let Some(options) = options_of(matches, "network") {
        return network_fault_of(path_of(options, "act"), has_flag(options, "changed"));
    }
    match options_of(matches, "format").and_then(codel_option_of) {
        Some(option) => (ErrorKind::ArgumentConflict, clash_text(option)),
        None => (ErrorKind::MissingSubcommand, "no command is given"),
    }
}

/// The reason why the words of `network` give no settings, by its act and whether `--changed` is given.
fn network_fault_of(act: &str, changed: bool) -> (ErrorKind, &'static str)
    ensures { result.0 ≢ kind.DisplayHelp × result.0 ≢ kind.DisplayVersion }
{
    match (act, changed) {
        ("write", _) => (
            ErrorKind::WrongNumberOfValues,
            "`rly network write` takes a network file and a folder",
        ),
        ("check" | "draw", true) => (
            ErrorKind::ArgumentConflict,
            "--changed is an option of `rly network write` alone",
        ),
        ("check", false) => (
            ErrorKind::WrongNumberOfValues,
            "`rly network check` takes its files as the last words",
        ),
        ("draw", false) => (
            ErrorKind::WrongNumberOfValues,
            "`rly network draw` takes one network file",
        ),
        _ => (
            ErrorKind::InvalidValue,
            "`rly network` is followed by check, write or draw",
        ),
    }
}

/// The reason why `--keep-all` can't be given with an option.
fn clash_text(option: &str) -> &'static str {
    match option {
        "maxpacket" => "--keep-all sets --maxpacket to 65535: leave one of the two out",
        "target" => "--keep-all sets --target to 3600000000: leave one of the two out",
        _ => "--keep-all sets --interval to 3600000000: leave one of the two out",
    }
}

/// The parameters in the options of `format`. With `--keep-all` CoDel drops nothing for two hours, and none of its
/// options may be given.
fn kept_params_of(options: &ArgMatches<'_>) -> Option<Params>
    ensures { IfSome result (λ params. HasKept (rows_of (found_of options.now)) params) }
{
    let params = params_of(options);
    if !has_flag(options, "keep-all") {
        return Some(params);
    }
    match codel_option_of(options) {
        Some(_) => None,
        None => Some(kept_all(&params)),
    }
}

/// The first of CoDel's options that is given.
fn codel_option_of(options: &ArgMatches<'_>) -> Option<&'static str>
    ensures none { result ≡ None → HasNoCodel (rows_of (found_of options.now)) }
    ensures some { IfSome result (λ name. IsGiven (rows_of (found_of options.now)) name.now) }
{
    if is_given(options, "maxpacket") {
        return Some("maxpacket");
    }
    if is_given(options, "target") {
        return Some("target");
    }
    if is_given(options, "interval") {
        return Some("interval");
    }
    None
}

/// Whether an option without a default is given.
fn is_given(options: &ArgMatches<'_>, name: &str) -> bool
    ensures { result ≡ is_some (first_of name.now (rows_of (found_of options.now))) }
{
    options.get_str(name).is_some()
}

/// The path of an option.
fn given_path<'a>(options: &ArgMatches<'a>, name: &str) -> Option<&'a str>
    ensures { option_map (λ s. s.now) result ≡ first_of name.now (rows_of (found_of options.now)) }
{
    options.get_str(name)
}

/// The same sizes, and a CoDel that drops nothing that waited for less than two hours of open contact.
fn kept_all(params: &Params) -> Params
    ensures { result ≡ kept_all params.now }
{
    Params {
        maxpacket: limits::MAX_MAXPACKET,
        target: limits::MAX_INTERVAL,
        interval: limits::MAX_INTERVAL,
        ..*params
    }
}

/// The parameters in the options.
fn params_of(options: &ArgMatches<'_>) -> Params
    ensures { HasParams (rows_of (found_of options.now)) result }
{
    let default = Params::DEFAULT;
    Params {
        hops: number_of(options, "hops", default.hops),
        peers: number_of(options, "peers", default.peers),
        window: number_of(options, "window", default.window),
        items: number_of(options, "items", default.items),
        bytes: number_of(options, "bytes", default.bytes),
        maxpacket: number_of(options, "maxpacket", default.maxpacket),
        target: number_of(options, "target", default.target),
        interval: number_of(options, "interval", default.interval),
        payload: number_of(options, "payload", default.payload),
    }
}
