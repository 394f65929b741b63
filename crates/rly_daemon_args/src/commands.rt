ghost use Rattle.std.specs.Prelude.{◌≡◌, true};
ghost use Rattle.clap.specs.Words.{App, app_of, new_app, with_subcommand};
ghost use Rattle.rly_daemon_args.specs.HelpersBuilt.{IsBuilt};
ghost use Rattle.rly_daemon_args.specs.CommandLine.{audit_app, format_app, get_app, key_app, network_app, plan_app, play_app};
ghost use Rattle.rly_daemon_args.specs.CommandLine.{put_app, rly_app, rly_top, serve_app, sim_app};

use crate::arguments::{
    at, batch, destination, file_option, flag, gather, limit, number, paths, payload, with_arg,
    with_bare_codel, with_option, with_params, with_path, with_sizes,
};
use clap::Command;
use std::alloc::{AllocError, Global};

/// Notes in the help of `sim` and `play`.
const LINES: &str = "Each line of standard input is one command, and gets one reply line:
  take PEER NUMBER HOP STAMP PAYLOAD [LIMIT]
                                       store a datagram that PEER sent under NUMBER (1, 2, 3, ..);
                                       PAYLOAD is hexadecimal, or - for none
  pick HOP NOW                         put the hop's next datagram in flight under the hop's next number;
                                       some may expire or be dropped
  done HOP NUMBER                      the hop acknowledged the numbers up to this one
  fetch HOP NUMBER                     print the payload in flight under this number
  window HOP                           print the first number in flight, and the next one
  show HOP                             print all counters of the hop
Any other line gets `refused 16 line`. STAMP and NOW are microseconds of the hop's link clock, which
runs only while a contact of the hop is open. LIMIT is the maximum wait in the queue, in the same
unit: a pick expires datagrams at the front of the queue that waited longer. 0 or no LIMIT = no limit.";

/// Notes in the help of `format`.
const FORMATTED: &str =
    "Prints `formatted` and the size of the device in bytes: a 64-byte header plus the segments.
The file's content is lost; a device with live datagrams is refused without `--force`.
`--keep-all` is for relays of links that are closed most of the time: CoDel drops nothing that waited for
less than two hours of open contact. Without it CoDel keeps the queues of links that are always open short.
Values out of their limits are refused (`refused 21 badgeometry`) before the file is touched.";

/// Notes in the help of `audit`.
const AUDITED: &str =
    "Prints a line for each hop, one for each peer, the count of accepted commands, and `balance ok`:
for each hop, taken = queued + in flight + dropped + expired + released, and the last numbers of all
peers add up to the datagrams taken. Opens the file for writing to lock it, but writes nothing; with
`--copy` opens it for reading alone. `--made` prints one line: each option that `format` was given, or its default.";

/// Notes in the help of `serve`.
const SERVED: &str =
    "Receives datagrams from the peers of the plan, and sends them to its hops while a contact is open.
A datagram is acknowledged once it is durable on the device. SIGINT or SIGTERM may stop the program
at any moment: no acknowledged datagram is lost, and the next start resumes. After a failed write or
sync of the device it acknowledges nothing more, and exits with status 1.";

/// Notes in the help of `key`.
const KEYED: &str =
    "Prints a new random key: 64 hexadecimal digits and a newline. A plan names the key's file, and both
ends of a link have the same key. Store it in a file that only its user may access (mode 0600): create
it under `umask 077`.";

/// Notes in the help of `plan`.
const PLANNED: &str =
    "Prints the moment, the station, each peer, each hop and each route of the plan. For a hop it prints
whether a contact is open at the moment, until when, and the total open time of its contacts in
microseconds. If a plan is refused, standard error has the location of its first fault.";

/// Notes in the help of `put`.
const PUT: &str =
    "A station whose plan names the folder as a peer takes the files in their order, each once; it need not run yet.
Each payload is at most 8192 bytes. Without `--destination` the plan names the destination of all files, or each
payload begins with the two bytes of its own. Status 0: each file is durable in the folder, or with `--wait` in
the station's custody. 1: a file was refused, or a call failed; standard error has the reason. 3: the wait is over.
A put that is killed is there once or not at all. Sub-folders that are missing are made. At 16384 files that wait
nothing is put.";

/// Notes in the help of `get`.
const GET: &str =
    "A station whose plan names the folder as a hop adds the files. Each is removed once its payload was printed and
flushed: after a kill the last payload may be printed again, and no other. Without `--follow` it prints the files
that are there, and ends with status 0 also if there is none. One `get` at a time uses a folder.";

/// Notes in the help of `network`.
const NETWORK: &str =
    "check PLAN[=DEVICE]..  prints what the plans disagree on, a line for each. With a DEVICE, of its parameters too
check NET              the same for the plans of a network file
write NET DIR          writes for each station of NET its plan, its `rly format` command, its unit's settings and
                       the keys that are missing to DIR/NAME, and the ids of its peers and hops beside NET
draw NET               prints stations, links, contacts and paths in DOT
Status 0: nothing disagrees. 1: something does, and nothing was written; or a file was refused.
A key that is there is never written. Files that stay the same aren't touched.";

/// The help of a folder's path.
const FOLDER: &str = "The folder of a peer or a hop, as the contact plan names it";

/// The help of a plan's path.
const PLAN: &str =
    "The contact plan, a TOML file: peers and hops, their addresses, contacts and routes";

/// The help of the path of a device that exists.
const MADE: &str = "The file of a device made by `format`";

/// The whole command line: its commands, options and help texts.
pub(crate) fn program<'a>(alloc: Global) -> Result<Command<'a>, AllocError>
    ensures { IsBuilt rly_app result }
{
    let with_sim = with_command(Ok(top(alloc)), sim(alloc));
    let with_format = with_command(with_sim, format(alloc));
    let with_play = with_command(with_format, play(alloc));
    let with_audit = with_command(with_play, audit(alloc));
    let with_serve = with_command(with_audit, serve(alloc));
    let with_key = with_command(with_serve, Ok(key(alloc)));
    let with_plan = with_command(with_key, plan(alloc));
    let with_put = with_command(with_plan, put(alloc));
    let with_get = with_command(with_put, get(alloc));
    with_command(with_get, network(alloc))
}

/// The program, without its commands.
fn top<'a>(alloc: Global) -> Command<'a>
    ensures { app_of result ≡ rly_top }
{
    Command::new(alloc, "rly")
        .version("0.1.0")
        .about("A store-and-forward datagram relay with CoDel")
        .subcommand_required(true)
        .arg_required_else_help(true)
}

fn sim<'a>(alloc: Global) -> Result<Command<'a>, AllocError>
    ensures { IsBuilt sim_app result }
{
    let bare = command_with_help(
        alloc,
        "sim",
        "Runs commands from standard input on a store in memory",
        LINES,
    );
    with_params(alloc, Ok(bare))
}

fn format<'a>(alloc: Global) -> Result<Command<'a>, AllocError>
    ensures { IsBuilt format_app result }
{
    let bare = command_with_help(
        alloc,
        "format",
        "Creates or extends a file, and makes a new device in it",
        FORMATTED,
    );
    let with_file = with_path(
        alloc,
        Ok(bare),
        "file",
        "FILE",
        "The file of the device; created if missing, never shortened",
    );
    let with_sizes = with_sizes(alloc, with_file);
    let with_codel = with_bare_codel(alloc, with_sizes);
    let with_payload = with_arg(with_codel, payload(alloc));
    let with_segments = with_option(
        alloc,
        with_payload,
        "segments",
        "4",
        "Segments of the device, 2 to 256",
    );
    let length = number(
        alloc,
        "length",
        "Bytes per segment, below 2147483648; default: the minimum for the other options",
    );
    let with_length = with_arg(with_segments, length);
    let force = flag(
        alloc,
        "force",
        "Format even if datagrams are live; they are lost",
    );
    let with_force = with_arg(with_length, force);
    let keep_all = flag(
        alloc,
        "keep-all",
        "Keep what waits: --target and --interval 3600000000, --maxpacket 65535; without these options",
    );
    let with_keep_all = with_arg(with_force, keep_all);
    let allocate = flag(
        alloc,
        "allocate",
        "Take the device's room on its disk, by zeros over all of it; slow if it is large",
    );
    with_arg(with_keep_all, allocate)
}

fn play<'a>(alloc: Global) -> Result<Command<'a>, AllocError>
    ensures { IsBuilt play_app result }
{
    let bare = command_with_help(
        alloc,
        "play",
        "Runs commands from standard input on the device in a file; replies once durable",
        LINES,
    );
    let with_file = with_path(alloc, Ok(bare), "file", "FILE", MADE);
    with_arg(with_file, batch(alloc))
}

fn audit<'a>(alloc: Global) -> Result<Command<'a>, AllocError>
    ensures { IsBuilt audit_app result }
{
    let bare = command_with_help(
        alloc,
        "audit",
        "Reports the content of the device in a file, without changing it",
        AUDITED,
    );
    let with_file = with_path(alloc, Ok(bare), "file", "FILE", MADE);
    let made = flag(
        alloc,
        "made",
        "Print one line with what the device was made with, and nothing else",
    );
    let with_made = with_arg(with_file, made);
    let copy = flag(
        alloc,
        "copy",
        "The file is a copy: read it without a lock and without write permission",
    );
    with_arg(with_made, copy)
}

fn serve<'a>(alloc: Global) -> Result<Command<'a>, AllocError>
    ensures { IsBuilt serve_app result }
{
    let bare = command_with_help(
        alloc,
        "serve",
        "Relays datagrams between the neighbours of a plan, and stores them in FILE",
        SERVED,
    );
    let with_file = with_path(alloc, Ok(bare), "file", "FILE", MADE);
    let with_plan = with_path(alloc, with_file, "plan", "PLAN", PLAN);
    let with_turns = with_option(
        alloc,
        with_plan,
        "turns",
        "0",
        "Stop after N turns of each worker (a turn waits at most about 10 ms for a packet); 0 = run until stopped",
    );
    let with_report = with_option(
        alloc,
        with_turns,
        "report",
        "0",
        "Seconds between reports on standard output: queues, CoDel, packets, device; 0 = off",
    );
    let with_gather = with_arg(with_report, gather(alloc));
    let events = flag(
        alloc,
        "events",
        "Writes a line on standard output when a hop opens, closes, or has nothing left to send",
    );
    let with_events = with_arg(with_gather, events);
    let renumber = flag(
        alloc,
        "renumber",
        "Serve a plan in which an id names another station than before; what waits for a hop goes to the other one",
    );
    let with_renumber = with_arg(with_events, renumber);
    let patient = flag(
        alloc,
        "patient",
        "Serve although a link can't be opened, and try it again after 5 s to 60 s; another link must be open",
    );
    with_arg(with_renumber, patient)
}

fn key<'a>(alloc: Global) -> Command<'a>
    ensures { app_of result ≡ key_app }
{
    command_with_help(alloc, "key", "Prints a new key for a link", KEYED)
}

fn plan<'a>(alloc: Global) -> Result<Command<'a>, AllocError>
    ensures { IsBuilt plan_app result }
{
    let bare = command_with_help(
        alloc,
        "plan",
        "Prints a plan, with the state of its links at a moment",
        PLANNED,
    );
    let with_file = with_path(alloc, Ok(bare), "plan", "PLAN", PLAN);
    let with_at = with_arg(with_file, at(alloc));
    let device = file_option(
        alloc,
        "device",
        "Say on standard error what CoDel of this device does at each hop with contacts",
    );
    let with_device = with_arg(with_at, device);
    let was = file_option(
        alloc,
        "was",
        "Print what differs from the plan in FILE in place of the plan; status 1 if an id names another station",
    );
    with_arg(with_device, was)
}

fn put<'a>(alloc: Global) -> Result<Command<'a>, AllocError>
    ensures { IsBuilt put_app result }
{
    let bare = command_with_help(
        alloc,
        "put",
        "Put standard input into a folder, for the station that has it as a peer",
        PUT,
    );
    let with_folder = with_path(alloc, Ok(bare), "folder", "FOLDER", FOLDER);
    let lines = flag(
        alloc,
        "lines",
        "Put each line as a file, without its newline; default: all of the input as one file",
    );
    let with_lines = with_arg(with_folder, lines);
    let with_destination = with_arg(with_lines, destination(alloc));
    let with_limit = with_arg(with_destination, limit(alloc));
    let wait = number(
        alloc,
        "wait",
        "Seconds to wait for the station's custody after the last file was put; default: no wait",
    );
    with_arg(with_limit, wait)
}

fn get<'a>(alloc: Global) -> Result<Command<'a>, AllocError>
    ensures { IsBuilt get_app result }
{
    let bare = command_with_help(
        alloc,
        "get",
        "Print the files that came into a folder, and remove them",
        GET,
    );
    let with_folder = with_path(alloc, Ok(bare), "folder", "FOLDER", FOLDER);
    let lines = flag(alloc, "lines", "Print a newline after each payload");
    let with_lines = with_arg(with_folder, lines);
    let raw = flag(
        alloc,
        "raw",
        "Print each payload with the two bytes of its destination; default: without them",
    );
    let with_raw = with_arg(with_lines, raw);
    let count = number(
        alloc,
        "count",
        "Maximum payloads to print; default: no maximum",
    );
    let with_count = with_arg(with_raw, count);
    let follow = flag(
        alloc,
        "follow",
        "Wait for more files, until interrupted or `--count` payloads are printed",
    );
    with_arg(with_count, follow)
}

fn network<'a>(alloc: Global) -> Result<Command<'a>, AllocError>
    ensures { IsBuilt network_app result }
{
    let bare = command_with_help(
        alloc,
        "network",
        "Checks the plans of a network, writes them from one file, or draws it",
        NETWORK,
    );
    let with_act = with_path(
        alloc,
        Ok(bare),
        "act",
        "check|write|draw",
        "What is done with the network",
    );
    let files = paths(
        alloc,
        "files",
        "FILE",
        "Plans, or a network file and a folder",
    );
    let with_files = with_arg(with_act, files);
    let changed = flag(
        alloc,
        "changed",
        "With `write`: print the name of each station that got something new",
    );
    with_arg(with_files, changed)
}

/// A command with its help texts.
fn command_with_help<'a>(
    alloc: Global,
    name: &'a str,
    about: &'a str,
    behind: &'a str,
) -> Command<'a>
    ensures { app_of result ≡ new_app name.now }
{
    Command::new(alloc, name).about(about).after_help(behind)
}

/// Adds a subcommand. `Err`: out of memory.
fn with_command<'a>(
    command: Result<Command<'a>, AllocError>,
    below: Result<Command<'a>, AllocError>,
) -> Result<Command<'a>, AllocError>
    ensures { (app found : App) → IsBuilt app command.entry → IsBuilt found below.entry → found.top.is_plain ≡ true
        → IsBuilt (with_subcommand app found.top) result }
{
    command?.subcommand(below?)
}
