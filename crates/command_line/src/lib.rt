//! The command line of mpimatch: its verbs, each with the names of its files, and `init`; and by how many threads
//! they read texts.
//!
//! `clap` reads the words. `specs/Program.antt` writes the command line down by `clap`'s own
//! builders, so what the words ask for, and the kind of each mistake, is `clap`'s meaning of that
//! command. A verb that comes later is one line in `Verb`, in `verb_of`, in `program_command` and,
//! in `specs/Program.antt`, in `verb_named` and in `program`. Whether the files of a verb are a layout
//! and a manifest or texts stands in the files, and is not asked here.
//!
//! Its tests are rows of `tests/rows/inputs.txt` and cases of `tests/cases/`, which the built program runs.
#![tactic(auto)]

ghost use Rattle.std.specs.Prelude.{◌≡◌, ◌≤◌, [], IfErr, IfOk, IfSome, None, OnOk, Some, codes, false, option_and_then, option_map};
ghost use Rattle.clap.specs.Words.{app_of, fault_of, found_of, new_app, rows_of, rule_of, subcommand_of, subcommand_rows_of};
ghost use Rattle.clap.specs.declared.builder.command.Command.TheViews.{out-Command};
ghost use Rattle.command_line.specs.Program.{Refuses, all_rule, answering, bare, check_app, check_in, calls_app, calls_in, calls_named, cluster_in, cluster_of, csv_rule, explain_app, extent_in, explain_in, file_rule, files_app, files_in, force_rule, form_in, free_rule, from_rule, graph_app, in_form, init_app, init_in, json_rule, layout_rule, wanted_of, wish_in, wish_of, manifest_rule, is_set, option_rule, pair_app, pair_in, pair_of, pieces_app, program, quiet_rule, rank_rule, ranks_rule, report_app, report_in, request_in, request_of, sends_named, sends_rule, several_rule, shown_status_of, telling, text_of, timeline_app, timeline_in, to_rule, told_in, verb_in, verbose_rule, verbosity_in, verbosity_of, texts_of, verb_named, with_calls as and_calls, with_check as and_check, with_explain as and_explain, with_files as and_files, with_graph as and_graph, with_init as and_init, with_pair as and_pair, with_pieces as and_pieces, with_report as and_report, with_timeline as and_timeline};
ghost use Rattle.command_line.specs.Ranks.{rank_in};
ghost use Rattle.command_line.specs.Threads.{thread_count, threads_by, threads_in, threads_rule};
ghost use Rattle.command_line.specs.Windows.{both_of, calls_asked, ends_in, given_moment, given_ranks, moment_in, ranks_in, table_verb, window_by, window_in, window_of};

use clap::builder::ValueParser;
use clap::error::ErrorKind;
use clap::{Arg, ArgAction, ArgMatches, Command};
use dumpi_text::parse_time;
use mpi_model::Sends;
use std::alloc::{AllocError, Global};
use thiserror::Error;

/// How much is printed of a run.
#[derive(Clone, Copy, PartialEq, Eq)]
pub enum Extent {
    /// Long lists are cut.
    Cut,
    /// Lists aren't cut.
    Whole,
}

/// How a table is written.
#[derive(Clone, Copy, PartialEq, Eq)]
pub enum TableForm {
    /// As CSV, with a header.
    Csv,
    /// As a JSON object a line.
    Json,
}

/// What is shown of a run: all of it where nothing is said.
#[derive(Clone, Copy, PartialEq, Eq)]
pub struct Window {
    /// From when on, in nanoseconds from the first readable call of the run.
    pub from: Option<u64>,
    /// Until when.
    pub to: Option<u64>,
    /// The first and the last of its ranks.
    pub ranks: Option<(u32, u32)>,
}

/// How much is said on standard error beside faults.
#[derive(Clone, Copy, Debug, PartialEq, Eq)]
pub enum Verbosity {
    /// Nothing.
    Quiet,
    /// What was found in texts, on one line.
    Brief,
    /// All that was found in texts.
    Verbose,
}

/// What the program is asked to do.
#[derive(Clone, Copy, PartialEq, Eq)]
pub enum Verb {
    /// Say in words what holds up the run, where all ranks stand, and what may make that wrong.
    Explain(Extent),
    /// Print the same facts as one JSON object.
    ExplainJson,
    /// Say in words what is known of one rank.
    ExplainRank(u32),
    /// Draw what holds up the run, and who waits for it, as Graphviz DOT.
    Graph(Extent),
    /// Write what holds up the run as a page, one HTML file.
    Page,
    /// Print the report of a trace.
    Report,
    /// Print the report as one JSON object.
    ReportJson,
    /// Print every call with its partner, a line for each.
    Calls(TableForm),
    /// Print the calls as trace events, for viewers of timelines.
    Timeline(Window),
    /// Run a schedule of posts, takes, shipments, deliveries and restarts, and print the report of
    /// each node.
    Replay,
    /// Make the contents of a report a second time, straight from the rules, and print whether both agree.
    Check,
    /// Print the same as one JSON object.
    CheckJson,
    /// Write what the pieces say together as one packed file, which can be a piece of another run.
    Pack,
}

impl Verb {
    ghost use Rattle.std.specs.Prelude.{◌≡◌};
    ghost use Rattle.command_line.specs.Program.{asked_rank};

    /// The rank that the verb asks for; `None` if it asks for none.
    pub fn asked_rank(self) -> Option<u32>
        ensures { result ≡ asked_rank self }
    {
        match self {
            Verb::ExplainRank(rank) => Some(rank),
            _ => None,
        }
    }
}

/// What `init` is to make of the texts.
#[derive(Clone, Copy)]
pub struct Wanted<'a> {
    /// How sends complete in the layout.
    pub sends: Sends,
    /// The name of the file for the layout.
    pub layout: &'a str,
    /// The name of the file for the manifest.
    pub manifest: &'a str,
    /// Whether files of these names may be overwritten.
    pub force: bool,
    /// Whether what was found is printed as JSON.
    pub json: bool,
}

/// What the words ask for, with the names of files as they spell them.
#[derive(Drop)]
pub enum Asked<'a> {
    /// A verb over a layout and a manifest.
    Pair {
        verb: Verb,
        verbosity: Verbosity,
        layout: &'a str,
        manifest: &'a str,
    },
    /// A verb over its files: a layout and a manifest, or the texts of all ranks.
    Files {
        verb: Verb,
        verbosity: Verbosity,
        files: Vec<&'a str>,
    },
    /// The pieces of a manifest are read by two nodes with two workers each, the nodes exchange what they know, and the
    /// report of each is printed, and whether both say the same.
    Cluster {
        layout: &'a str,
        manifest: &'a str,
    },
    /// A layout and a manifest for the texts of all ranks.
    Init {
        texts: Vec<&'a str>,
        wanted: Wanted<'a>,
    },
}

impl<'a> Asked<'a> {
    ghost use Rattle.std.specs.Prelude.{◌≡◌};
    ghost use Rattle.command_line.specs.Program.{asked_verbosity, request_of};

    /// How much a verb says beside faults. A cluster and `init` say nothing there.
    pub fn verbosity(&self) -> Verbosity
        ensures { result ≡ asked_verbosity (request_of self.now) }
    {
        match self {
            Asked::Pair { verbosity, .. } => *verbosity,
            Asked::Files { verbosity, .. } => *verbosity,
            Asked::Cluster { .. } | Asked::Init { .. } => Verbosity::Quiet,
        }
    }
}

/// What the words ask for, and by how many threads.
#[derive(Drop)]
pub struct CommandLine<'a> {
    /// What the program is asked to do.
    pub asked: Asked<'a>,
    /// By how many threads texts are read, 1 to 1,024, where `--threads` says it: else by one for each processor.
    pub threads: Option<u32>,
}

/// Why the words ask for nothing that can be run.
#[derive(Debug, Drop, Error)]
pub enum CommandFault {
    /// Memory was refused.
    #[error("mpimatch: Memory\n")]
    Memory,
    /// A mistake, or a request for the help or the version: `clap` has the text and the status.
    #[error("{0}")]
    Shown(clap::Error),
    /// The words passed `clap` and ask for nothing: the word for sends is neither `wait` nor `buffer`, a moment is no
    /// number of seconds, ranks are no two numbers, or a table is asked for in both forms. `clap` leaves no others of
    /// that kind.
    #[error("mpimatch: --sends is wait or buffer, --from and --to are seconds such as 1.5, --ranks is such as 2-5, and --csv stands without --json\n")]
    Unread,
}

impl CommandFault {
    ghost use Rattle.command_line.specs.Program.{status_of};

    /// The status with which the program ends: 0 for the help and the version, whose text goes to
    /// standard output, 1 for want of memory, and 2 for a mistake.
    pub fn status(&self) -> u8
        ensures { result ≡ status_of self.now }
    {
        match self {
            CommandFault::Memory => 1,
            CommandFault::Shown(error) => shown_status(error.kind()),
            CommandFault::Unread => 2,
        }
    }
}

/// The status of what `clap` shows: help and the version are no mistake.
fn shown_status(kind: ErrorKind) -> u8
    ensures { result ≡ shown_status_of kind }
{
    match kind {
        ErrorKind::DisplayHelp | ErrorKind::DisplayVersion => 0,
        _ => 2,
    }
}

/// What the words ask for; the first word is the name of the program. [`CommandFault`] comes for a mistake, for the
/// help and the version, whose text it has, and when memory is refused.
pub fn command_of<'a>(alloc: Global, words: &'a [&'a str]) -> Result<CommandLine<'a>, CommandFault>
    ensures asked { IfOk result (λ line. request_in (subcommand_of program (texts_of words.entry.now)) ≡ Some (request_of line.asked)) }
    ensures threads { IfOk result (λ line. line.threads ≡ threads_in (subcommand_of program (texts_of words.entry.now))) }
    ensures taken { OnOk result (fault_of program (texts_of words.entry.now) ≡ []) }
    ensures refused { IfErr result (Refuses (texts_of words.entry.now)) }
{
    let command = match program_command(alloc) {
        Ok(command) => command,
        Err(_) => return Err(CommandFault::Memory),
    };
    let matches = match command.try_get_matches_from(words) {
        Ok(matches) => matches,
        Err(error) if error.kind() == ErrorKind::OutOfMemory => return Err(CommandFault::Memory),
        Err(error) => return Err(CommandFault::Shown(error)),
    };
    match asked_in(alloc, &matches) {
        Ok(Some(asked)) => {
            let threads = threads_of(&matches);
            Ok(CommandLine { asked, threads })
        }
        Ok(None) => Err(CommandFault::Unread),
        Err(_) => Err(CommandFault::Memory),
    }
}

/// What the help of `explain` says below its arguments.
const EXPLAIN_HELP: &str = r#"Example: mpimatch explain layout.json manifest.json

It says whether ranks are stuck, collective calls don't match, or ranks wait for others that give no sign;
then what holds up the run, where all ranks stand, which collective calls not all have entered, and which
messages and receives found no partner, with what they miss one another by; and last what may make that
wrong. Ranks that stand alike share a line. Where a trace tells from where in the program a call was made,
that is said. mpimatch report has all facts of the run, one a line.

With --json it prints the same facts as one JSON object, on one line:
  mpimatch explain --json layout.json manifest.json | jq .roots

With --rank it says of one rank how it stands, what it needs, what holds it up and what it holds up, and
its last ten calls that can be read, with their times and where their messages went.
  mpimatch explain --rank 2 layout.json manifest.json
"#;

/// What the help of `graph` says below its arguments.
const GRAPH_HELP: &str = r#"Example: mpimatch graph layout.json manifest.json | dot -Tsvg >hang.svg

It prints a graph in the language of Graphviz, whose dot draws it: the ranks that wait, and what holds
them up. Ranks that stand alike and need the same share a node. What holds up the run is filled, with a
bold frame where it has ended or gives no sign; a round whose calls don't match is a node with its calls.
A rank needs each rank to which a solid arrow leads, and one of those to which the dashed arrows of a
small point lead.
"#;

/// What the help of `page` says below its arguments.
const PAGE_HELP: &str = r#"Example: mpimatch page layout.json manifest.json >hang.html

It writes one HTML file that a browser opens without a network or a server: what holds up the run, a
picture of who waits for it, and tables that sort and filter: where all ranks stand, which messages and
receives found no partner, and what may make that wrong. It has the facts of explain --json and no others.
"#;

/// What the help of `report` says below its arguments.
const REPORT_HELP: &str =
    r#"It joins the pieces of the trace, in whatever order they come, and prints:
  rank R prefix P STATE        rank R can be read up to place P, and is free, waiting or ended there
                               (beyond: more is known past a gap or a contradiction)
  conflict R PLACE             two pieces tell two things of this place
  pair R:CALL R:CALL           a message and the receive that took it (over: it was too large)
  postponed R:CALL             a message that may be that of a receive whose source is not told
  round COMM:K KIND STANDING   the collective call K on a communicator, and who has entered it
  stuck R call CALL since SECONDS waits WHOM
                               rank R can't go on: it needs this rank, all(..) of these, any(..) of these
  foreign N                    calls on a communicator, or of a rank, that the layout doesn't have
With --json it prints the same as one JSON object, on one line:
  mpimatch report --json layout.json manifest.json | jq .stuck
Call n of a rank has the places 2n, where it was entered, and 2n + 1, where it returned.
R:CALL.PART is what an MPI_Startall starts for place PART of its list, where that isn't 0.
"#;

/// What the help of `calls` says below its arguments.
const CALLS_HELP: &str = r#"Example: mpimatch calls r0.txt r1.txt >calls.csv

It prints a line for each call that can be read, by rank and number: as CSV with a header, or with --json
as a JSON object a line. An MPI_Sendrecv has two lines, its send and its receive, and an MPI_Startall one
for each of its requests. A field that doesn't apply, or that isn't told, is empty, or null:
  rank, call, part             which call; part is the place in the list of an MPI_Startall, else 0
  side                         send or receive, of what makes a message or takes one
  function                     as the text has it
  enter, return                when, in seconds
  object                       the id of the communicator, window or file in the layout
  peer, tag, count, datatype   what the call names: peer is a rank of the trace, of a call with a root the root
  bytes                        how long the message is, where the status of its receive tells it
  request                      the trace's number of the request
  partner_rank, partner_call, partner_part
                               the other end: of a send its receive, of a receive its send
  round                        K of a collective call: the object's round K has it
  completed_by                 the call that completes what was posted
  site                         from where in the program the call was made
A packed piece keeps no names: function is then what the call is, and datatype a number.
"#;

/// What the help of `timeline` says below its arguments.
const TIMELINE_HELP: &str = r#"Example: mpimatch timeline r0.txt r1.txt >run.json

It prints trace events as JSON, which ui.perfetto.dev and chrome://tracing open: a track for each rank, a
slice for each call with what it names, an arrow from each message to its receive, and a mark on the last
call of each stuck rank. A call that didn't return is open to the end of the trace. Times begin with the
first call of the run, as those of mpimatch explain do.

With --from and --to it prints what lies between two moments, with --ranks what these ranks did:
  mpimatch timeline --from 4.2 --to 4.5 --ranks 0-15 layout.json manifest.json >part.json
"#;

/// What the help of `replay` says below its arguments.
const REPLAY_HELP: &str =
    r#"It runs the manifest's schedule step by step and prints, for each node N from 0 on, the line node N
and the report of what that node knows then (mpimatch help report says what its lines mean):
  ["post",WORKER,NODE,PIECE]   a worker puts the segments of a piece into the node's inbox
  ["take",NODE]                the node takes the first segment of its inbox
  ["ship",NODE]                what the node knows becomes the next mail
  ["deliver",MAIL,NODE]        what a mail holds is joined into what the node knows
  ["restart",NODE]             the node forgets what it knows, and its inbox is emptied
Nodes, pieces and mails are numbered from 0, and a worker has a number up to 255.
"nodes" is the number of nodes, 1 where it is absent, and at most 64.
A step that can't be done ends the run with 1 and a line such as V3 EmptyInbox at step K, where K
counts the steps that were run from 0, a post of several segments as several.
"#;

/// What the help of `cluster` says below its arguments.
const CLUSTER_HELP: &str =
    r#"Each piece goes to the node and the worker that it names in the manifest, 0 or 1, or 0 where it
names none:
  {"pieces":[{"rank":0,"first":0,"file":"r0.txt","node":0,"worker":0},
             {"rank":1,"first":0,"file":"r1.txt","node":1,"worker":0}]}
All files are read first. Then two workers of each node go through its texts side by side, the node
joins what its packed files tell, and both nodes send each other what they know over a socket of this
machine. It prints
  node 0                       and the report of what the first node knows then
  node 1                       and that of the second (mpimatch help report says what the lines mean)
  equal yes                    both reports tell the same; or equal no
A text may have 1,073,741,824 bytes. A run that can't be done ends with 1 and a line:
  Y1 Worker                    a thread could not be started
  Y3 Net                       no connection could be made
  W4 Length                    a node knows too much to send, above 67,108,864 bytes
  N1 Rank                      a piece has calls of a rank that the layout doesn't have
"#;

/// What the help of `check` says below its arguments.
const CHECK_HELP: &str =
    r#"It tells whether a report of these pieces can be relied on, without trust in how a report is made:
the pairs are made by one pass over all calls, and by an index that follows the pieces one by one. Each
rank that is named stuck or is let go on is looked at by itself. It prints two lines:
  check pairs P postponed Q equal
                               so many lines pair and postponed has the report, and both ways give the
                               same; or unequal
  check stuck S released R valid
                               S ranks are stuck, each for good, and the R others that wait can go on, one
                               after another; or invalid
It ends with 0 where they say equal and valid, and else with 1. mpimatch is proved to print nothing else:
unequal or invalid is a fault of the program, its proof or the machine.
With --json it prints the four counts, and whether both lines hold, as one JSON object on one line.
Each piece costs a pass over all calls of its rank, so a rank in many pieces takes long.
"#;

/// What the help of `pack` says below its arguments.
const PACK_HELP: &str = r#"Example: mpimatch pack layout.json part.json >part.know

It reads the pieces as report does and writes to standard output what they tell together, in bytes.
A manifest takes such a file as a piece, beside texts and others, but replay can't post it:
  {"pieces":[{"packed":"part.know"},{"rank":1,"first":0,"file":"r1.txt"}]}
So many machines can each pack a part of a trace, the files can be packed again, and one report reads
the last ones. Their order doesn't matter, nor whether a part was packed twice or comes in two files.
Two files one after another are one such file. A file that is refused gives a line such as
  W5 Short at frame 3 of part.know
                               it ends within frame 3, counted from 0: what writes it isn't done
  N1 Rank at frame 0 of part.know
                               it tells of a rank that the layout doesn't have
"#;

/// What the help of `init` says below its arguments.
const INIT_HELP: &str = r#"Example: mpimatch init r0.txt r1.txt

It reads the texts of all ranks and writes two files into the folder in which it runs:
  layout.json      the ranks and the communicators that their calls make (mpimatch help: LAYOUT)
  manifest.json    the texts, each as the piece of one rank from call 0 on (mpimatch help: MANIFEST)
It writes both or none, and over a file that is there only with --force. It prints what it found: ranks,
calls and communicators with their members, and what it left out, by the call that made it.
The first text is that of rank 0, and so on; or the digits at each name's end are the rank, where every
name has some and they are 0 to n-1, each once.
With --json it prints what it found as one JSON object on one line: docs/formats.md has its keys.
A folder stands for the files in it whose names end in .txt.
To get the answer at once, give the texts to explain, graph, page, report, calls, timeline or check in
place of both files.
"#;

/// What the help says below the verbs.
const MORE_HELP: &str =
    r#"To see what is wrong: explain. A picture: graph. A page to look at, and to send: page.
All facts: report. A check of the answer: check.
Each call with its partner, for other programs: calls. The run in time: timeline.
Nodes that exchange what they know: replay, cluster. A trace in parts, on many machines: pack.
A layout and a manifest from texts: init.

Example: mpimatch explain r0.txt r1.txt
Example: mpimatch explain mpimatch-trace/
Example: mpimatch explain layout.json manifest.json

FILE... are a LAYOUT and a MANIFEST, or the texts of all ranks, rank 0 first, of which both are then
made as init makes them, but not written. They are texts where the first one that isn't empty has a line
among its first 4,096 bytes that begins with MPI_, as no line of JSON does. None may come by a pipe.
A folder stands for the files in it whose names end in .txt.

LAYOUT has the ranks and communicators of the run, in one JSON text:
  {"ranks":2,"world":2,"sends":"wait","comms":[{"id":2,"members":[0,1]}]}
world is the id of MPI_COMM_WORLD; sends is wait where a send of standard mode waits for its
receive, and buffer where it does not. A communicator may also have "numbers", by which the calls
of each member name it, where that isn't its id: docs/formats.md says how.

MANIFEST has the text files of the trace, each with its rank and the number of its first call:
  {"pieces":[{"rank":0,"first":0,"file":"r0.txt"},{"rank":1,"first":0,"file":"r1.txt"}]}
and for replay also "nodes" and a "schedule", for cluster a "node" and a "worker" of each piece:
mpimatch help replay and mpimatch help cluster say what they may hold. A file that pack has written
is a piece {"packed":"FILE"}. Calls of a rank are numbered from 0. A file is looked for from the folder
in which mpimatch runs, and then beside the manifest.

It ends with 0 and what the verb prints, with 2 for a mistake in the words, or with 1 and a line on
standard error where an input is refused:
  M1 File PATH      it is missing, unreadable, a folder, or has more than 16,777,216 bytes
  M2 Json in PATH   it is no JSON text in UTF-8
  M3 Shape in PATH  a field is missing, of another kind, or out of its range
  M4 Piece in PATH  the schedule posts a piece that is not listed
  M5 Packed in PATH the schedule posts a packed piece
Other lines name a rule of layouts, or a file and its line: docs/formats.md has them all.
"#;

/// The program's command line, as clap's builders make it.
fn program_command<'a>(alloc: Global) -> Result<Command<'a>, AllocError>
    ensures { IfOk result (λ c. app_of c ≡ program) }
{
    let command = telling_command(alloc)?;
    let command = with_pieces(
        command,
        alloc,
        "replay",
        "Runs a schedule of nodes that exchange what they know, and prints the report of each",
        REPLAY_HELP,
    )?;
    let command = with_pair(
        command,
        alloc,
        "cluster",
        "Reads the pieces of two nodes, which exchange what they know, and prints the report of each",
        CLUSTER_HELP,
    )?;
    let command = with_check(command, alloc)?;
    let command = with_pieces(
        command,
        alloc,
        "pack",
        "Writes what the pieces tell together as bytes, which another run takes as a piece",
        PACK_HELP,
    )?;
    with_init(command, alloc)
}

/// The program with the verbs that say what happened in a run.
fn answering_command<'a>(alloc: Global) -> Result<Command<'a>, AllocError>
    ensures { IfOk result (λ c. app_of c ≡ answering) }
{
    let command = with_explain(bare_command(alloc), alloc)?;
    let command = with_graph(command, alloc)?;
    let command = with_files(
        command,
        alloc,
        "page",
        "Writes what holds up the run as a page for a browser, in one file",
        PAGE_HELP,
    )?;
    with_report(command, alloc)
}

/// The same, with the verbs that say what each call did.
fn telling_command<'a>(alloc: Global) -> Result<Command<'a>, AllocError>
    ensures { IfOk result (λ c. app_of c ≡ telling) }
{
    let command = answering_command(alloc)?;
    let command = with_calls(command, alloc)?;
    with_timeline(command, alloc)
}

/// The program without its verbs.
fn bare_command<'a>(alloc: Global) -> Command<'a>
    ensures { app_of result ≡ bare }
{
    Command::new(alloc, "mpimatch")
        .about("Tells what the trace of an MPI run says of its ranks, after the run")
        .version("0.1.0")
        .after_help(MORE_HELP)
        .subcommand_required(true)
}

/// Adds a verb with a layout and a manifest.
fn with_pair<'a>(
    command: Command<'a>,
    alloc: Global,
    name: &'a str,
    about: &'a str,
    more: &'a str,
) -> Result<Command<'a>, AllocError>
    ensures { IfOk result (λ c. app_of c ≡ and_pair (app_of command.entry) name.now) }
{
    let verb = pair_command(alloc, name, about, more)?;
    command.subcommand(verb)
}

/// Adds a verb that reads the pieces of a layout and a manifest.
fn with_pieces<'a>(
    command: Command<'a>,
    alloc: Global,
    name: &'a str,
    about: &'a str,
    more: &'a str,
) -> Result<Command<'a>, AllocError>
    ensures { IfOk result (λ c. app_of c ≡ and_pieces (app_of command.entry) name.now) }
{
    let verb = pieces_command(alloc, name, about, more)?;
    command.subcommand(verb)
}

/// Adds a verb with its files.
fn with_files<'a>(
    command: Command<'a>,
    alloc: Global,
    name: &'a str,
    about: &'a str,
    more: &'a str,
) -> Result<Command<'a>, AllocError>
    ensures { IfOk result (λ c. app_of c ≡ and_files (app_of command.entry) name.now) }
{
    let verb = files_command(alloc, name, about, more)?;
    command.subcommand(verb)
}

/// Adds `explain`, which has flags.
fn with_explain<'a>(command: Command<'a>, alloc: Global) -> Result<Command<'a>, AllocError>
    ensures { IfOk result (λ c. app_of c ≡ and_explain (app_of command.entry)) }
{
    let explain = explain_command(alloc)?;
    command.subcommand(explain)
}

/// `explain`, over texts or a layout and a manifest: as JSON, with lists that aren't cut, of all ranks or of one.
fn explain_command<'a>(alloc: Global) -> Result<Command<'a>, AllocError>
    ensures shape { IfOk result (λ c. app_of c ≡ explain_app) }
    ensures local { IfOk result (λ c. (out-Command c).has_globals ≡ false) }
{
    let bare = files_command(
        alloc,
        "explain",
        "Says in words what holds up the run, and where its ranks stand",
        EXPLAIN_HELP,
    )?;
    let json = bare.arg(json_argument(alloc, "Prints the same facts as one JSON object"))?;
    let all = json.arg(all_argument(alloc, "Cuts no list"))?;
    all.arg(rank_argument(alloc))
}

/// Adds `graph`, which has a flag.
fn with_graph<'a>(command: Command<'a>, alloc: Global) -> Result<Command<'a>, AllocError>
    ensures { IfOk result (λ c. app_of c ≡ and_graph (app_of command.entry)) }
{
    let graph = graph_command(alloc)?;
    command.subcommand(graph)
}

/// `graph`, over texts or a layout and a manifest, perhaps with all nodes.
fn graph_command<'a>(alloc: Global) -> Result<Command<'a>, AllocError>
    ensures shape { IfOk result (λ c. app_of c ≡ graph_app) }
    ensures local { IfOk result (λ c. (out-Command c).has_globals ≡ false) }
{
    let bare = files_command(
        alloc,
        "graph",
        "Draws what holds up the run, and who waits for it, as a graph for Graphviz",
        GRAPH_HELP,
    )?;
    bare.arg(all_argument(alloc, "Draws all nodes, also more than 200"))
}

/// The flag for all there is.
fn all_argument<'a>(alloc: Global, help: &'a str) -> Arg<'a>
    ensures rule { rule_of result ≡ all_rule }
    ensures local { result.global ≡ false }
{
    Arg::new(alloc, "all")
        .long("all")
        .help(help)
        .action(ArgAction::SetTrue)
}

/// `--rank`, a number.
fn rank_argument<'a>(alloc: Global) -> Arg<'a>
    ensures rule { rule_of result ≡ rank_rule }
    ensures local { result.global ≡ false }
{
    Arg::new(alloc, "rank")
        .long("rank")
        .help("Says what is known of this rank alone")
        .value_parser(ValueParser::unsigned(0, 4294967295))
}

/// Adds `report`, which has a flag.
fn with_report<'a>(command: Command<'a>, alloc: Global) -> Result<Command<'a>, AllocError>
    ensures { IfOk result (λ c. app_of c ≡ and_report (app_of command.entry)) }
{
    let report = report_command(alloc)?;
    command.subcommand(report)
}

/// `report`, over texts or a layout and a manifest, and whether as JSON.
fn report_command<'a>(alloc: Global) -> Result<Command<'a>, AllocError>
    ensures shape { IfOk result (λ c. app_of c ≡ report_app) }
    ensures local { IfOk result (λ c. (out-Command c).has_globals ≡ false) }
{
    let bare = files_command(
        alloc,
        "report",
        "Prints who received what from whom, and which ranks are stuck",
        REPORT_HELP,
    )?;
    bare.arg(json_argument(alloc, "Prints the report as one JSON object"))
}

/// Adds `calls`, which has flags.
fn with_calls<'a>(command: Command<'a>, alloc: Global) -> Result<Command<'a>, AllocError>
    ensures { IfOk result (λ c. app_of c ≡ and_calls (app_of command.entry)) }
{
    let calls = calls_command(alloc)?;
    command.subcommand(calls)
}

/// `calls`, over texts or a layout and a manifest: as CSV or as JSON lines.
fn calls_command<'a>(alloc: Global) -> Result<Command<'a>, AllocError>
    ensures shape { IfOk result (λ c. app_of c ≡ calls_app) }
    ensures local { IfOk result (λ c. (out-Command c).has_globals ≡ false) }
{
    let bare = files_command(
        alloc,
        "calls",
        "Prints every call with its partner, as a table for other programs",
        CALLS_HELP,
    )?;
    let csv = bare.arg(csv_argument(alloc))?;
    csv.arg(json_argument(alloc, "Prints a JSON object a line"))
}

/// The flag for CSV.
fn csv_argument<'a>(alloc: Global) -> Arg<'a>
    ensures rule { rule_of result ≡ csv_rule }
    ensures local { result.global ≡ false }
{
    Arg::new(alloc, "csv")
        .long("csv")
        .help("Prints CSV, as it does without a flag")
        .action(ArgAction::SetTrue)
}

/// Adds `timeline`, which has options.
fn with_timeline<'a>(command: Command<'a>, alloc: Global) -> Result<Command<'a>, AllocError>
    ensures { IfOk result (λ c. app_of c ≡ and_timeline (app_of command.entry)) }
{
    let timeline = timeline_command(alloc)?;
    command.subcommand(timeline)
}

/// `timeline`, over texts or a layout and a manifest, perhaps cut by time and by rank.
fn timeline_command<'a>(alloc: Global) -> Result<Command<'a>, AllocError>
    ensures shape { IfOk result (λ c. app_of c ≡ timeline_app) }
    ensures local { IfOk result (λ c. (out-Command c).has_globals ≡ false) }
{
    let bare = files_command(
        alloc,
        "timeline",
        "Prints the calls of all ranks in time, as trace events for a viewer",
        TIMELINE_HELP,
    )?;
    let from = bare.arg(from_argument(alloc))?;
    let to = from.arg(to_argument(alloc))?;
    to.arg(ranks_argument(alloc))
}

/// An option for a value, which it may lack.
fn free_argument<'a>(alloc: Global, id: &'a str, value: &'a str, help: &'a str) -> Arg<'a>
    ensures rule { rule_of result ≡ free_rule id.entry.now }
    ensures local { result.global ≡ false }
{
    Arg::new(alloc, id).long(id).value_name(value).help(help)
}

/// `--from`, a moment.
fn from_argument<'a>(alloc: Global) -> Arg<'a>
    ensures rule { rule_of result ≡ from_rule }
    ensures local { result.global ≡ false }
{
    let help = "Leaves out what ends before so many seconds of the run";
    free_argument(alloc, "from", "S", help)
}

/// `--to`, a moment.
fn to_argument<'a>(alloc: Global) -> Arg<'a>
    ensures rule { rule_of result ≡ to_rule }
    ensures local { result.global ≡ false }
{
    let help = "Leaves out what begins after so many seconds of the run";
    free_argument(alloc, "to", "S", help)
}

/// `--ranks`, the first and the last.
fn ranks_argument<'a>(alloc: Global) -> Arg<'a>
    ensures rule { rule_of result ≡ ranks_rule }
    ensures local { result.global ≡ false }
{
    let help = "Shows the ranks from A to B alone";
    free_argument(alloc, "ranks", "A-B", help)
}

/// Adds `check`, which has a flag.
fn with_check<'a>(command: Command<'a>, alloc: Global) -> Result<Command<'a>, AllocError>
    ensures { IfOk result (λ c. app_of c ≡ and_check (app_of command.entry)) }
{
    let check = check_command(alloc)?;
    command.subcommand(check)
}

/// `check`, over texts or a layout and a manifest, and whether as JSON.
fn check_command<'a>(alloc: Global) -> Result<Command<'a>, AllocError>
    ensures shape { IfOk result (λ c. app_of c ≡ check_app) }
    ensures local { IfOk result (λ c. (out-Command c).has_globals ≡ false) }
{
    let bare = files_command(
        alloc,
        "check",
        "Makes pairs and stuck ranks once more straight from the rules, and prints whether they agree",
        CHECK_HELP,
    )?;
    bare.arg(json_argument(alloc, "Prints the same as one JSON object"))
}

/// The flag for JSON.
fn json_argument<'a>(alloc: Global, help: &'a str) -> Arg<'a>
    ensures rule { rule_of result ≡ json_rule }
    ensures local { result.global ≡ false }
{
    Arg::new(alloc, "json")
        .long("json")
        .help(help)
        .action(ArgAction::SetTrue)
}

/// Adds `init`.
fn with_init<'a>(command: Command<'a>, alloc: Global) -> Result<Command<'a>, AllocError>
    ensures { IfOk result (λ c. app_of c ≡ and_init (app_of command.entry)) }
{
    let init = init_command(alloc)?;
    command.subcommand(init)
}

/// `init` over texts, with its options.
fn init_command<'a>(alloc: Global) -> Result<Command<'a>, AllocError>
    ensures shape { IfOk result (λ c. app_of c ≡ init_app) }
    ensures local { IfOk result (λ c. (out-Command c).has_globals ≡ false) }
{
    let named = several_argument(alloc, "TEXT", "The texts of all ranks, rank 0 first");
    let texts = bare_init(alloc).arg(named)?;
    let sends = texts.arg(sends_argument(alloc))?;
    let layout = sends.arg(layout_argument(alloc))?;
    let manifest = layout.arg(manifest_argument(alloc))?;
    let force = manifest.arg(force_argument(alloc))?;
    let quiet = force.arg(quiet_argument(alloc))?;
    let threads = quiet.arg(threads_argument(alloc))?;
    threads.arg(json_argument(alloc, "Prints what was found as one JSON object"))
}

/// `init`, without its texts and options.
fn bare_init<'a>(alloc: Global) -> Command<'a>
    ensures shape { app_of result ≡ new_app (codes "init") }
    ensures local { (out-Command result).has_globals ≡ false }
{
    Command::new(alloc, "init")
        .about("Writes the layout and the manifest of a run, from the texts of all ranks")
        .after_help(INIT_HELP)
}

/// `--sends`, `wait` where it is absent.
fn sends_argument<'a>(alloc: Global) -> Arg<'a>
    ensures rule { rule_of result ≡ sends_rule }
    ensures local { result.global ≡ false }
{
    let help = "Says how a send of standard mode completes: wait or buffer";
    option_argument(alloc, "sends", "WAY", "wait", help)
}

/// An option for a value, which it has also without it.
fn option_argument<'a>(
    alloc: Global,
    id: &'a str,
    value: &'a str,
    default: &'a str,
    help: &'a str,
) -> Arg<'a>
    ensures rule { rule_of result ≡ option_rule id.entry.now default.entry.now }
    ensures local { result.global ≡ false }
{
    Arg::new(alloc, id)
        .long(id)
        .value_name(value)
        .help(help)
        .default_value(default)
}

/// `--layout`, the name of the layout that is made.
fn layout_argument<'a>(alloc: Global) -> Arg<'a>
    ensures rule { rule_of result ≡ layout_rule }
    ensures local { result.global ≡ false }
{
    let help = "Names the file for the layout";
    option_argument(alloc, "layout", "FILE", "layout.json", help)
}

/// `--manifest`, the name of the manifest that is made.
fn manifest_argument<'a>(alloc: Global) -> Arg<'a>
    ensures rule { rule_of result ≡ manifest_rule }
    ensures local { result.global ≡ false }
{
    let help = "Names the file for the manifest";
    option_argument(alloc, "manifest", "FILE", "manifest.json", help)
}

/// `--force`, which writes over files that are there.
fn force_argument<'a>(alloc: Global) -> Arg<'a>
    ensures rule { rule_of result ≡ force_rule }
    ensures local { result.global ≡ false }
{
    Arg::new(alloc, "force")
        .long("force")
        .help("Writes over files of these names that are there")
        .action(ArgAction::SetTrue)
}

/// `-q`, `--quiet`, which leaves nothing on standard error but faults.
fn quiet_argument<'a>(alloc: Global) -> Arg<'a>
    ensures rule { rule_of result ≡ quiet_rule }
    ensures local { result.global ≡ false }
{
    Arg::new(alloc, "quiet")
        .short('q')
        .long("quiet")
        .help("Writes nothing on standard error but faults")
        .action(ArgAction::SetTrue)
}

/// `--verbose`, which names what was found in the texts.
fn verbose_argument<'a>(alloc: Global) -> Arg<'a>
    ensures rule { rule_of result ≡ verbose_rule }
    ensures local { result.global ≡ false }
{
    Arg::new(alloc, "verbose")
        .long("verbose")
        .help("Names the communicators that the texts make, and those that are left out")
        .action(ArgAction::SetTrue)
}

/// `--threads`, a number.
fn threads_argument<'a>(alloc: Global) -> Arg<'a>
    ensures rule { rule_of result ≡ threads_rule }
    ensures local { result.global ≡ false }
{
    Arg::new(alloc, "threads")
        .long("threads")
        .value_name("N")
        .help("Reads texts by N threads, 1 to 1024; without it by one for each processor")
        .value_parser(ValueParser::unsigned(1, 1024))
}

/// A verb that reads the pieces of a layout and a manifest.
fn pieces_command<'a>(
    alloc: Global,
    name: &'a str,
    about: &'a str,
    more: &'a str,
) -> Result<Command<'a>, AllocError>
    ensures shape { IfOk result (λ c. app_of c ≡ pieces_app name.now) }
    ensures local { IfOk result (λ c. (out-Command c).has_globals ≡ false) }
{
    let pair = pair_command(alloc, name, about, more)?;
    pair.arg(threads_argument(alloc))
}

/// A verb over a layout and a manifest.
fn pair_command<'a>(
    alloc: Global,
    name: &'a str,
    about: &'a str,
    more: &'a str,
) -> Result<Command<'a>, AllocError>
    ensures shape { IfOk result (λ c. app_of c ≡ pair_app name.now) }
    ensures local { IfOk result (λ c. (out-Command c).has_globals ≡ false) }
{
    let layout = file_argument(
        alloc,
        "LAYOUT",
        "Ranks, communicators and how sends complete (JSON)",
    );
    let manifest = file_argument(
        alloc,
        "MANIFEST",
        "The pieces of the trace: text files by rank, or packed ones (JSON)",
    );
    let bare = Command::new(alloc, name).about(about).after_help(more);
    let one = bare.arg(layout)?;
    let both = one.arg(manifest)?;
    both.arg(quiet_argument(alloc))
}

/// A verb over its files.
fn files_command<'a>(
    alloc: Global,
    name: &'a str,
    about: &'a str,
    more: &'a str,
) -> Result<Command<'a>, AllocError>
    ensures shape { IfOk result (λ c. app_of c ≡ files_app name.now) }
    ensures local { IfOk result (λ c. (out-Command c).has_globals ≡ false) }
{
    let files = several_argument(
        alloc,
        "FILE",
        "A layout and a manifest (JSON), or the texts of all ranks, rank 0 first",
    );
    let bare = Command::new(alloc, name).about(about).after_help(more);
    let named = bare.arg(files)?;
    let quiet = named.arg(quiet_argument(alloc))?;
    let verbose = quiet.arg(verbose_argument(alloc))?;
    verbose.arg(threads_argument(alloc))
}

/// A file that has to be named.
fn file_argument<'a>(alloc: Global, name: &'a str, help: &'a str) -> Arg<'a>
    ensures rule { rule_of result ≡ file_rule name.entry.now }
    ensures local { result.global ≡ false }
{
    Arg::new(alloc, name).help(help).required(true)
}

/// One file that has to be named, or more.
fn several_argument<'a>(alloc: Global, name: &'a str, help: &'a str) -> Arg<'a>
    ensures rule { rule_of result ≡ several_rule name.entry.now }
    ensures local { result.global ≡ false }
{
    Arg::new(alloc, name)
        .help(help)
        .required(true)
        .action(ArgAction::Append)
}

/// The verb of a name.
fn verb_of(name: &str) -> Option<Verb>
    ensures { result ≡ verb_named name.now }
{
    if name == "explain" {
        Some(Verb::Explain(Extent::Cut))
    } else if name == "graph" {
        Some(Verb::Graph(Extent::Cut))
    } else if name == "page" {
        Some(Verb::Page)
    } else if name == "report" {
        Some(Verb::Report)
    } else if name == "replay" {
        Some(Verb::Replay)
    } else if name == "check" {
        Some(Verb::Check)
    } else if name == "pack" {
        Some(Verb::Pack)
    } else {
        None
    }
}

/// The verb with its flags, where those are set; none where a rank is no number, which `clap` has seen to.
fn in_form(verb: Verb, json: Option<&str>, all: Option<&str>, rank: Option<&str>) -> Option<Verb>
    ensures { result ≡ in_form verb (text_of json.entry) (text_of all.entry) (text_of rank.entry) }
{
    match (verb, json, all, rank) {
        (Verb::Explain(_), _, _, Some(text)) => explain_in(text),
        (Verb::Explain(_), Some(json), Some(all), None) => Some(told_in(json, all)),
        (Verb::Graph(_), _, Some(all), _) => Some(Verb::Graph(extent_in(all))),
        (Verb::Report, Some(text), _, _) => Some(report_in(text)),
        (Verb::Check, Some(text), _, _) => Some(check_in(text)),
        (verb, _, _, _) => Some(verb),
    }
}

/// How much is said: all, where the value of the flag says so.
fn extent_in(flag: &str) -> Extent
    ensures { result ≡ extent_in flag.now }
{
    if flag == "true" {
        Extent::Whole
    } else {
        Extent::Cut
    }
}

/// An explanation as JSON, where the value of the first flag says so, and else in words.
fn told_in(json: &str, all: &str) -> Verb
    ensures { result ≡ told_in json.now all.now }
{
    if json == "true" {
        Verb::ExplainJson
    } else {
        Verb::Explain(extent_in(all))
    }
}

/// An explanation of the rank that the value of the flag says.
fn explain_in(text: &str) -> Option<Verb>
    ensures { result ≡ explain_in text.now }
{
    match rank_in(text) {
        Some(rank) => Some(Verb::ExplainRank(rank)),
        None => None,
    }
}

/// The number of a rank that a text says.
fn rank_in(text: &str) -> Option<u32>
    ensures { result ≡ rank_in text.now }
{
    match text.parse::<u32>() {
        Ok(rank) => Some(rank),
        Err(_) => None,
    }
}

/// A report, as JSON where the value of the flag says so.
fn report_in(flag: &str) -> Verb
    ensures { result ≡ report_in flag.now }
{
    if flag == "true" {
        Verb::ReportJson
    } else {
        Verb::Report
    }
}

/// A check, as JSON where the value of the flag says so.
fn check_in(flag: &str) -> Verb
    ensures { result ≡ check_in flag.now }
{
    if flag == "true" {
        Verb::CheckJson
    } else {
        Verb::Check
    }
}

/// The verb of a name in the form that its flags give it.
fn form_in(name: &str, inner: &ArgMatches<'_>) -> Option<Verb>
    ensures { result ≡ form_in name.now (rows_of (found_of inner.now)) }
{
    let verb = verb_of(name)?;
    let json = inner.get_str("json");
    let all = inner.get_str("all");
    let rank = inner.get_str("rank");
    in_form(verb, json, all, rank)
}

/// Whether a flag is set, by its value.
fn is_set(flag: Option<&str>) -> bool
    ensures { result ≡ is_set (text_of flag.entry) }
{
    match flag {
        Some(flag) => flag == "true",
        None => false,
    }
}

/// How much is said by the values of both flags: `--quiet` before `--verbose`.
fn verbosity_of(quiet: Option<&str>, verbose: Option<&str>) -> Verbosity
    ensures { result ≡ verbosity_of (text_of quiet.entry) (text_of verbose.entry) }
{
    if is_set(quiet) {
        Verbosity::Quiet
    } else if is_set(verbose) {
        Verbosity::Verbose
    } else {
        Verbosity::Brief
    }
}

/// How much a verb is to say beside faults.
fn verbosity_in(inner: &ArgMatches<'_>) -> Verbosity
    ensures { result ≡ verbosity_in (rows_of (found_of inner.now)) }
{
    let quiet = inner.get_str("quiet");
    let verbose = inner.get_str("verbose");
    verbosity_of(quiet, verbose)
}

/// A verb over a layout and a manifest, where both are named.
fn pair_of<'a>(
    verb: Verb,
    verbosity: Verbosity,
    layout: Option<&'a str>,
    manifest: Option<&'a str>,
) -> Option<Asked<'a>>
    ensures { option_map request_of result ≡ pair_of verb verbosity (text_of layout.entry) (text_of manifest.entry) }
{
    match (layout, manifest) {
        (Some(layout), Some(manifest)) => Some(Asked::Pair {
            verb,
            verbosity,
            layout,
            manifest,
        }),
        _ => None,
    }
}

/// A verb over its layout and its manifest.
fn pair_in<'a>(verb: Verb, inner: &ArgMatches<'a>) -> Option<Asked<'a>>
    ensures { option_map request_of result ≡ pair_in verb (rows_of (found_of inner.now)) }
{
    let layout = inner.get_str("LAYOUT");
    let manifest = inner.get_str("MANIFEST");
    pair_of(verb, verbosity_in(inner), layout, manifest)
}

/// A verb over its files, or over its layout and its manifest.
fn files_in<'a>(
    alloc: Global,
    verb: Verb,
    inner: &ArgMatches<'a>,
) -> Result<Option<Asked<'a>>, AllocError>
    ensures { IfOk result (λ asked. option_map request_of asked ≡ files_in verb (rows_of (found_of inner.now))) }
{
    match inner.get_strs("FILE") {
        Some(names) => {
            let files = Vec::from_slice(alloc, names)?;
            let verbosity = verbosity_in(inner);
            Ok(Some(Asked::Files {
                verb,
                verbosity,
                files,
            }))
        }
        None => Ok(pair_in(verb, inner)),
    }
}

/// A table in the form that its flags say; none where both are set.
fn table_verb(csv: &str, json: &str) -> Option<Verb>
    ensures { result ≡ table_verb csv.now json.now }
{
    if json == "true" {
        if csv == "true" {
            None
        } else {
            Some(Verb::Calls(TableForm::Json))
        }
    } else {
        Some(Verb::Calls(TableForm::Csv))
    }
}

/// A table in the form of its flags, which `clap` gives each time.
fn calls_asked(csv: Option<&str>, json: Option<&str>) -> Option<Verb>
    ensures { result ≡ calls_asked (text_of csv.entry) (text_of json.entry) }
{
    match (csv, json) {
        (Some(csv), Some(json)) => table_verb(csv, json),
        _ => None,
    }
}

/// The verb that the words of `calls` ask for.
fn calls_named(inner: &ArgMatches<'_>) -> Option<Verb>
    ensures { result ≡ calls_named (rows_of (found_of inner.now)) }
{
    let csv = inner.get_str("csv");
    let json = inner.get_str("json");
    calls_asked(csv, json)
}

/// `calls` over its files, in the form of its flags.
fn calls_in<'a>(alloc: Global, inner: &ArgMatches<'a>) -> Result<Option<Asked<'a>>, AllocError>
    ensures { IfOk result (λ asked. option_map request_of asked ≡ calls_in (rows_of (found_of inner.now))) }
{
    match calls_named(inner) {
        Some(verb) => files_in(alloc, verb, inner),
        None => Ok(None),
    }
}

/// The moment that a text says, in nanoseconds.
fn moment_in(text: &str) -> Option<u64>
    ensures { result ≡ moment_in text.now }
{
    match parse_time(text.as_bytes()) {
        Ok(moment) => Some(moment),
        Err(_) => None,
    }
}

/// The moment that an option gives, where it is there; none at all where its text is no moment.
fn given_moment(text: Option<&str>) -> Option<Option<u64>>
    ensures { result ≡ given_moment (text_of text.entry) }
{
    match text {
        None => Some(None),
        Some(text) => match moment_in(text) {
            Some(moment) => Some(Some(moment)),
            None => None,
        },
    }
}

/// What stands before and behind the first hyphen.
fn ends_in(text: &str) -> Option<(&str, &str)>
    ensures { option_map (λ x. (x.0.now, x.1.now)) result ≡ ends_in text.now }
{
    text.split_once('-')
}

/// Both numbers, where both are there.
fn both_of(first: Option<u32>, last: Option<u32>) -> Option<(u32, u32)>
    ensures { result ≡ both_of first last }
{
    match (first, last) {
        (Some(first), Some(last)) => Some((first, last)),
        _ => None,
    }
}

/// The first and the last rank that a text says.
fn ranks_in(text: &str) -> Option<(u32, u32)>
    ensures { result ≡ ranks_in text.now }
{
    match ends_in(text) {
        Some((first, last)) => both_of(rank_in(first), rank_in(last)),
        None => None,
    }
}

/// The ranks that an option gives, where it is there; none at all where its text says none.
fn given_ranks(text: Option<&str>) -> Option<Option<(u32, u32)>>
    ensures { result ≡ given_ranks (text_of text.entry) }
{
    match text {
        None => Some(None),
        Some(text) => match ranks_in(text) {
            Some(ranks) => Some(Some(ranks)),
            None => None,
        },
    }
}

/// What is shown, where each of the options could be read.
fn window_of(
    from: Option<Option<u64>>,
    to: Option<Option<u64>>,
    ranks: Option<Option<(u32, u32)>>,
) -> Option<Window>
    ensures { result ≡ window_of from to ranks }
{
    match (from, to, ranks) {
        (Some(from), Some(to), Some(ranks)) => Some(Window { from, to, ranks }),
        _ => None,
    }
}

/// What is shown, by the texts of the options.
fn window_by(from: Option<&str>, to: Option<&str>, ranks: Option<&str>) -> Option<Window>
    ensures { result ≡ window_by (text_of from.entry) (text_of to.entry) (text_of ranks.entry) }
{
    window_of(given_moment(from), given_moment(to), given_ranks(ranks))
}

/// What is shown, by the words of `timeline`.
fn window_in(inner: &ArgMatches<'_>) -> Option<Window>
    ensures { result ≡ window_in (rows_of (found_of inner.now)) }
{
    let from = inner.get_str("from");
    let to = inner.get_str("to");
    let ranks = inner.get_str("ranks");
    window_by(from, to, ranks)
}

/// `timeline` over its files, cut as its options say.
fn timeline_in<'a>(alloc: Global, inner: &ArgMatches<'a>) -> Result<Option<Asked<'a>>, AllocError>
    ensures { IfOk result (λ asked. option_map request_of asked ≡ timeline_in (rows_of (found_of inner.now))) }
{
    match window_in(inner) {
        Some(window) => files_in(alloc, Verb::Timeline(window), inner),
        None => Ok(None),
    }
}

/// A cluster of a layout and a manifest, where both are named.
fn cluster_of<'a>(layout: Option<&'a str>, manifest: Option<&'a str>) -> Option<Asked<'a>>
    ensures { option_map request_of result ≡ cluster_of (text_of layout.entry) (text_of manifest.entry) }
{
    match (layout, manifest) {
        (Some(layout), Some(manifest)) => Some(Asked::Cluster { layout, manifest }),
        _ => None,
    }
}

/// A cluster of its layout and its manifest.
fn cluster_in<'a>(inner: &ArgMatches<'a>) -> Option<Asked<'a>>
    ensures { option_map request_of result ≡ cluster_in (rows_of (found_of inner.now)) }
{
    let layout = inner.get_str("LAYOUT");
    let manifest = inner.get_str("MANIFEST");
    cluster_of(layout, manifest)
}

/// How sends of standard mode complete, by the word.
fn sends_of(word: &str) -> Option<Sends>
    ensures { result ≡ sends_named word.now }
{
    if word == "wait" {
        Some(Sends::Wait)
    } else if word == "buffer" {
        Some(Sends::Buffer)
    } else {
        None
    }
}

/// How sends of standard mode complete, where a word says it.
fn named_sends(word: Option<&str>) -> Option<Sends>
    ensures { result ≡ option_and_then sends_named (text_of word.entry) }
{
    match word {
        Some(word) => sends_of(word),
        None => None,
    }
}

/// What `init` is to make, where each of its options has a value; `clap` gives each one.
fn wanted_of<'a>(
    sends: Option<Sends>,
    layout: Option<&'a str>,
    manifest: Option<&'a str>,
    force: Option<&str>,
    json: Option<&str>,
) -> Option<Wanted<'a>>
    ensures { option_map wish_of result ≡ wanted_of sends (text_of layout.entry) (text_of manifest.entry) (text_of force.entry) (text_of json.entry) }
{
    match (sends, layout, manifest, force, json) {
        (Some(sends), Some(layout), Some(manifest), Some(force), Some(json)) => Some(Wanted {
            sends,
            layout,
            manifest,
            force: force == "true",
            json: json == "true",
        }),
        _ => None,
    }
}

/// What `init` is to make, by its words.
fn wanted_in<'a>(inner: &ArgMatches<'a>) -> Option<Wanted<'a>>
    ensures { option_map wish_of result ≡ wish_in (rows_of (found_of inner.now)) }
{
    let word = inner.get_str("sends");
    let sends = named_sends(word);
    let layout = inner.get_str("layout");
    let manifest = inner.get_str("manifest");
    let force = inner.get_str("force");
    let json = inner.get_str("json");
    wanted_of(sends, layout, manifest, force, json)
}

/// `init` over its texts, with what it is to make.
fn init_in<'a>(alloc: Global, inner: &ArgMatches<'a>) -> Result<Option<Asked<'a>>, AllocError>
    ensures { IfOk result (λ asked. option_map request_of asked ≡ init_in (rows_of (found_of inner.now))) }
{
    let Some(wanted) = wanted_in(inner) else {
        return Ok(None);
    };
    let Some(texts) = inner.get_strs("TEXT") else {
        return Ok(None);
    };
    let texts = Vec::from_slice(alloc, texts)?;
    Ok(Some(Asked::Init { texts, wanted }))
}

/// What the words ask for.
fn asked_in<'a>(alloc: Global, matches: &ArgMatches<'a>) -> Result<Option<Asked<'a>>, AllocError>
    ensures { IfOk result (λ asked. option_map request_of asked ≡ request_in (subcommand_rows_of matches.now)) }
{
    let Some((name, inner)) = matches.subcommand() else {
        return Ok(None);
    };
    if name == "init" {
        return init_in(alloc, inner);
    }
    if name == "cluster" {
        return Ok(cluster_in(inner));
    }
    if name == "calls" {
        return calls_in(alloc, inner);
    }
    if name == "timeline" {
        return timeline_in(alloc, inner);
    }
    verb_in(alloc, name, inner)
}

/// A verb of this name over its files, with its flags.
fn verb_in<'a>(
    alloc: Global,
    name: &str,
    inner: &ArgMatches<'a>,
) -> Result<Option<Asked<'a>>, AllocError>
    ensures { IfOk result (λ asked. option_map request_of asked ≡ verb_in name.now (rows_of (found_of inner.now))) }
{
    match form_in(name, inner) {
        Some(verb) => files_in(alloc, verb, inner),
        None => Ok(None),
    }
}

/// By how many threads texts are read, where the words say it.
fn threads_of(matches: &ArgMatches<'_>) -> Option<u32>
    ensures { result ≡ threads_in (subcommand_rows_of matches.now) }
{
    match matches.subcommand() {
        Some((_, inner)) => threads_by(inner),
        None => None,
    }
}

/// The same by the words of a verb.
fn threads_by(inner: &ArgMatches<'_>) -> Option<u32>
    ensures { result ≡ threads_by (rows_of (found_of inner.now)) }
{
    let word = inner.get_str("threads");
    named_threads(word)
}

/// The number of threads, where a word says it.
fn named_threads(word: Option<&str>) -> Option<u32>
    ensures { result ≡ option_and_then thread_count (text_of word.entry) }
{
    match word {
        Some(word) => thread_count(word),
        None => None,
    }
}

/// The number of threads that a word says; none where it is no number from 1 to 1,024, which `clap` has seen to.
fn thread_count(word: &str) -> Option<u32>
    ensures { result ≡ thread_count word.now }
{
    match word.parse::<u32>() {
        Ok(count) => in_range(count),
        Err(_) => None,
    }
}

/// The number, where it is one from 1 to 1,024.
fn in_range(count: u32) -> Option<u32>
    ensures some { IfSome result (λ n. (n ≡ count) × (1 ≤ count) × (count ≤ 1024)) }
    ensures none { result ≡ None → (1 ≤ count) × (count ≤ 1024) → ⊥ }
{
    if 1 <= count && count <= 1024 {
        Some(count)
    } else {
        None
    }
}
