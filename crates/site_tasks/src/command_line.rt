//! The words of the command line.

use crate::task::{Serving, Settling, Task};
use clap::builder::ValueParser;
use clap::error::ErrorKind;
use clap::{Arg, ArgAction, ArgMatches, Command, Error};
use log_stand::Stand;
use std::alloc::{AllocError, Global};
use std::rt::Env;
use std::{env, io};

const ABOUT: &str = "Serves one site of an escrow database over a log in a folder";

const EXAMPLE: &str = "\
Each answer leaves it once the log has its record and is synced, so a stop at any
moment loses nothing that was answered.

Example:
  escrow_site create shop --schema schema.json --site 0 --name shops-2026
  escrow_site serve shop < commands.txt
  escrow_site show shop
  escrow_site check shop0 shop1

Statuses: 0 done; 1 a read or write of the standard streams failed; 2 the command
line or the schema is refused; 3 a folder or a log is refused; 4 out of memory;
5 a call of the system failed at a file; 6 another process serves the folder.";

const CREATE_ABOUT: &str = "Makes the folder of a site, with an empty log";

// The line of clap's own has no `--name`, since a call without it is told more than clap tells.
const CREATE_USAGE: &str = "escrow_site create --schema <FILE> --site <N> --name <NAME> <FOLDER>";

const CREATE_EXAMPLE: &str = "\
FILE has one line, the JSON header: the number of sites, 1 to 64, and 1 to 256
fields, each with its floor, ceiling and value. Each site of a world is created
once, with the same header and NAME and a number of its own, from 0. Nothing may be
at the path FOLDER.

NAME is the world's own: 1 to 64 of a-z A-Z 0-9 . _ -, as concert-17. No other world
of yours has it. Two worlds of one header and one NAME are one world to a broker or
a folder of statements, and one sells what the other has.

Example of FILE:
  {\"sites\":2,\"fields\":[{\"name\":\"stock\",\"floor\":0,\"ceiling\":100,\"value\":40}]}";

const SERVE_ABOUT: &str = "Serves the site over standard input and output";

const SERVE_EXAMPLE: &str = "\
It writes `ready 1 EPOCH LENGTH`, the entry of the site's restart, and then a line
for each line of the input: a command of `escrow run` at this site and its reply,
`kept ID -> yes` or `no` for `kept ID`, or `bad line N WHY`. It ends with its input.

With --keep the log is shortened while it is served: it lets go of its front, so that
disk, memory and the time of a start don't grow with the past. What stays behind its
first summary are at least BYTES, and in any case the last thousand records; 1048576
is a good value. Ids and keys of commits that were let go are answered `forgotten`.
With --archive the log as it was stays in the folder each time, as log.GONE, where GONE
are the bytes that the head of the new log tells to be gone; `verify` reads them all.
The first line of such a log, and with --keep, is `ready 2 EPOCH LENGTH`; LENGTH counts
what was let go too. A log of version 1 is refused: it has no sums.

Example input:
  0 begin
  0 escrow 1.1 stock -20
  0 commit 1.1

Its output in a new folder of site 0:
  ready 1 1 4
  0 restart -> restarted 1 nothing
  0 begin -> begun 1.1
  0 escrow 1.1 stock -20 -> granted
  0 commit 1.1 -> committed";

const TRACE_HELP: &str =
    "Keeps a trace of all answers beside the log, for weave: from the first time on";

const NO_SYNC_HELP: &str = "Doesn't sync the log: a stop of the machine may lose what was answered";

const NOT_BEFORE_HELP: &str = "Refuses a log with an earlier epoch or fewer bytes, as an old copy";

const ARCHIVE_HELP: &str = "Keeps the log as it was each time that --keep lets go of its front";

const KEEP_HELP: &str = "Lets go of the log's front: what stays are at least so many bytes";

/// The most bytes that may be asked to stay: 2^40.
const KEEP_MOST: u64 = 1_099_511_627_776;

const NOT_BEFORE_NAMES: &[&str] = &["EPOCH", "LENGTH"];

const SHOW_ABOUT: &str = "Tells what the site's log stands for, served or not";

const VERIFY_ABOUT: &str = "Verifies the site's whole log, from all parts that were kept of it";

const VERIFY_EXAMPLE: &str = "\
It reads the log, and from there back each part that `serve --keep --archive` kept:
log.GONE, where GONE are the bytes that the head of the part behind it tells to be gone,
up to one of which nothing is gone. A log that is whole is verified by itself. It takes no
lock, writes nothing, and holds one part at a time in memory.

  verified RECORDS BYTES

Each part goes on where the one before leaves off, with the summary of all that stands
in front of it; all records together, from the site's beginning on, are lawful; and each
head tells rightly what is gone. RECORDS are all but summaries, BYTES those of all records.
It is refused else, at the file and the line of the first fault, from the log back.

Example:
  escrow_site verify shop";

const CHECK_ABOUT: &str = "Checks the logs of all sites of a world together";

const CHECK_EXAMPLE: &str = "\
The sites are stopped, or the folders are copies of one moment: of each site of the
world one folder, in any order. It reads each log once, takes no lock, and writes
nothing into a folder. It takes memory for one log at a time, and for the totals
that each stands for.

It is refused where a site accepted more than was given to it by the log of the
site that gave. Else no right was made or lost, and each field has one value:

  world NAME
  sites N
  field FIELD value V floor F ceiling C     for each field

Example:
  escrow_site check shop0 shop1";

const SETTLE_ABOUT: &str = "Ends a world, and writes the header of one that goes on from there";

const SETTLE_EXAMPLE: &str = "\
The folders are the sites' own, no copies, of stopped sites. They are checked as by
`check`. Each field of the new world has its committed value, and its bounds as they
were tightened; what was in flight is the new sites'. Then each folder is closed, by
the end of its log: no site of it is ever served again, so that nothing is sold
twice. Until it has ended with status 0 the header isn't to be used: settle again.

Where logs are lost, a folder that isn't named or has no log, it writes no header,
and closes nothing. It writes, for each field, between which values it lies by the
other logs, and ends with status 3:

  field FIELD between LO HI

Example:
  escrow_site settle shop0 shop1 > world2.json
  escrow_site create new0 --schema world2.json --site 0 --name shops-2027";

const VERSION_ABOUT: &str = "Tells which versions of files it reads and makes";

const WEAVE_ABOUT: &str = "Writes one trace of all sites of a world, for `escrow audit`";

const WEAVE_EXAMPLE: &str = "\
The sites are stopped, or the folders are copies in which each log was copied before
its trace: of each site of the world one folder, in any order, which was always
served with --trace. It takes no lock, and writes nothing into a folder. It takes
memory for all entries, and a step for each.

Each trace counts as far as its log goes. It writes the header, and the entries of
all sites in one order in which each statement comes before it is accepted.

Example:
  escrow_site weave shop0 shop1 > trace
  escrow audit < trace";

const JUDGE_ABOUT: &str = "Judges the one trace of all sites of a world";

const JUDGE_EXAMPLE: &str = "\
It takes the folders that `weave` takes, and weaves them, but writes no trace: it
writes the one line that `escrow audit` would write of that trace, and ends with its
status, 0 where it is legal and else 3. There may be any number of entries.

  legal N             all N entries are legal
  illegal AT RULE     the entry AT, from 1, is the first that breaks a rule

It reads each trace twice, and holds the entries of one trace at a time, then 64 KiB
of each.

Example:
  escrow_site judge shop0 shop1";

fn folder_arg<'a>(alloc: Global) -> Arg<'a> {
    Arg::new(alloc, "FOLDER")
        .help("The site's folder")
        .required(true)
        .action(ArgAction::Set)
}

fn folders_arg<'a>(alloc: Global) -> Arg<'a> {
    Arg::new(alloc, "FOLDER")
        .help("The folders of the sites")
        .required(true)
        .num_args(1..)
        .action(ArgAction::Append)
}

fn schema_arg<'a>(alloc: Global) -> Arg<'a> {
    Arg::new(alloc, "schema")
        .long("schema")
        .value_name("FILE")
        .help("The file that holds the header")
        .required(true)
        .action(ArgAction::Set)
}

fn site_arg<'a>(alloc: Global) -> Arg<'a> {
    Arg::new(alloc, "site")
        .long("site")
        .value_name("N")
        .help("The number of the site")
        .required(true)
        .action(ArgAction::Set)
        .value_parser(ValueParser::unsigned(0, u64::MAX))
}

fn name_arg<'a>(alloc: Global) -> Arg<'a> {
    Arg::new(alloc, "name")
        .long("name")
        .value_name("NAME")
        .help("The world's own name, the same for all its sites")
        .action(ArgAction::Set)
}

fn create_command<'a>(alloc: Global) -> Result<Command<'a>, AllocError> {
    Command::new(alloc, "create")
        .about(CREATE_ABOUT)
        .override_usage(CREATE_USAGE)
        .after_help(CREATE_EXAMPLE)
        .arg(folder_arg(alloc))?
        .arg(schema_arg(alloc))?
        .arg(site_arg(alloc))?
        .arg(name_arg(alloc))
}

fn trace_arg<'a>(alloc: Global) -> Arg<'a> {
    Arg::new(alloc, "trace")
        .long("trace")
        .help(TRACE_HELP)
        .action(ArgAction::SetTrue)
}

fn no_sync_arg<'a>(alloc: Global) -> Arg<'a> {
    Arg::new(alloc, "no-sync")
        .long("no-sync")
        .help(NO_SYNC_HELP)
        .action(ArgAction::SetTrue)
}

fn not_before_arg<'a>(alloc: Global) -> Arg<'a> {
    Arg::new(alloc, "not-before")
        .long("not-before")
        .value_names(NOT_BEFORE_NAMES)
        .num_args(2)
        .help(NOT_BEFORE_HELP)
        .action(ArgAction::Set)
        .value_parser(ValueParser::unsigned(0, u64::MAX))
}

fn keep_arg<'a>(alloc: Global) -> Arg<'a> {
    Arg::new(alloc, "keep")
        .long("keep")
        .value_name("BYTES")
        .help(KEEP_HELP)
        .action(ArgAction::Set)
        .value_parser(ValueParser::unsigned(0, KEEP_MOST))
}

fn archive_arg<'a>(alloc: Global) -> Result<Arg<'a>, AllocError> {
    Arg::new(alloc, "archive")
        .long("archive")
        .help(ARCHIVE_HELP)
        .action(ArgAction::SetTrue)
        .requires_arg("keep")
}

fn serve_command<'a>(alloc: Global) -> Result<Command<'a>, AllocError> {
    Command::new(alloc, "serve")
        .about(SERVE_ABOUT)
        .after_help(SERVE_EXAMPLE)
        .arg(folder_arg(alloc))?
        .arg(trace_arg(alloc))?
        .arg(no_sync_arg(alloc))?
        .arg(not_before_arg(alloc))?
        .arg(keep_arg(alloc))?
        .arg(archive_arg(alloc)?)
}

fn show_command<'a>(alloc: Global) -> Result<Command<'a>, AllocError> {
    Command::new(alloc, "show")
        .about(SHOW_ABOUT)
        .arg(folder_arg(alloc))
}

fn verify_command<'a>(alloc: Global) -> Result<Command<'a>, AllocError> {
    Command::new(alloc, "verify")
        .about(VERIFY_ABOUT)
        .after_help(VERIFY_EXAMPLE)
        .arg(folder_arg(alloc))
}

fn check_command<'a>(alloc: Global) -> Result<Command<'a>, AllocError> {
    Command::new(alloc, "check")
        .about(CHECK_ABOUT)
        .after_help(CHECK_EXAMPLE)
        .arg(folders_arg(alloc))
}

fn dry_run_arg<'a>(alloc: Global) -> Arg<'a> {
    Arg::new(alloc, "dry-run")
        .long("dry-run")
        .help("Writes the header alone: takes no lock, and closes nothing")
        .action(ArgAction::SetTrue)
}

fn again_arg<'a>(alloc: Global) -> Arg<'a> {
    Arg::new(alloc, "again")
        .long("again")
        .help("Writes the header once more of a world that was settled")
        .action(ArgAction::SetTrue)
}

fn settle_command<'a>(alloc: Global) -> Result<Command<'a>, AllocError> {
    Command::new(alloc, "settle")
        .about(SETTLE_ABOUT)
        .after_help(SETTLE_EXAMPLE)
        .arg(folders_arg(alloc))?
        .arg(dry_run_arg(alloc))?
        .arg(again_arg(alloc))
}

fn weave_command<'a>(alloc: Global) -> Result<Command<'a>, AllocError> {
    Command::new(alloc, "weave")
        .about(WEAVE_ABOUT)
        .after_help(WEAVE_EXAMPLE)
        .arg(folders_arg(alloc))
}

fn judge_command<'a>(alloc: Global) -> Result<Command<'a>, AllocError> {
    Command::new(alloc, "judge")
        .about(JUDGE_ABOUT)
        .after_help(JUDGE_EXAMPLE)
        .arg(folders_arg(alloc))
}

fn version_command<'a>(alloc: Global) -> Command<'a> {
    Command::new(alloc, "version").about(VERSION_ABOUT)
}

// The command with a subcommand, where that could be made.
fn with_part<'a>(
    whole: Command<'a>,
    part: Result<Command<'a>, AllocError>,
) -> Result<Command<'a>, AllocError> {
    whole.subcommand(part?)
}

fn program<'a>(alloc: Global) -> Result<Command<'a>, AllocError> {
    let whole = Command::new(alloc, "escrow_site")
        .about(ABOUT)
        .after_help(EXAMPLE)
        .subcommand_required(true)
        .arg_required_else_help(true);
    let whole = with_part(whole, create_command(alloc))?;
    let whole = with_part(whole, serve_command(alloc))?;
    let whole = with_part(whole, show_command(alloc))?;
    let whole = with_part(whole, verify_command(alloc))?;
    let whole = with_part(whole, check_command(alloc))?;
    let whole = with_part(whole, settle_command(alloc))?;
    let whole = with_part(whole, weave_command(alloc))?;
    let whole = with_part(whole, judge_command(alloc))?;
    whole.subcommand(version_command(alloc))
}

// The text of an argument, or none where it isn't given, which clap refuses if it is required.
fn text_of(alloc: Global, asked: &ArgMatches<'_>, id: &str) -> Result<String, AllocError> {
    match asked.get_str(id) {
        Some(text) => String::from_str(alloc, text),
        None => Ok(String::new(alloc)),
    }
}

// The texts of an argument, or none where it isn't given, which clap refuses if it is required.
fn texts_of(alloc: Global, asked: &ArgMatches<'_>, id: &str) -> Result<Vec<String>, AllocError> {
    let mut texts = Vec::new(alloc);
    if let Some(given) = asked.get_strs(id) {
        for text in given {
            texts.push(String::from_str(alloc, text)?)?;
        }
    }
    Ok(texts)
}

// A number, which clap has read.
fn number_of(text: &str) -> u64 {
    text.parse::<u64>().unwrap_or(0)
}

// The stand that `--not-before` tells.
fn not_before(asked: &ArgMatches<'_>) -> Option<Stand> {
    match asked.get_strs("not-before")? {
        [epoch, length] => Some(Stand {
            epoch: number_of(epoch),
            length: number_of(length),
        }),
        _ => None,
    }
}

// How many bytes are to stay, where that is told.
fn keep_of(asked: &ArgMatches<'_>) -> Option<usize> {
    match asked.get_one::<u64>("keep") {
        Some(bytes) => Some(bytes as usize),
        None => None,
    }
}

// The name of a world, where one is given.
fn name_of(alloc: Global, asked: &ArgMatches<'_>) -> Result<Option<String>, AllocError> {
    match asked.get_str("name") {
        Some(name) => Ok(Some(String::from_str(alloc, name)?)),
        None => Ok(None),
    }
}

fn create_task(alloc: Global, asked: &ArgMatches<'_>) -> Result<Task, AllocError> {
    Ok(Task::Create {
        folder: text_of(alloc, asked, "FOLDER")?,
        schema: text_of(alloc, asked, "schema")?,
        site: asked.get_one::<u64>("site").unwrap_or(0),
        name: name_of(alloc, asked)?,
    })
}

fn serve_task(alloc: Global, asked: &ArgMatches<'_>) -> Result<Task, AllocError> {
    Ok(Task::Serve {
        folder: text_of(alloc, asked, "FOLDER")?,
        how: Serving {
            is_synced: !asked.get_flag("no-sync"),
            is_traced: asked.get_flag("trace"),
            not_before: not_before(asked),
            keep: keep_of(asked),
            is_archived: asked.get_flag("archive"),
        },
    })
}

fn show_task(alloc: Global, asked: &ArgMatches<'_>) -> Result<Task, AllocError> {
    Ok(Task::Show {
        folder: text_of(alloc, asked, "FOLDER")?,
    })
}

fn verify_task(alloc: Global, asked: &ArgMatches<'_>) -> Result<Task, AllocError> {
    Ok(Task::Verify {
        folder: text_of(alloc, asked, "FOLDER")?,
    })
}

fn check_task(alloc: Global, asked: &ArgMatches<'_>) -> Result<Task, AllocError> {
    Ok(Task::Check {
        folders: texts_of(alloc, asked, "FOLDER")?,
    })
}

fn settle_task(alloc: Global, asked: &ArgMatches<'_>) -> Result<Task, AllocError> {
    Ok(Task::Settle {
        folders: texts_of(alloc, asked, "FOLDER")?,
        how: Settling {
            is_dry: asked.get_flag("dry-run"),
            is_again: asked.get_flag("again"),
        },
    })
}

fn weave_task(alloc: Global, asked: &ArgMatches<'_>) -> Result<Task, AllocError> {
    Ok(Task::Weave {
        folders: texts_of(alloc, asked, "FOLDER")?,
    })
}

fn judge_task(alloc: Global, asked: &ArgMatches<'_>) -> Result<Task, AllocError> {
    Ok(Task::Judge {
        folders: texts_of(alloc, asked, "FOLDER")?,
    })
}

// The task that the words of a command line ask for.
fn task_of(alloc: Global, matches: &ArgMatches<'_>) -> Result<Task, Error> {
    match matches.subcommand() {
        Some(("create", asked)) => Ok(create_task(alloc, asked)?),
        Some(("serve", asked)) => Ok(serve_task(alloc, asked)?),
        Some(("show", asked)) => Ok(show_task(alloc, asked)?),
        Some(("verify", asked)) => Ok(verify_task(alloc, asked)?),
        Some(("check", asked)) => Ok(check_task(alloc, asked)?),
        Some(("settle", asked)) => Ok(settle_task(alloc, asked)?),
        Some(("weave", asked)) => Ok(weave_task(alloc, asked)?),
        Some(("judge", asked)) => Ok(judge_task(alloc, asked)?),
        Some(("version", _)) => Ok(Task::Version),
        _ => Err(program(alloc)?.error(ErrorKind::MissingSubcommand, "no subcommand")?),
    }
}

// The words of the command line.
fn read_words(
    rt: &(impl Env + AllocGlobal),
    command: &mut Command<'_>,
) -> Result<Vec<String>, Error> {
    match env::args(rt) {
        Ok(words) => Ok(words.collect(rt.alloc())?),
        Err(fault) if fault.kind() == io::ErrorKind::OutOfMemory => Err(AllocError.into()),
        Err(_) => {
            let words = "invalid UTF-8 was detected in one or more arguments";
            Err(command.error(ErrorKind::InvalidValue, words)?)
        }
    }
}

/// What the command line asks for, or why it asks for nothing.
pub fn read_task(rt: &(impl Env + AllocGlobal)) -> Result<Task, Error> {
    let alloc = rt.alloc();
    let mut command = program(alloc)?;
    let words = read_words(rt, &mut command)?;
    let matches = command.try_get_matches_from(words.as_slice())?;
    task_of(alloc, &matches)
}
