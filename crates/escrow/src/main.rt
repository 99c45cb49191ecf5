//! The program `escrow`: a script of commands on standard input and its answers on standard output,
//! all sites at work at the same time, or such answers and their audit.
#![tactic(auto)]

use clap::error::ErrorKind;
use clap::{Arg, ArgAction, ArgMatches, Command, Error};
use escrow_audit::{AuditEnd, audit_text};
use escrow_run::run_script;
use escrow_work::work_text;
use script_input::{ScriptFault, Watched};
use std::alloc::{AllocError, Global};
use std::process::ExitCode;
use std::rt::Env;
use std::{env, io};

const ABOUT: &str = "A database of quantity fields: stock, seats, quotas, account limits";

const EXAMPLE: &str = "\
A field keeps a value between a floor and a ceiling. A transaction sets
quantities aside before it commits, so no outcome can pass either bound.

Example:
  escrow run < script.txt > answers.txt
  escrow work < commands.txt > answers.txt
  escrow audit < answers.txt

Statuses: 0 done; 1 a read or write failed, or the input is too long;
2 the command line, the header or a line of `work` is refused; 3 the audit found
an entry that is illegal, or a line that is no entry, or `work` came to no trace;
4 out of memory.

The help of each command tells its lines, its faults and its statuses. Every line,
reply, refusal and fault: docs/FORMATS.md.";

const RUN_ABOUT: &str = "Answers the script on standard input, line by line";

const RUN_EXAMPLE: &str = "\
Line 1 is a JSON header: the number of sites, 1 to 64, and 1 to 256 fields, each
with its floor, ceiling and value. The rights to lower and to raise a field are
divided evenly among the sites. Each other line is a command at a site:

  SITE begin                    opens a transaction, ID, told as 0.1
  SITE escrow ID FIELD CHANGE   sets a change aside, below 0 to lower
  SITE commit ID                makes the changes of a transaction permanent
  SITE abort ID                 gives them back
  SITE give TO FIELD KIND N     gives N free rights to site TO; KIND is lower or
                                raise
  SITE restate TO FIELD KIND    tells the total of such gifts again
  SITE spare TO FIELD KIND N    gives at most N, and at most half of its share
  SITE tighten FIELD KIND N     gives N free rights up for good: those to lower
                                raise the floor, those to raise lower the ceiling
  SITE read FIELD               tells between which values the field lies
  SITE share FIELD              tells the site's free rights to lower and to raise
  SITE restart                  the site stops, and stands anew on what it kept
  deliver K                     the K-th statement that was issued reaches its
                                receiver, which accepts it
  level FIELD KIND              evens out free rights among the sites that are up
  reach SITE FIELD TARGET       takes steps at the other sites, after which the
                                field's committed value is TARGET

` torn N` behind a line tears what it appends after N bytes. Each line is
answered by its command, an arrow and the reply; a reply as `refused 7 short 20`
has the number of the refusal, its word, and here how many rights the site has.
Any other line, as one with a site or a field that the header hasn't, a second
space, a capital or a comment, is answered by `bad line`, and changes nothing. A
line behind the header has at most 256 bytes, and a script 1,000,000 lines and
268,435,456 bytes.

Statuses, with what is told of a fault on standard error:

  0                     all lines are answered; refusals and bad lines are answers
  1  read fault         standard input can't be read
     write fault        standard output can't be written
     input too long     there are more lines or bytes than that
  2  header S1          line 1 is no JSON
     header S2          it has another shape: a key too many or missing, a value
                        of another type, a number that isn't whole
     header S3          the number of sites isn't 1 to 64
     header S4          the number of fields isn't 1 to 256
     header S5          a field's name isn't 1 to 32 of a-z, 0-9 and _
     header S6          a name is used twice
     header S7          a field's bounds aren't floor <= value <= ceiling, each of
                        them from -10^15 to 10^15
     header S9          it has more than 65,536 bytes
  4  out of memory      S8, or want of memory later

Every line, reply, refusal and fault: docs/FORMATS.md.

Example input:
  {\"sites\":1,\"fields\":[{\"name\":\"stock\",\"floor\":0,\"ceiling\":100,\"value\":40}]}
  0 begin
  0 escrow 0.1 stock -20
  0 commit 0.1
  0 read stock

Its output, behind the header line:
  0 begin -> begun 0.1
  0 escrow 0.1 stock -20 -> granted
  0 commit 0.1 -> committed
  0 read stock -> between 20 20";

const WORK_ABOUT: &str = "Runs the commands on standard input, all sites at the same time";

const WORK_EXAMPLE: &str = "\
Line 1 is the header, as for `escrow run`. Each other line is a command of `run`
at a site, SITE COMMAND; `torn`, `deliver`, `level` and `reach` aren't taken. Each
site does its own lines in their order, in a thread of its own, and every gift is
told to its receiver, which accepts it.

The header is written, and then what all sites did, as one trace that `escrow
audit` finds legal. Its order may differ from run to run.

Statuses and faults are those of `escrow run`, whose help lists S1 to S9, and:

  2  bad line L         line L is no such command; the header is line 1
  3  work fault, stuck, illegal
                        the sites came to no trace

Every line, reply, refusal and fault: docs/FORMATS.md.

Example input:
  {\"sites\":2,\"fields\":[{\"name\":\"stock\",\"floor\":0,\"ceiling\":100,\"value\":40}]}
  0 give 1 stock lower 5

Its output, behind the header line:
  0 give 1 stock lower 5 -> given 5
  1 accept 0 1 stock lower 5 -> accepted 5";

const AUDIT_ABOUT: &str = "Judges the answers of a run on standard input";

const AUDIT_EXAMPLE: &str = "\
The input is what `escrow run` or `escrow work` wrote, or a trace from elsewhere in that form:
line 1 is the header, and each other line an entry, COMMAND -> REPLY. The remarks
of a run are skipped: `bad line`, a delivery of no statement, and what stands
ahead of the gifts of `level` and of the steps of `reach`.

One line is written:

  legal N           the N entries are a run of one store, each reply as owed
  illegal AT RULE   entry AT is the first that breaks a rule, and RULE the first
                    that it breaks: site, grant, shortage, interval, statement
                    or reply
  bad entry L       line L is the first that is neither an entry nor a remark

The status is 0 where it is legal, and else 3. The other statuses and faults are
those of `escrow run`, whose help lists S1 to S9. What each rule asks for, and
every line: docs/FORMATS.md and docs/DEFINITIONS.md.

Example input:
  {\"sites\":1,\"fields\":[{\"name\":\"stock\",\"floor\":0,\"ceiling\":100,\"value\":40}]}
  0 begin -> begun 0.1
  0 escrow 0.1 stock -41 -> granted

Its output:
  illegal 2 grant";

const FIELDS_HELP: &str = "Judges in two threads; the answer is the same";

/// What the command line asks for.
#[derive(Clone, Copy)]
enum TextCall {
    Run,
    Work,
    Audit { fields: bool },
}

fn run_command<'a>(alloc: Global) -> Command<'a> {
    Command::new(alloc, "run")
        .about(RUN_ABOUT)
        .after_help(RUN_EXAMPLE)
}

fn work_command<'a>(alloc: Global) -> Command<'a> {
    Command::new(alloc, "work")
        .about(WORK_ABOUT)
        .after_help(WORK_EXAMPLE)
}

fn fields_arg<'a>(alloc: Global) -> Arg<'a> {
    Arg::new(alloc, "fields")
        .long("fields")
        .help(FIELDS_HELP)
        .action(ArgAction::SetTrue)
}

fn audit_command<'a>(alloc: Global) -> Result<Command<'a>, AllocError> {
    Command::new(alloc, "audit")
        .about(AUDIT_ABOUT)
        .after_help(AUDIT_EXAMPLE)
        .arg(fields_arg(alloc))
}

// The command with a subcommand, where that could be made.
fn with_part<'a>(
    whole: Command<'a>,
    part: Result<Command<'a>, AllocError>,
) -> Result<Command<'a>, AllocError> {
    whole.subcommand(part?)
}

fn program<'a>(alloc: Global) -> Result<Command<'a>, AllocError> {
    let whole = Command::new(alloc, "escrow")
        .about(ABOUT)
        .after_help(EXAMPLE)
        .subcommand_required(true)
        .arg_required_else_help(true)
        .subcommand(run_command(alloc))?
        .subcommand(work_command(alloc))?;
    with_part(whole, audit_command(alloc))
}

// The task that the words of a command line ask for.
fn task_of(alloc: Global, matches: &ArgMatches<'_>) -> Result<TextCall, Error> {
    match matches.subcommand() {
        Some(("run", _)) => Ok(TextCall::Run),
        Some(("work", _)) => Ok(TextCall::Work),
        Some(("audit", asked)) => Ok(TextCall::Audit {
            fields: asked.get_flag("fields"),
        }),
        _ => Err(program(alloc)?.error(ErrorKind::MissingSubcommand, "no subcommand")?),
    }
}

// The words of the command line.
fn read_words(
    rt: &(impl Env + AllocGlobal),
    command: &mut Command<'_>,
) -> Result<Vec<String>, Error> {
    match env::args(rt) {
        Ok(words) => Ok(words.collect(rt.alloc())?),
        Err(fault) if fault.kind() == io::ErrorKind::OutOfMemory => Err(AllocError.into()),
        Err(_) => {
            let words = "invalid UTF-8 was detected in one or more arguments";
            Err(command.error(ErrorKind::InvalidValue, words)?)
        }
    }
}

fn read_task(rt: &(impl Env + AllocGlobal)) -> Result<TextCall, Error> {
    let alloc = rt.alloc();
    let mut command = program(alloc)?;
    let words = read_words(rt, &mut command)?;
    let matches = command.try_get_matches_from(words.as_slice())?;
    task_of(alloc, &matches)
}

fn status_of(fault: ScriptFault) -> u8 {
    match fault {
        ScriptFault::Read | ScriptFault::TooLong | ScriptFault::Write => 1,
        ScriptFault::Header(_) | ScriptFault::BadLine(_) => 2,
        ScriptFault::Work(_) | ScriptFault::Stuck | ScriptFault::Illegal => 3,
        ScriptFault::NoMemory => 4,
    }
}

/// Tells a fault on standard error. A write that fails there changes nothing.
fn tell(rt: &impl Eprint, fault: ScriptFault) -> u8 {
    let _ = eprintln!(rt; "escrow: {fault}");
    status_of(fault)
}

/// Tells why the command line asks for no task, and gives help where it asks for that.
fn tell_refused(rt: &(impl Print + Eprint), error: &Error) -> u8 {
    if error.kind() == ErrorKind::OutOfMemory {
        return tell(rt, ScriptFault::NoMemory);
    }
    if error.print(rt).is_err() && !error.use_stderr() {
        return tell(rt, ScriptFault::Write);
    }
    if error.use_stderr() { 2 } else { 0 }
}

/// The status of an audit that ended.
fn status_of_end(end: AuditEnd) -> u8 {
    match end {
        AuditEnd::Legal => 0,
        AuditEnd::Illegal | AuditEnd::BadEntry => 3,
    }
}

fn main(rt: HostRuntime) -> ExitCode {
    let task = match read_task(&rt) {
        Ok(task) => task,
        Err(error) => return ExitCode::from(tell_refused(&rt, &error)),
    };
    let alloc = rt.alloc();
    let mut reader = Watched::new(rt.stdin());
    let mut writer = Watched::new(rt.stdout());
    let ended = match task {
        TextCall::Run => run_script(alloc, &mut reader, &mut writer).map(|()| 0),
        TextCall::Work => work_text(&rt, alloc, &mut reader, &mut writer).map(|()| 0),
        TextCall::Audit { fields } => {
            audit_text(&rt, alloc, fields, &mut reader, &mut writer).map(status_of_end)
        }
    };
    match ended {
        Ok(status) => ExitCode::from(status),
        Err(fault) => ExitCode::from(tell(&rt, fault)),
    }
}
