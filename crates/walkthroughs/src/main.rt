//! Runs each script of `examples/`, and tells whether it writes what stands beside it, and how that
//! is judged. Where all sites work at the same time, what is written may differ from run to run: it
//! tells whether each site did its own lines in their order, and how the whole is judged.
#![tactic(auto)]

use escrow_audit::audit_text;
use escrow_run::run_script;
use escrow_work::work_text;
use script_input::Watched;
use std::alloc::{AllocError, Global};
use std::sync::Wait;
use std::thread::Threads;
use std::{fs, io};

const WALKTHROUGHS: [&str; 10] = [
    "one_gift",
    "two_warehouses",
    "three_desks",
    "two_branches",
    "shop_stock",
    "two_shops",
    "three_shops",
    "flight_seats",
    "account_limit",
    "what_a_read_means",
];

/// Commands for all sites at the same time, and how many sites there are.
const WORKS: [(&str, &[&str]); 1] = [("counters_at_once", &["0 ", "1 ", "2 "])];

/// What a script writes; a fault ends it early.
fn write_script(alloc: Global, script: &str) -> Vec<u8> {
    let mut writer = Watched::new(Vec::new(alloc));
    let _ = run_script(alloc, &mut Watched::new(script.as_bytes()), &mut writer);
    writer.into_inner()
}

/// How an audit answers what a script writes; a fault ends it early.
fn audit_script(
    rt: &(impl Threads + Sync),
    alloc: Global,
    fields: bool,
    answers: &[u8],
) -> Vec<u8> {
    let mut writer = Watched::new(Vec::new(alloc));
    let _ = audit_text(rt, alloc, fields, &mut Watched::new(answers), &mut writer);
    writer.into_inner()
}

/// What the sites write of their commands; a fault ends it early.
fn worked(rt: &(impl Threads + Wait + Sync), alloc: Global, commands: &str) -> Vec<u8> {
    let mut writer = Watched::new(Vec::new(alloc));
    let _ = work_text(
        rt,
        alloc,
        &mut Watched::new(commands.as_bytes()),
        &mut writer,
    );
    writer.into_inner()
}

/// The command of an entry.
fn command_of(entry: &str) -> &str {
    match entry.split_once(" -> ") {
        Some((command, _)) => command,
        None => entry,
    }
}

/// Whether the commands of a site, its acceptances left out, are its lines, in their order.
fn did_its_lines(site: &str, commands: &str, answers: &str) -> bool {
    let asked = commands.lines().filter(|line| line.starts_with(site));
    let done = answers
        .lines()
        .filter(|line| line.starts_with(site) && !line.contains(" accept "))
        .map(|line| command_of(line));
    asked.eq(done)
}

fn path(alloc: Global, name: &str, ending: &str) -> Result<String, AllocError> {
    format!(in alloc; "{name}.{ending}")
}

fn main(rt: HostRuntime) -> io::Result<()> {
    let alloc = rt.alloc();
    for name in WALKTHROUGHS {
        let script = fs::read_to_string(&rt, path(alloc, name, "txt")?.as_str())?;
        let told = fs::read_to_string(&rt, path(alloc, name, "out")?.as_str())?;
        let answers = write_script(alloc, script.as_str());
        if answers.as_slice() == told.as_bytes() {
            println!(rt; "{name}: as told")?;
        } else {
            println!(rt; "{name}: differs")?;
        }
        for fields in [false, true] {
            let judged = audit_script(&rt, alloc, fields, answers.as_slice());
            print!(rt;
                "{name}: {}",
                str::from_utf8(judged.as_slice()).unwrap_or("no text\n")
            )?;
        }
    }
    for (name, sites) in WORKS {
        let commands = fs::read_to_string(&rt, path(alloc, name, "txt")?.as_str())?;
        let answers = worked(&rt, alloc, commands.as_str());
        let text = str::from_utf8(answers.as_slice()).unwrap_or("");
        for site in sites {
            let told = if did_its_lines(*site, commands.as_str(), text) {
                "its own lines"
            } else {
                "other lines"
            };
            println!(rt; "{name}: site {site}did {told}")?;
        }
        for fields in [false, true] {
            let judged = audit_script(&rt, alloc, fields, answers.as_slice());
            print!(rt;
                "{name}: {}",
                str::from_utf8(judged.as_slice()).unwrap_or("no text\n")
            )?;
        }
    }
    Ok(())
}
