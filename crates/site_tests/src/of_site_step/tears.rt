//! Commands whose record is torn while it is appended, and the restart behind.

use super::*;
use field_bounds::Last;
use kept_records::{Mishap, Record, TornMedium, append_piece};

/// A command whose record is torn, with what it is answered, and what comes before: the medium
/// holds the records of the restarts into the epochs below the first, and the site restarts into
/// those from the first on and below the end, and answers some commands.
pub struct Tear {
    pub first: u32,
    pub end: u32,
    pub before: &'static [Command],
    pub torn: Entry,
}

/// What the restart behind a torn command says, how many records it replayed, and the shares then.
pub type After = (Reply, u64, Option<(u64, u64)>);

/// Whether the records of the restarts into the epochs below this one, at most 998, were appended.
fn appends_restarts<M: Medium>(medium: &mut M, line: &mut Vec<u8>, below: u32) -> bool {
    for epoch in 1..999 {
        if epoch >= below {
            return true;
        }
        if append_piece(line, medium, &Record::Restart { epoch }, None) != Ok(Ok(())) {
            return false;
        }
    }
    true
}

/// Site 0 over a medium, behind the records of the restarts into the epochs below this one.
pub fn site_behind<M: Medium + Drop>(
    rt: &impl Abort,
    alloc: Global,
    medium: M,
    below: u32,
) -> Site<M> {
    let mut line = Vec::new(alloc);
    let mut medium = medium;
    assert!(rt; appends_restarts(&mut medium, &mut line, below));
    open_over(rt, alloc, 0, medium)
}

/// Whether each restart into the epochs from the first on and below the end says that nothing was
/// in doubt.
pub fn restarts<M: Medium>(alloc: Global, site: &mut Site<M>, first: u32, end: u32) -> bool {
    for epoch in first..end {
        let told = Reply::Restarted {
            epoch,
            last: Last::Nothing,
        };
        if answer(alloc, site, Command::Restart) != Some(told) {
            return false;
        }
    }
    true
}

/// Whether the site answers these commands, whatever it says.
pub fn answers_all(alloc: Global, site: &mut Site<TornMedium>, commands: &[Command]) -> bool {
    for command in commands {
        if answer(alloc, site, *command).is_none() {
            return false;
        }
    }
    true
}

/// Whether the command is answered as told where its append is torn after so many bytes, and the
/// site is down then.
pub fn tears(alloc: Global, site: &mut Site<TornMedium>, tear: &Tear, bytes: u64) -> bool {
    site.arm(Mishap::Append(bytes));
    answer(alloc, site, tear.torn.command) == Some(tear.torn.reply) && !site.is_up()
}

/// What a restart behind the torn command tells, where all before goes as told.
fn restart_behind(
    alloc: Global,
    site: &mut Site<TornMedium>,
    tear: &Tear,
    bytes: u64,
) -> Option<After> {
    if !restarts(alloc, site, tear.first, tear.end)
        || !answers_all(alloc, site, tear.before)
        || !tears(alloc, site, tear, bytes)
    {
        return None;
    }
    let reply = answer(alloc, site, Command::Restart)?;
    Some((reply, site.replayed(), site.share(STOCK)))
}

/// The same of a site that is opened for it.
fn torn(rt: &impl Abort, alloc: Global, tear: &Tear, bytes: u64) -> Option<After> {
    let medium = TornMedium::new(Vec::new(alloc));
    let mut site = site_behind(rt, alloc, medium, tear.first);
    restart_behind(alloc, &mut site, tear, bytes)
}

/// The restart tells the same behind each length, in bytes, from the first on and below the second.
pub fn assert_lengths(
    rt: &impl Abort,
    alloc: Global,
    tear: &Tear,
    lengths: (u64, u64),
    after: After,
) {
    for bytes in lengths.0..lengths.1 {
        assert_eq!(rt; torn(rt, alloc, tear, bytes), Some(after));
    }
}
