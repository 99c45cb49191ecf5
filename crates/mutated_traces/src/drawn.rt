//! Commands and replies that are drawn.

use crate::dice::Dice;
use field_bounds::{Command, FieldNo, Kind, Last, Refusal, Reply, SiteNo, Statement, TxnId};

/// One of the sites, or one that there is not.
pub fn site(dice: &mut Dice) -> SiteNo {
    SiteNo(dice.small(4))
}

/// One of the fields, or one that there is not.
fn field(dice: &mut Dice) -> FieldNo {
    let drawn = dice.small(7);
    FieldNo(if drawn < 6 { drawn / 2 } else { 3 })
}

fn kind(dice: &mut Dice) -> Kind {
    if dice.below(2) == 0 {
        Kind::Lower
    } else {
        Kind::Raise
    }
}

fn txn(dice: &mut Dice) -> TxnId {
    let epoch = if dice.below(4) == 0 { 1 } else { 0 };
    let number = if dice.below(3) == 0 { 2 } else { 1 };
    TxnId { epoch, number }
}

/// -7 to 7, and now and then three times that.
fn change(dice: &mut Dice) -> i64 {
    let drawn = i64::from(dice.small(15)) - 7;
    if dice.below(6) == 0 { drawn * 3 } else { drawn }
}

fn statement(dice: &mut Dice) -> Statement {
    Statement {
        from: site(dice),
        to: site(dice),
        field: field(dice),
        kind: kind(dice),
        total: dice.below(6),
    }
}

/// A command that moves rights from site to site, or away.
fn moving(dice: &mut Dice) -> Command {
    let to = site(dice);
    let field = field(dice);
    let kind = kind(dice);
    let amount = dice.below(6);
    match dice.below(6) {
        0 => Command::Restate { to, field, kind },
        1 => {
            Command::Spare {
                to,
                field,
                kind,
                want: amount,
            }
        }
        2 => {
            Command::Tighten {
                field,
                kind,
                amount,
            }
        }
        _ => {
            Command::Give {
                to,
                field,
                kind,
                amount,
            }
        }
    }
}

/// Any command but an Accept.
pub fn asked(dice: &mut Dice) -> Command {
    match dice.below(16) {
        0 | 1 | 2 => Command::Begin,
        3 | 4 | 5 | 6 => {
            Command::Escrow {
                txn: txn(dice),
                field: field(dice),
                change: change(dice),
            }
        }
        7 | 8 => Command::Commit { txn: txn(dice) },
        9 => Command::Abort { txn: txn(dice) },
        10 | 11 => Command::Read { field: field(dice) },
        12 => Command::Share { field: field(dice) },
        13 => Command::Restart,
        _ => moving(dice),
    }
}

/// Any command.
pub fn command(dice: &mut Dice) -> Command {
    if dice.below(6) == 0 {
        Command::Accept(statement(dice))
    } else {
        asked(dice)
    }
}

fn last(dice: &mut Dice) -> Last {
    match dice.below(3) {
        0 => Last::Nothing,
        1 => Last::Kept,
        _ => Last::Lost,
    }
}

fn refusal(dice: &mut Dice) -> Refusal {
    let number = dice.below(8);
    match dice.below(20) {
        0 => Refusal::Down,
        1 => Refusal::NoSite,
        2 => Refusal::NoField,
        3 => Refusal::NoTransaction,
        4 => Refusal::Zero,
        5 => Refusal::TooLarge,
        6 => Refusal::SelfGift,
        7 => Refusal::LedgerFull { total: number },
        8 => Refusal::NotYours,
        9 => Refusal::Forged { room: number },
        10 => Refusal::TooManyOpen,
        11 => Refusal::TooManyEscrows,
        12 => Refusal::NumbersFull,
        13 => Refusal::NothingGiven,
        _ => Refusal::Short { share: number },
    }
}

/// An answer with an amount or a total.
fn amount_told(dice: &mut Dice) -> Reply {
    let number = dice.below(6);
    match dice.below(5) {
        0 => Reply::Given { total: number },
        1 => Reply::Stated { total: number },
        2 => {
            Reply::Spared {
                amount: number,
                total: dice.below(6),
            }
        }
        3 => Reply::Tightened { total: number },
        _ => Reply::Accepted { gain: number },
    }
}

/// An interval.
fn between(dice: &mut Dice) -> Reply {
    let lo = change(dice);
    Reply::Between {
        lo,
        hi: lo.saturating_add(i64::from(dice.small(20))),
    }
}

/// A reply of the kind that a command may be answered with.
pub fn answer(dice: &mut Dice, command: Command) -> Reply {
    match command {
        Command::Begin => Reply::Begun(txn(dice)),
        Command::Escrow { .. } => Reply::Granted,
        Command::Commit { .. } => Reply::Committed,
        Command::Abort { .. } => Reply::Aborted,
        Command::Tighten { .. } => Reply::Tightened {
            total: dice.below(8),
        },
        Command::Read { .. } => between(dice),
        Command::Restart => Reply::Restarted {
            epoch: 1,
            last: last(dice),
        },
        Command::Accept(_) => Reply::Accepted {
            gain: dice.below(6),
        },
        _ => amount_told(dice),
    }
}

/// Any reply.
pub fn reply(dice: &mut Dice) -> Reply {
    match dice.below(16) {
        0 => Reply::Begun(txn(dice)),
        1 | 2 => Reply::Granted,
        3 => Reply::Committed,
        4 => Reply::Aborted,
        5 => between(dice),
        6 => {
            Reply::Shares {
                lower: dice.below(8),
                raise: dice.below(8),
            }
        }
        7 => {
            Reply::Restarted {
                epoch: 1,
                last: last(dice),
            }
        }
        8 => Reply::Unsure,
        9 => Reply::StillDown,
        10 | 11 | 12 => Reply::Refused(refusal(dice)),
        _ => amount_told(dice),
    }
}
