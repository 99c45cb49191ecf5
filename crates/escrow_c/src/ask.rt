//! A command in numbers.

ghost use Rattle.std.specs.Prelude.{◌≡◌};
ghost use Rattle.escrow_c.specs.Numbers.{right_of, gift_of, command_of};

use field_bounds::{Command, FieldNo, Kind, SiteNo, Statement, TxnId};

/// A command in numbers. What its kind doesn't name isn't looked at.
#[repr(C)]
#[derive(Clone, Copy)]
pub struct Ask {
    /// 1 begin, 2 escrow, 3 commit, 4 abort, 5 give, 6 restate, 7 spare, 8 tighten, 9 accept, 10
    /// read, 11 share, 12 restart.
    pub kind: u32,
    /// 0 to lower, 1 to raise.
    pub right: u32,
    pub epoch: u32,
    pub number: u32,
    pub field: u16,
    pub from: u16,
    pub to: u16,
    pub amount: u64,
    pub change: i64,
}

// The kind of right of a number.
fn right_of(right: u32) -> Option<Kind>
    ensures { result ≡ right_of right }
{
    match right {
        0 => Some(Kind::Lower),
        1 => Some(Kind::Raise),
        _ => None,
    }
}

// The command of a kind that names a kind of right.
fn gift_of(ask: &Ask, kind: Kind) -> Option<Command>
    ensures { result ≡ gift_of ask.now kind }
{
    let field = FieldNo(ask.field);
    let to = SiteNo(ask.to);
    let amount = ask.amount;
    match ask.kind {
        5 => Some(Command::Give {
            to,
            field,
            kind,
            amount,
        }),
        6 => Some(Command::Restate { to, field, kind }),
        7 => Some(Command::Spare {
            to,
            field,
            kind,
            want: amount,
        }),
        8 => Some(Command::Tighten {
            field,
            kind,
            amount,
        }),
        9 => Some(Command::Accept(Statement {
            from: SiteNo(ask.from),
            to,
            field,
            kind,
            total: amount,
        })),
        _ => None,
    }
}

/// The command, or None where the numbers spell none.
pub fn command_of(ask: &Ask) -> Option<Command>
    ensures { result ≡ command_of ask.now }
{
    let field = FieldNo(ask.field);
    let txn = TxnId {
        epoch: ask.epoch,
        number: ask.number,
    };
    match ask.kind {
        1 => Some(Command::Begin),
        2 => Some(Command::Escrow {
            txn,
            field,
            change: ask.change,
        }),
        3 => Some(Command::Commit { txn }),
        4 => Some(Command::Abort { txn }),
        10 => Some(Command::Read { field }),
        11 => Some(Command::Share { field }),
        12 => Some(Command::Restart),
        _ => gift_of(ask, right_of(ask.right)?),
    }
}
