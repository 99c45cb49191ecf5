//! Commands, spelled piece by piece onto whatever takes text.

ghost use Rattle.std.specs.Prelude.{◌≡◌, ◌++◌, ◌∷◌, OnOk};
ghost use Rattle.std.specs.Fmt.{decimal};
ghost use Rattle.entry_text.specs.Spelling.{kind_text, field_text, command_text};

use crate::append::{AddText, push_counted, push_number, push_signed, push_two, push_txn};
use field_bounds::{Command, FieldNo, Kind, Schema, SiteNo};
use std::alloc::AllocError;

// A kind of right, with a space before it.
fn kind_word(kind: Kind) -> &'static str
    ensures { result.now ≡ 32 ∷ kind_text kind }
{
    match kind {
        Kind::Lower => " lower",
        Kind::Raise => " raise",
    }
}

// Adds a space, and the name of a field, or a sharp and its number where the schema has no field of
// the number.
fn push_field<T: AddText>(out: &mut T, schema: &Schema, field: FieldNo) -> Result<(), AllocError>
    ensures { OnOk result (T.held out.new ≡ T.held out.old ++ 32 ∷ field_text schema.now field) }
{
    if field.0 < schema.fields() {
        out.add(" ")?;
        return out.add(schema.name(field));
    }
    push_counted(out, " #", u64::from(field.0))
}

// Adds a field, a kind and a number of rights, a space before each.
fn push_rights<T: AddText>(
    out: &mut T,
    schema: &Schema,
    field: FieldNo,
    kind: Kind,
    amount: u64,
) -> Result<(), AllocError>
    ensures { OnOk result (T.held out.new ≡ T.held out.old
        ++ 32 ∷ (field_text schema.now field ++ 32 ∷ (kind_text kind ++ 32 ∷ decimal amount))) }
{
    push_field(out, schema, field)?;
    out.add(kind_word(kind))?;
    push_counted(out, " ", amount)
}

/// Adds the text of the command at a site under the schema. Where memory is refused any of it may
/// have been added.
pub(crate) fn push_command<T: AddText>(
    out: &mut T,
    schema: &Schema,
    site: SiteNo,
    command: Command,
) -> Result<(), AllocError>
    ensures { OnOk result (T.held out.new
        ≡ T.held out.old ++ command_text schema.now site command) }
{
    push_number(out, u64::from(site.0))?;
    match command {
        Command::Begin => out.add(" begin"),
        Command::Escrow { txn, field, change } => {
            push_txn(out, " escrow ", txn)?;
            push_field(out, schema, field)?;
            out.add(" ")?;
            push_signed(out, change)
        }
        Command::Commit { txn } => push_txn(out, " commit ", txn),
        Command::Abort { txn } => push_txn(out, " abort ", txn),
        Command::Give {
            to,
            field,
            kind,
            amount,
        } => {
            push_counted(out, " give ", u64::from(to.0))?;
            push_rights(out, schema, field, kind, amount)
        }
        Command::Restate { to, field, kind } => {
            push_counted(out, " restate ", u64::from(to.0))?;
            push_field(out, schema, field)?;
            out.add(kind_word(kind))
        }
        Command::Spare {
            to,
            field,
            kind,
            want,
        } => {
            push_counted(out, " spare ", u64::from(to.0))?;
            push_rights(out, schema, field, kind, want)
        }
        Command::Tighten {
            field,
            kind,
            amount,
        } => {
            out.add(" tighten")?;
            push_rights(out, schema, field, kind, amount)
        }
        Command::Accept(told) => {
            push_two(
                out,
                " accept ",
                u64::from(told.from.0),
                u64::from(told.to.0),
            )?;
            push_rights(out, schema, told.field, told.kind, told.total)
        }
        Command::Read { field } => {
            out.add(" read")?;
            push_field(out, schema, field)
        }
        Command::Share { field } => {
            out.add(" share")?;
            push_field(out, schema, field)
        }
        Command::Restart => out.add(" restart"),
    }
}
