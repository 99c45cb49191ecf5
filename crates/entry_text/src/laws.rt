//! Laws of the texts, each the contract of a call that does nothing.

ghost use Rattle.field_bounds.specs.Schema.{SchemaValue};
ghost use Rattle.field_bounds.specs.Limits.{IsSchema};
ghost use Rattle.entry_text.specs.Lines.{CommandsAreLines, EntriesAreLines};

/// Each text of a command or of an entry under a schema is a line: it has no LF, and at most 256
/// bytes. The call does nothing; its contract is the law.
pub fn texts_are_lines()
    ensures commands { (schema : SchemaValue) → IsSchema schema → CommandsAreLines schema }
    ensures entries { (schema : SchemaValue) → IsSchema schema → EntriesAreLines schema }
{}
