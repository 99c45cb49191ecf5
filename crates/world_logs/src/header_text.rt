//! The header of a schema, as text.

ghost use Rattle.std.specs.Prelude.{◌≡◌, ◌≢◌, ◌<◌, ◌++◌, Ok, IfOk, IfErr, OnOk, length, drop, string_bytes};
ghost use Rattle.field_bounds.specs.Limits.{IsSchema};
ghost use Rattle.field_bounds.specs.Header.{schema_of};
ghost use Rattle.field_bounds.specs.Parts.{field_at};
ghost use Rattle.world_logs.specs.declared.header_text.HeaderFault.TheVariants.{NotReadBack};
ghost use Rattle.world_logs.specs.HeaderText.{number_text, field_text, others_text, fields_text, header_text};

use field_bounds::{FieldNo, Schema, SchemaFault};
use itoa::Buffer;
use std::alloc::{AllocError, Global};

/// Why no header was written.
#[derive(Clone, Copy, Debug, PartialEq, Eq)]
pub enum HeaderFault {
    /// The line isn't read as an equal schema. That never comes, which is tried, and not proved.
    NotReadBack,
    /// Memory is wanting.
    NoMemory,
}

impl From<AllocError> for HeaderFault {
    ghost use Rattle.std.specs.Prelude.{◌≡◌};
    ghost use Rattle.world_logs.specs.declared.header_text.HeaderFault.TheVariants.{NoMemory};

    ghost from_gives = { λ _ e. e ≡ NoMemory };

    fn from(_refused: AllocError) -> HeaderFault {
        HeaderFault::NoMemory
    }
}

/// Adds a number behind what stands in front of it.
fn push_number(header: &mut String, front: &str, number: i64) -> Result<(), AllocError>
    ensures ok { OnOk result (string_bytes header.new
        ≡ string_bytes header.old ++ number_text front.now number) }
{
    let mut buffer = Buffer::new();
    header.push_str(front)?;
    header.push_str(buffer.format(number))
}

/// Adds a field.
fn push_field(header: &mut String, schema: &Schema, field: FieldNo) -> Result<(), AllocError>
    requires field_in { field.0 < length schema.now.fields }
    ensures ok { OnOk result (string_bytes header.new
        ≡ string_bytes header.old ++ field_text (field_at schema.now field.0)) }
{
    let (floor, ceiling, value) = schema.bounds(field);
    header.push_str("{\"name\":\"")?;
    header.push_str(schema.name(field))?;
    push_number(header, "\",\"floor\":", floor)?;
    push_number(header, ",\"ceiling\":", ceiling)?;
    push_number(header, ",\"value\":", value)?;
    header.push_str("}")?;
    Ok(())
}

/// Adds all fields but the first, each behind a comma.
fn push_others(header: &mut String, schema: &Schema) -> Result<(), AllocError>
    ensures ok { OnOk result (string_bytes header.new
        ≡ string_bytes header.old ++ others_text (drop 1 schema.now.fields)) }
{
    for number in 1..schema.fields() {
        header.push_str(",")?;
        push_field(header, schema, FieldNo(number))?;
    }
    Ok(())
}

/// Adds all fields, with a comma between them.
fn push_fields(header: &mut String, schema: &Schema) -> Result<(), AllocError>
    requires limits { IsSchema schema.now }
    ensures ok { OnOk result (string_bytes header.new
        ≡ string_bytes header.old ++ fields_text schema.now.fields) }
{
    push_field(header, schema, FieldNo(0))?;
    push_others(header, schema)?;
    Ok(())
}

/// The header line of a schema.
fn header_text(alloc: Global, schema: &Schema) -> Result<String, AllocError>
    ensures text { IfOk result (λ header. string_bytes header ≡ header_text schema.now) }
{
    let mut sites = Buffer::new();
    let mut header = String::from_str(alloc, "{\"sites\":")?;
    header.push_str(sites.format(schema.sites()))?;
    header.push_str(",\"fields\":[")?;
    push_fields(&mut header, schema)?;
    header.push_str("]}")?;
    Ok(header)
}

/// The header of a schema: one line of JSON, without a line feed, with no space in it, that
/// `Schema::from_header` reads as an equal schema. That is tried before it is answered, and
/// `NotReadBack` comes only where it isn't so. `NoMemory` can come in place of any answer. Costs a
/// parse of the line, and memory for it and for the schema that it is read as.
pub fn write_header(alloc: Global, schema: &Schema) -> Result<String, HeaderFault>
    ensures text { IfOk result (λ header. string_bytes header ≡ header_text schema.now) }
    ensures reads_back { IfOk result (λ header. schema_of (string_bytes header) ≡ Ok schema.now) }
    ensures fault { IfErr result (λ fault. fault ≡ NotReadBack
        → schema_of (header_text schema.now) ≢ Ok schema.now) }
{
    let header = header_text(alloc, schema)?;
    match Schema::from_header(alloc, header.as_bytes()) {
        Ok(read) => {
            if read == *schema {
                Ok(header)
            } else {
                Err(HeaderFault::NotReadBack)
            }
        }
        Err(SchemaFault::NoMemory) => Err(HeaderFault::NoMemory),
        Err(_) => Err(HeaderFault::NotReadBack),
    }
}
