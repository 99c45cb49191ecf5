//! A schema: its sites, and its fields in order.
//!
//! Source: the division of rights among sites follows Balegas and others 2015.

ghost use Rattle.std.specs.Prelude.{◌≡◌, [], ◌<◌, ◌≤◌, map, Ok, Err, Option, option_map, length};
ghost use Rattle.field_bounds.specs.Schema.{Gives, same_schema, spec_value};
ghost use Rattle.field_bounds.specs.Limits.{is_name_byte, is_name_length, is_name, is_used, has_bounds, field_fault, first_fault, unless, count_of, of_parts};
ghost use Rattle.field_bounds.specs.Header.{schema_of};
ghost use Rattle.field_bounds.specs.Kept.{entry_value, stored_values};

use crate::fault::SchemaFault;
use crate::field::FieldSpec;
use crate::header::{read_json, read_parts};
use crate::id::{FieldNo, SiteNo};
use crate::kind::Kind;
use crate::limits::{MAX_FIELDS, MAX_HEADER, MAX_NAME, MAX_QUANTITY, MAX_SITES};
use crate::spelling::Spelling;
use indexmap::IndexMap;
use std::alloc::{AllocError, Global};
use std::marker::Model;
use std::sync::Arc;

/// The numbers that a field begins with.
#[derive(Clone, Copy, PartialEq, Eq)]
pub(crate) struct FieldBounds {
    pub floor: i64,
    pub ceiling: i64,
    pub value: i64,
}

/// The sites that share the rights, and the fields in order. Contracts see the number of sites and,
/// in order, each field's name, floor, ceiling and value; all are within the limits, and each field
/// has a name of its own.
#[derive(Drop)]
pub struct Schema {
    sites: u16,
    // All copies of a schema share them, so that a look at a field finds it in the same memory.
    fields: Arc<IndexMap<String, FieldBounds>>,
}

impl Model for Schema {
    ghost use Rattle.std.specs.Prelude.{map};
    ghost use Rattle.std.specs.Arc.{arc_value};
    ghost use Rattle.field_bounds.specs.Schema.{SchemaValue};
    ghost use Rattle.field_bounds.specs.Limits.{IsSchema};
    ghost use Rattle.field_bounds.specs.Kept.{entry_value};

    ghost Value = { SchemaValue };

    ghost view = { λ s. record {
      sites = s.sites;
      fields = map entry_value (arc_value s.fields).entries;
    } };

    ghost invariant = { λ s. IsSchema (record {
      sites = s.sites;
      fields = map entry_value (arc_value s.fields).entries;
    }) };
}

/// Two schemas are equal where they have as many sites, and the same fields in the same order, each
/// with the same name, floor, ceiling and value. Costs a look at each field, and no memory.
impl PartialEq for Schema {
    ghost use Rattle.std.specs.Bool.{Decides};
    ghost use Rattle.field_bounds.specs.Equality.{schemas_per};

    ghost eq = { same_schema };

    ghost laws = { schemas_per };

    fn eq(&self, other: &Schema) -> bool
        ensures value { result ≡ same_schema self.now other.now }
        ensures same { Decides result (self.now ≡ other.now) }
    {
        self.sites == other.sites && self.fields.as_slice() == other.fields.as_slice()
    }
}

impl Eq for Schema {
    ghost use Rattle.field_bounds.specs.Equality.{schemas_equiv};

    ghost laws = { schemas_equiv };
}

#[tactic(auto, unfolding(crate::specs::Limits::is_name_byte))]
fn is_name_byte(byte: u8) -> bool
    ensures { result ≡ is_name_byte byte }
{
    matches!(byte, b'a'..=b'z' | b'0'..=b'9' | b'_')
}

#[tactic(auto, unfolding(crate::specs::Limits::is_name_length))]
fn is_name_length(length: usize) -> bool
    ensures { result ≡ is_name_length length }
{
    1 <= length && length <= MAX_NAME
}

#[tactic(auto, unfolding(crate::specs::Limits::is_name))]
fn is_name(name: &str) -> bool
    ensures { result ≡ is_name name.now }
{
    let bytes = name.as_bytes();
    is_name_length(bytes.len()) && bytes.iter().all(|byte| is_name_byte(*byte))
}

fn is_used(fields: &IndexMap<String, FieldBounds>, name: &str) -> bool
    ensures { result ≡ is_used (stored_values fields.now.entries) name.now }
{
    fields.contains_key(name)
}

#[tactic(auto, unfolding(crate::specs::Limits::has_bounds))]
fn has_bounds(spec: &FieldSpec) -> bool
    ensures { result ≡ has_bounds (spec_value spec.now) }
{
    -MAX_QUANTITY <= spec.floor
        && spec.floor <= spec.value
        && spec.value <= spec.ceiling
        && spec.ceiling <= MAX_QUANTITY
}

#[tactic(auto, unfolding(crate::specs::Limits::field_fault))]
fn check_field(fields: &IndexMap<String, FieldBounds>, spec: &FieldSpec) -> Result<(), SchemaFault>
    ensures { result ≡ unless (field_fault (stored_values fields.now.entries) (spec_value spec.now))
        tt }
{
    if !is_name(spec.name.as_str()) {
        return Err(SchemaFault::Name);
    }
    if is_used(fields, spec.name.as_str()) {
        return Err(SchemaFault::NameUsed);
    }
    if !has_bounds(spec) {
        return Err(SchemaFault::Bounds);
    }
    Ok(())
}

fn keep_fields(
    alloc: Global,
    specs: Vec<FieldSpec>,
) -> Result<IndexMap<String, FieldBounds>, SchemaFault>
    ensures { Gives (λ m. stored_values m.entries) result
        (unless (first_fault [] (map spec_value specs.items)) (map spec_value specs.items)) }
{
    let mut fields = IndexMap::new(alloc);
    for spec in specs {
        check_field(&fields, &spec)?;
        let FieldSpec {
            name,
            floor,
            ceiling,
            value,
        } = spec;
        fields.insert(
            name,
            FieldBounds {
                floor,
                ceiling,
                value,
            },
        )?;
    }
    Ok(fields)
}

impl Schema {
    ghost use Rattle.std.specs.Prelude.{position, bytes_eq, IfOk};
    ghost use Rattle.field_bounds.specs.Limits.{IsField, IsSchema};
    ghost use Rattle.field_bounds.specs.Parts.{bounds_of, field_at, part_of, total_of, sum_below};

    /// The schema that a header tells. A header is one line of JSON without its line feed, at most
    /// 65,536 bytes long.
    ///
    /// The fault is the first of these that holds: `TooLong`, `NotJson`, `Shape`, `SiteCount`,
    /// `FieldCount`, and then field by field `Name`, `NameUsed`, `Bounds`. `NoMemory` can come in
    /// place of any answer. A key that stands twice is as `serde_json` reads it.
    ///
    /// Costs a parse of the line, and memory for the JSON value and the fields.
    #[tactic(auto, unfolding(crate::specs::Header::schema_of))]
    pub fn from_header(alloc: Global, header: &[u8]) -> Result<Schema, SchemaFault>
        ensures reads { Gives (λ s. s) result (schema_of header.now) }
    {
        if header.len() > MAX_HEADER {
            return Err(SchemaFault::TooLong);
        }
        let value = read_json(alloc, header)?;
        let parts = read_parts(alloc, &value)?;
        Schema::of_parts(alloc, parts.sites, parts.fields)
    }

    /// The schema of so many sites and these fields, in their order.
    ///
    /// The fault is the first of these that holds: `SiteCount`, `FieldCount`, and then field by
    /// field `Name`, `NameUsed`, `Bounds`. `NoMemory` can come in place of any answer.
    ///
    /// Costs one look-up in a map and one insertion for each field.
    pub fn new(alloc: Global, sites: u16, fields: Vec<FieldSpec>) -> Result<Schema, SchemaFault>
        ensures reads { Gives (λ s. s) result (of_parts sites (map spec_value fields.items)) }
    {
        Schema::of_parts(alloc, i64::from(sites), fields)
    }

    #[tactic(auto, unfolding(crate::specs::Limits::of_parts))]
    fn of_parts(alloc: Global, sites: i64, fields: Vec<FieldSpec>) -> Result<Schema, SchemaFault>
        ensures reads { Gives (λ s. s) result (of_parts (count_of sites)
            (map spec_value fields.items)) }
    {
        if sites < 1 || sites > MAX_SITES {
            return Err(SchemaFault::SiteCount);
        }
        if fields.is_empty() || fields.len() > MAX_FIELDS {
            return Err(SchemaFault::FieldCount);
        }
        let fields = keep_fields(alloc, fields)?;
        Ok(Schema {
            sites: sites as u16,
            fields: Arc::new(alloc, fields)?,
        })
    }

    /// An equal schema, which shares the fields of this one. The error comes where as many copies
    /// stand as can be counted, 9,223,372,036,854,775,807, and never else. Costs one step on a count,
    /// and no memory.
    pub fn copy(&self) -> Result<Schema, AllocError>
        ensures equal { IfOk result (λ copy. copy ≡ self.now) }
    {
        Ok(Schema {
            sites: self.sites,
            fields: Arc::try_clone(&self.fields)?,
        })
    }

    /// How many sites there are, 1 to 64. Costs no memory.
    pub fn sites(&self) -> u16
        ensures value { result ≡ self.now.sites }
        ensures limits { IsSchema self.now }
    {
        self.sites
    }

    /// How many fields there are, 1 to 256. Costs no memory.
    pub fn fields(&self) -> u16
        ensures value { result ≡ length self.now.fields }
        ensures limits { IsSchema self.now }
    {
        self.fields.len() as u16
    }

    /// The floor, the ceiling and the value that a field begins with, as quantities. Each is within
    /// -10^15 to 10^15, and the value lies between the other two. Costs no memory.
    pub fn bounds(&self, field: FieldNo) -> (i64, i64, i64)
        requires in_schema { field.0 < length self.now.fields }
        ensures value { result ≡ bounds_of (field_at self.now field.0) }
        ensures limits { IsField (field_at self.now field.0) }
    {
        let (_, bounds) = self.fields.get_index(usize::from(field.0)).unwrap();
        (bounds.floor, bounds.ceiling, bounds.value)
    }

    /// The field of a name, or None where no field has it. Costs one look-up in a map, and no
    /// memory.
    pub fn field_no(&self, name: &str) -> Option<FieldNo>
        ensures place { option_map (λ n. n.0) result
            ≡ position (λ f. bytes_eq name.now f.name) self.now.fields }
    {
        self.field_no_of(name.as_bytes())
    }

    /// The field whose name these bytes spell, or None where they spell no field's: for readers of
    /// lines that may hold any bytes. Costs one look-up in a map, and no memory.
    pub fn field_no_of(&self, name: &[u8]) -> Option<FieldNo>
        ensures place { option_map (λ n. n.0) result
            ≡ position (λ f. bytes_eq name.now f.name) self.now.fields }
    {
        let place = self.fields.get_index_of(Spelling { bytes: name })?;
        Some(FieldNo(place as u16))
    }

    /// The name of a field. Costs no memory.
    pub fn name(&self, field: FieldNo) -> &str
        requires in_schema { field.0 < length self.now.fields }
        ensures value { result.now ≡ (field_at self.now field.0).name }
    {
        let (name, _) = self.fields.get_index(usize::from(field.0)).unwrap();
        name.as_str()
    }

    /// The rights of a kind, on a field, that a site begins with: the total over the number of
    /// sites, and one more at the first sites for what that leaves. The total is value less floor
    /// for lowering rights and ceiling less value for raising rights, and the parts of all sites
    /// add up to it. Costs no memory.
    pub fn part(&self, site: SiteNo, field: FieldNo, kind: Kind) -> u64
        requires site_in { site.0 < self.now.sites }
        requires field_in { field.0 < length self.now.fields }
        ensures value { result ≡ part_of self.now site.0 field.0 kind }
        ensures whole { sum_below self.now.sites (λ s. part_of self.now s field.0 kind)
            ≡ total_of (field_at self.now field.0) kind }
        ensures within { result ≤ total_of (field_at self.now field.0) kind }
    {
        let total = self.total(field, kind);
        let sites = u64::from(self.sites());
        total / sites + u64::from(u64::from(site.0) < total % sites)
    }

    fn total(&self, field: FieldNo, kind: Kind) -> u64
        requires in_schema { field.0 < length self.now.fields }
        ensures value { result ≡ total_of (field_at self.now field.0) kind }
    {
        let (floor, ceiling, value) = self.bounds(field);
        match kind {
            Kind::Lower => value.abs_diff(floor),
            Kind::Raise => ceiling.abs_diff(value),
        }
    }
}
