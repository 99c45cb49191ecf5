//! The rights of one site, by what took effect there.

ghost use Rattle.std.specs.Prelude.{◌≡◌, ◌<◌, ℕ, List};
ghost use Rattle.field_bounds.specs.declared.effect.Effect.{Effect};
ghost use Rattle.field_bounds.specs.Kind.{other};
ghost use Rattle.field_bounds.specs.Parts.{part_of};
ghost use Rattle.field_bounds.specs.Effects.{fresh, own_rights, share, granted_sizes, is_committed};
ghost use Rattle.field_bounds.specs.Lawful.{IsLawful};
ghost use Rattle.reaching_steps.specs.FieldHoldings.{is_of, held_sizes, Tells};

use crate::standing::{FieldHoldings, held_by};
use crate::totals::{Receivers, gained_in, gifts_in};
use field_bounds::{FieldNo, Kind, Schema, SiteNo};

/// The part of a site, and none of a field that isn't there.
fn part_at(schema: &Schema, site: SiteNo, field: FieldNo, kind: Kind) -> u64
    requires in_schema { site.0 < schema.now.sites }
    ensures value { result ≡ part_of schema.now site.0 field.0 kind }
{
    if field.0 < schema.fields() {
        schema.part(site, field, kind)
    } else {
        0
    }
}

/// The committed escrows of a kind, and those of the other.
fn settled_of(standing: &FieldHoldings, kind: Kind) -> (u128, u128)
    ensures settled { (f : ℕ) (es : List Effect) → Tells f standing.now es →
        result.0 ≡ granted_sizes (λ id. is_committed id es) f kind es }
    ensures turned { (f : ℕ) (es : List Effect) → Tells f standing.now es →
        result.1 ≡ granted_sizes (λ id. is_committed id es) f (other kind) es }
{
    match kind {
        Kind::Lower => (standing.lowered, standing.raised),
        Kind::Raise => (standing.raised, standing.lowered),
    }
}

/// What the open transactions hold of a kind.
fn held_of(standing: &FieldHoldings, kind: Kind) -> u128
    ensures held { (f : ℕ) (es : List Effect) → Tells f standing.now es →
        result ≡ held_sizes (is_of None) kind standing.now.held.items }
{
    let (lower, raise) = held_by(&standing.held, None);
    match kind {
        Kind::Lower => lower,
        Kind::Raise => raise,
    }
}

/// The own rights of a site and its share, of a kind on a field, where it stands so. The sums fit:
/// the rights that came to the site, and the settled ones, are fewer than 2^127 each. Costs a look
/// at each open transaction that holds something on the field, and for each site one at each of what
/// was given and accepted on it.
pub(crate) fn rights_of(
    schema: &Schema,
    standing: &FieldHoldings,
    site: SiteNo,
    field: FieldNo,
    kind: Kind,
) -> (u128, u128)
    requires in_schema { site.0 < schema.now.sites }
    ensures own { (es : List Effect)
        → IsLawful schema.now (fresh schema.now site.0) es → Tells field.0 standing.now es →
        result.0 ≡ own_rights (fresh schema.now site.0) field.0 kind es }
    ensures free { (es : List Effect)
        → IsLawful schema.now (fresh schema.now site.0) es → Tells field.0 standing.now es →
        result.1 ≡ share (fresh schema.now site.0) field.0 kind es }
{
    let (settled, turned) = settled_of(standing, kind);
    let held = held_of(standing, kind);
    let given = gifts_in(&standing.gifts, Receivers::Everyone, field, kind);
    let gained = gained_in(&standing.gifts, field, kind, schema.sites());
    let came = u128::from(part_at(schema, site, field, kind)) + gained;
    let own = came
        .saturating_add(turned)
        .saturating_sub(settled)
        .saturating_sub(given);
    (own, own.saturating_sub(held))
}
