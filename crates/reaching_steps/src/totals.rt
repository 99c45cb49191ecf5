//! What a site has given, given up and accepted, by what took effect there.

ghost use Rattle.std.specs.Prelude.{◌≡◌, ◌≤◌, ◌<◌, ◌∷◌, ◌+◌, ℕ, Option, max, List};
ghost use Rattle.field_bounds.specs.declared.effect.Effect.{Effect};
ghost use Rattle.field_bounds.specs.Schema.{SchemaValue};
ghost use Rattle.field_bounds.specs.Parts.{sum_below};
ghost use Rattle.field_bounds.specs.Effects.{Base, fresh, gifts, total_accepted};
ghost use Rattle.reaching_steps.specs.Told.{passes};

use field_bounds::{Effect, FieldNo, Kind, SiteNo};

/// To whom rights left.
#[derive(Clone, Copy)]
pub(crate) enum Receivers {
    /// To one site.
    OneSite(SiteNo),
    /// For good.
    ForGood,
    /// To any site, or for good.
    Everyone,
}

/// Whether what left counts.
fn passes(receivers: Receivers, to: Option<SiteNo>) -> bool
    ensures value { result ≡ passes receivers to }
{
    match receivers {
        Receivers::OneSite(site) => match to {
            None => false,
            Some(other) => other.0 == site.0,
        },
        Receivers::ForGood => match to {
            None => true,
            Some(_) => false,
        },
        Receivers::Everyone => true,
    }
}

/// How much of a kind on a field an effect gives to the receivers.
fn gift_in(effect: &Effect, receivers: Receivers, field: FieldNo, kind: Kind) -> u64
    ensures value { (es : List Effect) →
        gifts (passes receivers) field.0 kind (effect.now ∷ es) ≡ result
        + gifts (passes receivers) field.0 kind es }
{
    match *effect {
        Effect::Gives {
            to,
            field: at,
            kind: of,
            amount,
        } => {
            if at.0 == field.0 && of.is(kind) && passes(receivers, to) {
                amount
            } else {
                0
            }
        }
        _ => 0,
    }
}

/// The amounts of a kind on a field that left to the receivers.
pub(crate) fn gifts_in(told: &[Effect], receivers: Receivers, field: FieldNo, kind: Kind) -> u128
    ensures value { result ≡ gifts (passes receivers) field.0 kind told.now }
{
    let mut all: u128 = 0;
    for effect in told {
        all += u128::from(gift_in(effect, receivers, field, kind));
    }
    all
}

/// The total that an effect accepts from a site, of a kind on a field, and 0 where it accepts none.
fn total_in(effect: &Effect, from: SiteNo, field: FieldNo, kind: Kind) -> u64
    ensures value { (base : Base) (es : List Effect) →
        total_accepted base from.0 field.0 kind (effect.now ∷ es)
        ≡ max result (total_accepted base from.0 field.0 kind es) }
{
    match *effect {
        Effect::Accepts {
            from: giver,
            field: at,
            kind: of,
            total,
        } => {
            if at.0 == field.0 && of.is(kind) && giver.0 == from.0 {
                total
            } else {
                0
            }
        }
        _ => 0,
    }
}

/// The greater of two.
fn greater(one: u64, other: u64) -> u64
    ensures value { result ≡ max one other }
{
    if one < other { other } else { one }
}

/// The greatest total accepted from a site, of a kind on a field.
pub(crate) fn accepted_in(told: &[Effect], from: SiteNo, field: FieldNo, kind: Kind) -> u64
    ensures value { (schema : SchemaValue) (s : ℕ)
        → result ≡ total_accepted (fresh schema s) from.0 field.0 kind told.now }
{
    let mut most = 0;
    for effect in told {
        most = greater(most, total_in(effect, from, field, kind));
    }
    most
}

/// The totals accepted from all sites, added up.
pub(crate) fn gained_in(told: &[Effect], field: FieldNo, kind: Kind, sites: u16) -> u128
    ensures value { (schema : SchemaValue) (s : ℕ) →
        result ≡ sum_below sites (λ from. total_accepted
        (fresh schema s) from field.0 kind told.now) }
    ensures few { result ≤ 1_208_925_819_614_629_174_706_176 }
{
    let mut all: u128 = 0;
    for from in 0..sites {
        all += u128::from(accepted_in(told, SiteNo(from), field, kind));
    }
    all
}
