//! Sums over what took effect at a site, each made afresh.

ghost use Rattle.std.specs.Prelude.{◌≡◌, ◌≤◌, ◌*◌, ℕ, ◌<◌, reverse, length, List, ◌∷◌, ◌+◌, filter, Option};
ghost use Rattle.field_bounds.specs.Schema.{SchemaValue};
ghost use Rattle.field_bounds.specs.Parts.{part_of};
ghost use Rattle.field_bounds.specs.Effects.{is_begun, is_committed, is_dropped, granted_sizes, gifts, gains, total_accepted, cut, share, fresh, Base, escrows_of, begun_txns, is_open};
ghost use Rattle.field_bounds.specs.Owed.{count_open, count_escrows};
ghost use Rattle.field_bounds.specs.declared.effect.Effect.{Effect};
ghost use Rattle.central_rules.specs.Fates.{passes, goes_to};

use field_bounds::{Effect, FieldNo, Kind, Schema, SiteNo, TxnId, same_txn};

/// Which escrows a sum goes over, by the fate of their transaction.
#[derive(Clone, Copy)]
pub enum Which {
    All,
    Open,
    Committed,
    Aborted,
}

/// Which gifts a sum goes over, by where they went.
#[derive(Clone, Copy)]
pub enum Whom {
    Anyone,
    Site(SiteNo),
    ForGood,
}

/// What became of a transaction.
#[derive(Clone, Copy)]
pub struct Fate {
    pub begun: bool,
    pub committed: bool,
    pub dropped: bool,
}

/// The fate after one more effect.
fn fate_after(before: Fate, effect: Effect, id: TxnId) -> Fate
    ensures begun { (es : List Effect) → before.begun ≡ is_begun id es →
        result.begun ≡ is_begun id (effect ∷ es) }
    ensures committed { (es : List Effect) → before.committed ≡ is_committed id es →
        result.committed ≡ is_committed id (effect ∷ es) }
    ensures dropped { (es : List Effect) → before.begun ≡ is_begun id es →
        before.dropped ≡ is_dropped id es → result.dropped ≡ is_dropped id (effect ∷ es) }
{
    let mut fate = before;
    match effect {
        Effect::Begins { txn } => fate.begun = same_txn(txn, id) || before.begun,
        Effect::Commits { txn } => fate.committed = same_txn(txn, id) || before.committed,
        Effect::Aborts { txn } => fate.dropped = same_txn(txn, id) || before.dropped,
        Effect::Stops => fate.dropped = before.begun || before.dropped,
        Effect::Grants { .. } | Effect::Gives { .. } | Effect::Accepts { .. } => {}
    }
    fate
}

/// What became of a transaction, over all effects.
pub fn fate_of(effects: &[Effect], id: TxnId) -> Fate
    ensures begun { result.begun ≡ is_begun id (reverse effects.now) }
    ensures committed { result.committed ≡ is_committed id (reverse effects.now) }
    ensures dropped { result.dropped ≡ is_dropped id (reverse effects.now) }
{
    let mut fate = Fate {
        begun: false,
        committed: false,
        dropped: false,
    };
    for effect in effects {
        fate = fate_after(fate, *effect, id);
    }
    fate
}

fn passes(which: Which, effects: &[Effect], id: TxnId) -> bool
    ensures { result ≡ passes which (reverse effects.now) id }
{
    let fate = fate_of(effects, id);
    match which {
        Which::All => true,
        Which::Open => !fate.committed && !fate.dropped,
        Which::Committed => fate.committed,
        Which::Aborted => !fate.committed && fate.dropped,
    }
}

/// The size of the escrow that the effect grants, if it passes.
fn size(effects: &[Effect], which: Which, field: FieldNo, kind: Kind, effect: Effect) -> u64
    ensures value { (es : List Effect) →
        granted_sizes (passes which (reverse effects.now)) field.0 kind (effect ∷ es)
        ≡ result + granted_sizes (passes which (reverse effects.now)) field.0 kind es }
    ensures small { result ≤ 9223372036854775808 }
{
    match effect {
        Effect::Grants {
            txn,
            field: on,
            change,
        } => {
            if on.0 == field.0 && Kind::of(change).is(kind) && passes(which, effects, txn) {
                change.unsigned_abs()
            } else {
                0
            }
        }
        _ => 0,
    }
}

/// The sizes of the escrows that pass.
pub fn granted_sizes(effects: &[Effect], which: Which, field: FieldNo, kind: Kind) -> u128
    ensures value { result ≡ granted_sizes (passes which (reverse effects.now)) field.0 kind
        (reverse effects.now) }
    ensures small { result ≤ length effects.now * 9223372036854775808 }
{
    let mut sum: u128 = 0;
    for effect in effects {
        sum += u128::from(size(effects, which, field, kind, *effect));
    }
    sum
}

fn goes_to(whom: Whom, to: Option<SiteNo>) -> bool
    ensures { result ≡ goes_to whom to }
{
    match (whom, to) {
        (Whom::Anyone, _) | (Whom::ForGood, None) => true,
        (Whom::Site(site), Some(to)) => to.0 == site.0,
        (Whom::Site(_), None) | (Whom::ForGood, Some(_)) => false,
    }
}

/// The amount that left by the effect, if it went there.
fn gift(whom: Whom, field: FieldNo, kind: Kind, effect: Effect) -> u64
    ensures { (es : List Effect) → gifts (goes_to whom) field.0 kind (effect ∷ es)
        ≡ result + gifts (goes_to whom) field.0 kind es }
{
    match effect {
        Effect::Gives {
            to,
            field: on,
            kind: of,
            amount,
        } => {
            if on.0 == field.0 && of.is(kind) && goes_to(whom, to) {
                amount
            } else {
                0
            }
        }
        _ => 0,
    }
}

/// The amounts that left, to where it is asked.
pub fn gifts(effects: &[Effect], whom: Whom, field: FieldNo, kind: Kind) -> u128
    ensures value { result ≡ gifts (goes_to whom) field.0 kind (reverse effects.now) }
    ensures small { result ≤ length effects.now * 18446744073709551616 }
{
    let mut sum: u128 = 0;
    for effect in effects {
        sum += u128::from(gift(whom, field, kind, *effect));
    }
    sum
}

fn accepted_after(before: u64, from: SiteNo, field: FieldNo, kind: Kind, effect: Effect) -> u64
    ensures { (base : Base) (es : List Effect) → before
        ≡ total_accepted base from.0 field.0 kind es →
        result ≡ total_accepted base from.0 field.0 kind (effect ∷ es) }
{
    match effect {
        Effect::Accepts {
            from: site,
            field: on,
            kind: of,
            total,
        } => {
            if on.0 == field.0 && of.is(kind) && site.0 == from.0 && total > before {
                total
            } else {
                before
            }
        }
        _ => before,
    }
}

/// The greatest total accepted from a site, on a fresh base.
pub fn total_accepted(effects: &[Effect], from: SiteNo, field: FieldNo, kind: Kind) -> u64
    ensures { (schema : SchemaValue) (site : ℕ) →
        result ≡ total_accepted (fresh schema site) from.0 field.0 kind (reverse effects.now) }
{
    let mut total = 0;
    for effect in effects {
        total = accepted_after(total, from, field, kind, *effect);
    }
    total
}

/// What the effect gains on top of those before it, on a fresh base.
fn gain(before: &[Effect], field: FieldNo, kind: Kind, effect: Effect) -> u64
    ensures { (schema : SchemaValue) (site : ℕ) →
        gains (fresh schema site) field.0 kind (effect ∷ reverse before.now)
        ≡ result + gains (fresh schema site) field.0 kind (reverse before.now) }
{
    match effect {
        Effect::Accepts {
            from,
            field: on,
            kind: of,
            total,
        } => {
            if on.0 == field.0 && of.is(kind) {
                total.saturating_sub(total_accepted(before, from, field, kind))
            } else {
                0
            }
        }
        _ => 0,
    }
}

/// What all acceptances gained, on a fresh base.
pub fn gains(effects: &[Effect], field: FieldNo, kind: Kind) -> u128
    ensures value { (schema : SchemaValue) (site : ℕ) →
        result ≡ gains (fresh schema site) field.0 kind (reverse effects.now) }
    ensures small { result ≤ length effects.now * 18446744073709551616 }
{
    let mut sum: u128 = 0;
    for (i, effect) in effects.iter().enumerate() {
        sum += u128::from(gain(&effects[..i], field, kind, *effect));
    }
    sum
}

/// The rights that a site begins with: none on a field that isn't in the schema.
fn part(schema: &Schema, site: SiteNo, field: FieldNo, kind: Kind) -> u64
    requires site_in { site.0 < schema.now.sites }
    ensures { result ≡ part_of schema.now site.0 field.0 kind }
{
    if field.0 < schema.fields() {
        schema.part(site, field, kind)
    } else {
        0
    }
}

/// The free rights of a site on a fresh base.
pub fn share(schema: &Schema, site: SiteNo, effects: &[Effect], field: FieldNo, kind: Kind) -> u128
    requires few { length effects.now ≤ 576460752303423488 }
    requires site_in { site.0 < schema.now.sites }
    ensures small { result < 42535295865117307932921825928971026432 }
    ensures value { result ≡ share (fresh schema.now site.0) field.0 kind (reverse effects.now) }
{
    let gained = u128::from(part(schema, site, field, kind))
        + granted_sizes(effects, Which::Aborted, field, kind)
        + granted_sizes(effects, Which::Committed, field, kind.other())
        + gains(effects, field, kind);
    let spent = granted_sizes(effects, Which::All, field, kind)
        + gifts(effects, Whom::Anyone, field, kind);
    gained.saturating_sub(spent)
}

/// What a site has given up for good, on a fresh base.
pub fn cut(effects: &[Effect], field: FieldNo, kind: Kind) -> u128
    ensures value { (schema : SchemaValue) (site : ℕ) →
        result ≡ cut (fresh schema site) field.0 kind (reverse effects.now) }
    ensures small { result ≤ length effects.now * 18446744073709551616 }
{
    gifts(effects, Whom::ForGood, field, kind)
}

/// One where the effect begins a transaction that is open after all effects.
fn opens(effects: &[Effect], effect: Effect) -> usize
    ensures value { (es : List Effect) →
        length (filter (λ id. is_open id (reverse effects.now)) (begun_txns (effect ∷ es)))
        ≡ result + length (filter (λ id. is_open id (reverse effects.now)) (begun_txns es)) }
    ensures small { result ≤ 1 }
{
    match effect {
        Effect::Begins { txn } => usize::from(passes(Which::Open, effects, txn)),
        _ => 0,
    }
}

/// How many transactions are open.
pub fn count_open(effects: &[Effect]) -> usize
    ensures { result ≡ count_open (reverse effects.now) }
{
    let mut count = 0;
    for effect in effects {
        count += opens(effects, *effect);
    }
    count
}

/// One where the effect grants an escrow to the transaction.
fn grants(id: TxnId, effect: Effect) -> usize
    ensures value { (es : List Effect) →
        length (escrows_of id (effect ∷ es)) ≡ result + length (escrows_of id es) }
    ensures small { result ≤ 1 }
{
    match effect {
        Effect::Grants { txn, .. } => usize::from(same_txn(id, txn)),
        _ => 0,
    }
}

/// How many escrows a transaction has.
pub fn count_escrows(effects: &[Effect], id: TxnId) -> usize
    ensures { result ≡ count_escrows id (reverse effects.now) }
{
    let mut count = 0;
    for effect in effects {
        count += grants(id, *effect);
    }
    count
}
