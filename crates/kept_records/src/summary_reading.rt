//! Reading a summary.

ghost use Rattle.std.specs.Prelude.{◌≡◌, ◌∷◌, ◌&&◌, []};
ghost use Rattle.line_words.specs.Reading.{Gives};
ghost use Rattle.kept_records.specs.Reading.{total_from, cut_from, cut_at, rights_from, listed_at, groups_from, summary_from, word_is, is_next_accept, is_next_gift, TellsPrefix, Tells};
ghost use Rattle.kept_records.specs.Summary.{kind_number, is_before, is_cut_before, rises, cuts_rise};

use crate::reading::{LineFault, MAX_PLACE, kind, number, take_number};
use crate::record::Record;
use crate::total::{Cut, Cuts, OwnRights, Total, Totals};
use field_bounds::{FieldNo, Kind, MAX_CHANGE, MAX_EPOCH, MAX_TOTAL, SiteNo};
use line_words::Words;
use std::alloc::Global;
use std::marker::Model;

// The most fields of a summary, which is the most of a schema.
const MAX_ROWS: u64 = 256;

// Totals given, accepted and given up. Contracts see the three lists.
#[derive(Drop)]
struct Groups {
    gifts: Totals,
    accepts: Totals,
    tightenings: Cuts,
}

impl Model for Groups {
    ghost use Rattle.std.specs.Prelude.{List};
    ghost use Rattle.kept_records.specs.declared.total.Total.{Total};
    ghost use Rattle.kept_records.specs.declared.total.Cut.{Cut};

    ghost Value = { List Total × List Total × List Cut };

    ghost view = { λ g. (g.gifts, g.accepts, g.tightenings) };
}

// So many pairs of rights.
fn take_rights(alloc: Global, words: &mut Words, count: u64) -> Result<OwnRights, LineFault>
    ensures { TellsPrefix result words.new (rights_from count [] words.old) }
{
    let mut held = Vec::new(alloc);
    let mut left = count;
    while left > 0 {
        let Some(lower) = take_number(words, 0, MAX_CHANGE) else {
            return Err(LineFault::NoRecord);
        };
        let Some(raise) = take_number(words, 0, MAX_CHANGE) else {
            return Err(LineFault::NoRecord);
        };
        if lower + raise > MAX_CHANGE {
            return Err(LineFault::NoRecord);
        }
        held.push((lower, raise))?;
        left -= 1;
    }
    Ok(OwnRights::new(held))
}

// A total of a group, of the words behind its letter.
#[tactic(auto, unfolding(crate::specs::Reading::total_from, line_words::specs::Reading::word_at))]
fn total_listed(other: &[u8], field: &[u8], of_kind: &[u8], total: &[u8]) -> Option<Total>
    ensures { result ≡ total_from (other.now ∷ field.now ∷ of_kind.now ∷ total.now ∷ []) }
{
    let other = number(other, 0, MAX_PLACE)?;
    let field = number(field, 0, MAX_PLACE)?;
    let kind = kind(of_kind)?;
    let total = number(total, 1, MAX_TOTAL)?;
    Some(Total {
        site: SiteNo(other as u16),
        field: FieldNo(field as u16),
        kind,
        total,
    })
}

// The next total of a group.
#[tactic(auto, unfolding(crate::specs::Reading::listed_at))]
pub(crate) fn take_listed(words: &mut Words) -> Option<Total>
    ensures { Gives result words.new (listed_at words.old) }
{
    let other = words.next()?;
    let field = words.next()?;
    let of_kind = words.next()?;
    let total = words.next()?;
    total_listed(other, field, of_kind, total)
}

fn is_letter(word: &[u8], letter: u8) -> bool
    ensures { result ≡ word_is letter word.now }
{
    match word {
        [one] => *one == letter,
        _ => false,
    }
}

// A total given up, of the words behind its letter.
#[tactic(auto, unfolding(crate::specs::Reading::cut_from, line_words::specs::Reading::word_at))]
fn listed_cut(field: &[u8], of_kind: &[u8], total: &[u8]) -> Option<Cut>
    ensures { result ≡ cut_from (field.now ∷ of_kind.now ∷ total.now ∷ []) }
{
    let field = number(field, 0, MAX_PLACE)?;
    let kind = kind(of_kind)?;
    let total = number(total, 1, MAX_CHANGE)?;
    Some(Cut {
        field: FieldNo(field as u16),
        kind,
        total,
    })
}

// The next total given up.
#[tactic(auto, unfolding(crate::specs::Reading::cut_at))]
pub(crate) fn take_listed_cut(words: &mut Words) -> Option<Cut>
    ensures { Gives result words.new (cut_at words.old) }
{
    let field = words.next()?;
    let of_kind = words.next()?;
    let total = words.next()?;
    listed_cut(field, of_kind, total)
}

fn is_next_accept(letter: &[u8], tightenings: &[Cut]) -> bool
    ensures { result ≡ is_next_accept letter.now tightenings.now }
{
    match tightenings {
        [] => is_letter(letter, b'a'),
        _ => false,
    }
}

fn is_next_gift(letter: &[u8], accepts: &[Total], tightenings: &[Cut]) -> bool
    ensures { result ≡ is_next_gift letter.now accepts.now tightenings.now }
{
    match accepts {
        [] => match tightenings {
            [] => is_letter(letter, b'g'),
            _ => false,
        },
        _ => false,
    }
}

// Gifts, then acceptances and then totals given up, up to the end of the line.
fn take_groups(alloc: Global, mut words: Words) -> Result<Groups, LineFault>
    ensures { Tells result (groups_from [] [] [] words.entry) }
{
    let mut gifts = Vec::new(alloc);
    let mut accepts = Vec::new(alloc);
    let mut tightenings = Vec::new(alloc);
    while let Some(letter) = words.next() {
        if is_letter(letter, b't') {
            let Some(cut) = take_listed_cut(&mut words) else {
                return Err(LineFault::NoRecord);
            };
            tightenings.push(cut)?;
        } else {
            let Some(told) = take_listed(&mut words) else {
                return Err(LineFault::NoRecord);
            };
            if is_next_accept(letter, &tightenings) {
                accepts.push(told)?;
            } else if is_next_gift(letter, &accepts, &tightenings) {
                gifts.push(told)?;
            } else {
                return Err(LineFault::NoRecord);
            }
        }
    }
    Ok(Groups {
        gifts: Totals::new(gifts),
        accepts: Totals::new(accepts),
        tightenings: Cuts::new(tightenings),
    })
}

fn kind_number(kind: Kind) -> u8
    ensures { result ≡ kind_number kind }
{
    match kind {
        Kind::Lower => 0,
        Kind::Raise => 1,
    }
}

fn is_before(a: &Total, b: &Total) -> bool
    ensures { result ≡ is_before a.now b.now }
{
    a.site.0 < b.site.0
        || (a.site.0 == b.site.0
            && (a.field.0 < b.field.0
                || (a.field.0 == b.field.0 && kind_number(a.kind) < kind_number(b.kind))))
}

fn is_cut_before(a: &Cut, b: &Cut) -> bool
    ensures { result ≡ is_cut_before a.now b.now }
{
    a.field.0 < b.field.0 || (a.field.0 == b.field.0 && kind_number(a.kind) < kind_number(b.kind))
}

// Whether totals given up rise strictly.
fn cuts_rise(totals: &[Cut]) -> bool
    ensures { result ≡ cuts_rise totals.now }
{
    let mut rest = totals;
    while rest.len() > 1 {
        if !is_cut_before(&rest[0], &rest[1]) {
            return false;
        }
        rest = &rest[1..];
    }
    true
}

// Whether totals rise strictly.
fn rise(totals: &[Total]) -> bool
    ensures { result ≡ rises totals.now }
{
    let mut rest = totals;
    while rest.len() > 1 {
        if !is_before(&rest[0], &rest[1]) {
            return false;
        }
        rest = &rest[1..];
    }
    true
}

// Whether each group rises strictly.
fn all_rise(groups: &Groups) -> bool
    ensures { result ≡ (rises groups.now.0 && rises groups.now.1 && cuts_rise groups.now.2) }
{
    rise(groups.gifts.as_slice())
        && rise(groups.accepts.as_slice())
        && cuts_rise(groups.tightenings.as_slice())
}

#[tactic(auto, unfolding(crate::specs::Reading::summary_from))]
pub(crate) fn take_summary(alloc: Global, mut words: Words) -> Result<Record, LineFault>
    ensures { Tells result (summary_from words.entry) }
{
    let Some(epoch) = take_number(&mut words, 0, u64::from(MAX_EPOCH)) else {
        return Err(LineFault::NoRecord);
    };
    let Some(count) = take_number(&mut words, 1, MAX_ROWS) else {
        return Err(LineFault::NoRecord);
    };
    let rights = take_rights(alloc, &mut words, count)?;
    let groups = take_groups(alloc, words)?;
    if !all_rise(&groups) {
        return Err(LineFault::NoRecord);
    }
    Ok(Record::Summary {
        epoch: epoch as u32,
        rights,
        gifts: groups.gifts,
        accepts: groups.accepts,
        tightenings: groups.tightenings,
    })
}
