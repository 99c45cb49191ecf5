//! In which epoch a site stands, and how many transactions it has begun there.

ghost use Rattle.std.specs.Prelude.{◌≡◌, ◌<◌, ◌≤◌, ◌+◌, ◌∷◌, List, reverse};
ghost use Rattle.field_bounds.specs.declared.entry.Entry.{Entry};
ghost use Rattle.field_bounds.specs.Schema.{SchemaValue};
ghost use Rattle.field_bounds.specs.Effects.{fresh};
ghost use Rattle.field_bounds.specs.Owed.{epoch_of, epoch_after, count_since, count_after, is_begun_reply};
ghost use Rattle.field_bounds.specs.Central.{own};

use field_bounds::{Entry, Reply, SiteNo};

/// The epoch after a reply.
fn epoch_after(epoch: u32, reply: Reply) -> u32
    ensures value { result ≡ epoch_after epoch reply }
{
    match reply {
        Reply::Restarted { epoch, last: _ } => epoch,
        _ => epoch,
    }
}

/// How many transactions are begun after a reply.
fn begun_after(count: u64, reply: Reply) -> u64
    requires room { count < 18_446_744_073_709_551_615 }
    ensures value { result ≡ count_after is_begun_reply count reply }
    ensures slow { result ≤ count + 1 }
{
    match reply {
        Reply::Restarted { epoch: _, last: _ } => 0,
        Reply::Begun(_) => count + 1,
        _ => count,
    }
}

/// One more entry is read: the epoch and the count after it.
fn read_entry(epoch: u32, count: u64, entry: &Entry, site: SiteNo) -> (u32, u64)
    requires room { count < 18_446_744_073_709_551_615 }
    ensures epoch { (schema : SchemaValue) (t : List Entry)
        → epoch ≡ epoch_of (fresh schema site.0) (own site.0 t) →
        result.0 ≡ epoch_of (fresh schema site.0) (own site.0 (entry.now ∷ t)) }
    ensures count { (t : List Entry) → count ≡ count_since is_begun_reply (own site.0 t) →
        result.1 ≡ count_since is_begun_reply (own site.0 (entry.now ∷ t)) }
    ensures slow { result.1 ≤ count + 1 }
{
    if entry.site.0 != site.0 {
        return (epoch, count);
    }
    (
        epoch_after(epoch, entry.reply),
        begun_after(count, entry.reply),
    )
}

/// The epoch of a site and the number of transactions begun in it, after a trace with the oldest
/// entry first.
pub(crate) fn numbers_at(trace: &[Entry], site: SiteNo) -> (u32, u64)
    ensures epoch { (schema : SchemaValue) → result.0
        ≡ epoch_of (fresh schema site.0) (own site.0 (reverse trace.now)) }
    ensures count { result.1 ≡ count_since is_begun_reply (own site.0 (reverse trace.now)) }
{
    let mut epoch = 0;
    let mut count = 0;
    for entry in trace {
        (epoch, count) = read_entry(epoch, count, entry, site);
    }
    (epoch, count)
}
