//! One site over a front of a trace, with its sums made afresh.

ghost use Rattle.central_rules.specs.Entries.{most_entries};
ghost use Rattle.std.specs.Prelude.{◌≡◌, ◌<◌, ◌≤◌, length, reverse, IfOk};

use crate::afresh::{
    Which, Whom, count_escrows, count_open, cut, fate_of, gifts, granted_sizes, share,
    total_accepted,
};
use crate::front::{effects, has, site_counts_at};
use crate::ladder::AtPlace;
use crate::site_counts::SiteCounts;
use field_bounds::{Effect, Entry, FieldNo, Kind, Schema, SiteNo, Statement, TxnId};
use std::alloc::{AllocError, Global};
use std::marker::Model;

/// One site over a front. Contracts see its place.
#[derive(Drop)]
pub struct Here<'a> {
    schema: &'a Schema,
    site: SiteNo,
    front: &'a [Entry],
    site_counts: SiteCounts,
    made: Vec<Effect>,
}

impl<'a> Model for Here<'a> {
    ghost use Rattle.std.specs.Prelude.{reverse};
    ghost use Rattle.central_rules.specs.Here.{Seen};

    ghost Value = { Seen };

    ghost use Rattle.central_rules.specs.Here.{place_in, Shows};

    ghost view = { λ h. record {
      schema = h.schema.now;
      site = h.site;
      front =
          reverse h.front.now;
    } };

    ghost invariant = { λ h. Shows (place_in h.schema.now h.site.0 (reverse h.front.now))
        h.site_counts h.made.items };
}

impl<'a> Here<'a> {
    /// The site after a front, with its sums made afresh.
    pub fn new(
        alloc: Global,
        schema: &'a Schema,
        front: &'a [Entry],
        site: SiteNo,
    ) -> Result<Here<'a>, AllocError>
        requires few { length front.now ≤ most_entries }
        requires site_in { site.0 < schema.now.sites }
        ensures { IfOk result (λ here. here
            ≡ record { schema = schema.now; site = site; front = reverse front.now }) }
    {
        let site_counts = site_counts_at(schema, front, site);
        let made = effects(alloc, schema, front, site)?;
        Ok(Here {
            schema,
            site,
            front,
            site_counts,
            made,
        })
    }
}

impl<'a> AtPlace for Here<'a> {
    ghost use Rattle.std.specs.Prelude.{◌≡◌};
    ghost use Rattle.central_rules.specs.Here.{here};

    ghost is_at = { λ h at. at ≡ here h };

    fn schema(&self) -> &Schema {
        self.schema
    }

    fn site(&self) -> SiteNo {
        self.site
    }

    fn site_counts(&self) -> SiteCounts {
        self.site_counts
    }

    fn open_count(&self) -> usize {
        count_open(&self.made)
    }

    fn open_escrows(&self, txn: TxnId) -> Option<usize> {
        let fate = fate_of(&self.made, txn);
        if fate.begun && !fate.committed && !fate.dropped {
            Some(count_escrows(&self.made, txn))
        } else {
            None
        }
    }

    fn free(&self, field: FieldNo, kind: Kind) -> u128 {
        share(self.schema, self.site, &self.made, field, kind)
    }

    fn own_rights(&self, field: FieldNo, kind: Kind) -> u128 {
        share(self.schema, self.site, &self.made, field, kind)
            + granted_sizes(&self.made, Which::Open, field, kind)
    }

    fn cut(&self, field: FieldNo, kind: Kind) -> u128 {
        cut(&self.made, field, kind)
    }

    fn told_so_far(&self, to: SiteNo, field: FieldNo, kind: Kind) -> u128 {
        gifts(&self.made, Whom::Site(to), field, kind)
    }

    fn gain(&self, told: Statement) -> u64 {
        told.total.saturating_sub(total_accepted(&self.made, told.from, told.field, told.kind))
    }
}
