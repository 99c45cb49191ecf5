//! Which site a site is, of which schema, and on which base it stands.

ghost use Rattle.std.specs.Prelude.{◌≡◌, ◌++◌, ◌↔◌, IsTrue};
ghost use Rattle.std.specs.List.{flat_map};
ghost use Rattle.field_bounds.specs.Effects.{fresh};
ghost use Rattle.field_bounds.specs.Limits.{IsSchema};
ghost use Rattle.kept_records.specs.Text.{text};
ghost use Rattle.site_step.specs.Site.{base_of};

use super::Site;
use field_bounds::{Entry, Schema, SiteNo};
use history::History;
use kept_records::Medium;

impl<M: Medium, H: History<Entry>> Site<M, H> {
    /// The schema that the site is of, which is within its limits: the lines that ask the site are
    /// read by it. Costs no memory.
    pub fn schema(&self) -> &Schema
        ensures value { result.now ≡ self.now.schema }
        ensures limits { IsSchema self.now.schema }
    {
        &self.schema
    }

    /// Whether the site has this number, and its schema equals this one. Costs a look at each
    /// field, and no memory.
    pub fn is_of(&self, schema: &Schema, number: SiteNo) -> bool
        ensures own { IsTrue result ↔ ((self.now.schema ≡ schema.now) × (self.now.site ≡ number)) }
    {
        self.schema == *schema && self.number == number
    }

    /// Whether the site's history stands on its fresh base: the medium was empty when the site was
    /// opened. Costs no memory.
    pub fn on_fresh_base(&self) -> bool
        ensures value { result ≡ self.now.fresh }
        ensures base { IsTrue result ↔ (base_of self.now ≡ fresh self.now.schema self.now.site.0) }
    {
        self.fresh
    }

    /// The medium that the site stands on: it holds the log, but for the records that are gone, which
    /// stand in front of the others. Costs no memory.
    pub fn medium(&self) -> &M
        ensures bytes { self.now.bytes ≡ flat_map text self.now.gone ++ M.bytes result.now }
        ensures failed { M.failed result.now ≡ self.now.failed }
        ensures foretold { M.foretold result.now ≡ self.now.foretold }
    {
        &self.medium
    }
}
