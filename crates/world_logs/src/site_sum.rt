//! A sum over sites.

ghost use Rattle.std.specs.Prelude.{◌≡◌, ◌<◌, ◌-◌, ◌^◌, ℕ, min};
ghost use Rattle.field_bounds.specs.declared.id.SiteNo.{SiteNo};
ghost use Rattle.field_bounds.specs.Parts.{sum_below};

use field_bounds::SiteNo;

/// What a term tells of each site, added up, or the greatest `u64` where that is more.
pub(crate) fn sum_over<F: Fn(SiteNo) -> u64>(sites: u16, term: F) -> u64
    requires callable { (s : SiteNo) → s.0 < sites → F.pre term s }
    ensures value { (of : ℕ → ℕ)
        → ((s : SiteNo) (x : ℕ) → s.0 < sites → F.post term s x → x ≡ of s.0)
        → result ≡ min (sum_below sites of) (2 ^ 64 - 1) }
{
    let mut sum: u64 = 0;
    for number in 0..sites {
        sum = sum.saturating_add(term(SiteNo(number)));
    }
    sum
}
