//! Whether two sites go beside one another in a world.

ghost use Rattle.std.specs.Prelude.{◌↔◌, IsTrue, MatchOption};
ghost use Rattle.site_folder.specs.Identity.{AreOneWorld};
ghost use Rattle.folder_logs.specs.Beside.{GoBeside, IsApart};

use site_folder::Identity;

/// Why two sites don't go beside one another.
#[derive(Clone, Copy, Debug, PartialEq, Eq)]
pub enum Apart {
    /// They are of two worlds: the headers or the worlds' own names differ, or one world has none.
    World,
    /// They are the same site of one world.
    Site,
}

// Whether two sites are of one world: its header is the same, and so is its own name, or it has none.
fn are_of_one_world(site: &Identity, other: &Identity) -> bool
    ensures { IsTrue result ↔ AreOneWorld site.now other.now }
{
    site.name() == other.name() && site.header() == other.header()
}

/// Why two sites don't go beside one another, or None where they do: they are two sites of one world.
/// Costs no memory.
pub fn why_apart(site: &Identity, other: &Identity) -> Option<Apart>
    ensures { MatchOption result (GoBeside site.now other.now) (IsApart site.now other.now) }
{
    if !are_of_one_world(site, other) {
        return Some(Apart::World);
    }
    if site.number() == other.number() {
        return Some(Apart::Site);
    }
    None
}
