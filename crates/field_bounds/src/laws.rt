//! Laws of the definitions, each as the contract of a function that does nothing.

ghost use Rattle.std.specs.Prelude.{◌≡◌, ℕ, ◌≤◌, ◌≤ℤ◌, List, [], ◌∷◌, ◌++◌, Bool, true, false};
ghost use Rattle.field_bounds.specs.declared.id.TxnId.{TxnId};
ghost use Rattle.field_bounds.specs.declared.kind.Kind.{Kind};
ghost use Rattle.field_bounds.specs.declared.entry.Last.{Last};
ghost use Rattle.field_bounds.specs.declared.entry.Entry.{Entry};
ghost use Rattle.field_bounds.specs.Schema.{SchemaValue};
ghost use Rattle.field_bounds.specs.Limits.{IsSchema};
ghost use Rattle.field_bounds.specs.Effects.{Base, open_txns, held_rights, share, own_rights, says_doubt_kept, effects, rights_in, rights_out};
ghost use Rattle.field_bounds.specs.Owed.{is_up, IsRestarted, IsRun};
ghost use Rattle.field_bounds.specs.Central.{inf, sup, outcome, floor_in, ceiling_in, OutcomesAreBounded, IsCentral, IsSound, IsConservedThroughout};

/// At a site whose replies are all owed, the rights that went out never exceed those that came in:
/// the share, which is their difference, is never cut off at 0.
pub fn share_is_exact()
    ensures covered { (schema : SchemaValue) (s : ℕ) (base : Base) (o : List Entry) (kept : Bool) →
        IsRun schema s base o → (f : ℕ) (k : Kind) →
        rights_out f k (effects base kept o) ≤ rights_in base f k (effects base kept o) }
{}

/// A restart settles everything. While a site is up nothing is in doubt: what took effect doesn't
/// rest on what the next restart finds (`sure`). After a restart no transaction is open (`closed`)
/// and nothing is held (`held`), and the share is what the site's own rights were, with what was in
/// doubt counted where the restart found it kept (`share`).
pub fn restarts_settle()
    ensures sure { (base : Base) (o : List Entry) (kept : Bool) →
        is_up base o ≡ true → effects base kept o ≡ effects base false o }
    ensures closed { (base : Base) (o : List Entry) (kept : Bool) (e : Entry) (last : Last) →
        IsRestarted e last → open_txns (effects base kept (e ∷ o)) ≡ [] }
    ensures held { (schema : SchemaValue) (s : ℕ) (base : Base) (o : List Entry) (kept : Bool)
        (e : Entry) (last : Last) → IsRun schema s base o → IsRestarted e last →
        (f : ℕ) (k : Kind) → held_rights f k (effects base kept (e ∷ o)) ≡ 0 }
    ensures share { (schema : SchemaValue) (s : ℕ) (base : Base) (o : List Entry) (kept : Bool)
        (e : Entry) (last : Last) → IsRun schema s base o → IsRestarted e last →
        (f : ℕ) (k : Kind) → share base f k (effects base kept (e ∷ o))
        ≡ own_rights base f k (effects base (says_doubt_kept last) o) }
{}

/// Every sound trace is a run of one central store. If each site gave the replies that it owes
/// after its own entries alone, and took in only statements that were issued before, then, over the
/// entries of all sites in one order: an escrow was granted only where the infimum and supremum of
/// one central store allow it, rights were given up only where they allow that, an escrow, a gift
/// or a tightening refused as short was told the site's share, which is less than was asked, and an
/// interval that was read holds the committed value (`central`). At every moment the infimum lies
/// above the floor, and the supremum below the ceiling, by exactly the rights that the sites have
/// free and those in flight, which were given and aren't accepted yet; and no site has accepted
/// more than it was given (`conserved`). So the infimum is never below the floor, and the supremum
/// never above the ceiling (`bounded`), and no field can be taken past a bound, however the open
/// transactions end, and whichever statements come late, twice or never (`outcomes`). The floor and
/// the ceiling are those of the trace so far: the schema's, as far inwards as the sites have given
/// rights up. A trace has the newest entry first.
///
/// Source: O'Neil 1986 for infimum, supremum and the test of a grant, Balegas and others 2015 for
/// rights that are divided among sites and transferred, this project for the rules and the theorem.
pub fn one_central_store()
    ensures central { (schema : SchemaValue) (trace : List Entry) →
        IsSchema schema → IsSound schema trace → IsCentral schema trace }
    ensures conserved { (schema : SchemaValue) (trace : List Entry) →
        IsSchema schema → IsSound schema trace → IsConservedThroughout schema trace }
    ensures bounded { (schema : SchemaValue) (trace : List Entry) →
        IsSchema schema → IsSound schema trace → (f : ℕ) →
        (floor_in schema trace f ≤ℤ inf schema trace f)
        × (sup schema trace f ≤ℤ ceiling_in schema trace f) }
    ensures outcomes { (schema : SchemaValue) (trace : List Entry) →
        IsSchema schema → IsSound schema trace → OutcomesAreBounded schema trace }
{}

/// A bound is never loosened: behind more entries a field's floor is at least, and its ceiling at
/// most, what it was before them, whatever they are.
pub fn bounds_never_loosen()
    ensures tighter { (schema : SchemaValue) (later before : List Entry) (f : ℕ) →
        (floor_in schema before f ≤ℤ floor_in schema (later ++ before) f)
        × (ceiling_in schema (later ++ before) f ≤ℤ ceiling_in schema before f) }
{}

/// Whichever of the open transactions of a trace are committed and whichever aborted, the value
/// that is left lies from the infimum to the supremum.
///
/// Source: O'Neil 1986.
pub fn outcomes_lie_between()
    ensures within { (schema : SchemaValue) (trace : List Entry) (f : ℕ)
        (chosen : ℕ → TxnId → Bool) →
        (inf schema trace f ≤ℤ outcome schema trace f chosen)
        × (outcome schema trace f chosen ≤ℤ sup schema trace f) }
{}
