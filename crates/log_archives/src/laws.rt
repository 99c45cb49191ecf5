//! Laws of parts that join, each as the contract of a function that does nothing.

ghost use Rattle.std.specs.Prelude.{◌++◌, [], None, ℕ, List, Option};
ghost use Rattle.field_bounds.specs.Schema.{SchemaValue};
ghost use Rattle.kept_records.specs.declared.record.Record.{Record as Kept};
ghost use Rattle.kept_records.specs.Stands.{Lawful};
ghost use Rattle.log_head.specs.declared.gone.Gone.{Gone as GoneValue};
ghost use Rattle.log_archives.specs.Heads.{AreGone, AreTold, TellsMore};
ghost use Rattle.log_archives.specs.Chains.{AreJoined, AreToldInTurn, PartValue};
ghost use Rattle.log_archives.specs.declared.fault.JointFault.{JointFault as Fault};
ghost use Rattle.log_archives.specs.Joints.{IsJointFault, Joins};

/// Parts of which each joins with the next one, as `check_joint` finds it, are one log: their records
/// joined, of each part up to where the next one begins, are lawful, if nothing is gone in front of the
/// first part (`lawful`); and each head tells rightly what is gone in front of its part (`told`).
///
/// Source: Balegas and others 2015 for the rights and the totals; this project for parts.
pub fn joined_parts_are_one_log()
    ensures lawful { (schema : SchemaValue) (s : ℕ) (held : List ℕ) (parts : List PartValue)
        (rs : List Kept) → AreJoined schema s None held parts rs → Lawful schema s rs }
    ensures told { (schema : SchemaValue) (s : ℕ) (held : List ℕ) (parts : List PartValue)
        (rs : List Kept) → AreJoined schema s None held parts rs → AreToldInTurn [] parts rs }
{}

/// Of two parts that join `check_joint` tells no fault.
///
/// Source: Balegas and others 2015 for the rights and the totals; this project for parts.
pub fn faults_spare_joined_parts()
    ensures spared { (schema : SchemaValue) (s : ℕ) (gone : Option GoneValue) (held : List ℕ)
        (told : GoneValue) (next : List ℕ) (fault : Fault)
        → IsJointFault schema s gone held told next fault → Joins schema s gone held told next
        → ⊥ }
{}

/// Where what was told is right of the records that were gone, what is told once more are gone is right of
/// all of them.
///
/// Source: this project.
pub fn joints_go_on()
    ensures told { (old : Option GoneValue) (new : GoneValue) (before more : List Kept)
        → AreGone old before → TellsMore old new more → AreTold new (before ++ more) }
{}
