//! A law of the definitions, as the contract of a function that does nothing.

ghost use Rattle.std.specs.Prelude.{◌≡◌, ℕ, List};
ghost use Rattle.escrow_audit.specs.declared.answer.AuditEnd.{AuditEnd as EndType};
ghost use Rattle.escrow_audit.specs.Audit.{Answers};

/// Bytes have one answer: whatever schema and entries it is explained by, it ends in the same way,
/// and its text is the same. The call does nothing; its contract is the law.
pub fn one_answer()
    ensures only { (read : List ℕ) (end other : EndType) (text again : List ℕ)
        → Answers end read text
        → Answers other read again → (end ≡ other) × (text ≡ again) }
{}
