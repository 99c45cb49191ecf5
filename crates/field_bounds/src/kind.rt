//! The two kinds of right.

ghost use Rattle.std.specs.Prelude.{◌≡◌};
ghost use Rattle.field_bounds.specs.Kind.{other, kind_of, same_kind};

/// Which way a right lets a field move: a lowering right is spent to lower the field by one, a
/// raising right to raise it by one.
///
/// Source: Balegas and others 2015 for the rights of a bounded counter, this project for the two
/// kinds side by side.
#[derive(Clone, Copy, Debug, PartialEq, Eq, PartialOrd, Ord, Hash)]
pub enum Kind {
    Lower,
    Raise,
}

impl Kind {
    /// The other kind: what a spent right of this kind turns into. Costs no memory.
    pub fn other(self) -> Kind
        ensures value { result ≡ other self }
    {
        match self {
            Kind::Lower => Kind::Raise,
            Kind::Raise => Kind::Lower,
        }
    }

    /// Whether it is this kind. Costs no memory.
    pub fn is(self, kind: Kind) -> bool
        ensures value { result ≡ same_kind self kind }
    {
        self == kind
    }

    /// The kind of right that a change of a field takes: a change below 0 takes lowering rights,
    /// any other raising rights. Costs no memory.
    pub fn of(change: i64) -> Kind
        ensures value { result ≡ kind_of change }
    {
        if change < 0 { Kind::Lower } else { Kind::Raise }
    }
}
