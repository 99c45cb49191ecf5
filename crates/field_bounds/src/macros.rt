//! Macros for function bodies.

/// One body for lowering and raising: binds the part of the kind that is named, and the part of
/// the other kind, of a place with the fields `lower` and `raise`.
#[macro_export]
macro_rules! both_kinds {
    ($kind:expr, $place:expr, |$own:ident, $other:ident| $body:block) => {
        match $kind {
            Kind::Lower => {
                let $own = &mut $place.lower;
                let $other = &mut $place.raise;
                $body
            }
            Kind::Raise => {
                let $own = &mut $place.raise;
                let $other = &mut $place.lower;
                $body
            }
        }
    };
    ($kind:expr, $place:expr, |$own:ident| $body:block) => {
        match $kind {
            Kind::Lower => {
                let $own = &mut $place.lower;
                $body
            }
            Kind::Raise => {
                let $own = &mut $place.raise;
                $body
            }
        }
    };
}

/// A ladder of refusals: the first test that holds is the refusal, in the order in which they
/// stand, and None where none holds. A later test may rest on the earlier ones not holding.
#[macro_export]
macro_rules! refuse_first {
    ($($test:expr => $refusal:expr),* $(,)?) => {{
        $(if $test {
            return Some($refusal);
        })*
        None
    }};
}

/// An arm for each command, with no arm for the rest: a new command has to be answered wherever
/// this stands.
#[macro_export]
macro_rules! by_command {
    (
        $command:expr;
        $($name:ident $({ $($field:ident),* })? $(($part:ident))? => $arm:expr),* $(,)?
    ) => {
        match $command {
            $(Command::$name $({ $($field),* })? $(($part))? => $arm,)*
        }
    };
}
