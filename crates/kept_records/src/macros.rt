//! A macro for function bodies.

/// A walk over the lines that a `LentRecords` has left: it is asked for a common record by
/// `next_common`, and where that tells None for what stands next by `next_line`. Behind a body it
/// goes on with the next line, unless the body leaves the loop. A line that is no record stays next,
/// and so does the end: so the bodies for these leave it.
// The calls and the patterns are the caller's own, so that proofs name them.
#[macro_export]
macro_rules! by_line {
    (
        $walk:lifetime: $common:expr, $next:expr;
        $told:pat => $taken:expr,
        $($line:pat => $arm:expr),+ $(,)?
    ) => {
        $walk: loop {
            if let $told = $common {
                $taken;
                continue $walk;
            }
            match $next {
                $($line => $arm,)+
            }
        }
    };
}
