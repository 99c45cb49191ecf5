//! Work that is done by threads, where there is enough of it.

use std::thread::{Threads, join};

/// Below so many entries the parts take turns in the caller's thread: making others would cost more
/// than the judging.
const FEW: usize = 50;

/// Makes both calls, each in a thread, or over few entries one after the other.
pub fn both<R: Threads, F: FnOnce() -> A + Send, G: FnOnce() -> B, A: Send, B>(
    rt: &R,
    entries: usize,
    f: F,
    g: G,
) -> (A, B)
    requires { F.pre f × G.pre g }
    ensures first { F.post f result.0 }
    ensures second { G.post g result.1 }
{
    if entries < FEW {
        let first = f();
        let second = g();
        return (first, second);
    }
    join(rt, f, g)
}
