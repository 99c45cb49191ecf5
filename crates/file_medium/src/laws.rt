//! What the law of a file tells of many calls, as the contract of a function that does nothing.

ghost use Rattle.std.specs.Prelude.{◌≡◌, ℕ, List, Some};
ghost use Rattle.file_medium.specs.Files.{IsSpared, KeepsFront, cut_known};
ghost use Rattle.file_medium.specs.Moments.{AreCalls, Moment, last_moment};

/// Why the fewest bytes that a cut has left are told: what was safe at first, and no cut has reached
/// up to the end, is safe at each moment between two calls, whatever failed. So a contract that says
/// at its end that no cut went in front of so many bytes says that a stop of the machine in the midst
/// of the call leaves them.
pub fn what_no_cut_reached_stays_safe()
    ensures { (n least : ℕ) (first : Moment) (before after : List Moment) → AreCalls first before
        → AreCalls (last_moment first before) after → first.least ≡ Some least
        → IsSpared n (last_moment (last_moment first before) after).least
        → KeepsFront (cut_known n first.safe) (last_moment first before).safe }
{}
