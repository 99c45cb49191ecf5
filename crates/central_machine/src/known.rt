//! The common entries, each on a way of its own.

/// Makes a call for an entry: for each of the commands and replies that come most it stands in an arm
/// of its own. There both are known, so once it is inlined nothing is left of the other commands, and
/// nothing is matched again; the copy of the entry is one that no write can change. For the rest it
/// stands once more, not inlined.
macro_rules! by_entry {
    ($entry:expr; $known:ident => $common:expr; $rest:expr) => {
        match ($entry.command, $entry.reply) {
            (Command::Begin, Reply::Begun(_)) => {
                let $known = *$entry;
                $common
            }
            (Command::Escrow { .. }, Reply::Granted) => {
                let $known = *$entry;
                $common
            }
            (Command::Commit { .. }, Reply::Committed) => {
                let $known = *$entry;
                $common
            }
            (Command::Read { .. }, Reply::Between { .. }) => {
                let $known = *$entry;
                $common
            }
            (Command::Share { .. }, Reply::Shares { .. }) => {
                let $known = *$entry;
                $common
            }
            (Command::Give { .. }, Reply::Given { .. }) => {
                let $known = *$entry;
                $common
            }
            (Command::Accept(_), Reply::Accepted { .. }) => {
                let $known = *$entry;
                $common
            }
            _ => $rest,
        }
    };
}

pub(crate) use by_entry;
