//! How an append ends.

/// Ends an append for which the history has room. Once the record stands whole it is carried out,
/// and the command has this reply. Where the device failed the site is down, the record is in doubt,
/// and the command is answered Unsure.
// No function: a call would have to be given a sound site, and between these parts it isn't sound.
macro_rules! end_append {
    ($site:ident, $command:expr, $reply:expr; $appended:expr => $carried:expr) => {
        match $appended {
            Ok(()) => {
                $carried;
                $site.extent.extend($site.line.len());
                $site.history.push_reserved(Entry {
                    site: $site.number,
                    command: $command,
                    reply: $reply,
                });
                Ok($reply)
            }
            Err(_) => {
                $site.up = false;
                $site.doubt = Some($site.extent.count);
                $site.history.push_reserved(Entry {
                    site: $site.number,
                    command: $command,
                    reply: Reply::Unsure,
                });
                Ok(Reply::Unsure)
            }
        }
    };
}

pub(super) use end_append;
