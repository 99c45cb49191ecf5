//! Entries and commands over the one field `stock`, spelled as a trace spells them.

/// The entry of a line of a trace, as `entry!(0 read stock -> between 20 70)`.
#[macro_export]
macro_rules! entry {
    (@ $site:literal [$($command:tt)+] -> $($reply:tt)+) => {
        $crate::Entry {
            site: $crate::SiteNo($site),
            command: $crate::command!($($command)+),
            reply: $crate::reply!($($reply)+),
        }
    };
    (@ $site:literal [$($command:tt)*] $next:tt $($rest:tt)+) => {
        $crate::entry!(@ $site [$($command)* $next] $($rest)+)
    };
    ($site:literal $($rest:tt)+) => {
        $crate::entry!(@ $site [] $($rest)+)
    };
}

/// A step of a world, and the reply of its entry or None where it makes none, as
/// `step!(0 commit 0.1 torn 11 -> unsure)` and `step!(deliver 1 -> accepted 5)`. Where it is called,
/// `WorldStep` and `Luck` are in scope.
#[macro_export]
macro_rules! step {
    (deliver $k:literal -> refused 16 no statement) => {
        (WorldStep::Deliver { k: $k, luck: Luck::Fine }, None)
    };
    (deliver $k:literal torn $bytes:literal -> refused 16 no statement) => {
        (WorldStep::Deliver { k: $k, luck: Luck::Torn($bytes) }, None)
    };
    (deliver $k:literal -> $($reply:tt)+) => {
        (WorldStep::Deliver { k: $k, luck: Luck::Fine }, Some($crate::reply!($($reply)+)))
    };
    (deliver $k:literal torn $bytes:literal -> $($reply:tt)+) => {
        (WorldStep::Deliver { k: $k, luck: Luck::Torn($bytes) }, Some($crate::reply!($($reply)+)))
    };
    (@ $site:literal [$($command:tt)+] -> $($reply:tt)+) => {
        $crate::step!(@ $site [$($command)+] (Luck::Fine) $($reply)+)
    };
    (@ $site:literal [$($command:tt)+] torn $bytes:literal -> $($reply:tt)+) => {
        $crate::step!(@ $site [$($command)+] (Luck::Torn($bytes)) $($reply)+)
    };
    (@ $site:literal [$($command:tt)+] ($luck:expr) $($reply:tt)+) => {
        (
            WorldStep::Do {
                site: $crate::SiteNo($site),
                command: $crate::command!($($command)+),
                luck: $luck,
            },
            Some($crate::reply!($($reply)+)),
        )
    };
    (@ $site:literal [$($command:tt)*] $next:tt $($rest:tt)+) => {
        $crate::step!(@ $site [$($command)* $next] $($rest)+)
    };
    ($site:literal $($rest:tt)+) => {
        $crate::step!(@ $site [] $($rest)+)
    };
}

/// A command without its site, as `command!(give 1 stock lower 5)`. No field is `#1`.
#[macro_export]
macro_rules! command {
    (begin) => {
        $crate::Command::Begin
    };
    (escrow $txn:tt stock $change:literal) => {
        $crate::Command::Escrow {
            txn: $crate::txn!($txn),
            field: $crate::STOCK,
            change: $change,
        }
    };
    (commit $txn:tt) => {
        $crate::Command::Commit { txn: $crate::txn!($txn) }
    };
    (abort $txn:tt) => {
        $crate::Command::Abort { txn: $crate::txn!($txn) }
    };
    (give $to:literal stock $kind:tt $amount:literal) => {
        $crate::Command::Give {
            to: $crate::SiteNo($to),
            field: $crate::STOCK,
            kind: $crate::kind!($kind),
            amount: $amount,
        }
    };
    (restate $to:literal stock $kind:tt) => {
        $crate::Command::Restate {
            to: $crate::SiteNo($to),
            field: $crate::STOCK,
            kind: $crate::kind!($kind),
        }
    };
    (spare $to:literal stock $kind:tt $want:literal) => {
        $crate::Command::Spare {
            to: $crate::SiteNo($to),
            field: $crate::STOCK,
            kind: $crate::kind!($kind),
            want: $want,
        }
    };
    (tighten stock $kind:tt $amount:literal) => {
        $crate::Command::Tighten {
            field: $crate::STOCK,
            kind: $crate::kind!($kind),
            amount: $amount,
        }
    };
    (accept $($statement:tt)+) => {
        $crate::Command::Accept($crate::statement!($($statement)+))
    };
    (read stock) => {
        $crate::Command::Read { field: $crate::STOCK }
    };
    (read #1) => {
        $crate::Command::Read { field: $crate::NO_FIELD }
    };
    (share stock) => {
        $crate::Command::Share { field: $crate::STOCK }
    };
    (share #1) => {
        $crate::Command::Share { field: $crate::NO_FIELD }
    };
    (restart) => {
        $crate::Command::Restart
    };
}

/// What one site states to another, as `statement!(0 1 stock lower 5)`: a gift of site 0 to site 1.
#[macro_export]
macro_rules! statement {
    ($from:literal $to:literal stock $kind:tt $total:literal) => {
        $crate::Statement {
            from: $crate::SiteNo($from),
            to: $crate::SiteNo($to),
            field: $crate::STOCK,
            kind: $crate::kind!($kind),
            total: $total,
        }
    };
}

/// The transactions that rows name, as `txn!(0.1)`.
#[macro_export]
macro_rules! txn {
    (0.1) => {
        $crate::FIRST
    };
    (0.2) => {
        $crate::TxnId { epoch: 0, number: 2 }
    };
    (0.3) => {
        $crate::TxnId { epoch: 0, number: 3 }
    };
    (1.1) => {
        $crate::TxnId { epoch: 1, number: 1 }
    };
    (999.1) => {
        $crate::TxnId { epoch: 999, number: 1 }
    };
}

/// The rights of a kind, `lower` or `raise`.
#[macro_export]
macro_rules! kind {
    (lower) => {
        $crate::Kind::Lower
    };
    (raise) => {
        $crate::Kind::Raise
    };
}
