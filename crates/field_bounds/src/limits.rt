//! The limits of a store, each named once. They are this project's own.

/// The most bytes of a header line, without its line feed.
pub const MAX_HEADER: usize = 65_536;

/// The most sites of a schema.
pub(crate) const MAX_SITES: i64 = 64;

/// The most fields of a schema.
pub(crate) const MAX_FIELDS: usize = 256;

/// The most bytes of a field's name.
pub(crate) const MAX_NAME: usize = 32;

/// The greatest floor, ceiling or value without its sign, ten to the fifteenth.
pub(crate) const MAX_QUANTITY: i64 = 1_000_000_000_000_000;

/// The greatest amount or change without its sign: the widest field from end to end.
pub const MAX_CHANGE: u64 = 2_000_000_000_000_000;

/// The most open transactions at a site.
pub const MAX_OPEN: usize = 64;

/// The most escrows in a transaction.
pub const MAX_ESCROWS: usize = 16;

/// The greatest transaction number in an epoch.
pub const MAX_NUMBER: u32 = 1_000_000_000;

/// The greatest epoch of a site.
pub const MAX_EPOCH: u32 = 1_000_000_000;

/// The greatest total of gifts from one site to another on a field and of a kind, in rights: ten to
/// the eighteenth.
pub const MAX_TOTAL: u64 = 1_000_000_000_000_000_000;
