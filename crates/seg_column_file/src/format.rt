//! The numbers of the format.
//!
//! ```text
//! columns  the bytes of each column, one after another
//! table    the number of columns (u64), and of each the length of its path (u64), its path, the code of its type (u8),
//!          and where its bytes end (u64, counted from the first byte of the file)
//! footer   the length of the table in bytes (u64), the number of rows (u32), the version (u32)
//! ```

/// The number of columns of a file without any.
pub(crate) const NO_COLUMN: u64 = 0;

/// The bytes of the number of columns.
pub(crate) const COUNT: usize = 8;

/// The bytes of an entry, besides its path.
pub const ENTRY_BYTES: usize = 17;

/// The version of the format, the last number of a file.
pub const COLUMNS_VERSION: u32 = 1;

/// The bytes of the footer.
pub(crate) const FOOTER: usize = 16;

/// The bytes of a file without columns.
pub const LEAST_BYTES: usize = COUNT + FOOTER;
