//! What the numbers and the texts of JSON are read as.

/// A way to read JSON.
#[derive(Clone, Copy)]
pub enum Reading {
    /// A number is a U64, or an I64 where it is negative. A text is a Str.
    Plain,
    /// A number is an I64, or a U64 where no I64 holds it. A text that tells a moment, as RFC 3339 has it, is a Date.
    Telling,
}
