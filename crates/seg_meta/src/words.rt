//! The words that a meta has for kinds, options, precisions and compressions.
ghost use Rattle.std.specs.Prelude.{◌≡◌, option_map};
ghost use Rattle.std.specs.Map.{lookup};
ghost use Rattle.std.specs.Str.{bytes_eq};
ghost use Rattle.seg_meta.specs.ParsedMetaParts.{kinds, index_options, precisions, compressions};
ghost use Rattle.seg_meta.specs.MetaMeaning.{compression_of};
ghost use Rattle.seg_meta.specs.MetaWords.{compression_word, kind_word, index_word, precision_word};

use seg_common::DateTimePrecision;
use seg_values::{Compressor, FieldKind, IndexOption};

pub(crate) fn compression_word(compressor: Compressor) -> &'static str
    ensures { result.now ≡ compression_word (compression_of compressor) }
{
    match compressor {
        Compressor::None => "none",
        Compressor::Lz4 => "lz4",
        Compressor::Zstd => "zstd",
    }
}

pub(crate) fn kind_word(kind: FieldKind) -> &'static str
    ensures { result.now ≡ kind_word kind }
{
    match kind {
        FieldKind::Text => "text",
        FieldKind::U64 => "u64",
        FieldKind::I64 => "i64",
        FieldKind::Bool => "bool",
        FieldKind::Date => "date",
        FieldKind::Facet => "facet",
        FieldKind::Bytes => "bytes",
        FieldKind::IpAddr => "ip",
        FieldKind::Json => "json",
    }
}

pub(crate) fn index_word(index: IndexOption) -> &'static str
    ensures { result.now ≡ index_word index }
{
    match index {
        IndexOption::No => "no",
        IndexOption::Basic => "basic",
        IndexOption::Freqs => "freqs",
        IndexOption::Positions => "positions",
    }
}

pub(crate) fn precision_word(precision: DateTimePrecision) -> &'static str
    ensures { result.now ≡ precision_word precision }
{
    match precision {
        DateTimePrecision::Seconds => "seconds",
        DateTimePrecision::Milliseconds => "milliseconds",
        DateTimePrecision::Microseconds => "microseconds",
        DateTimePrecision::Nanoseconds => "nanoseconds",
    }
}

/// The kind that a word names.
pub fn kind_from(word: &str) -> Option<FieldKind>
    ensures { result ≡ lookup (bytes_eq word.now) kinds }
{
    match word {
        "text" => Some(FieldKind::Text),
        "u64" => Some(FieldKind::U64),
        "i64" => Some(FieldKind::I64),
        "bool" => Some(FieldKind::Bool),
        "date" => Some(FieldKind::Date),
        "facet" => Some(FieldKind::Facet),
        "bytes" => Some(FieldKind::Bytes),
        "ip" => Some(FieldKind::IpAddr),
        "json" => Some(FieldKind::Json),
        _ => None,
    }
}

/// The option that a word names.
pub fn index_from(word: &str) -> Option<IndexOption>
    ensures { result ≡ lookup (bytes_eq word.now) index_options }
{
    match word {
        "no" => Some(IndexOption::No),
        "basic" => Some(IndexOption::Basic),
        "freqs" => Some(IndexOption::Freqs),
        "positions" => Some(IndexOption::Positions),
        _ => None,
    }
}

/// The precision that a word names.
pub fn precision_from(word: &str) -> Option<DateTimePrecision>
    ensures { result ≡ lookup (bytes_eq word.now) precisions }
{
    match word {
        "seconds" => Some(DateTimePrecision::Seconds),
        "milliseconds" => Some(DateTimePrecision::Milliseconds),
        "microseconds" => Some(DateTimePrecision::Microseconds),
        "nanoseconds" => Some(DateTimePrecision::Nanoseconds),
        _ => None,
    }
}

/// The compression that a word names.
pub fn compressor_from(word: &str) -> Option<Compressor>
    ensures { option_map compression_of result ≡ lookup (bytes_eq word.now) compressions }
{
    match word {
        "none" => Some(Compressor::None),
        "lz4" => Some(Compressor::Lz4),
        "zstd" => Some(Compressor::Zstd),
        _ => None,
    }
}
