//! What reads the files of a case.

use crate::failure::Failure;
use seg_bits::AliveBitSet;
use seg_column_file::ColumnarReader;
use seg_common::OwnedBytes;
use seg_directory::CompositeFile;
use seg_meta::read_meta;
use seg_store::StoreReader;
use seg_termdict::TermDictionary;
use seg_values::IndexOption;
use std::alloc::Global;

/// What reads the files of a case.
#[derive(Clone, Copy)]
pub(crate) enum Reader {
    /// One file of a format.
    File(Format),
    /// The terms, postings and positions of a field that records this.
    Field(IndexOption),
    /// A merge of an index that a script makes, the first file; the others are of its segment.
    Run,
}

/// The format of one file.
#[derive(Clone, Copy)]
pub(crate) enum Format {
    Composite,
    Meta,
    Dictionary,
    Store,
    Columns,
    Alive,
}

impl Reader {
    pub(crate) fn named(name: &str) -> Option<Reader> {
        Some(match name {
            "composite" => Reader::File(Format::Composite),
            "meta" => Reader::File(Format::Meta),
            "dictionary" => Reader::File(Format::Dictionary),
            "store" => Reader::File(Format::Store),
            "columns" => Reader::File(Format::Columns),
            "alive" => Reader::File(Format::Alive),
            "documents" => Reader::Field(IndexOption::Basic),
            "counts" => Reader::Field(IndexOption::Freqs),
            "positions" => Reader::Field(IndexOption::Positions),
            "run" => Reader::Run,
            _ => return None,
        })
    }
}

impl Format {
    /// Whether bytes are a file of the format.
    pub(crate) fn is_read(self, alloc: Global, bytes: &[u8]) -> Result<bool, Failure> {
        let owned = OwnedBytes::new(alloc, bytes)?;
        Ok(match self {
            Format::Composite => CompositeFile::open(owned).is_ok(),
            Format::Meta => read_meta(alloc, bytes).is_ok(),
            Format::Dictionary => TermDictionary::open(owned).is_ok(),
            Format::Store => StoreReader::open(owned).is_ok(),
            Format::Columns => ColumnarReader::open(alloc, owned).is_ok(),
            Format::Alive => AliveBitSet::open(owned).is_ok(),
        })
    }
}
