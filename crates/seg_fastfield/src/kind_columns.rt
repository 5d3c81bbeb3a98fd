//! The columns of a path, by the kinds of their values.
ghost use Rattle.std.specs.Prelude.{◌≡◌};
ghost use Rattle.seg_fastfield.specs.PathNumbers.{id_of, unknown, with_id};

use seg_column_writer::{ColumnId, ValueKind};

/// The columns of a path that are known.
#[derive(Clone, Copy, Debug)]
pub(crate) struct KindColumns {
    number: Option<ColumnId>,
    bytes: Option<ColumnId>,
    text: Option<ColumnId>,
    boolean: Option<ColumnId>,
    address: Option<ColumnId>,
    moment: Option<ColumnId>,
}

impl KindColumns {
    pub fn new() -> KindColumns
        ensures { result ≡ unknown }
    {
        KindColumns {
            number: None,
            bytes: None,
            text: None,
            boolean: None,
            address: None,
            moment: None,
        }
    }

    pub fn get(self, kind: ValueKind) -> Option<ColumnId>
        ensures { result ≡ id_of self kind }
    {
        match kind {
            ValueKind::Number => self.number,
            ValueKind::Bytes => self.bytes,
            ValueKind::Str => self.text,
            ValueKind::Bool => self.boolean,
            ValueKind::IpAddr => self.address,
            ValueKind::DateTime => self.moment,
        }
    }

    /// With the column of a kind.
    pub fn with(self, kind: ValueKind, column: ColumnId) -> KindColumns
        ensures { result ≡ with_id self kind column }
    {
        let mut known = self;
        match kind {
            ValueKind::Number => {
                known.number = Some(column);
                known
            }
            ValueKind::Bytes => {
                known.bytes = Some(column);
                known
            }
            ValueKind::Str => {
                known.text = Some(column);
                known
            }
            ValueKind::Bool => {
                known.boolean = Some(column);
                known
            }
            ValueKind::IpAddr => {
                known.address = Some(column);
                known
            }
            ValueKind::DateTime => {
                known.moment = Some(column);
                known
            }
        }
    }
}
