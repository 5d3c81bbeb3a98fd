//! The numbers that stand for the values of a column.
ghost use Rattle.std.specs.Prelude.{◌≡◌, map};
ghost use Rattle.seg_common.specs.MappableValues.{raised, bit};
ghost use Rattle.seg_columns.specs.Columns.{IsColumn, rows_of};
ghost use Rattle.seg_columns.specs.ValueImages.{signed, truth, unsigned};
ghost use Rattle.seg_columns.specs.TermColumns.{IsBytesColumn, ordinals_in};

use crate::column::Column;
use crate::term_column::TermColumn;
use seg_common::OwnedBytes;

/// Those of signed numbers or moments, in their order.
pub(crate) fn signed_numbers(bytes: OwnedBytes, num_docs: u32) -> Column<u64>
    requires { IsColumn 8 signed num_docs bytes }
    ensures { result ≡ map (map raised) (rows_of 8 signed num_docs bytes) }
{
    Column::of_checked(bytes, num_docs)
}

/// Those of truth values.
pub(crate) fn truth_numbers(bytes: OwnedBytes, num_docs: u32) -> Column<u64>
    requires { IsColumn 8 truth num_docs bytes }
    ensures { result ≡ map (map bit) (rows_of 8 truth num_docs bytes) }
{
    Column::of_checked(bytes, num_docs)
}

/// The ordinals of texts or bytes.
pub(crate) fn ordinals(bytes: &OwnedBytes, num_docs: u32) -> Column<u64>
    requires { IsBytesColumn num_docs bytes.now }
    ensures { result ≡ rows_of 8 unsigned num_docs (ordinals_in num_docs bytes.now) }
{
    TermColumn::of_checked(bytes, num_docs).into_ords()
}
