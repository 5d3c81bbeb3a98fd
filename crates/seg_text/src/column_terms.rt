//! Ordinals, which stand for the terms of their column.
ghost use Rattle.std.specs.Prelude.{[], get_or};
ghost use Rattle.seg_model.specs.Columns as model;

use crate::column_printer::Printer;
use crate::{push_base64, push_quoted};
use seg_columns::{BytesColumn, StrColumn};
use std::alloc::{AllocError, Global};

impl Printer<u64> for StrColumn {
    ghost meant = { λ column ord. model.text_value (get_or column.terms ord []) };

    fn push(&self, out: &mut Vec<u8>, alloc: Global, value: u64) -> Result<(), AllocError> {
        match self.text(value) {
            Some(text) => push_quoted(out, alloc, text),
            None => push_quoted(out, alloc, ""),
        }
    }
}

impl Printer<u64> for BytesColumn {
    ghost meant = { λ column ord. model.bytes_value (get_or column.terms ord []) };

    fn push(&self, out: &mut Vec<u8>, alloc: Global, value: u64) -> Result<(), AllocError> {
        match self.dictionary().ord_to_term(value) {
            Some(term) => push_base64(out, alloc, term),
            None => push_base64(out, alloc, b""),
        }
    }
}
