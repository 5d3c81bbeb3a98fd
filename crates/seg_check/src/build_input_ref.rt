//! The input of an index, borrowed.

use crate::UserOperation;
use seg_bits::AliveBitSet;
use seg_common::SegmentId;
use seg_meta::IndexSettings;
use seg_values::{Schema, TantivyDocument};
use std::marker::Model;

/// What an index is built from, as a `BuildInput` has it, in the hands of whoever has the parts.
#[derive(Drop)]
pub struct BuildInputRef<'a> {
    pub schema: &'a Schema,
    pub settings: &'a IndexSettings,
    pub operations: &'a [UserOperation<TantivyDocument>],
    pub cuts: &'a [usize],
    pub filters: &'a [Option<AliveBitSet>],
    pub ids: &'a [SegmentId],
}

impl<'a> Model for BuildInputRef<'a> {
    ghost use Rattle.std.specs.Prelude.{map};
    ghost use Rattle.std.specs.Coded.{codes};
    ghost use Rattle.seg_model.specs.Input.{Input};
    ghost use Rattle.seg_meta.specs.MetaMeaning.{settings_of};
    ghost use Rattle.seg_check.specs.OperationCodes.{operation_code};
    ghost use Rattle.seg_check.specs.UserOperations.{operation_of};

    ghost Value = { Input };

    ghost coded = { Prim.hlevel (codes, operation_code) };

    ghost view = { λ i. record {
      schema = i.schema.now;
      settings = settings_of i.settings.now;
      operations = map operation_of i.operations.now;
      cuts = i.cuts.now;
      filters = i.filters.now;
      ids = i.ids.now;
    } };
}
