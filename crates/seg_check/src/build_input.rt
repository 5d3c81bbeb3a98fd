//! The input of an index.

use crate::{BuildInputRef, UserOperation};
use seg_bits::AliveBitSet;
use seg_common::SegmentId;
use seg_meta::IndexSettings;
use seg_values::{Schema, TantivyDocument};
use std::marker::Model;

/// What an index is built from. Nothing is checked yet: cuts, filters and ids need not fit the operations.
#[derive(Drop)]
pub struct BuildInput {
    pub schema: Schema,
    pub settings: IndexSettings,
    /// In the order of their stamps.
    pub operations: Vec<UserOperation<TantivyDocument>>,
    /// The places in the operations at which one batch ends and the next begins.
    pub cuts: Vec<usize>,
    /// For each batch which of its additions are kept; without a filter all are.
    pub filters: Vec<Option<AliveBitSet>>,
    /// Of the batches' segments in order, and of the output.
    pub ids: Vec<SegmentId>,
}

impl Model for BuildInput {
    ghost use Rattle.std.specs.Prelude.{map};
    ghost use Rattle.std.specs.Coded.{codes};
    ghost use Rattle.seg_model.specs.Input.{Input};
    ghost use Rattle.seg_meta.specs.MetaMeaning.{settings_of};
    ghost use Rattle.seg_check.specs.OperationCodes.{operation_code};
    ghost use Rattle.seg_check.specs.UserOperations.{operation_of};

    ghost Value = { Input };

    ghost coded = { Prim.hlevel (codes, operation_code) };

    ghost view = { λ i. record {
      schema = i.schema;
      settings = settings_of i.settings;
      operations = map operation_of i.operations.items;
      cuts = i.cuts.items;
      filters = i.filters.items;
      ids = i.ids.items;
    } };
}

impl BuildInput {
    ghost use Rattle.std.specs.Prelude.{◌≡◌};

    pub fn as_ref(&self) -> BuildInputRef<'_>
        ensures { result ≡ self.now }
    {
        BuildInputRef {
            schema: &self.schema,
            settings: &self.settings,
            operations: &self.operations,
            cuts: &self.cuts,
            filters: &self.filters,
            ids: &self.ids,
        }
    }
}
