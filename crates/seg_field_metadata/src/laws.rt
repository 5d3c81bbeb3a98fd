//! Laws on merged metadata: the contract of each function here is the whole of it.
ghost use Rattle.std.specs.Prelude.{◌≡◌, List, Vec};
ghost use Rattle.std.specs.declared.alloc.Global.{Global};
ghost use Rattle.std.specs.List.Sorted.{IsPermutation};
ghost use Rattle.seg_field_metadata.specs.MergedMetadata.{all_entries, merged};
ghost use Rattle.seg_field_metadata.specs.declared.field_metadata.FieldMetadata.{FieldMetadata};

/// Every order of the lists gives the same answer.
pub fn merging_in_any_order()
    ensures { (lists others : List (Vec FieldMetadata Global)) → IsPermutation lists others
        → merged (all_entries lists) ≡ merged (all_entries others) }
{}
