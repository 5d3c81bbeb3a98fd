//! What a tree of merges leaves.
ghost use Rattle.seg_model.specs.MergeTrees.{TreesReadAsOne};

use crate::{joins_group_in_order, joins_have_full_shape};

/// The contents that a tree of merges leaves are those of one merge of the segments at its leaves, in order.
pub fn trees_of_merges_read_as_one()
    ensures { TreesReadAsOne }
{
    joins_group_in_order();
    joins_have_full_shape();
}
