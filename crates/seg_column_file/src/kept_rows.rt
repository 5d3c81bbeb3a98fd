//! Marks of the rows that are kept.
ghost use Rattle.std.specs.Prelude.{◌≡◌, ◌<◌, [], false, true, All, length, get_or, map, replicate, slice_set, IfOk};
ghost use Rattle.seg_column_file.specs.KeptRows.{AreMarks};
ghost use Rattle.seg_column_file.specs.RowOrders.{IsRow, rows_in_order};

use crate::row_order::{MergeRowOrder, OrderedRows};
use std::alloc::{AllocError, Global};
use std::marker::Model;

/// For each file a mark for each of its rows. It is seen as these lists.
#[derive(Drop)]
pub struct KeptRows {
    files: Vec<Vec<bool>>,
}

impl Model for KeptRows {
    ghost use Rattle.std.specs.Prelude.{Bool, List, map};

    ghost Value = { List (List Bool) };

    ghost view = { λ k. map (λ marks. marks.items) k.files.items };
}

impl KeptRows {
    /// Marks these rows of files that have this many each.
    pub fn new(alloc: Global, counts: &[u32], rows: OrderedRows<'_>) -> Result<KeptRows, AllocError>
        requires { All (IsRow counts.now) rows }
        ensures { IfOk result (λ kept. AreMarks counts.now rows.entry kept) }
    {
        let mut kept = unmarked(alloc, counts)?;
        for (file, row) in rows {
            kept.mark(file, row as usize);
        }
        Ok(kept)
    }

    /// Marks the rows that a merge keeps of files that have this many each. Where they are stacked, none is looked at.
    pub fn of_order(
        alloc: Global,
        counts: &[u32],
        order: &MergeRowOrder,
    ) -> Result<KeptRows, AllocError>
        requires { All (IsRow counts.now) (rows_in_order counts.now order.now) }
        ensures { IfOk result (λ kept. AreMarks counts.now (rows_in_order counts.now order.now) kept) }
    {
        match order {
            MergeRowOrder::Stack => all_marked(alloc, counts),
            MergeRowOrder::Shuffled(_) => {
                KeptRows::new(alloc, counts, OrderedRows::new(counts, order))
            }
        }
    }

    /// The marks of a file.
    pub fn of_file(&self, file: usize) -> &[bool]
        requires { file < length self.now }
        ensures { result.now ≡ get_or self.now file [] }
    {
        self.files[file].as_slice()
    }

    fn mark(&mut self, file: usize, row: usize)
        requires { row < length (get_or self.old file []) }
        ensures { self.new ≡ slice_set self.old file (slice_set (get_or self.old file []) row true) }
    {
        let marks = &mut self.files[file];
        marks[row] = true;
    }
}

/// Files without a mark.
fn unmarked(alloc: Global, counts: &[u32]) -> Result<KeptRows, AllocError>
    ensures { IfOk result (λ kept. kept ≡ map (λ count. replicate count false) counts.now) }
{
    let mut files = Vec::new(alloc);
    for count in counts {
        files.push(unmarked_rows(alloc, *count)?)?;
    }
    Ok(KeptRows { files })
}

/// Files with a mark on each row.
fn all_marked(alloc: Global, counts: &[u32]) -> Result<KeptRows, AllocError>
    ensures { IfOk result (λ kept. kept ≡ map (λ count. replicate count true) counts.now) }
{
    let mut files = Vec::with_capacity(alloc, counts.len())?;
    for count in counts {
        files.push(marked_rows(alloc, *count)?)?;
    }
    Ok(KeptRows { files })
}

fn marked_rows(alloc: Global, count: u32) -> Result<Vec<bool>, AllocError>
    ensures { IfOk result (λ marks. marks.items ≡ replicate count true) }
{
    let marks = vec![in alloc; true; count as usize]?;
    Ok(marks)
}

fn unmarked_rows(alloc: Global, count: u32) -> Result<Vec<bool>, AllocError>
    ensures { IfOk result (λ marks. marks.items ≡ replicate count false) }
{
    let marks = vec![in alloc; false; count as usize]?;
    Ok(marks)
}
