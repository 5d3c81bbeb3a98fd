//! What the sizes of fields have to do with the bytes of their parts.
ghost use Rattle.seg_field_metadata.specs.FileLengths.{ReadersSayFiles};
ghost use Rattle.seg_field_metadata.specs.PartLengths.{FieldsSayLengths, PathsMakeUpLengths, SizesAreLengths};

/// What is summed over the terms of a field are the lengths of the parts that the field was opened from. The paths and
/// types of a JSON field share these: the eight bytes of its total of tokens are no path's, and each share of the
/// dictionary is rounded down. So the indexed fields of a segment reader say the lengths of the parts that they have in
/// the files of the segment, and JSON fields shares of them.
pub fn sizes_are_lengths()
    ensures sizes { SizesAreLengths }
    ensures fields { FieldsSayLengths }
    ensures paths { PathsMakeUpLengths }
    ensures files { ReadersSayFiles }
{}
