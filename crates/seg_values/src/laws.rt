//! What the definitions say together.
ghost use Rattle.seg_values.specs.Laws.{JsonReadsBack};

/// What `to_json` gives of nothing, texts, truth values, unsigned and negative numbers, and lists and objects of them
/// with ascending keys, `from_json` reads as the same value.
pub fn json_reads_back()
    ensures { JsonReadsBack }
{}
