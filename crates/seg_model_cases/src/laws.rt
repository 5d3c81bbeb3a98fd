//! The cases, by what they are about.
ghost use Rattle.seg_model_cases.specs.Bytes.{ByteCases};
ghost use Rattle.seg_model_cases.specs.ColumnFiles.{ColumnFileCases};
ghost use Rattle.seg_model_cases.specs.Columns.{ColumnCases};
ghost use Rattle.seg_model_cases.specs.Contents.{ContentsCases};
ghost use Rattle.seg_model_cases.specs.Dates.{DateCases};
ghost use Rattle.seg_model_cases.specs.Dictionaries.{DictionaryCases};
ghost use Rattle.seg_model_cases.specs.Documents.{DocumentCases};
ghost use Rattle.seg_model_cases.specs.Files.{DiskCases, OpeningCases};
ghost use Rattle.seg_model_cases.specs.Json.{JsonCases};
ghost use Rattle.seg_model_cases.specs.Operations.{OperationCases};
ghost use Rattle.seg_model_cases.specs.Postings.{PostingsCases};
ghost use Rattle.seg_model_cases.specs.Refusals.{RefusalCases};
ghost use Rattle.seg_model_cases.specs.Stores.{StoreCases};
ghost use Rattle.seg_model_cases.specs.Texts.{TextCases};

/// What texts record, which tokens are too long, what lengths there are, and terms of other kinds.
pub fn cases_of_texts()
    ensures { TextCases }
{}

/// Terms, columns, levels, moments and lengths of JSON fields.
pub fn cases_of_json()
    ensures { JsonCases }
{}

/// Which documents are taken, and what is stored of them.
pub fn cases_of_documents()
    ensures { DocumentCases }
{}

/// What columns record of values.
pub fn cases_of_columns()
    ensures { ColumnCases }
{}

/// Which moments texts tell.
pub fn cases_of_dates()
    ensures { DateCases }
{}

/// Numbers, sets and names of files as bytes.
pub fn cases_of_bytes()
    ensures { ByteCases }
{}

/// What bytes read as columns, and as a file of them.
pub fn cases_of_column_files()
    ensures { ColumnFileCases }
{}

/// What deletes and filters leave, and how many tokens that is.
pub fn cases_of_operations()
    ensures { OperationCases }
{}

/// Why nothing is built of an input, in the order of the tests.
pub fn cases_of_refusals()
    ensures { RefusalCases }
{}

/// Ordinals, ranges and merged terms.
pub fn cases_of_dictionaries()
    ensures { DictionaryCases }
{}

/// What a crash may leave of a file.
pub fn cases_of_disks()
    ensures { DiskCases }
{}

/// What files open as, and which segments are whole.
pub fn cases_of_opening()
    ensures { OpeningCases }
{}

/// Contents that their stored documents tell, and contents that they don't.
pub fn cases_of_contents()
    ensures { ContentsCases }
{}

/// What the parts of a field read as.
pub fn cases_of_postings()
    ensures { PostingsCases }
{}

/// What stores read as, and which blocks a reader keeps.
pub fn cases_of_stores()
    ensures { StoreCases }
{}
