//! The files of terms, postings and positions.
ghost use Rattle.std.specs.Prelude.{◌≡◌, ◌≢◌, ◌<◌, ◌≤◌, ◌-◌, ◌^◌, ◌++◌, ◌∷◌, [], Some, None, IfOk, IfErr, IfSome, OnOk, OnErr};
ghost use Rattle.seg_common.specs.WriterGrowth.{HasGrown};
ghost use Rattle.seg_directory.specs.CompositeFiles.{composite, low_after};
ghost use Rattle.seg_postings.specs.FieldSerializers.{fresh};
ghost use Rattle.seg_postings.specs.FieldFiles.{FieldFiles, no_fields, with_field};

use crate::field_parts::FieldBytes;
use crate::field_serializer::FieldSerializer;
use seg_common::CommonError;
use seg_directory::CompositeWriter;
use seg_values::{Field, PostingsError};
use std::alloc::Global;
use std::marker::Model;

/// Writes the three files of the indexed fields of a segment, each a composite file with one part a field. Once out of
/// memory it answers so for good, and it is seen as nothing.
#[derive(Drop)]
pub struct InvertedIndexSerializer {
    alloc: Global,
    files: Option<OpenFiles>,
}

#[derive(Drop)]
struct OpenFiles {
    terms: CompositeWriter,
    postings: CompositeWriter,
    positions: CompositeWriter,
}

/// The bytes of the three files.
#[derive(Drop)]
pub struct PostingsFiles {
    pub terms: Vec<u8>,
    pub postings: Vec<u8>,
    pub positions: Vec<u8>,
}

impl Model for InvertedIndexSerializer {
    ghost use Rattle.std.specs.Prelude.{◌≢◌, Option, None, IfSome, option_and_then};
    ghost use Rattle.seg_postings.specs.FieldFiles.{FieldFiles, all_files};

    ghost Value = { Option FieldFiles };

    ghost view = { λ s. option_and_then (λ f. all_files f.terms f.postings f.positions) s.files };

    ghost invariant = { λ s. IfSome s.files (λ f. all_files f.terms f.postings f.positions ≢ None) };
}

impl InvertedIndexSerializer {
    pub fn new(alloc: Global) -> InvertedIndexSerializer
        ensures { result ≡ Some no_fields }
    {
        InvertedIndexSerializer {
            alloc,
            files: Some(OpenFiles {
                terms: CompositeWriter::new(alloc),
                postings: CompositeWriter::new(alloc),
                positions: CompositeWriter::new(alloc),
            }),
        }
    }

    /// Begins a field with the total of its tokens: the sum of the counts of its terms, and of the documents of those
    /// without counts.
    pub fn new_field(
        &self,
        field: Field,
        total_num_tokens: u64,
    ) -> Result<FieldSerializer, PostingsError>
        ensures ok { IfOk result (λ f. f ≡ Some (fresh field total_num_tokens)) }
        ensures kept { OnOk result (self.now ≢ None) }
        ensures err { IfErr result (λ e. e ≡ PostingsError.OutOfMemory) }
    {
        match self.files {
            Some(_) => FieldSerializer::new(self.alloc, field, total_num_tokens),
            None => Err(PostingsError::OutOfMemory),
        }
    }

    /// Adds the parts of a field, which is above those added before.
    pub(crate) fn add_field(
        &mut self,
        field: Field,
        bytes: &FieldBytes,
    ) -> Result<(), PostingsError>
        requires ascends { IfSome self.old (λ f. (low_after 0 f.terms ≤ field) × (low_after 0 f.postings ≤ field)
            × (low_after 0 f.positions ≤ field)) }
        requires limit { field < 2 ^ 32 - 1 }
        ensures ok { OnOk result (HasGrown self.old self.new
            (with_field field bytes.now.dictionary.items bytes.now.postings.items bytes.now.positions.items)) }
        ensures err { IfErr result (λ e. (e ≡ PostingsError.OutOfMemory) × (self.new ≡ None)) }
    {
        let Some(files) = &mut self.files else {
            return Err(PostingsError::OutOfMemory);
        };
        if add_parts(files, field, bytes).is_ok() {
            return Ok(());
        }
        self.files = None;
        Err(PostingsError::OutOfMemory)
    }

    /// Gives up, since a field of it was refused.
    pub(crate) fn refuse(&mut self)
        ensures { self.new ≡ None }
    {
        self.files = None;
    }

    /// The bytes of the files.
    pub fn close(self) -> Result<PostingsFiles, PostingsError>
        ensures ok { IfOk result (λ b. IfSome self (λ f. (composite b.terms.items ≡ Some f.terms)
            × (composite b.postings.items ≡ Some f.postings) × (composite b.positions.items ≡ Some f.positions))) }
        ensures kept { OnOk result (self ≢ None) }
        ensures err { IfErr result (λ e. e ≡ PostingsError.OutOfMemory) }
    {
        match self.files {
            Some(files) => match close_files(files) {
                Ok(files) => Ok(files),
                Err(_) => Err(PostingsError::OutOfMemory),
            },
            None => Err(PostingsError::OutOfMemory),
        }
    }
}

fn add_parts(files: &mut OpenFiles, field: Field, bytes: &FieldBytes) -> Result<(), CommonError>
    requires terms { IfSome files.old.terms (λ ps. low_after 0 ps ≤ field) }
    requires postings { IfSome files.old.postings (λ ps. low_after 0 ps ≤ field) }
    requires positions { IfSome files.old.positions (λ ps. low_after 0 ps ≤ field) }
    requires limit { field < 2 ^ 32 - 1 }
    ensures terms { OnOk result (HasGrown files.old.terms files.new.terms
        (λ ps. ps ++ (field, bytes.now.dictionary.items) ∷ [])) }
    ensures postings { OnOk result (HasGrown files.old.postings files.new.postings
        (λ ps. ps ++ (field, bytes.now.postings.items) ∷ [])) }
    ensures positions { OnOk result (HasGrown files.old.positions files.new.positions
        (λ ps. ps ++ (field, bytes.now.positions.items) ∷ [])) }
{
    files.terms.write(field, &bytes.dictionary)?;
    files.postings.write(field, &bytes.postings)?;
    files.positions.write(field, &bytes.positions)
}

fn close_files(files: OpenFiles) -> Result<PostingsFiles, CommonError>
    ensures terms { IfOk result (λ b. composite b.terms.items ≡ files.terms) }
    ensures postings { IfOk result (λ b. composite b.postings.items ≡ files.postings) }
    ensures positions { IfOk result (λ b. composite b.positions.items ≡ files.positions) }
{
    let OpenFiles {
        terms,
        postings,
        positions,
    } = files;
    let terms = terms.close()?;
    let postings = postings.close()?;
    let positions = positions.close()?;
    Ok(PostingsFiles {
        terms,
        postings,
        positions,
    })
}
