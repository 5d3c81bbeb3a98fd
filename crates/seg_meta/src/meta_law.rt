//! A meta reads back from its own text.
ghost use Rattle.std.specs.Prelude.{◌≡◌, ◌<◌, ◌^◌, Some, true};
ghost use Rattle.std.specs.List.{AllByRecursion};
ghost use Rattle.seg_values.specs.SchemaRules.{is_schema};
ghost use Rattle.seg_meta.specs.IndexOfFiles.{Meta};
ghost use Rattle.seg_meta.specs.MetaBounds.{AreReadBack, IsText, HasTexts, SegmentFits, MetaFits};
ghost use Rattle.seg_meta.specs.ParsedMeta.{meta_read};
ghost use Rattle.seg_meta.specs.MetaText.{meta_text};
ghost use Rattle.seg_meta.specs.SavableMetas.{IsMetaList};
ghost use Rattle.seg_meta.specs.MetaMeaning.{meta_of, settings_of};

use crate::ranges::{has_32_bits, has_64_bits};
use crate::{IndexMeta, IndexSettings, SegmentMeta};
use seg_common::SegmentId;
use seg_tokens::Text;
use seg_values::{FieldEntry, Schema};

/// The text of a meta reads as it, where its numbers and texts are such as their types hold, its segments such as can
/// be saved, and its fields such as a builder of schemas lets in.
pub fn meta_texts_read_back()
    ensures { (meta : Meta) → MetaFits meta → IsMetaList meta.segments → is_schema meta.schema ≡ true
        → meta_read (meta_text meta) ≡ Some meta }
{}

/// The same of the metas that there are: what their types hold is known. So each word that is written is read as what
/// it was written for.
pub fn metas_read_back(metas: &IndexMeta)
    ensures { IsMetaList metas.now.segments → meta_read (meta_text (meta_of metas.now)) ≡ Some (meta_of metas.now) }
{
    meta_fits(metas);
    metas.schema.fields_are_valid();
}

/// The same of all metas with these settings and this schema.
pub fn schema_reads_back(schema: &Schema, settings: &IndexSettings)
    ensures { AreReadBack (settings_of settings.now) schema.now }
{
    has_32_bits(settings.docstore_blocksize);
    have_texts(schema.fields());
    schema.fields_are_valid();
    meta_texts_read_back();
}

/// Ids have 128 bits.
pub fn ids_fit(ids: &[SegmentId])
    ensures { AllByRecursion (λ id. id < 2 ^ 128) ids.now }
{
    for id in ids {
        id_fits(id);
    }
}

/// And so has each.
pub fn id_fits(id: &SegmentId)
    ensures { id.now < 2 ^ 128 }
{
    let _number = id.as_u128();
}

fn meta_fits(metas: &IndexMeta)
    ensures { MetaFits (meta_of metas.now) }
{
    has_32_bits(metas.index_settings.docstore_blocksize);
    has_64_bits(metas.opstamp);
    is_text(&metas.payload);
    have_texts(metas.schema.fields());
    segments_fit(metas.segments.as_slice());
}

fn is_text(text: &Option<Text>)
    ensures { IsText text.now }
{
    if let Some(text) = text {
        text.text_is_utf8();
    }
}

fn has_texts(entry: &FieldEntry)
    ensures { HasTexts entry.now }
{
    entry.name.text_is_utf8();
    is_text(&entry.tokenizer);
    is_text(&entry.fast_tokenizer);
}

fn have_texts(entries: &[FieldEntry])
    ensures { AllByRecursion HasTexts entries.now }
{
    for entry in entries {
        has_texts(entry);
    }
}

fn segments_fit(segments: &[SegmentMeta])
    ensures { AllByRecursion SegmentFits segments.now }
{
    for segment in segments {
        segment.fits();
    }
}
