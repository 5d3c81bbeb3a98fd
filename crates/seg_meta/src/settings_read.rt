//! Reads settings from JSON.
ghost use Rattle.std.specs.Prelude.{◌≡◌, option_map, codes};
ghost use Rattle.serde_json.specs.View.{view};
ghost use Rattle.seg_meta.specs.ParsedMetaParts.{settings_from, settings_members, compressions};
ghost use Rattle.seg_meta.specs.JsonReaders.{has_only, required, word_of};
ghost use Rattle.seg_meta.specs.MetaMeaning.{settings_of, compression_of};

use crate::IndexSettings;
use crate::members::{below_at, flag_at, has_only, text_at};
use crate::words::compressor_from;
use seg_values::Compressor;
use serde_json::Value;

/// Whether a value is an object with no member but those of settings.
pub fn has_settings_members(json: &Value) -> bool
    ensures { result ≡ has_only settings_members (view json.now) }
{
    has_only(
        json,
        &[
            "docstore_blocksize",
            "docstore_compress_dedicated_thread",
            "docstore_compression",
        ],
    )
}

/// The settings that an object with all of their members says.
pub fn settings_from(json: &Value) -> Option<IndexSettings>
    ensures { option_map settings_of result ≡ settings_from (view json.now) }
{
    if !has_settings_members(json) {
        return None;
    }
    let block_size = below_at(json, "docstore_blocksize", 1 << 32)?;
    let dedicated_thread = flag_at(json, "docstore_compress_dedicated_thread")?;
    let compression = compressor_at(json)?;
    Some(IndexSettings {
        docstore_compression: compression,
        docstore_blocksize: block_size as u32,
        docstore_compress_dedicated_thread: dedicated_thread,
    })
}

fn compressor_at(json: &Value) -> Option<Compressor>
    ensures { option_map compression_of result
        ≡ required (word_of compressions) (codes "docstore_compression") (view json.now) }
{
    compressor_from(text_at(json, "docstore_compression")?)
}
