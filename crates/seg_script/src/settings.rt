//! Reads the settings of a script.
ghost use Rattle.std.specs.Prelude.{◌≡◌, option_map, codes};
ghost use Rattle.serde_json.specs.View.{view};
ghost use Rattle.seg_model.specs.Input.{uncompressed};
ghost use Rattle.seg_meta.specs.ParsedMetaParts.{compressions};
ghost use Rattle.seg_meta.specs.JsonReaders.{word_of};
ghost use Rattle.seg_meta.specs.MetaMeaning.{settings_of, compression_of};
ghost use Rattle.seg_script_values.specs.OptionalMembers.{optional};
ghost use Rattle.seg_script.specs.Settings.{default_settings, settings_from};

use seg_meta::{DEFAULT_BLOCK_SIZE, IndexSettings, compressor_from, has_settings_members};
use seg_script_values::{flag_or, small_or};
use seg_values::Compressor;
use serde_json::Value;

/// The settings of a script.
pub(crate) fn settings_at(json: &Value) -> Option<IndexSettings>
    ensures { option_map settings_of result
        ≡ optional default_settings settings_from (codes "settings") (view json.now) }
{
    match json.get("settings") {
        None => Some(IndexSettings {
            docstore_compression: Compressor::None,
            docstore_blocksize: DEFAULT_BLOCK_SIZE,
            docstore_compress_dedicated_thread: false,
        }),
        Some(settings) => settings_from(settings),
    }
}

/// The settings that an object is.
fn settings_from(json: &Value) -> Option<IndexSettings>
    ensures { option_map settings_of result ≡ settings_from (view json.now) }
{
    if !has_settings_members(json) {
        return None;
    }
    let block_size = small_or(DEFAULT_BLOCK_SIZE, json, "docstore_blocksize")?;
    let dedicated_thread = flag_or(false, json, "docstore_compress_dedicated_thread")?;
    let compression = compressor_at(json)?;
    Some(IndexSettings {
        docstore_compression: compression,
        docstore_blocksize: block_size,
        docstore_compress_dedicated_thread: dedicated_thread,
    })
}

fn compressor_at(json: &Value) -> Option<Compressor>
    ensures { option_map compression_of result
        ≡ optional uncompressed (word_of compressions) (codes "docstore_compression") (view json.now) }
{
    match json.get("docstore_compression") {
        None => Some(Compressor::None),
        Some(word) => compressor_from(word.as_str()?),
    }
}
