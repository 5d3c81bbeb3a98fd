//! The text of a meta, read and written.

use crate::failure::Refused;
use crate::lines::Lines;
use seg_meta::{meta_text, read_meta};
use std::alloc::Global;

/// A meta with one field and two segments, of which one has deletes.
const TEXT: &str = "{
  \"index_settings\": {
    \"docstore_blocksize\": 7,
    \"docstore_compress_dedicated_thread\": true,
    \"docstore_compression\": \"lz4\"
  },
  \"opstamp\": 3,
  \"payload\": \"a \\\"b\\\"\",
  \"schema\": [
    {
      \"expand_dots\": false,
      \"fast\": false,
      \"fast_tokenizer\": null,
      \"index\": \"positions\",
      \"kind\": \"text\",
      \"name\": \"title\",
      \"norms\": true,
      \"precision\": \"seconds\",
      \"stored\": true,
      \"tokenizer\": \"default\"
    }
  ],
  \"segments\": [
    {
      \"deletes\": null,
      \"max_doc\": 2147483647,
      \"segment_id\": \"00000000000000000000000000000001\"
    },
    {
      \"deletes\": {
        \"num_deleted_docs\": 1,
        \"opstamp\": 3
      },
      \"max_doc\": 4,
      \"segment_id\": \"00000000000000000000000000000002\"
    }
  ]
}
";

/// The text of the meta that is read from a text.
fn rewritten(alloc: Global, text: &str) -> Result<Vec<u8>, Refused> {
    let Ok(metas) = read_meta(alloc, text.as_bytes()) else {
        return Err(Refused);
    };
    match meta_text(alloc, &metas) {
        Ok(text) => Ok(text),
        Err(_) => Err(Refused),
    }
}

fn add_text(lines: &mut Lines, text: &str) {
    let is_as_read = text == TEXT;
    lines.add_answer(
        "whether the meta below is written as it was read",
        &is_as_read,
    );
    lines.add(text.trim_end());
}

pub(crate) fn add_meta(lines: &mut Lines) {
    let Ok(text) = rewritten(lines.alloc(), TEXT) else {
        return lines.miss();
    };
    match str::from_utf8(&text) {
        Ok(text) => add_text(lines, text),
        Err(_) => lines.miss(),
    }
}
