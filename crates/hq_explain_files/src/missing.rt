//! A file that is absent or too large, in words.

use hq_base::{Bytes, Memory, Txt};
use hq_explain_places::Words;
use std::alloc::Global;

/// That a file of a directory is absent, or else that it is too large.
pub fn missing_words(alloc: Global, dir: &Txt, file: &Txt, absent: bool) -> Result<Bytes, Memory> {
    let mut words = Words::new(alloc);
    words.put_bytes(file.as_bytes());
    if absent {
        words.put(": no such file in ");
        words.put_name(dir);
        words.put(
            "\n  = a directory has catalog.json, metadata.json, and for each table of the catalog SCHEMA.TABLE.csv\n",
        );
    } else {
        words.put(": more than 268,435,456 bytes\n");
    }
    words.told()
}
