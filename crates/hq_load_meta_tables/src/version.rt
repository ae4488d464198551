ghost use Rattle.std.specs.Prelude.{◌≡◌, option_map, IfOk};
ghost use Rattle.hq_base.specs.Compact.{compact};
ghost use Rattle.hq_base.specs.Due.{Gives};
ghost use Rattle.hq_base.specs.Json.{json_view};
ghost use Rattle.hq_load_meta_tables.specs.Top.{version_of, version_due};

use crate::MetaRefusal;
use hq_base::{Bytes, Json, Memory, Txt};
use std::alloc::Global;

/// A version of the metadata format: in 2 the tables stand at the top, in 3 in a source.
#[derive(Clone, Copy)]
pub enum MetaVersion {
    Two,
    Three,
}

// The compact text of a value. It is UTF-8 without a zero byte, so only memory can be wanting.
fn compact_text(alloc: Global, json: &Json) -> Result<Txt, Memory>
    ensures { IfOk result (λ text. text ≡ compact (json_view json.now)) }
{
    let mut bytes = Bytes::new(alloc);
    json.write_to(alloc, &mut bytes)?;
    match Txt::of(alloc, bytes.as_slice()) {
        Ok(text) => Ok(text),
        Err(_) => Err(Memory),
    }
}

// The version that a number tells.
fn version_of(number: Option<i128>) -> Option<MetaVersion>
    ensures { result ≡ version_of number }
{
    match number {
        Some(2) => Some(MetaVersion::Two),
        Some(3) => Some(MetaVersion::Three),
        _ => None,
    }
}

/// The version that the member `version` tells: 2 or 3.
pub fn version_at(alloc: Global, version: Option<&Json>) -> Result<MetaVersion, MetaRefusal>
    ensures { Gives (λ version. version) MetaRefusal.Memory (version_due (option_map (λ j. json_view j.now) version.entry)) result }
{
    let Some(json) = version else {
        return Err(MetaRefusal::Version {
            found: Txt::new(alloc),
        });
    };
    match version_of(json.as_int()) {
        Some(version) => Ok(version),
        None => Err(MetaRefusal::Version {
            found: compact_text(alloc, json)?,
        }),
    }
}
