//! The causes for which no part of a copy is written, as they are told.
ghost use Rattle.std.specs.Prelude.{◌≡◌, ◌++◌, IfOk, Some, codes, false, string_bytes};
ghost use Rattle.std.specs.Fmt.{decimal};
ghost use Rattle.hq_base.specs.Text.{has_zero};
ghost use Rattle.hq_command_copy.specs.Causes.{copy_cause, part_cause, with_name, with_number};
ghost use Rattle.hq_faults.specs.FaultTexts.{want_text};

use hq_base::{Memory, Txt};
use hq_copy_definition::CopyRefusal;
use hq_copy_text::PartRefusal;
use hq_faults::want_text;
use hq_model::Want;
use std::alloc::Global;

// A cause without fields.
fn text(alloc: Global, cause: &str) -> Result<Txt, Memory>
    requires { has_zero cause.now ≡ false }
    ensures { IfOk result (λ text. text ≡ cause.now) }
{
    let mut text = Txt::new(alloc);
    text.push_str(cause)?;
    Ok(text)
}

// A cause of a name.
fn with_name(alloc: Global, cause: &str, name: &Txt) -> Result<Txt, Memory>
    requires { has_zero cause.now ≡ false }
    ensures { IfOk result (λ text. text ≡ with_name cause.now name.now) }
{
    let mut text = text(alloc, cause)?;
    text.push_str(" ")?;
    text.push_txt(name)?;
    Ok(text)
}

// A number in decimal.
fn digits(alloc: Global, number: u64) -> Result<String, Memory>
    ensures text { IfOk result (λ digits. string_bytes digits ≡ decimal number) }
    ensures clean { IfOk result (λ digits. has_zero (string_bytes digits) ≡ false) }
{
    Ok(format!(in alloc; "{number}")?)
}

// A text, and a number behind it.
fn with_number(alloc: Global, text: Txt, number: u64) -> Result<Txt, Memory>
    ensures { IfOk result (λ all. all ≡ with_number text number) }
{
    let mut text = text;
    text.push_str(" ")?;
    text.push_str(digits(alloc, number)?.as_str())?;
    Ok(text)
}

// A cause of a variable, and what its text was to be read as.
fn with_want(alloc: Global, name: &Txt, want: Want) -> Result<Txt, Memory>
    ensures { IfOk result (λ text. text ≡ with_name (codes "BadVariable") name.now ++ codes " " ++ want_text (Some want)) }
{
    let mut text = with_name(alloc, "BadVariable", name)?;
    text.push_str(" ")?;
    text.push_str(want_text(Some(want)))?;
    Ok(text)
}

/// Why no copy is made: its name, and its fields, each after a space. Of want of memory nothing is told.
pub fn copy_cause(alloc: Global, refusal: &CopyRefusal) -> Result<Txt, Memory>
    ensures text { IfOk result (λ text. text ≡ copy_cause refusal.now) }
    ensures memory { refusal.now ≡ CopyRefusal.Memory → IfOk result (λ text. ⊥) }
{
    match refusal {
        CopyRefusal::NoVariable { name } => with_name(alloc, "NoVariable", name),
        CopyRefusal::BadVariable { name, want } => with_want(alloc, name, *want),
        CopyRefusal::NameTaken { name } => with_name(alloc, "NameTaken", name),
        CopyRefusal::MaskedKey { table } => with_name(alloc, "MaskedKey", table),
        CopyRefusal::TooWide { table } => with_name(alloc, "TooWide", table),
        CopyRefusal::NotWritable { table, position } => {
            let cause = with_name(alloc, "NotWritable", table)?;
            with_number(alloc, cause, *position)
        }
        CopyRefusal::Failed { before, after } => {
            let cause = text(alloc, "Failed")?;
            let cause = with_number(alloc, cause, *before)?;
            with_number(alloc, cause, *after)
        }
        CopyRefusal::Memory => Err(Memory),
    }
}

/// Why there is no text of a part. Of want of memory nothing is told.
pub fn part_cause(alloc: Global, refusal: PartRefusal) -> Result<Txt, Memory>
    ensures text { IfOk result (λ text. text ≡ part_cause refusal) }
    ensures memory { refusal ≡ PartRefusal.Memory → IfOk result (λ text. ⊥) }
{
    match refusal {
        PartRefusal::NoSuchPart => text(alloc, "NoSuchPart"),
        PartRefusal::TooLarge => text(alloc, "TooLarge"),
        PartRefusal::Memory => Err(Memory),
    }
}
