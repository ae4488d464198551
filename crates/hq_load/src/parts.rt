//! Lines by their parts.
ghost use Rattle.std.specs.Prelude.{◌++◌, map, OnOk, option_copied};
ghost use Rattle.std.specs.Fmt.{decimal};
ghost use Rattle.std.specs.List.{concat};
ghost use Rattle.std.specs.Io.KnownBytes.{Appends};
ghost use Rattle.hq_io.specs.Causes.{HasCause};
ghost use Rattle.hq_io.specs.Streams.{AppendsPrefix};
ghost use Rattle.hq_load.specs.Line.{field_text, field_texts, front_text, part_text, spaced, phrase_text};
ghost use Rattle.hq_load.specs.Wrote.{Wrote};
ghost use Rattle.hq_load.specs.declared.phrase.Phrase.TheVariants as phrase;

use crate::Phrase;
use hq_base::Txt;
use hq_io::{Sink, WriteFailed, write_all};
use itoa::Buffer;

/// A field of a refusal.
#[derive(Clone, Copy)]
pub enum Field<'a> {
    Text(&'a Txt),
    Number(u64),
}

/// The fields of a refusal, in order.
#[derive(Clone, Copy)]
pub enum Fields<'a> {
    Zero,
    One(Field<'a>),
    Two(Field<'a>, Field<'a>),
}

/// A part of a line.
#[derive(Clone, Copy)]
pub enum Part<'a> {
    Fixed(Phrase),
    /// A file and `: `, where there is one.
    WithFile(Option<&'a Txt>),
    /// Each field after a space.
    WithFields(Fields<'a>),
    Count(u64),
}

/// Writes two pieces one after the other, or what goes before a fault.
pub fn write_both<K: Sink>(out: &mut K, first: &[u8], second: &[u8]) -> Result<(), WriteFailed>
    ensures { Wrote (K.written out.old) (K.written out.new) (K.faults out.old) (K.faults out.new) (first.now ++ second.now) result }
{
    write_all(out, first)?;
    write_all(out, second)
}

// Writes a field after a space.
fn write_field<K: Sink>(out: &mut K, field: Field) -> Result<(), WriteFailed>
    ensures { Wrote (K.written out.old) (K.written out.new) (K.faults out.old) (K.faults out.new) (phrase_text phrase.Space ++ field_text field.entry) result }
{
    match field {
        Field::Text(text) => write_both(out, Phrase::Space.bytes(), text.as_bytes()),
        Field::Number(number) => {
            let mut digits = Buffer::new();
            write_both(out, Phrase::Space.bytes(), digits.format(number).as_bytes())
        }
    }
}

// Writes fields, each after a space.
fn write_fields<K: Sink>(out: &mut K, fields: Fields) -> Result<(), WriteFailed>
    ensures { Wrote (K.written out.old) (K.written out.new) (K.faults out.old) (K.faults out.new) (spaced (field_texts fields.entry)) result }
{
    match fields {
        Fields::Zero => Ok(()),
        Fields::One(field) => write_field(out, field),
        Fields::Two(first, second) => {
            write_field(out, first)?;
            write_field(out, second)
        }
    }
}

// Writes a file and what stands behind it, where there is one.
fn write_file<K: Sink>(out: &mut K, file: Option<&Txt>) -> Result<(), WriteFailed>
    ensures { Wrote (K.written out.old) (K.written out.new) (K.faults out.old) (K.faults out.new) (front_text (option_copied file.entry)) result }
{
    match file {
        Some(file) => write_both(out, file.as_bytes(), Phrase::Colon.bytes()),
        None => Ok(()),
    }
}

// Writes a count.
fn write_count<K: Sink>(out: &mut K, count: u64) -> Result<(), WriteFailed>
    ensures { Wrote (K.written out.old) (K.written out.new) (K.faults out.old) (K.faults out.new) (decimal count) result }
{
    let mut digits = Buffer::new();
    write_all(out, digits.format(count).as_bytes())
}

// Writes a part, or what goes before a fault.
fn write_part<K: Sink>(out: &mut K, part: Part) -> Result<(), WriteFailed>
    ensures { Wrote (K.written out.old) (K.written out.new) (K.faults out.old) (K.faults out.new) (part_text part.entry) result }
{
    match part {
        Part::Fixed(phrase) => write_all(out, phrase.bytes()),
        Part::WithFile(file) => write_file(out, file),
        Part::WithFields(fields) => write_fields(out, fields),
        Part::Count(count) => write_count(out, count),
    }
}

/// Writes these parts one after the other, or what goes before a fault.
pub fn write_parts<K: Sink>(out: &mut K, parts: &[Part]) -> Result<(), WriteFailed>
    ensures ok { OnOk result (Appends (K.written out.old) (K.written out.new) (concat (map part_text parts.now))) }
    ensures prefix { AppendsPrefix (K.written out.old) (K.written out.new) (concat (map part_text parts.now)) }
    ensures cause { HasCause (K.faults out.old) (K.faults out.new) result }
{
    for part in parts {
        write_part(out, *part)?;
    }
    Ok(())
}
