//! Whether a file ends inside a quoted field. csv ends the field there and tells nothing of it, so the file is passed over once
//! more, by the steps of csv's reader.
ghost use Rattle.std.specs.Prelude.{◌≡◌};
ghost use Rattle.csv.specs.Machine.{in_field, start_field, start_record};
ghost use Rattle.csv.specs.Reading.{default_config, is_bom, strip_bom};
ghost use Rattle.csv.specs.declared.parser.State.TheVariants as st;
ghost use Rattle.hq_load_tables.specs.Unclosed.{ends_inside, state_after, state_behind, state_of};

/// Where csv's reader stands, by its defaults.
#[derive(Clone, Copy)]
pub enum Stand {
    StartRecord,
    StartField,
    InField,
    InQuoted,
    AfterQuote,
    AfterCr,
}

// Behind a byte inside a field.
fn in_field(byte: u8) -> Stand
    ensures { state_of result ≡ (in_field default_config byte).0 }
{
    match byte {
        b',' => Stand::StartField,
        b'\r' => Stand::AfterCr,
        b'\n' => Stand::StartRecord,
        _ => Stand::InField,
    }
}

// Behind the first byte of a field.
fn start_field(byte: u8) -> Stand
    ensures { state_of result ≡ (start_field default_config byte).0 }
{
    if byte == b'"' {
        Stand::InQuoted
    } else {
        in_field(byte)
    }
}

// Behind the first byte of a record.
fn start_record(byte: u8) -> Stand
    ensures { state_of result ≡ (start_record default_config byte).0 }
{
    if byte == b'\r' || byte == b'\n' {
        Stand::StartRecord
    } else {
        start_field(byte)
    }
}

// Behind a byte.
fn stand_after(stand: Stand, byte: u8) -> Stand
    ensures { state_of result ≡ state_after (state_of stand) byte }
{
    match stand {
        Stand::StartRecord => start_record(byte),
        Stand::StartField => start_field(byte),
        Stand::InField => in_field(byte),
        Stand::InQuoted => {
            if byte == b'"' {
                Stand::AfterQuote
            } else {
                Stand::InQuoted
            }
        }
        Stand::AfterQuote => {
            if byte == b'"' {
                Stand::InQuoted
            } else {
                in_field(byte)
            }
        }
        Stand::AfterCr => {
            if byte == b'\n' {
                Stand::StartRecord
            } else {
                start_record(byte)
            }
        }
    }
}

// Behind all these bytes, from the start of a record on.
fn stand_behind(bytes: &[u8]) -> Stand
    ensures { state_of result ≡ state_behind st.StartRecord bytes.now }
{
    let mut stand = Stand::StartRecord;
    let mut rest = bytes;
    'bytes: while let [byte, later @ ..] = rest {
        stand = stand_after(stand, *byte);
        rest = later;
    }
    stand
}

// Whether these bytes are a mark of the order of bytes, U+FEFF in UTF-8.
fn is_mark(first: u8, second: u8, third: u8) -> bool
    ensures { result ≡ is_bom first second third }
{
    first == 0xEF && second == 0xBB && third == 0xBF
}

// The bytes without a mark of their order before them.
fn without_mark(bytes: &[u8]) -> &[u8]
    ensures { result.now ≡ strip_bom bytes.now }
{
    if let [first, second, third, rest @ ..] = bytes {
        if is_mark(*first, *second, *third) {
            return rest;
        }
    }
    bytes
}

/// Whether the file of these bytes ends inside a quoted field.
pub fn ends_inside(bytes: &[u8]) -> bool
    ensures { result ≡ ends_inside bytes.now }
{
    match stand_behind(without_mark(bytes)) {
        Stand::InQuoted => true,
        Stand::StartRecord
        | Stand::StartField
        | Stand::InField
        | Stand::AfterQuote
        | Stand::AfterCr => false,
    }
}
