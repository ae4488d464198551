//! Where csv's reader stands in a file, by its defaults.
ghost use Rattle.std.specs.Prelude.{◌≡◌};
ghost use Rattle.csv.specs.Machine.{in_field, start_field, start_record};
ghost use Rattle.csv.specs.Reading.{default_config, is_bom, strip_bom};
ghost use Rattle.hq_explain_places.specs.Records.{begins_field, ends_field, ends_record, is_quoted, state_after, state_of};

/// Where csv's reader stands, by its defaults.
#[derive(Clone, Copy)]
pub enum Stand {
    StartRecord,
    StartField,
    InField,
    InQuoted,
    AfterQuote,
    AfterCr,
}

// Behind a byte inside a field.
fn in_field(byte: u8) -> Stand
    ensures { state_of result ≡ (in_field default_config byte).0 }
{
    match byte {
        b',' => Stand::StartField,
        b'\r' => Stand::AfterCr,
        b'\n' => Stand::StartRecord,
        _ => Stand::InField,
    }
}

// Behind the first byte of a field.
fn start_field(byte: u8) -> Stand
    ensures { state_of result ≡ (start_field default_config byte).0 }
{
    if byte == b'"' {
        Stand::InQuoted
    } else {
        in_field(byte)
    }
}

// Behind the first byte of a record.
fn start_record(byte: u8) -> Stand
    ensures { state_of result ≡ (start_record default_config byte).0 }
{
    if byte == b'\r' || byte == b'\n' {
        Stand::StartRecord
    } else {
        start_field(byte)
    }
}

impl Stand {
    /// Behind a byte.
    pub fn after(self, byte: u8) -> Stand
        ensures { state_of result ≡ state_after (state_of self) byte }
    {
        match self {
            Stand::StartRecord => start_record(byte),
            Stand::StartField => start_field(byte),
            Stand::InField => in_field(byte),
            Stand::InQuoted => {
                if byte == b'"' {
                    Stand::AfterQuote
                } else {
                    Stand::InQuoted
                }
            }
            Stand::AfterQuote => {
                if byte == b'"' {
                    Stand::InQuoted
                } else {
                    in_field(byte)
                }
            }
            Stand::AfterCr => {
                if byte == b'\n' {
                    Stand::StartRecord
                } else {
                    start_record(byte)
                }
            }
        }
    }

    /// Whether a byte ends a field here that is not the last of its record.
    pub fn ends_field(self, byte: u8) -> bool
        ensures { result ≡ ends_field (state_of self) byte }
    {
        match self {
            Stand::InQuoted => false,
            Stand::StartRecord
            | Stand::StartField
            | Stand::InField
            | Stand::AfterQuote
            | Stand::AfterCr => byte == b',',
        }
    }

    /// Whether a byte ends a record here.
    pub fn ends_record(self, byte: u8) -> bool
        ensures { result ≡ ends_record (state_of self) byte }
    {
        match self {
            Stand::StartField | Stand::InField | Stand::AfterQuote => byte == b'\r'
                || byte == b'\n',
            Stand::StartRecord | Stand::InQuoted | Stand::AfterCr => false,
        }
    }

    /// Whether a field begins here.
    pub fn begins_field(self) -> bool
        ensures { result ≡ begins_field (state_of self) }
    {
        match self {
            Stand::StartRecord | Stand::StartField | Stand::AfterCr => true,
            Stand::InField | Stand::InQuoted | Stand::AfterQuote => false,
        }
    }

    /// Whether a quote is open here.
    pub fn is_quoted(self) -> bool
        ensures { result ≡ is_quoted (state_of self) }
    {
        match self {
            Stand::InQuoted => true,
            Stand::StartRecord
            | Stand::StartField
            | Stand::InField
            | Stand::AfterQuote
            | Stand::AfterCr => false,
        }
    }
}

// Whether these bytes are a mark of the order of bytes, U+FEFF in UTF-8.
fn is_mark(first: u8, second: u8, third: u8) -> bool
    ensures { result ≡ is_bom first second third }
{
    first == 0xEF && second == 0xBB && third == 0xBF
}

/// The bytes without a mark of their order before them.
pub fn without_mark(bytes: &[u8]) -> &[u8]
    ensures { result.now ≡ strip_bom bytes.now }
{
    if let [first, second, third, rest @ ..] = bytes {
        if is_mark(*first, *second, *third) {
            return rest;
        }
    }
    bytes
}
