ghost use Rattle.std.specs.Prelude.{◌≡◌};
ghost use Rattle.std.specs.List.{list_all};
ghost use Rattle.hq_model.specs.Names.{starts_name, continues_name, is_name, is_reserved, is_free_name};

use hq_base::Txt;

fn starts_name(byte: u8) -> bool
    ensures { result ≡ starts_name byte }
{
    byte.is_ascii_alphabetic() || byte == b'_'
}

fn continues_name(byte: u8) -> bool
    ensures { result ≡ continues_name byte }
{
    byte.is_ascii_alphanumeric() || byte == b'_'
}

fn all_continue_name(bytes: &[u8]) -> bool
    ensures { result ≡ list_all continues_name bytes.now }
{
    bytes.iter().all(|byte| continues_name(*byte))
}

fn is_name(bytes: &[u8]) -> bool
    ensures { result ≡ is_name bytes.now }
{
    match bytes {
        [] => false,
        [first, others @ ..] => starts_name(*first) && all_continue_name(others),
    }
}

fn is_reserved(bytes: &[u8]) -> bool
    ensures { result ≡ is_reserved bytes.now }
{
    matches!(bytes, [first, second, ..] if *first == b'_' && *second == b'_')
}

/// Whether this is a GraphQL Name that does not begin with two underscores (GraphQL October 2021, 2.1.9).
pub fn is_free_name(name: &Txt) -> bool
    ensures { result ≡ is_free_name name.now }
{
    is_name(name.as_bytes()) && !is_reserved(name.as_bytes())
}
