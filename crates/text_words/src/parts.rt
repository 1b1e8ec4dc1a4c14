//! Parts of a path.

ghost use Rattle.std.specs.Prelude.{◌≡◌};
ghost use Rattle.std.specs.List.{list_any};
ghost use Rattle.text_words.specs.Parts as spec;

/// Whether the bytes may be a part of a path: none is `/` or NUL, and they are neither `.` nor `..`.
pub fn may_be_part(bytes: &[u8]) -> bool
    ensures { result ≡ spec.may_be_part bytes.now }
{
    !has_slash_or_nul(bytes) && !is_dots(bytes)
}

fn has_slash_or_nul(bytes: &[u8]) -> bool
    ensures { result ≡ list_any spec.is_slash_or_nul bytes.now }
{
    bytes.iter().any(|b| *b == b'/' || *b == 0)
}

// Whether the bytes are `.` or `..`.
fn is_dots(bytes: &[u8]) -> bool
    ensures { result ≡ spec.is_dots bytes.now }
{
    bytes == b".".as_slice() || bytes == b"..".as_slice()
}
