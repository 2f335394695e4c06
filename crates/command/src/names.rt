ghost use Rattle.std.specs.Prelude.{◌≡◌};
ghost use Rattle.std.specs.List.{list_all};
ghost use Rattle.command.specs.Reading.{is_name_byte, is_name, is_path_byte, is_path, is_target};

use site_ids::{MAX_NAME, MAX_PATH};

fn is_name_byte(b: u8) -> bool
    ensures { result ≡ is_name_byte b }
{
    matches!(b, b'a'..=b'z' | b'A'..=b'Z' | b'0'..=b'9' | b'-' | b'.' | b'/' | b'_')
}

fn is_name_text(bytes: &[u8]) -> bool
    ensures { result ≡ list_all is_name_byte bytes.now }
{
    bytes.iter().all(|b| is_name_byte(*b))
}

/// Whether a word can name a template or data.
pub(crate) fn is_name(word: &str) -> bool
    ensures { result ≡ is_name word.now }
{
    let bytes = word.as_bytes();
    !bytes.is_empty() && bytes.len() <= MAX_NAME && is_name_text(bytes)
}

fn is_path_byte(b: u8) -> bool
    ensures { result ≡ is_path_byte b }
{
    33 <= b && b != 127
}

fn is_path_text(bytes: &[u8]) -> bool
    ensures { result ≡ list_all is_path_byte bytes.now }
{
    bytes.iter().all(|b| is_path_byte(*b))
}

/// Whether a word can be the path of a route or a redirect.
pub(crate) fn is_path(word: &str) -> bool
    ensures { result ≡ is_path word.now }
{
    let bytes = word.as_bytes();
    bytes.starts_with(b"/")
        && bytes.len() <= MAX_PATH
        && is_path_text(bytes)
        && !bytes.starts_with(b"/_")
        && !bytes.starts_with(b"/@")
}

/// Whether a word can be the path that a redirect leads to.
pub(crate) fn is_target(word: &str) -> bool
    ensures { result ≡ is_target word.now }
{
    is_path(word) && !word.as_bytes().starts_with(b"//")
}
