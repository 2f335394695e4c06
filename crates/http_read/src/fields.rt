//! Looks fields up by their names.
ghost use Rattle.std.specs.Prelude.{◌≡◌, ◌<◌, length};
ghost use Rattle.http_read.specs.Checks.{values_of, has_field_name};
ghost use Rattle.http_read.specs.Spans.{covered, LieIn, head_of};
ghost use Rattle.httparse.specs.Spans.{header_bytes, IsHeaderWithin};
ghost use Rattle.std.specs.Option.{option_map};

use httparse::spans::HeaderSpan;

/// Whether the field has this name, whatever its case.
pub(crate) fn has_name(bytes: &[u8], field: HeaderSpan, name: &[u8]) -> bool
    requires { IsHeaderWithin (length bytes.now) field }
    ensures { result ≡ has_field_name name.now (header_bytes bytes.now field) }
{
    field.name.of(bytes).eq_ignore_ascii_case(name)
}

/// How many field lines have this name.
pub(crate) fn count_named(bytes: &[u8], fields: &[HeaderSpan], name: &[u8]) -> usize
    requires { LieIn bytes.now fields.now }
    ensures { result ≡ length (values_of name.now (covered bytes.now fields.now)) }
{
    let mut count = 0;
    for i in 0..fields.len() {
        if has_name(bytes, fields[i], name) {
            count += 1;
        }
    }
    count
}

/// The value of the first field line with this name.
pub fn first_named<'b>(bytes: &'b [u8], fields: &[HeaderSpan], name: &[u8]) -> Option<&'b [u8]>
    requires { LieIn bytes.now fields.now }
    ensures { option_map (λ v. v.now) result ≡ head_of (values_of name.now (covered bytes.now fields.now)) }
{
    for i in 0..fields.len() {
        if has_name(bytes, fields[i], name) {
            return Some(fields[i].value.of(bytes));
        }
    }
    None
}
