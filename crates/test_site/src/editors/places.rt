//! Places in texts.
use crate::comparing::same;
use editor_folder::place_of;

const PLACES: &[(&[u8], usize, usize, usize)] = &[
    (b"", 0, 1, 1),
    (b"ab", 1, 1, 2),
    (b"ab", 9, 1, 3),
    (b"a\nb", 1, 1, 2),
    (b"a\nb", 2, 2, 1),
    (b"a\r\n\nb", 4, 3, 1),
    (b"\xc3\xa4b", 2, 1, 2),
    (b"x\n\xe2\x82\xac\xe2\x82\xacb", 8, 2, 3),
];

#[test]
fn lines_and_columns(rt: HostRuntime) {
    for &(text, at, line, column) in PLACES {
        let place = place_of(text, at);
        same(&rt, (place.line, place.column), (line, column));
    }
}
