//! Places in a source.

use ft_print::line_col;

#[test]
fn a_place_has_its_line_and_its_column(rt: HostRuntime) {
    for (source, at, wanted) in [
        ("", 0, (1, 1)),
        ("rule", 4, (1, 5)),
        ("rule", 9, (1, 5)),
        ("é€𝒯a", 9, (1, 4)),
        ("a\n\nbc", 1, (1, 2)),
        ("a\n\nbc", 2, (2, 1)),
        ("a\n\nbc", 4, (3, 2)),
    ] {
        assert!(rt; line_col(source, at) == wanted, "{source}");
    }
}
