use dm_derive::split;

/// An input, its first line, and what stands below it.
type Row = (&'static [u8], Option<(&'static str, &'static str)>);

const ROWS: &[Row] = &[
    (b"A\nb", Some(("A", "b"))),
    (b"A\r\nb\nc\r", Some(("A", "b\nc\r"))),
    (b"A\r\r\n", Some(("A\r", ""))),
    (b"\n", Some(("", ""))),
    (b"\r\n\n", Some(("", "\n"))),
    (b"A\rb", None),
    (b"", None),
    (b"A\n\xff", None),
];

/// The first input that is split otherwise.
fn first_other() -> Option<&'static [u8]> {
    for (input, parts) in ROWS.iter().copied() {
        if split(input) != parts {
            return Some(input);
        }
    }
    None
}

#[test]
fn splits(rt: HostRuntime) {
    assert_eq!(rt; first_other(), None);
}
