use rounds_audit::{Verdict, compare_texts};
use std::test::Fail;

#[test]
fn texts_differ_by_line_and_word(rt: HostRuntime) -> Result<(), Fail> {
    for (kept, lawful, first) in [
        (
            b"a b\nc d\n".as_slice(),
            b"a b\nc e\n".as_slice(),
            (2, b"d".as_slice(), b"e".as_slice()),
        ),
        (b"a b\n", b"a bc\n", (1, b"b", b"bc")),
        (b"a\n", b"a b\n", (1, b"none", b"b")),
        (b"a b\n", b"a\n", (1, b"b", b"none")),
        (b"a\n", b"a\nb\n", (2, b"", b"b")),
        (b"a", b"a\n", (2, b"none", b"")),
    ] {
        let Verdict::Unlawful { line, kept, lawful } = compare_texts(kept, lawful) else {
            return Err(Fail::from("the same"));
        };
        assert!(rt; (line, kept.as_bytes(), lawful.as_bytes()) == first);
    }
    assert!(rt; matches!(&compare_texts(b"a b\n", b"a b\n"), Verdict::Lawful));
    Ok(())
}
