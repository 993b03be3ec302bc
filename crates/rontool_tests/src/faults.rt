//! Rows: a fault, and how it is told.
use ron_base::error::{Position, Span};
use rontool_faults::{Fault, Format, Note, tell};

/// The span between two places of a line.
fn span(line: usize, start: usize, end: usize) -> Span {
    Span {
        start: Position { line, col: start },
        end: Position { line, col: end },
    }
}

/// A fault in `a.ron`.
fn fault(span: Span, message: &str) -> Fault<'_> {
    Fault {
        file: "a.ron",
        span,
        message,
        note: None,
    }
}

#[test]
fn tells_excerpts(rt: HostRuntime) {
    for (text, span, want) in [
        (
            "(x: 1 y: 2)",
            span(1, 7, 8),
            "a.ron:1:7: no\n1 | (x: 1 y: 2)\n  |       ^\n",
        ),
        (
            "(\r\n\tx: é!,\r\n)",
            span(2, 5, 6),
            "a.ron:2:5: no\n2 | \tx: é!,\n  | \t   ^\n",
        ),
        ("ab", span(1, 1, 3), "a.ron:1:1: no\n1 | ab\n  | ^^\n"),
        ("ab", span(1, 3, 3), "a.ron:1:3: no\n1 | ab\n  |   ^\n"),
        (
            "a\u{1b}bc",
            span(1, 3, 4),
            "a.ron:1:3: no\n1 | a\\u{1b}bc\n  |        ^\n",
        ),
        ("日本x", span(1, 3, 4), "a.ron:1:3: no\n1 | 日本x\n  |     ^\n"),
        ("a", span(7, 1, 1), "a.ron:7:1: no\n7 | \n  | ^\n"),
    ] {
        let told = tell(rt.alloc(), text, &fault(span, "no"), Format::Long).expect(&rt, "memory");
        assert_eq!(rt; told.as_str(), want);
    }
}

#[test]
fn tells_a_note_and_in_short(rt: HostRuntime) {
    let mut told = fault(span(2, 2, 3), "no `\"`");
    told.note = Some(Note {
        span: span(1, 1, 2),
        message: "opened here",
    });
    for (format, want) in [
        (
            Format::Long,
            "a.ron:2:2: no `\"`\n2 |  ]\n  |  ^\nnote: opened here\n1 | (\n  | ^\n",
        ),
        (Format::Short, "a.ron:2:2: no `\"`\n"),
    ] {
        let written = tell(rt.alloc(), "(\n ]", &told, format).expect(&rt, "memory");
        assert_eq!(rt; written.as_str(), want);
    }
}

#[test]
fn tells_json(rt: HostRuntime) {
    let mut told = fault(span(2, 2, 3), "no `\"`");
    told.note = Some(Note {
        span: span(1, 1, 2),
        message: "opened here",
    });
    let written = tell(rt.alloc(), "(\n ]", &told, Format::Json).expect(&rt, "memory");
    let front =
        r#"{"column":2,"end_column":3,"end_line":2,"file":"a.ron","line":2,"message":"no `\"`","note":"#;
    let note = r#"{"column":1,"end_column":2,"end_line":1,"line":1,"message":"opened here"}"#;
    let want = format!(in rt.alloc(); "{front}{note}}}\n").expect(&rt, "memory");
    assert_eq!(rt; written.as_str(), want.as_str());
}

#[test]
fn cuts_a_long_line_around_the_place(rt: HostRuntime) {
    let mut text = String::new(rt.alloc());
    for _ in 0..30 {
        text.push_str("0123456789").expect(&rt, "memory");
    }
    let told = tell(
        rt.alloc(),
        text.as_str(),
        &fault(span(1, 101, 102), "no"),
        Format::Long,
    )
    .expect(&rt, "memory");
    let shown =
        "…0123456789012345678901234567890123456789012345678901234567890123456789012345678901234567890123456789…";
    let carets = "  |                                          ^\n";
    let want = format!(in rt.alloc(); "a.ron:1:101: no\n1 | {shown}\n{carets}").expect(
        &rt, "memory",
    );
    assert_eq!(rt; told.as_str(), want.as_str());
}
