// Which lines are orders.
use lines::{Kind, Line, read_line};
use terms::Refusal;

#[test]
fn numbers_are_read(rt: HostRuntime) {
    assert_eq!(rt; read_line(b"use 0"), Ok(Line::Use { serial: 0 }));
    assert_eq!(rt; read_line(b"use -5"), Ok(Line::Use { serial: -5 }));
    assert_eq!(rt;
        read_line(b"use 9999999999"),
        Ok(Line::Use {
            serial: 9_999_999_999
        })
    );
    assert_eq!(rt;
        read_line(b"use -9999999999"),
        Ok(Line::Use {
            serial: -9_999_999_999
        })
    );
}

#[test]
fn other_numerals_are_refused(rt: HostRuntime) {
    assert_eq!(rt; read_line(b"use 10000000000"), Err(Refusal::NotAnOrder));
    assert_eq!(rt; read_line(b"use -10000000000"), Err(Refusal::NotAnOrder));
    assert_eq!(rt; read_line(b"use -0"), Err(Refusal::NotAnOrder));
    assert_eq!(rt; read_line(b"use -"), Err(Refusal::NotAnOrder));
    assert_eq!(rt; read_line(b"use 00"), Err(Refusal::NotAnOrder));
    assert_eq!(rt; read_line(b"use 007"), Err(Refusal::NotAnOrder));
    assert_eq!(rt; read_line(b"use +5"), Err(Refusal::NotAnOrder));
    assert_eq!(rt; read_line(b"use 5a"), Err(Refusal::NotAnOrder));
}

#[test]
fn spaces_are_single(rt: HostRuntime) {
    assert_eq!(rt; read_line(b"use  5"), Err(Refusal::NotAnOrder));
    assert_eq!(rt; read_line(b"use 5 "), Err(Refusal::NotAnOrder));
    assert_eq!(rt; read_line(b" use 5"), Err(Refusal::NotAnOrder));
    assert_eq!(rt; read_line(b"use\t5"), Err(Refusal::NotAnOrder));
    assert_eq!(rt; read_line(b"fill "), Err(Refusal::NotAnOrder));
    assert_eq!(rt; read_line(b""), Err(Refusal::NotAnOrder));
}

#[test]
fn words_and_counts(rt: HostRuntime) {
    assert_eq!(rt;
        read_line(b"ban 1 2 -3"),
        Ok(Line::Ban { i: 1, k: 2, j: -3 })
    );
    assert_eq!(rt;
        read_line(b"move 0 1 2 3"),
        Ok(Line::Move {
            corner: 0,
            x: 1,
            y: 2,
            z: 3
        })
    );
    assert_eq!(rt; read_line(b"standing"), Ok(Line::Standing));
    assert_eq!(rt; read_line(b"ban 1 2"), Err(Refusal::NotAnOrder));
    assert_eq!(rt; read_line(b"ban 1 2 3 4"), Err(Refusal::NotAnOrder));
    assert_eq!(rt; read_line(b"Fill"), Err(Refusal::NotAnOrder));
    assert_eq!(rt; read_line(b"fills"), Err(Refusal::NotAnOrder));
}

#[test]
fn notes_and_kinds(rt: HostRuntime) {
    assert_eq!(rt; read_line(b"note"), Err(Refusal::NotAnOrder));
    assert_eq!(rt; read_line(b"note "), Err(Refusal::NotAnOrder));
    assert_eq!(rt; read_line(b"note  "), Ok(Line::Note(b" ")));
    assert_eq!(rt; read_line(b"note \xff"), Ok(Line::Note(b"\xff")));
    assert_eq!(rt;
        read_line(b"close sum-worst"),
        Ok(Line::Close(Kind::SumWorst))
    );
    assert_eq!(rt; read_line(b"close best"), Err(Refusal::NotAnOrder));
    assert_eq!(rt; read_line(b"close"), Err(Refusal::NotAnOrder));
}
