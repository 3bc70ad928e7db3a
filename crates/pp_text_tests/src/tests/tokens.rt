//! Sentences and their tokens.
use pp_language::{Kind, Token};
use pp_lex::{Sentence, Sentences, Tail, sentences};
use std::alloc::Global;
use std::process::Abort;

/// Tokens that are written: kind, first byte, and the byte behind the last.
type Written<'a> = &'a [(Kind, u32, u32)];

fn expect_tokens(rt: &impl Abort, found: &[Token], wanted: Written) {
    assert_eq!(rt; found.len(), wanted.len());
    for (token, (kind, first, last)) in found.iter().zip(wanted) {
        assert_eq!(rt;
            (token.kind, token.first, token.last),
            (*kind, *first, *last)
        );
    }
}

fn expect_sentences(rt: &impl Abort, found: &[Sentence], wanted: &[Written]) {
    assert_eq!(rt; found.len(), wanted.len());
    for (sentence, tokens) in found.iter().zip(wanted) {
        expect_tokens(rt, sentence.tokens.as_slice(), tokens);
    }
}

/// The sentences of a text that is short enough.
fn cut(rt: &impl Abort, alloc: Global, text: &[u8]) -> Sentences {
    if text.len() > 4_194_304 {
        panic!(rt; "a text that is too long")
    }
    sentences(alloc, text).expect(rt, "memory")
}

fn expect(rt: &impl Abort, alloc: Global, text: &[u8], wanted: &[Written], tail: Tail) {
    let found = cut(rt, alloc, text);
    assert_eq!(rt; found.tail, tail);
    expect_sentences(rt, found.list.as_slice(), wanted);
}

/// The tokens of `p(1)`.
const FACT: [(Kind, u32, u32); 4] = [
    (Kind::Atom, 0, 1),
    (Kind::Left, 1, 2),
    (Kind::Integer, 2, 3),
    (Kind::Right, 3, 4),
];

#[test]
fn a_text_ends_in_one_of_three_ways(rt: HostRuntime) {
    let alloc = rt.alloc();
    expect(&rt, alloc, b"p(1). q", &[&FACT], Tail::Cut);
    expect(&rt, alloc, b"p(1). #", &[&FACT], Tail::Bad);
    expect(&rt, alloc, b"p(1). % x", &[&FACT], Tail::Clean);
}

#[test]
fn a_copy_has_the_same_sentences(rt: HostRuntime) {
    let alloc = rt.alloc();
    let found = cut(&rt, alloc, b"p(1). q");
    let copy = found.copy().expect(&rt, "memory");
    assert_eq!(rt; copy.tail, found.tail);
    expect_sentences(&rt, copy.list.as_slice(), &[&FACT]);
}

#[test]
fn each_kind_is_found(rt: HostRuntime) {
    let tokens = [
        (Kind::Integer, 0, 1),
        (Kind::Atom, 2, 3),
        (Kind::Quoted, 4, 7),
        (Kind::Infers, 8, 14),
        (Kind::Variable, 15, 16),
        (Kind::Left, 16, 17),
        (Kind::Right, 17, 18),
        (Kind::OpenSquare, 18, 19),
        (Kind::CloseSquare, 19, 20),
        (Kind::Comma, 20, 21),
        (Kind::Range, 21, 23),
        (Kind::Neck, 23, 25),
        (Kind::Ask, 26, 28),
        (Kind::Equals, 28, 29),
        (Kind::InDomain, 29, 31),
        (Kind::Less, 31, 33),
        (Kind::AtMost, 33, 36),
        (Kind::Equal, 36, 38),
        (Kind::Differ, 38, 41),
    ];
    expect(
        &rt,
        rt.alloc(),
        b"1 a 'q' infers X()[],..:- ?-=::#<#=<#=#\\=.",
        &[&tokens],
        Tail::Clean,
    );
}

#[test]
fn the_longest_token_is_taken(rt: HostRuntime) {
    let first = [
        (Kind::Integer, 0, 1),
        (Kind::Range, 1, 3),
        (Kind::Integer, 3, 4),
        (Kind::Atom, 5, 12),
        (Kind::Integer, 13, 15),
        (Kind::Quoted, 16, 25),
        (Kind::Variable, 29, 31),
    ];
    expect(
        &rt,
        rt.alloc(),
        b"1..2 infersx -5 'it''s. '/**/_a.b.",
        &[&first, &[(Kind::Atom, 32, 33)]],
        Tail::Clean,
    );
}

#[test]
fn tails_of_short_texts(rt: HostRuntime) {
    let rows: [(&[u8], Tail); 17] = [
        (b"", Tail::Clean),
        (b" \t\r\n/**/%", Tail::Clean),
        (b"/*/", Tail::Bad),
        (b"/*/ */", Tail::Clean),
        (b"/* * /", Tail::Bad),
        (b"- 5", Tail::Bad),
        (b"1000000000000", Tail::Cut),
        (b"-0001000000000000", Tail::Cut),
        (b"1000000000001", Tail::Bad),
        (b"'a\nb'", Tail::Bad),
        (b"'\\'", Tail::Bad),
        (b"'''", Tail::Bad),
        (b"''''", Tail::Cut),
        (b"\xff", Tail::Bad),
        (b"/*\xff*/", Tail::Clean),
        (b":", Tail::Bad),
        (b"#\\", Tail::Bad),
    ];
    for (text, tail) in rows {
        expect(&rt, rt.alloc(), text, &[], tail);
    }
}
