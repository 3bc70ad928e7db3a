//! What texts write.
use super::written::written;
use pp_language::Which;
use pp_read::{Program, ReadFault, read};
use std::alloc::Global;
use std::process::Abort;

/// What a text that is short enough writes.
fn program(rt: &impl Abort, alloc: Global, text: &[u8]) -> Result<Program, ReadFault> {
    if text.len() > 4_194_304 {
        panic!(rt; "a text that is too long")
    }
    read(alloc, text)
}

fn expect(rt: &impl Abort, alloc: Global, text: &[u8], wanted: &[u8]) {
    let program = program(rt, alloc, text).expect(rt, "a program");
    assert_eq!(rt; written(rt, alloc, &program).as_slice(), wanted);
}

#[test]
fn a_text_writes_its_clauses_and_its_query(rt: HostRuntime) {
    let rows: [(&[u8], &[u8]); 8] = [
        (
            b":- lib(fd). p(f(1,1)). 'p'(f(-02,Y)) :- Y #=< 3, q. ?- X :: [0..1, 7], p(X) infers unique.",
            b"p f(1,1) (0)\np f(-2,_0); _0 #=< 3; q (1)\n?-; _0 :: [0..1, 7]; p _0 unique (1) 'X'",
        ),
        // A clause's variables are numbered by first occurrence.
        (
            b"p(_,B,_,f(_A,B)). ?- X = 1.",
            b"p _0 _1 _2 f(_3,_1) (4)\n?-; _0 = 1 (1) 'X'",
        ),
        // Of a query the named ones come first.
        (
            b"?- p(_,_B,_,A,_B) infers consistent, q(_,A) infers most.",
            b"?-; p _2 _0 _3 _1 _0 consistent; q _4 _1 most (5) '_B' 'A'",
        ),
        // Sets may be empty.
        (
            b"?- X :: 5..1, Y :: [9..8, 4, 1..2, -3..-3, 3..3], a :: [2..1], Z :: 7.",
            b"?-; _0 :: []; _1 :: [-3, 1..4]; a :: []; _2 :: [7] (3) 'X' 'Y' 'Z'",
        ),
        (
            b"p :- plus(1,2,X), 'times' (X,X,X), indomain(X), plus(1,2). ?- X = 1.",
            b"p; PLUS 1 2 _0; TIMES _0 _0 _0; INDOMAIN _0; plus 1 2 (1)\n?-; _0 = 1 (1) 'X'",
        ),
        (
            b"p :- X #< 1, X #=< 1, X #= 1, X #\\= 1, X = f(Y), Y :: 1..3. ?- X = 1.",
            b"p; _0 #< 1; _0 #=< 1; _0 #= 1; _0 #\\= 1; _0 = f(_1); _1 :: [1..3] (2)\n?-; _0 = 1 (1) 'X'",
        ),
        // An atom in quotes is the atom without.
        (
            b"abc('it''s'). ?- 'abc'('Hello World') infers unique.",
            b"abc 'it''s' (0)\n?-; abc 'Hello World' unique (0)",
        ),
        (
            b"and(0,0,0). and(0,1,0). and(1,0,0). and(1,1,1). \n:- lib(propia).\nor(0,0,0). or(0,1,1). or(1,0,1). or(1,1,1).\nxor(0,0,0). xor(0,1,1). xor(1,0,1). xor(1,1,0).\nadd(A,B,C,S,D) :- xor(A,B,P), xor(P,C,S), and(A,B,Q), and(P,C,R), or(Q,R,D).\n?- add(A,B,1,0,D) infers most.\n",
            b"and 0 0 0 (0)\nand 0 1 0 (0)\nand 1 0 0 (0)\nand 1 1 1 (0)\nor 0 0 0 (0)\nor 0 1 1 (0)\nor 1 0 1 (0)\nor 1 1 1 (0)\nxor 0 0 0 (0)\nxor 0 1 1 (0)\nxor 1 0 1 (0)\nxor 1 1 0 (0)\nadd _0 _1 _2 _3 _4; xor _0 _1 _5; xor _5 _2 _3; and _0 _1 _6; and _5 _2 _7; or _6 _7 _4 (8)\n?-; add _0 _1 1 0 _2 most (3) 'A' 'B' 'D'",
        ),
    ];
    for (text, wanted) in rows {
        expect(&rt, rt.alloc(), text, wanted);
    }
}

#[test]
fn quotes_are_no_part_of_a_name(rt: HostRuntime) {
    let text = b"abc('it''s'). ?- 'abc'('Hello World') infers unique.";
    let program = program(&rt, rt.alloc(), text).expect(&rt, "a program");
    let rows: [(&[u8], bool); 5] = [
        (b"abc", true),
        (b"it's", true),
        (b"Hello World", true),
        (b"'abc'", false),
        (b"it''s", false),
    ];
    for (name, is_there) in rows {
        assert_eq!(rt; program.names.find(name).is_some(), is_there);
    }
}

#[test]
fn a_copy_equals_its_original(rt: HostRuntime) {
    let alloc = rt.alloc();
    let text = b"p(f(X)) :- q(X, 'a b'), X :: 1..3. ?- p(Y) infers most.";
    let program = program(&rt, alloc, text).expect(&rt, "a program");
    let copy = program.copy().expect(&rt, "memory");
    assert_eq!(rt; written(&rt, alloc, &copy), written(&rt, alloc, &program));
    assert_eq!(rt; copy.names.len(), program.names.len());
    let clauses = copy.clauses.copy().expect(&rt, "memory");
    assert_eq!(rt; clauses.into_vec().len(), 1);
}

fn expect_fault(rt: &impl Abort, alloc: Global, text: &[u8], wanted: ReadFault) {
    let found = program(rt, alloc, text).err();
    assert_eq!(rt; found, Some(wanted));
}

#[test]
fn a_fault_or_a_limit_is_answered(rt: HostRuntime) {
    let alloc = rt.alloc();
    expect_fault(
        &rt,
        alloc,
        b"p(1). p(2). p(1,). ?- p(X) infers most.",
        ReadFault::Syntax(3),
    );
    expect_fault(&rt, alloc, b"", ReadFault::Syntax(1));
    let mut wide = b"p(a".to_vec(alloc).expect(&rt, "memory");
    for _ in 0..255 {
        wide.extend_from_slice(b",a").expect(&rt, "memory");
    }
    wide.extend_from_slice(b"). ?- X = 1.")
        .expect(&rt, "memory");
    expect_fault(&rt, alloc, &wide, ReadFault::Limit(Which::Arity));
}
