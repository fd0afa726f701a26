//! One row a form: texts on one line, so that a place is a column.

use crate::answers::{Want, answer};
use std::test::Fail;

#[test]
fn expressions(rt: HostRuntime) -> Result<(), Fail> {
    let rows: [(&[u8], Want); 22] = [
        (b"invariant a -> b", Want::Tree(0, 1)),
        (b"invariant a -> b -> c", Want::E04(1, 18)),
        (b"invariant (a -> b) -> c", Want::Tree(0, 1)),
        (b"invariant a = b", Want::Tree(0, 1)),
        (b"invariant a = b = c", Want::E04(1, 17)),
        (b"invariant a < b >= c", Want::E04(1, 17)),
        (b"invariant a ? b ? c : d : e", Want::Tree(0, 1)),
        (b"invariant a ? b : c ? d : e", Want::Tree(0, 1)),
        (b"invariant a ? b", Want::E04(1, 16)),
        (b"invariant a - -b * !c", Want::E04(1, 20)),
        (b"invariant a - -b * - c % 2 / x", Want::Tree(0, 1)),
        (b"invariant !a & !(b | c)", Want::Tree(0, 1)),
        (b"invariant !a = b", Want::Tree(0, 1)),
        (b"invariant x(1)(2)", Want::E04(1, 15)),
        (b"invariant x(1).f", Want::E04(1, 15)),
        (b"invariant x[1].f[a, b]", Want::E04(1, 19)),
        (b"invariant x(a, b[1], 2)", Want::Tree(0, 1)),
        (b"invariant x(a,)", Want::E04(1, 15)),
        (b"invariant isundefined(x[1].f)", Want::Tree(0, 1)),
        (b"invariant isundefined((x))", Want::E04(1, 23)),
        (
            b"invariant forall i : T do exists j := 1 to n - 1 do true end ENDFORALL",
            Want::Tree(0, 1),
        ),
        (b"invariant forall i : T do a endexists", Want::E04(1, 29)),
    ];
    for (text, want) in rows.as_slice() {
        assert_eq!(rt; answer(rt.alloc(), text), *want);
    }
    Ok(())
}

#[test]
fn declarations(rt: HostRuntime) -> Result<(), Fail> {
    let rows: [(&[u8], Want); 24] = [
        (b"type X : a + 1 .. 5; startstate end", Want::Tree(1, 1)),
        (b"type X : a + 1;", Want::E04(1, 15)),
        (b"type X : a[1];", Want::E04(1, 14)),
        (b"type X : a[1] .. 3; startstate end", Want::Tree(1, 1)),
        (b"type X : a(1) * 2 .. 3; startstate end", Want::Tree(1, 1)),
        (b"type X : a; startstate end", Want::Tree(1, 1)),
        (b"type X : -a .. (5); startstate end", Want::Tree(1, 1)),
        (b"type X : !a .. 5;", Want::E04(1, 10)),
        (b"type X : boolean .. 5;", Want::E04(1, 18)),
        (
            b"type X : enum { A, B }; Y : scalarset(3); startstate end",
            Want::Tree(2, 1),
        ),
        (b"type X : enum { };", Want::E04(1, 17)),
        (
            b"type X : array [T] of array [1..2] of boolean; startstate end",
            Want::Tree(1, 1),
        ),
        (
            b"type R : record a : boolean; b, c : 1..2; end; startstate end",
            Want::Tree(1, 1),
        ),
        (
            b"type R : record a : boolean endrecord; startstate end",
            Want::Tree(1, 1),
        ),
        (b"type R : record end; startstate end", Want::Tree(1, 1)),
        (b"type R : record a : boolean;; end;", Want::E04(1, 29)),
        (b"type R : record ; end;", Want::E04(1, 17)),
        (
            b"const A : 1; B : A + 1; type var x, y : T; startstate end",
            Want::Tree(3, 1),
        ),
        (b"var x : T startstate end", Want::E04(1, 11)),
        (b"const startstate end", Want::Tree(0, 1)),
        (
            b"procedure P(); begin end; startstate end",
            Want::Tree(1, 1),
        ),
        (
            b"procedure P(a : T; var b, c : 1..2); var x : T; begin a := b endprocedure; startstate end",
            Want::Tree(1, 1),
        ),
        (
            b"function F(a : T) : boolean; return a; end; startstate end",
            Want::Tree(1, 1),
        ),
        (
            b"procedure P(a : T;); begin end; startstate end",
            Want::E04(1, 19),
        ),
    ];
    for (text, want) in rows.as_slice() {
        assert_eq!(rt; answer(rt.alloc(), text), *want);
    }
    Ok(())
}

#[test]
fn statements(rt: HostRuntime) -> Result<(), Fail> {
    let rows: [(&[u8], Want); 22] = [
        (b"startstate a.b[1] := c end", Want::Tree(0, 1)),
        (b"startstate P(); P(a, b) end", Want::Tree(0, 1)),
        (b"startstate a end", Want::E04(1, 14)),
        (b"startstate clear a; undefine b[1] end", Want::Tree(0, 1)),
        (b"startstate clear 1 end", Want::E04(1, 18)),
        (b"startstate if a then b := c end end", Want::Tree(0, 1)),
        (
            b"startstate if a then elsif b then elsif c then else d := e endif end",
            Want::Tree(0, 1),
        ),
        (
            b"startstate if a then else elsif b then end end",
            Want::E04(1, 27),
        ),
        (
            b"startstate switch a case b, c -> d : e := f case g : else end endstartstate",
            Want::Tree(0, 1),
        ),
        (b"startstate switch a end end", Want::Tree(0, 1)),
        (
            b"startstate switch a case b ? c : d : end end",
            Want::E04(1, 28),
        ),
        (b"startstate for i : T do a := i end end", Want::Tree(0, 1)),
        (
            b"startstate for i := 1 to 2 do a := i endfor end",
            Want::Tree(0, 1),
        ),
        (b"startstate for i := 1 .. 2 do end end", Want::E04(1, 23)),
        (
            b"startstate error \"x\"; assert a \"y\"; assert b; put \"z\"; put c; return; return d end",
            Want::Tree(0, 1),
        ),
        (b"startstate error a end", Want::E04(1, 18)),
        (b"startstate put \"z\" c end", Want::E04(1, 20)),
        (b"startstate ;; a := b ;;; end", Want::Tree(0, 1)),
        (b"startstate a := b c := d end", Want::E04(1, 19)),
        (b"startstate var x : T; begin x := a end", Want::Tree(0, 1)),
        (b"startstate var x : T; x := a end", Want::E04(1, 25)),
        (b"startstate a := b else end", Want::E04(1, 19)),
    ];
    for (text, want) in rows.as_slice() {
        assert_eq!(rt; answer(rt.alloc(), text), *want);
    }
    Ok(())
}

#[test]
fn items(rt: HostRuntime) -> Result<(), Fail> {
    let rows: [(&[u8], Want); 24] = [
        (b"", Want::E04(1, 1)),
        (b"startstate end", Want::Tree(0, 1)),
        (b"startstate END", Want::Tree(0, 1)),
        (b"StartState EnD", Want::Tree(0, 1)),
        (b"STARTSTATE EndStartState", Want::Tree(0, 1)),
        (b"startstate endrule", Want::E04(1, 12)),
        (b"rule a ==> b := c end", Want::Tree(0, 1)),
        (
            b"Rule \"T\" a ==> var x : T; Begin ENDRULE",
            Want::Tree(0, 1),
        ),
        (b"rule begin b := c end", Want::Tree(0, 1)),
        (b"rule \"T\" var x : T; begin end", Want::Tree(0, 1)),
        (b"rule a := b; end", Want::E04(1, 8)),
        (b"rule end", Want::E04(1, 6)),
        (b"rule a b := c end", Want::E04(1, 8)),
        (b"invariant \"T\" a", Want::Tree(0, 1)),
        (b"invariant \"T\" \"U\" a", Want::E04(1, 15)),
        (b"ruleset i : T do end", Want::Tree(0, 1)),
        (
            b"ruleset i : T; j := 1 to 2 do ; rule a ==> end ;; invariant b; endruleset",
            Want::Tree(0, 1),
        ),
        (b"ruleset do end", Want::E04(1, 9)),
        (
            b"ruleset i : T do rule a ==> end invariant b end",
            Want::E04(1, 33),
        ),
        (b";; startstate end ;; ; invariant a;;", Want::Tree(0, 2)),
        (b"var a : boolean; ;;", Want::E04(1, 20)),
        (b"startstate end startstate end", Want::E04(1, 16)),
        (b"startstate end; var a : boolean;", Want::E04(1, 17)),
        (b"startstate end; end", Want::E04(1, 17)),
    ];
    for (text, want) in rows.as_slice() {
        assert_eq!(rt; answer(rt.alloc(), text), *want);
    }
    Ok(())
}

#[test]
fn refused_words(rt: HostRuntime) -> Result<(), Fail> {
    let rows: [(&[u8], Want); 19] = [
        (b"invariant alias", Want::E10(1, 11)),
        (b"invariant by", Want::E10(1, 11)),
        (b"invariant choose", Want::E10(1, 11)),
        (b"invariant endalias", Want::E10(1, 11)),
        (b"invariant endchoose", Want::E10(1, 11)),
        (b"invariant endwhile", Want::E10(1, 11)),
        (b"invariant ismember", Want::E10(1, 11)),
        (b"invariant multiset", Want::E10(1, 11)),
        (b"invariant multisetadd", Want::E10(1, 11)),
        (b"invariant multisetcount", Want::E10(1, 11)),
        (b"invariant multisetremove", Want::E10(1, 11)),
        (b"invariant MultisetRemovePred", Want::E10(1, 11)),
        (b"invariant REAL", Want::E10(1, 11)),
        (b"invariant union", Want::E10(1, 11)),
        (b"invariant while", Want::E10(1, 11)),
        (b"; ) while real", Want::E10(1, 5)),
        (b"invariant a = b = c\n; union", Want::E10(2, 3)),
        (b"invariant a -- while", Want::Tree(0, 1)),
        (b"invariant \"while\" unions", Want::Tree(0, 1)),
    ];
    for (text, want) in rows.as_slice() {
        assert_eq!(rt; answer(rt.alloc(), text), *want);
    }
    Ok(())
}
