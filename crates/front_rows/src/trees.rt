//! Copies of trees and symbols of tokens, each once.
use murphi_ast::decl::Decl;
use murphi_ast::expr::{Designator, Expr, Named, TypeExpr};
use murphi_ast::rule::{Protocol, RuleDecl};
use murphi_ast::stmt::Stmt;
use murphi_ast::terminal::{Terminal, terminal_of};
use murphi_ast::text::{Memory, Text};
use murphi_ast::token::{Span, Token, TokenKind};
use sqlite_items::{Boxed, Items};
use std::alloc::Global;
use std::test::Fail;

const AT: Span = Span { line: 3, column: 7 };

fn named(alloc: Global, name: &[u8]) -> Result<Named, Memory> {
    let name = Text::make(alloc, name)?;
    Ok(Named { name, at: AT })
}

fn place(alloc: Global, name: &[u8]) -> Result<Designator, Memory> {
    let root = named(alloc, name)?;
    Ok(Designator {
        root,
        selectors: Items::new(alloc),
    })
}

/// `var a : boolean; startstate a := !a; end; invariant a`
fn sample(alloc: Global) -> Result<Protocol, Memory> {
    let mut names = Items::new(alloc);
    names.push(named(alloc, b"a")?)?;
    let mut decls = Items::new(alloc);
    decls.push(Decl::Variables {
        names,
        body: TypeExpr::Truth(AT),
    })?;
    let mut body = Items::new(alloc);
    let inner = Boxed::new(alloc, Expr::Place(place(alloc, b"a")?))?;
    body.push(Stmt::Assign {
        to: place(alloc, b"a")?,
        value: Expr::Not {
            body: inner,
            at: AT,
        },
    })?;
    let mut rules = Items::new(alloc);
    rules.push(RuleDecl::Start {
        title: None,
        locals: Items::new(alloc),
        body,
        at: AT,
    })?;
    rules.push(RuleDecl::Invariant {
        title: Some(Text::make(alloc, b"A")?),
        body: Expr::Place(place(alloc, b"a")?),
        at: AT,
    })?;
    Ok(Protocol { decls, rules })
}

fn root_of(e: &Expr) -> &[u8] {
    match e {
        Expr::Place(place) => place.root.name.bytes(),
        Expr::Not { body, .. } => root_of(body.get()),
        _ => b"none",
    }
}

/// What a protocol of the sample's shape assigns and claims.
fn shape(p: &Protocol) -> (usize, &[u8], &[u8]) {
    let (mut assigned, mut claimed): (&[u8], &[u8]) = (b"none", b"none");
    for item in p.rules.as_slice() {
        match item {
            RuleDecl::Start { body, .. } => {
                for stmt in body.as_slice() {
                    if let Stmt::Assign { value, .. } = stmt {
                        assigned = root_of(value);
                    }
                }
            }
            RuleDecl::Invariant { body, .. } => claimed = root_of(body),
            _ => {}
        }
    }
    (p.decls.len(), assigned, claimed)
}

#[test]
fn copies(rt: HostRuntime) -> Result<(), Fail> {
    let p = sample(rt.alloc())?;
    let q = p.copy(rt.alloc())?;
    let (decls, assigned, claimed) = shape(&q);
    assert_eq!(rt; decls, 1);
    assert!(rt; assigned == b"a".as_slice());
    assert!(rt; claimed == b"a".as_slice());
    Ok(())
}

#[test]
fn symbols(rt: HostRuntime) -> Result<(), Fail> {
    let rows: [(TokenKind, &[u8], Terminal); 10] = [
        (TokenKind::Word, b"VAR", Terminal::Var),
        (TokenKind::Word, b"EndRule", Terminal::EndRule),
        (TokenKind::Word, b"end", Terminal::End),
        (TokenKind::Word, b"While", Terminal::OtherWord),
        (TokenKind::Word, b"const", Terminal::OtherWord),
        (TokenKind::Word, b"variable", Terminal::Name),
        (TokenKind::Sign, b"==>", Terminal::Then),
        (TokenKind::Sign, b"..", Terminal::OtherSign),
        (TokenKind::Quoted, b"end", Terminal::Quoted),
        (TokenKind::End, b"", Terminal::EndOfText),
    ];
    for (kind, text, wanted) in rows {
        let text = Text::make(rt.alloc(), text)?;
        let token = Token {
            kind,
            text,
            number: 0,
            at: AT,
        };
        assert_eq!(rt; terminal_of(&token), wanted);
    }
    Ok(())
}
