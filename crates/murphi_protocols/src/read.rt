//! The protocol that the tokens of a text spell.
ghost use Rattle.std.specs.Prelude.{◌≡◌, List, Result, IsTrue};
ghost use Rattle.grammar_core.specs.Spelling.{Room, Spells};
ghost use Rattle.murphi_ast.specs.Spelling.{ends_once};
ghost use Rattle.murphi_ast.specs.declared.rule.Protocol.{Protocol};
ghost use Rattle.murphi_ast.specs.declared.token.Token.{Token};
ghost use Rattle.murphi_grammar.specs.Grammar.{murphi};
ghost use Rattle.murphi_grammar.specs.Names as n;
ghost use Rattle.murphi_grammar.specs.Parts.{form};
ghost use Rattle.murphi_expressions.specs.Expression.{IsAnswered};
ghost use Rattle.murphi_expressions.specs.declared.refusal.SyntaxRefusal.{SyntaxRefusal};
ghost use Rattle.murphi_protocols.specs.Protocols.{TellsProtocol};

use crate::whole::whole_protocol;
use murphi_ast::rule::Protocol;
use murphi_ast::token::Token;
use murphi_expressions::expression::GREATEST_NESTING;
use murphi_expressions::refusal::{SyntaxRefusal, first_refused};
use murphi_expressions::step::{Stop, place_at};
use murphi_grammar::laws::{one_reading, one_value, walks_are_readings};
use std::alloc::Global;

/// The protocol that the tokens of a text spell. A refused word comes first; otherwise reading stops at the
/// first token with which the tokens before it begin no protocol, or before that at one that opens a nesting
/// too many.
pub fn protocol(alloc: Global, tokens: &[Token]) -> Result<Protocol, SyntaxRefusal>
    requires { IsTrue (ends_once tokens.now) }

    // What each answer tells of the tokens; want of memory tells nothing.
    ensures told { TellsProtocol tokens.now result }

    // What may be told is answered, unless memory runs out.
    ensures only { (answer : Result Protocol SyntaxRefusal) → TellsProtocol tokens.now answer → IsAnswered result answer }
{
    walks_are_readings();
    one_reading();
    match first_refused(tokens) {
        Some(place) => Err(SyntaxRefusal::E10(place)),
        None => match whole_protocol(alloc, tokens, 0, GREATEST_NESTING) {
            Ok((tree, _)) => Ok(tree),
            Err(Stop::Wrong(i)) => Err(SyntaxRefusal::E04(place_at(tokens, i))),
            Err(Stop::Deep(i)) => Err(SyntaxRefusal::E15(place_at(tokens, i))),
            Err(Stop::Memory) => Err(SyntaxRefusal::Memory),
        },
    }
}

/// No tokens spell two protocols.
pub fn one_protocol()
    ensures { (room other : Room) (tokens : List Token) (p q : Protocol) → Spells murphi room (form n.Protocol) tokens p → Spells murphi other (form n.Protocol) tokens q → p ≡ q }
{
    one_value();
}
