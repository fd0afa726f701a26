//! What begins the forms of a protocol.
ghost use Rattle.std.specs.Prelude.{◌≡◌};
ghost use Rattle.murphi_grammar.specs.Names as n;
ghost use Rattle.murphi_grammar.specs.declared.symbol.Symbol.TheVariants as t;
ghost use Rattle.murphi_grammar.specs.Parts.{form, one, ◌▸◌, ◌∥◌};
ghost use Rattle.murphi_grammar.specs.Pieces.{cut};
ghost use Rattle.murphi_expressions.specs.Says.{can_begin};

use murphi_ast::token::Token;
pub use murphi_expressions::sign::begins_expression;
use murphi_expressions::sign::is_among;
use murphi_grammar::symbol::Symbol;

/// What begins a statement.
const STATEMENT: [Symbol; 10] = [
    Symbol::Assert,
    Symbol::Clear,
    Symbol::Error,
    Symbol::For,
    Symbol::If,
    Symbol::Put,
    Symbol::Return,
    Symbol::Switch,
    Symbol::Undefine,
    Symbol::Name,
];

/// Whether the token at an index may begin a statement.
#[tactic(auto, unfolding(murphi_expressions::specs::Says::can_begin))]
pub fn begins_statement(tokens: &[Token], at: usize) -> bool
    ensures { result ≡ can_begin (form n.Stmt) tokens.now at }
{
    is_among(tokens, at, &STATEMENT)
}

/// Whether the token at an index may begin a declaration.
#[tactic(auto, unfolding(murphi_expressions::specs::Says::can_begin))]
pub fn begins_declaration(tokens: &[Token], at: usize) -> bool
    ensures { result ≡ can_begin (form n.Declare) tokens.now at }
{
    is_among(tokens, at, &[Symbol::Const, Symbol::Type, Symbol::Var])
}

/// Whether the token at an index may begin declarations with `begin` behind them.
#[tactic(auto, unfolding(murphi_expressions::specs::Says::can_begin))]
pub fn begins_locals(tokens: &[Token], at: usize) -> bool
    ensures { result ≡ can_begin (cut n.Locals ▸ one t.Begin) tokens.now at }
{
    is_among(
        tokens,
        at,
        &[Symbol::Const, Symbol::Type, Symbol::Var, Symbol::Begin],
    )
}

/// Whether the token at an index may begin declarations or a routine.
#[tactic(auto, unfolding(murphi_expressions::specs::Says::can_begin))]
pub fn begins_declared(tokens: &[Token], at: usize) -> bool
    ensures { result ≡ can_begin (form n.Declare ∥ form n.Routine) tokens.now at }
{
    is_among(
        tokens,
        at,
        &[
            Symbol::Const,
            Symbol::Type,
            Symbol::Var,
            Symbol::Function,
            Symbol::Procedure,
        ],
    )
}

/// Whether the token at an index may begin formals.
#[tactic(auto, unfolding(murphi_expressions::specs::Says::can_begin))]
pub fn begins_formals(tokens: &[Token], at: usize) -> bool
    ensures { result ≡ can_begin (form n.Formals) tokens.now at }
{
    is_among(tokens, at, &[Symbol::Var, Symbol::Name])
}

/// Whether the token at an index may begin an item.
#[tactic(auto, unfolding(murphi_expressions::specs::Says::can_begin))]
pub fn begins_item(tokens: &[Token], at: usize) -> bool
    ensures { result ≡ can_begin (form n.Item) tokens.now at }
{
    is_among(
        tokens,
        at,
        &[
            Symbol::Invariant,
            Symbol::Rule,
            Symbol::RuleSet,
            Symbol::StartState,
        ],
    )
}
