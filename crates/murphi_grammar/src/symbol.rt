//! What a token is to the grammar: its symbol. Key words are read in any case.
ghost use Rattle.std.specs.Prelude.{◌≡◌, map};
ghost use Rattle.std.specs.Str.{bytes_eq};
ghost use Rattle.murphi_ast.specs.Bytes.{lowered};
ghost use Rattle.murphi_grammar.specs.Symbols.{found, word_symbol, sign_symbol, symbol_of};

use murphi_ast::token::{Token, TokenKind};

/// A symbol of the grammar of protocols. A key word has its own name, with its parts in capitals.
#[derive(Debug, Clone, Copy, PartialEq, Eq)]
pub enum Symbol {
    Array,
    Assert,
    Begin,
    Boolean,
    Case,
    Clear,
    Const,
    Do,
    Else,
    Elsif,
    End,
    EndExists,
    EndFor,
    EndForall,
    EndFunction,
    EndIf,
    EndProcedure,
    EndRecord,
    EndRule,
    EndRuleSet,
    EndStartState,
    EndSwitch,
    Enum,
    Error,
    Exists,
    False,
    For,
    Forall,
    Function,
    If,
    Invariant,
    IsUndefined,
    Of,
    Procedure,
    Put,
    Record,
    Return,
    Rule,
    RuleSet,
    Scalarset,
    StartState,
    Switch,
    Then,
    To,
    True,
    Type,
    Undefine,
    Var,
    /// A word that may stand nowhere.
    Refused,
    /// Any other word.
    Name,
    Number,
    Quoted,
    /// `:=`
    Becomes,
    /// `!=`
    NotEqual,
    /// `->`
    Arrow,
    /// `==>`
    DoubleArrow,
    /// `..`
    DotDot,
    /// `<=`
    LessEqual,
    /// `>=`
    GreaterEqual,
    /// `=`
    Equal,
    /// `<`
    Less,
    /// `>`
    Greater,
    /// `+`
    Plus,
    /// `-`
    Minus,
    /// `*`
    Star,
    /// `/`
    Slash,
    /// `%`
    Percent,
    /// `&`
    Ampersand,
    /// `|`
    Bar,
    /// `!`
    Bang,
    /// `?`
    Question,
    /// `:`
    Colon,
    /// `;`
    Semicolon,
    /// `,`
    Comma,
    /// `.`
    Dot,
    /// `(`
    Open,
    /// `)`
    Close,
    /// `[`
    OpenBracket,
    /// `]`
    CloseBracket,
    /// `{`
    OpenBrace,
    /// `}`
    CloseBrace,
    /// Any other sign. No text has one.
    OtherSign,
    EndOfText,
}

/// The key words, then the refused words, in small letters.
const WORDS: [(&[u8], Symbol); 63] = [
    (b"array", Symbol::Array),
    (b"assert", Symbol::Assert),
    (b"begin", Symbol::Begin),
    (b"boolean", Symbol::Boolean),
    (b"case", Symbol::Case),
    (b"clear", Symbol::Clear),
    (b"const", Symbol::Const),
    (b"do", Symbol::Do),
    (b"else", Symbol::Else),
    (b"elsif", Symbol::Elsif),
    (b"end", Symbol::End),
    (b"endexists", Symbol::EndExists),
    (b"endfor", Symbol::EndFor),
    (b"endforall", Symbol::EndForall),
    (b"endfunction", Symbol::EndFunction),
    (b"endif", Symbol::EndIf),
    (b"endprocedure", Symbol::EndProcedure),
    (b"endrecord", Symbol::EndRecord),
    (b"endrule", Symbol::EndRule),
    (b"endruleset", Symbol::EndRuleSet),
    (b"endstartstate", Symbol::EndStartState),
    (b"endswitch", Symbol::EndSwitch),
    (b"enum", Symbol::Enum),
    (b"error", Symbol::Error),
    (b"exists", Symbol::Exists),
    (b"false", Symbol::False),
    (b"for", Symbol::For),
    (b"forall", Symbol::Forall),
    (b"function", Symbol::Function),
    (b"if", Symbol::If),
    (b"invariant", Symbol::Invariant),
    (b"isundefined", Symbol::IsUndefined),
    (b"of", Symbol::Of),
    (b"procedure", Symbol::Procedure),
    (b"put", Symbol::Put),
    (b"record", Symbol::Record),
    (b"return", Symbol::Return),
    (b"rule", Symbol::Rule),
    (b"ruleset", Symbol::RuleSet),
    (b"scalarset", Symbol::Scalarset),
    (b"startstate", Symbol::StartState),
    (b"switch", Symbol::Switch),
    (b"then", Symbol::Then),
    (b"to", Symbol::To),
    (b"true", Symbol::True),
    (b"type", Symbol::Type),
    (b"undefine", Symbol::Undefine),
    (b"var", Symbol::Var),
    (b"alias", Symbol::Refused),
    (b"by", Symbol::Refused),
    (b"choose", Symbol::Refused),
    (b"endalias", Symbol::Refused),
    (b"endchoose", Symbol::Refused),
    (b"endwhile", Symbol::Refused),
    (b"ismember", Symbol::Refused),
    (b"multiset", Symbol::Refused),
    (b"multisetadd", Symbol::Refused),
    (b"multisetcount", Symbol::Refused),
    (b"multisetremove", Symbol::Refused),
    (b"multisetremovepred", Symbol::Refused),
    (b"real", Symbol::Refused),
    (b"union", Symbol::Refused),
    (b"while", Symbol::Refused),
];

/// Whether a word is this one, which is written in small letters.
fn is_word(text: &[u8], word: &[u8]) -> bool
    ensures { result ≡ bytes_eq (lowered text.now) word.now }
{
    match (text, word) {
        ([], []) => true,
        ([a, text @ ..], [b, word @ ..]) => a.to_ascii_lowercase() == *b && is_word(text, word),
        _ => false,
    }
}

/// The symbol of a word: that beside it in the table, or `Name`.
fn word_in(text: &[u8], table: &[(&[u8], Symbol)]) -> Symbol
    ensures { result ≡ found (lowered text.now) (map (λ w. (w.0.now, w.1)) table.now) }
{
    match table {
        [] => Symbol::Name,
        [(word, symbol), rest @ ..] => {
            if is_word(text, word) {
                *symbol
            } else {
                word_in(text, rest)
            }
        }
    }
}

fn word_symbol(text: &[u8]) -> Symbol
    ensures { result ≡ word_symbol (lowered text.now) }
{
    word_in(text, &WORDS)
}

fn sign_symbol(text: &[u8]) -> Symbol
    ensures { result ≡ sign_symbol text.now }
{
    match text {
        b":=" => Symbol::Becomes,
        b"!=" => Symbol::NotEqual,
        b"->" => Symbol::Arrow,
        b"==>" => Symbol::DoubleArrow,
        b".." => Symbol::DotDot,
        b"<=" => Symbol::LessEqual,
        b">=" => Symbol::GreaterEqual,
        b"=" => Symbol::Equal,
        b"<" => Symbol::Less,
        b">" => Symbol::Greater,
        b"+" => Symbol::Plus,
        b"-" => Symbol::Minus,
        b"*" => Symbol::Star,
        b"/" => Symbol::Slash,
        b"%" => Symbol::Percent,
        b"&" => Symbol::Ampersand,
        b"|" => Symbol::Bar,
        b"!" => Symbol::Bang,
        b"?" => Symbol::Question,
        b":" => Symbol::Colon,
        b";" => Symbol::Semicolon,
        b"," => Symbol::Comma,
        b"." => Symbol::Dot,
        b"(" => Symbol::Open,
        b")" => Symbol::Close,
        b"[" => Symbol::OpenBracket,
        b"]" => Symbol::CloseBracket,
        b"{" => Symbol::OpenBrace,
        b"}" => Symbol::CloseBrace,
        _ => Symbol::OtherSign,
    }
}

/// The symbol of a token.
pub fn symbol_of(token: &Token) -> Symbol
    ensures { result ≡ symbol_of token.now }
{
    match token.kind {
        TokenKind::Word => word_symbol(token.text.bytes()),
        TokenKind::Number => Symbol::Number,
        TokenKind::Quoted => Symbol::Quoted,
        TokenKind::Sign => sign_symbol(token.text.bytes()),
        TokenKind::End => Symbol::EndOfText,
    }
}
