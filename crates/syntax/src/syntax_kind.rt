// The kinds of tree rows (syntax.rs), in the order of the Rust's enum and with its numbers.
ghost use Rattle.std.specs.Prelude.{◌≡◌};
ghost use Rattle.rules.specs.Kinds.{leaf_kind};
ghost use Rattle.syntax.specs.Numbers.{syntax_kinds};
ghost use Rattle.syntax.specs.SyntaxKind.{number_of};

use crate::limits::Limits;
use crate::token::Token;

#[derive(Clone, Copy, PartialEq, Eq)]
pub enum SyntaxKind {
    TokenError = 0,
    TokenLineBreak = 1,
    TokenWhiteSpace = 2,
    TokenComment = 3,
    TokenLBrace = 4,
    TokenRBrace = 5,
    TokenLBracket = 6,
    TokenRBracket = 7,
    TokenLParen = 8,
    TokenRParen = 9,
    TokenComma = 10,
    TokenTilde = 11,
    TokenSlash = 12,
    TokenWord = 13,
    TokenDollar = 14,
    TokenBeginMath = 15,
    TokenEndMath = 16,
    TokenAmpersand = 17,
    TokenHash = 18,
    TokenAsterisk = 19,
    TokenAtSign = 20,
    TokenUnderscore = 21,
    TokenCaret = 22,
    TokenApostrophe = 23,
    TokenDitto = 24,
    TokenSemicolon = 25,
    TokenCommandSym = 26,
    ClauseCommandName = 27,
    ClauseArgument = 28,
    ClauseLR = 29,
    ItemNewLine = 30,
    ItemText = 31,
    ItemCurly = 32,
    ItemBracket = 33,
    ItemParen = 34,
    ItemCmd = 35,
    ItemEnv = 36,
    ItemLR = 37,
    ItemBegin = 38,
    ItemEnd = 39,
    ItemBlockComment = 40,
    ItemTypstCode = 41,
    ItemAttachComponent = 42,
    ItemFormula = 43,
    ScopeRoot = 44,
}

impl SyntaxKind {
    // All of them, in order.
    pub const ALL: [Self; Limits::SYNTAX_KINDS] = [
        Self::TokenError,
        Self::TokenLineBreak,
        Self::TokenWhiteSpace,
        Self::TokenComment,
        Self::TokenLBrace,
        Self::TokenRBrace,
        Self::TokenLBracket,
        Self::TokenRBracket,
        Self::TokenLParen,
        Self::TokenRParen,
        Self::TokenComma,
        Self::TokenTilde,
        Self::TokenSlash,
        Self::TokenWord,
        Self::TokenDollar,
        Self::TokenBeginMath,
        Self::TokenEndMath,
        Self::TokenAmpersand,
        Self::TokenHash,
        Self::TokenAsterisk,
        Self::TokenAtSign,
        Self::TokenUnderscore,
        Self::TokenCaret,
        Self::TokenApostrophe,
        Self::TokenDitto,
        Self::TokenSemicolon,
        Self::TokenCommandSym,
        Self::ClauseCommandName,
        Self::ClauseArgument,
        Self::ClauseLR,
        Self::ItemNewLine,
        Self::ItemText,
        Self::ItemCurly,
        Self::ItemBracket,
        Self::ItemParen,
        Self::ItemCmd,
        Self::ItemEnv,
        Self::ItemLR,
        Self::ItemBegin,
        Self::ItemEnd,
        Self::ItemBlockComment,
        Self::ItemTypstCode,
        Self::ItemAttachComponent,
        Self::ItemFormula,
        Self::ScopeRoot,
    ];

    // The number that a row keeps.
    pub fn number(self) -> u32
        ensures { result ≡ number_of self }
    {
        self as u32
    }

    // The contract holds each kind to 01's number.
    pub fn numbers() -> [u32; 45]
        ensures { result ≡ syntax_kinds }
    {
        Self::ALL.map(|kind| kind.number())
    }

    // `From<Token>`: the kind of the leaf that a token becomes. A number over 39 is no token's kind and gives TokenError.
    // That no test stands before the arms is only for speed: so the compiler makes one table of them.
    #[tactic(auto, unfolding(rules::specs::Kinds::leaf_kind))]
    pub fn from_token(kind: u32) -> Self
        ensures { number_of result ≡ leaf_kind kind }
    {
        match kind {
            Token::LINE_BREAK => Self::TokenLineBreak,
            Token::WHITESPACE => Self::TokenWhiteSpace,
            Token::LINE_COMMENT => Self::TokenComment,
            Token::LEFT_CURLY => Self::TokenLBrace,
            Token::RIGHT_CURLY => Self::TokenRBrace,
            Token::LEFT_BRACKET => Self::TokenLBracket,
            Token::RIGHT_BRACKET => Self::TokenRBracket,
            Token::LEFT_PAREN => Self::TokenLParen,
            Token::RIGHT_PAREN => Self::TokenRParen,
            Token::COMMA => Self::TokenComma,
            Token::TILDE => Self::TokenTilde,
            Token::SLASH => Self::TokenSlash,
            Token::UNDERSCORE => Self::TokenUnderscore,
            Token::APOSTROPHE => Self::TokenApostrophe,
            Token::DITTO => Self::TokenDitto,
            Token::SEMICOLON => Self::TokenSemicolon,
            Token::CARET => Self::TokenCaret,
            Token::WORD | Token::MACRO_ARG => Self::TokenWord,
            Token::DOLLAR => Self::TokenDollar,
            Token::AMPERSAND => Self::TokenAmpersand,
            Token::HASH => Self::TokenHash,
            Token::ASTERISK => Self::TokenAsterisk,
            Token::AT_SIGN => Self::TokenAtSign,
            Token::NEW_LINE => Self::ItemNewLine,
            Token::BEGIN_ENVIRONMENT | Token::END_ENVIRONMENT => Self::TokenCommandSym,
            Token::BEGIN_MATH => Self::TokenBeginMath,
            Token::END_MATH => Self::TokenEndMath,
            Token::GENERIC | Token::IF_FALSE | Token::IF_TYPST | Token::IF =>
                Self::ClauseCommandName,
            Token::ELSE | Token::END_IF | Token::LEFT | Token::RIGHT => Self::ClauseCommandName,
            _ => Self::TokenError,
        }
    }
}
