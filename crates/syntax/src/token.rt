// The kinds of tokens (token.rs), by 01's numbers. They are constants and no enum: a kind comes as a number in a lent table, and every question over
// kinds (`is_trivia`, `stop_by_scope`, `from_token`, `item_of` ..) answers for each number, those over 39 too.
ghost use Rattle.std.specs.Prelude.{◌≡◌};
ghost use Rattle.rules.specs.Kinds.{is_text_component, is_trivia};
ghost use Rattle.syntax.specs.Numbers.{token_kinds};

#[derive(Clone, Copy)]
pub struct Token;

impl Token {
    pub const LINE_BREAK: u32 = 0;

    pub const WHITESPACE: u32 = 1;

    pub const LINE_COMMENT: u32 = 2;

    pub const LEFT_CURLY: u32 = 3;

    pub const LEFT_BRACKET: u32 = 4;

    pub const LEFT_PAREN: u32 = 5;

    pub const RIGHT_CURLY: u32 = 6;

    pub const RIGHT_BRACKET: u32 = 7;

    pub const RIGHT_PAREN: u32 = 8;

    pub const COMMA: u32 = 9;

    pub const TILDE: u32 = 10;

    pub const SLASH: u32 = 11;

    pub const AMPERSAND: u32 = 12;

    pub const CARET: u32 = 13;

    pub const APOSTROPHE: u32 = 14;

    pub const DITTO: u32 = 15;

    pub const SEMICOLON: u32 = 16;

    pub const HASH: u32 = 17;

    pub const ASTERISK: u32 = 18;

    pub const AT_SIGN: u32 = 19;

    pub const UNDERSCORE: u32 = 20;

    pub const WORD: u32 = 21;

    pub const DOLLAR: u32 = 22;

    pub const NEW_LINE: u32 = 23;

    pub const ERROR: u32 = 24;

    pub const MACRO_ARG: u32 = 25;

    pub const GENERIC: u32 = 26;

    pub const BEGIN_ENVIRONMENT: u32 = 27;

    pub const END_ENVIRONMENT: u32 = 28;

    pub const BEGIN_MATH: u32 = 29;

    pub const END_MATH: u32 = 30;

    pub const ERROR_BEGIN_ENVIRONMENT: u32 = 31;

    pub const ERROR_END_ENVIRONMENT: u32 = 32;

    pub const IF_FALSE: u32 = 33;

    pub const IF_TYPST: u32 = 34;

    pub const IF: u32 = 35;

    pub const ELSE: u32 = 36;

    pub const END_IF: u32 = 37;

    pub const LEFT: u32 = 38;

    pub const RIGHT: u32 = 39;

    // All of them, in order.
    const ALL: [u32; 40] = [
        Self::LINE_BREAK,
        Self::WHITESPACE,
        Self::LINE_COMMENT,
        Self::LEFT_CURLY,
        Self::LEFT_BRACKET,
        Self::LEFT_PAREN,
        Self::RIGHT_CURLY,
        Self::RIGHT_BRACKET,
        Self::RIGHT_PAREN,
        Self::COMMA,
        Self::TILDE,
        Self::SLASH,
        Self::AMPERSAND,
        Self::CARET,
        Self::APOSTROPHE,
        Self::DITTO,
        Self::SEMICOLON,
        Self::HASH,
        Self::ASTERISK,
        Self::AT_SIGN,
        Self::UNDERSCORE,
        Self::WORD,
        Self::DOLLAR,
        Self::NEW_LINE,
        Self::ERROR,
        Self::MACRO_ARG,
        Self::GENERIC,
        Self::BEGIN_ENVIRONMENT,
        Self::END_ENVIRONMENT,
        Self::BEGIN_MATH,
        Self::END_MATH,
        Self::ERROR_BEGIN_ENVIRONMENT,
        Self::ERROR_END_ENVIRONMENT,
        Self::IF_FALSE,
        Self::IF_TYPST,
        Self::IF,
        Self::ELSE,
        Self::END_IF,
        Self::LEFT,
        Self::RIGHT,
    ];

    // The contract holds each constant to 01's number.
    pub fn numbers() -> [u32; 40]
        ensures { result ≡ token_kinds }
    {
        Self::ALL
    }

    // Blanks, breaks and comments.
    #[tactic(auto, unfolding(rules::specs::Kinds::is_trivia))]
    pub fn is_trivia(kind: u32) -> bool
        ensures { result ≡ is_trivia kind }
    {
        matches!(
            kind,
            Self::LINE_BREAK | Self::WHITESPACE | Self::LINE_COMMENT
        )
    }

    // What goes on a text: the question inside the Rust's `text`.
    #[tactic(auto, unfolding(rules::specs::Kinds::is_text_component, rules::specs::Kinds::is_trivia))]
    pub fn is_text_component(kind: u32) -> bool
        ensures { result ≡ is_text_component kind }
    {
        Self::is_trivia(kind) || matches!(kind, Self::WORD | Self::COMMA)
    }
}
