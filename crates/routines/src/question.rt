// Questions about the kind of a token, which loops over tokens are asked before each turn.
ghost use Rattle.std.specs.Prelude.{◌≡◌, ℕ, Bool};
ghost use Rattle.rules.specs.Kinds.{is_text_component, is_trivia};

use syntax::Token;

pub trait Question {
    // The rules' question.
    ghost of: { ℕ → Bool };

    fn holds(kind: u32) -> bool
        ensures { result ≡ of kind };
}

// Blanks, breaks and comments.
#[derive(Clone, Copy)]
pub struct Trivia;

impl Question for Trivia {
    ghost of = { is_trivia };

    fn holds(kind: u32) -> bool {
        Token::is_trivia(kind)
    }
}

// What goes on a text.
#[derive(Clone, Copy)]
pub struct TextComponent;

impl Question for TextComponent {
    ghost of = { is_text_component };

    fn holds(kind: u32) -> bool {
        Token::is_text_component(kind)
    }
}
