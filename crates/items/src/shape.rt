// What the shape of a command or an environment asks for.
ghost use Rattle.std.specs.Prelude.{◌≡◌, List, ℕ, ◌+◌, ◌*◌, ◌/◌, ◌≤◌, ◌<◌, length};
ghost use Rattle.rules.specs.Checks.{shape_of, shape_row};
ghost use Rattle.rules.specs.Items.{attachable_command, name_only, no_shape, of_class};
ghost use Rattle.rules.specs.Limits.{shape_width};
ghost use Rattle.rules.specs.Matcher.{start_match};
ghost use Rattle.rules.specs.Tables.{shape_at, token_count};
ghost use Rattle.arg_match.specs.Answers.{matcher_of};
ghost use Rattle.items.specs.Items.{shape_for};

use arg_match::ArgMatcher;
use lexer::{Column, cell};
use syntax::{Form, Limits};

// Class and form stay numbers and no enums: they come in a lent table, and `row` promises them as they stand there, right or not.
#[derive(Clone, Copy)]
pub struct Shape {
    pub class: u32,
    pub form: u32,
    pub value: u32,
}

impl Shape {
    // No entry in the shape table.
    pub fn none() -> Self
        ensures { shape_for result ≡ no_shape }
    {
        Self {
            class: 0,
            form: Form::NONE,
            value: 0,
        }
    }

    // A row of the shape table.
    pub fn row(shapes: &[u32], row: usize) -> Self
        requires { row * shape_width + shape_width ≤ length shapes.now }
        ensures { shape_for result ≡ shape_row shapes.now row }
    {
        let at = row * Limits::SHAPE_WIDTH;
        Self {
            class: shapes[at],
            form: shapes[at + 1],
            value: shapes[at + 2],
        }
    }

    // The shape of a token: shape number 0 is none, k the k-th row.
    #[tactic(auto, unfolding(rules::specs::Checks::shape_of))]
    pub fn of_token(tokens: &[u32], shapes: &[u32], token: usize) -> Self
        requires { (token < token_count tokens.now) × (shape_at tokens.now token ≤ length shapes.now / shape_width) }
        ensures { (text states : List ℕ)
            → shape_for result ≡ shape_of (record { text = text; tokens = tokens.now; shapes = shapes.now; states = states }) token }
    {
        let number = cell(tokens, token, Column::SHAPE) as usize;
        if number == 0 {
            return Self::none();
        }
        Self::row(shapes, number - 1)
    }

    // Where a shape of this class is asked for: another class counts as no entry.
    pub fn of_class(self, class: u32) -> Self
        ensures { shape_for result ≡ of_class class (shape_for self) }
    {
        if self.class == class {
            self
        } else {
            Self::none()
        }
    }

    pub fn name_only(self) -> bool
        ensures { result ≡ name_only (shape_for self) }
    {
        self.form == Form::NONE || self.form == Form::FIXED && self.value == 0
    }

    pub fn attachable_command(self) -> bool
        ensures { result ≡ attachable_command (shape_for self) }
    {
        !matches!(self.form, Form::GREEDY | Form::LEFT1 | Form::INFIX_GREEDY)
    }

    pub fn matcher(self) -> ArgMatcher
        ensures { matcher_of result ≡ start_match self.form self.value }
    {
        ArgMatcher::start_match(self.form, self.value)
    }
}
