// What an item that begins with a kind of token is: the arms of `content`'s match.
ghost use Rattle.std.specs.Prelude.{◌≡◌};
ghost use Rattle.rules.specs.Items.{attachable, attachable_item, closer, group_kind, is_command_name, is_if, item_of, no_shape, plain};
ghost use Rattle.syntax.specs.ParseScope.{scope_of};
ghost use Rattle.syntax.specs.SyntaxKind.{number_of};
ghost use Rattle.items.specs.Items.{item_for, shape_for};

use crate::shape::Shape;
use syntax::{Class, Limits, ParseScope, SyntaxKind, Token};

#[derive(Clone, Copy)]
pub enum Item {
    // The token alone.
    Plain,
    // A node of kind TokenError around the token.
    Error,
    // A text, or one character where a script is read.
    Word,
    // A text.
    Comma,
    // A group with this scope.
    Group(ParseScope),
    // `'`, `_` or `^`: whether a script follows.
    Attachment(bool),
    Command,
    Environment,
    // `\left`.
    LeftRight,
    // A body that is skipped, in a node of this kind.
    Skipped(SyntaxKind),
}

pub fn item_of(kind: u32) -> Item
    ensures { item_for result ≡ item_of kind }
{
    match kind {
        Token::LEFT_CURLY => Item::Group(ParseScope::CurlyItem),
        Token::APOSTROPHE => Item::Attachment(false),
        Token::UNDERSCORE | Token::CARET => Item::Attachment(true),
        Token::RIGHT_CURLY | Token::MACRO_ARG | Token::END_ENVIRONMENT | Token::END_MATH =>
            Item::Error,
        Token::WORD => Item::Word,
        Token::COMMA => Item::Comma,
        Token::DOLLAR => Item::Group(ParseScope::DollarFormula),
        Token::BEGIN_MATH => Item::Group(ParseScope::CmdFormula),
        Token::GENERIC | Token::ELSE | Token::RIGHT | Token::IF | Token::END_IF => Item::Command,
        Token::BEGIN_ENVIRONMENT => Item::Environment,
        Token::IF_FALSE => Item::Skipped(SyntaxKind::ItemBlockComment),
        Token::IF_TYPST => Item::Skipped(SyntaxKind::ItemTypstCode),
        Token::LEFT => Item::LeftRight,
        _ => Item::Plain,
    }
}

// The node of a group.
pub fn group_kind(scope: ParseScope) -> SyntaxKind
    ensures { number_of result ≡ group_kind (scope_of scope) }
{
    match scope {
        ParseScope::Root => SyntaxKind::ScopeRoot,
        ParseScope::DollarFormula | ParseScope::CmdFormula => SyntaxKind::ItemFormula,
        ParseScope::Environment => SyntaxKind::ItemEnv,
        ParseScope::LR => SyntaxKind::ItemLR,
        ParseScope::CurlyItem => SyntaxKind::ItemCurly,
        ParseScope::BracketItem => SyntaxKind::ItemBracket,
        ParseScope::ParenItem => SyntaxKind::ItemParen,
    }
}

// The kind of token that closes a group. No kind closes the root: a number over all kinds stands for it, since the contract's `closer` says so.
pub fn closer(scope: ParseScope) -> u32
    ensures { result ≡ closer (scope_of scope) }
{
    match scope {
        ParseScope::Root => Limits::KINDS as u32,
        ParseScope::DollarFormula => Token::DOLLAR,
        ParseScope::CmdFormula => Token::END_MATH,
        ParseScope::Environment => Token::END_ENVIRONMENT,
        ParseScope::LR => Token::RIGHT,
        ParseScope::CurlyItem => Token::RIGHT_CURLY,
        ParseScope::BracketItem => Token::RIGHT_BRACKET,
        ParseScope::ParenItem => Token::RIGHT_PAREN,
    }
}

// A command's name: Generic to Right.
pub fn is_command_name(kind: u32) -> bool
    ensures { result ≡ is_command_name kind }
{
    matches!(kind, Token::GENERIC..=Token::RIGHT)
}

// Any \if.
pub fn is_if(kind: u32) -> bool
    ensures { result ≡ is_if kind }
{
    matches!(kind, Token::IF_FALSE | Token::IF_TYPST | Token::IF)
}

// Whether a token that is an item by itself may carry a script.
fn attachable_token(kind: u32) -> bool
    ensures { result ≡ attachable_item plain kind no_shape }
{
    !matches!(
        kind,
        Token::AMPERSAND
            | Token::NEW_LINE
            | Token::HASH
            | Token::AT_SIGN
            | Token::LINE_BREAK
            | Token::LINE_COMMENT
            | Token::WHITESPACE
            | Token::ASTERISK
            | Token::ERROR
    )
}

// Whether an item that begins with this kind may carry a script.
fn attachable_item(item: Item, kind: u32, shape: Shape) -> bool
    ensures { result ≡ attachable_item (item_for item) kind (shape_for shape) }
{
    match item {
        Item::Plain => attachable_token(kind),
        Item::Group(_) => kind != Token::DOLLAR && kind != Token::BEGIN_MATH,
        Item::Attachment(_) => false,
        Item::Command => shape.of_class(Class::COMMAND).attachable_command(),
        Item::Error
        | Item::Word
        | Item::Comma
        | Item::Environment
        | Item::LeftRight
        | Item::Skipped(_) => true,
    }
}

// The same by the kind alone; the shape is the token's own.
#[tactic(auto, unfolding(rules::specs::Items::attachable))]
pub fn attachable(kind: u32, shape: Shape) -> bool
    ensures { result ≡ attachable kind (shape_for shape) }
{
    attachable_item(item_of(kind), kind, shape)
}
