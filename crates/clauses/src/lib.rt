// Items with no item inside, and parts of items that have one: texts, delimiters, ends, an argument's node, commands that wrap.
#![tactic(auto)]

mod argument;

ghost use Rattle.std.specs.Prelude.{◌≡◌};
ghost use Rattle.rules.specs.Flat.{flat};
ghost use Rattle.rules.specs.Position.{Source};
ghost use Rattle.rules.specs.Routines as spec;
ghost use Rattle.builder.specs.Contract.{Fits, Within};
ghost use Rattle.state.specs.Stands.{kept_of, option_of};
ghost use Rattle.state.specs.Contract.{Grows, MarkOk, Somehow, Starts, Texts, There, Tokens};

pub use argument::{begin_argument, character, end_argument};
use builder::Checkpoint;
use items::is_command_name;
use routines::{TextComponent, eat, eat_as, eat_while, next_is, one_in, trivia, word_character};
use state::Parser;
use syntax::{Refused, SyntaxKind, Token};

// A text: a Word or a comma, and what goes on it.
pub fn text(tokens: &[u32], tree: &mut [u32], p: Parser) -> Result<Parser, Refused>
    requires { There tokens p × Somehow (Tokens tokens) p tree.old }
    ensures { Grows (Tokens tokens.entry) tree p result 1 (λ s n. spec.text (flat n) s) }
{
    let begun = p.start_node(tree, SyntaxKind::ItemText as u32)?;
    let first = eat(tokens, tree, begun)?;
    let read = eat_while::<TextComponent>(tokens, tree, first)?;
    read.finish_node(tree, SyntaxKind::ItemText as u32, p.builder.frame())
}

// What `clause_lr` takes as the delimiter.
fn delimiter(text: &[u8], tokens: &[u32], tree: &mut [u32], p: Parser) -> Result<Parser, Refused>
    requires { Somehow (Texts text tokens) p tree.old }
    ensures { Grows (Texts text.entry tokens.entry) tree p result 0 (λ s n. spec.delimiter (flat n) s) }
{
    let Some(kind) = p.lexer.peek(tokens) else {
        return Ok(p);
    };
    if kind == Token::GENERIC {
        return eat_as(tokens, tree, p, SyntaxKind::TokenCommandSym as u32);
    }
    if is_command_name(kind) {
        return Ok(p);
    }
    if kind == Token::DOLLAR {
        return Ok(p);
    }
    if kind == Token::WORD {
        return word_character(text, tokens, tree, p);
    }
    eat(tokens, tree, p)
}

pub fn clause_lr(
    text: &[u8],
    tokens: &[u32],
    tree: &mut [u32],
    p: Parser,
) -> Result<Parser, Refused>
    requires { There tokens p × Somehow (Texts text tokens) p tree.old }
    ensures { Grows (Texts text.entry tokens.entry) tree p result 1 (λ s n. spec.clause_lr (flat n) s) }
{
    let begun = p.start_node(tree, SyntaxKind::ClauseLR as u32)?;
    let named = eat(tokens, tree, begun)?;
    let reached = trivia(tokens, tree, named)?;
    let read = delimiter(text, tokens, tree, reached)?;
    read.finish_node(tree, SyntaxKind::ClauseLR as u32, p.builder.frame())
}

// The end of an environment, where it is next.
pub fn end_clause(tokens: &[u32], tree: &mut [u32], p: Parser) -> Result<Parser, Refused>
    requires { Somehow (Tokens tokens) p tree.old }
    ensures { Grows (Tokens tokens.entry) tree p result 0 (λ s n. spec.end_clause (flat n) s) }
{
    if next_is(tokens, p, Token::END_ENVIRONMENT) {
        return one_in(tokens, tree, p, SyntaxKind::ItemEnd as u32);
    }
    Ok(p)
}

// The right delimiter, where it is next.
pub fn right_clause(
    text: &[u8],
    tokens: &[u32],
    tree: &mut [u32],
    p: Parser,
) -> Result<Parser, Refused>
    requires { Somehow (Texts text tokens) p tree.old }
    ensures { Grows (Texts text.entry tokens.entry) tree p result 0 (λ s n. spec.right_clause (flat n) s) }
{
    if next_is(tokens, p, Token::RIGHT) {
        return clause_lr(text, tokens, tree, p);
    }
    Ok(p)
}

// A node of a kind begins, around what stands from a mark on if there is one.
pub fn start_around(
    tree: &mut [u32],
    p: Parser,
    kind: u32,
    at: Option<Checkpoint>,
) -> Result<Parser, Refused>
    requires { Fits p.builder tree.old × Within p.builder × MarkOk (kept_of at) p.builder }
    ensures { (s : Source) → Starts tree p result (λ n. spec.start_around (flat n) s kind (option_of at)) }
{
    let Some(checkpoint) = at else {
        return p.start_node(tree, kind);
    };
    p.wrap(tree, kind, checkpoint)
}

// A command that wraps what stands from last on, else from start, else nothing.
//   a\l   Cmd[Arg[Text a] \l]
pub fn left1_command(tokens: &[u32], tree: &mut [u32], p: Parser) -> Result<Parser, Refused>
    requires { There tokens p × Somehow (Tokens tokens) p tree.old }
    ensures { Grows (Tokens tokens.entry) tree p result 1 (λ s n. spec.left1_command (flat n) s) }
{
    let mark = p.list_last().or(p.list_start());
    let begun = start_around(tree, p, SyntaxKind::ItemCmd as u32, mark)?;
    let named = eat(tokens, tree, begun)?;
    named.finish_node(tree, SyntaxKind::ItemCmd as u32, p.builder.frame())
}
