// The cycle of calls: items inside items. Each member comes to what its rule says at every level that is enough for the nodes that may yet be opened.
// The two buffers stay two parameters: most of what the members call writes one of them, and is lent that one alone.
#![tactic(auto)]

mod lists;
mod root;

ghost use Rattle.std.specs.Prelude.{false};
ghost use Rattle.rules.specs.Checks.{source_of};
ghost use Rattle.rules.specs.Flat.{flat};
ghost use Rattle.rules.specs.Items.{class_command};
ghost use Rattle.rules.specs.Reading as spec;
ghost use Rattle.arg_match.specs.Answers.{matcher_of};
ghost use Rattle.items.specs.Items.{shape_for, piece_for};
ghost use Rattle.state.specs.Contract.{MarkOk, Ready, Holding};
ghost use Rattle.state.specs.Stands.{kept_of, option_of};
ghost use Rattle.syntax.specs.ParseScope.{scope_of};
ghost use Rattle.syntax.specs.Tables.{given};
ghost use Rattle.parser.specs.Member.{lent, Opened, Stayed, Next, NextIf, gain_of, items_of, inside_of, all_arguments};

use arg_match::{ArgMatcher, Argument, Matched};
use builder::Checkpoint;
use clauses::{
    begin_argument, character, clause_lr, end_argument, end_clause, left1_command, right_clause,
    start_around,
};
use items::{Choice, Item, Piece, Shape, choose, closer, group_kind, item_of};
use lexer::{Column, cell, char_len};
use lists::{Extent, behind, closed, more_items, opened};
pub use root::parse;
use routines::{
    eat, eat_if, extract_holding_trivia, hold_trivia, one_in, trivia, word_character, word_next,
};
use skipped::skipped_body;
use state::Parser;
use syntax::{Class, Form, Limits, ParseScope, Refusal, Refused, SyntaxKind, Tables, Token};

// Only for speed. Nanoseconds a token with and without each, on the benchmark's binder; the first three measured on aarch64, the others on x86-64:
//   26.5 / 38.9   the three extents go through one loop, and `inside` alone calls `items`: so an item is read at one place, and the compiler puts its
//                 reading into the loop;
//   25.2 / 27.9   `content` hands a copy of its state to `item_group`, and to `one_in` too;
//   22.9 / 25.2   `script` asks for a Word before it passes trivia: most scripts are one character, and then no routine is called that the state
//                 would have to lie in memory for;
//   24.3 / 45.8   `eat`, `eat_as` and `one_in` (crates/routines) and `piece` are put in place, `inline(always)`;
//   21.8 / 24.4   and `item_group`;
//   41.1 / 43.8   on the benchmark's words: behind five of the `?` a state is taken apart and put together (`again`, crates/state).
// Two more stand in crates/builder and crates/state: docs/DECISIONS.md, 'Only for speed'.

// Items as far as an extent goes: up to the end, or a token that stops them, or one. That it is one loop is only for speed: see above.
#[cycle(reading)]
fn items(
    tables: &Tables<'_>,
    tree: &mut [u32],
    dropped: &mut [u32],
    p: Parser,
    extent: Extent,
) -> Result<Parser, Refused>
    requires { let t = given tables in Ready t p (lent tree dropped) × NextIf extent t p }
    ensures { Stayed tables tree dropped p result (gain_of extent) (λ t. items_of t extent) }
{
    let mut now = p;
    let mut first = true;
    while more_items(tables.tokens, now, extent, first) {
        let after = content(tables, tree, dropped, now)?;
        now = behind(tables, now, after, extent);
        first = false;
    }
    Ok(now)
}

// What an extent reads: a new list, whose parent's marks are given back, all that a greedy command takes, or one item.
#[cycle(reading)]
fn inside(
    tables: &Tables<'_>,
    tree: &mut [u32],
    dropped: &mut [u32],
    p: Parser,
    extent: Extent,
) -> Result<Parser, Refused>
    requires { let t = given tables in Ready t p (lent tree dropped) × NextIf extent t p }
    ensures { Stayed tables tree dropped p result (gain_of extent) (λ t. inside_of t extent) }
{
    let begun = opened(p, extent);
    let read = items(tables, tree, dropped, begun, extent)?;
    Ok(closed(p, read, extent))
}

// A group between its braces.
//  {a}   Curly[{ Text[a] }]
#[cycle(reading)]
#[inline(always)]
fn item_group(
    tables: &Tables<'_>,
    tree: &mut [u32],
    dropped: &mut [u32],
    p: Parser,
    scope: ParseScope,
) -> Result<Parser, Refused>
    requires { let t = given tables in Ready t p (lent tree dropped) × Next t p }
    ensures { Opened tables tree dropped p result 1 (λ t n inner. spec.item_group (flat n) (source_of t) inner (scope_of scope)) }
{
    let begun = p.start_node(tree, group_kind(scope).number())?;
    let entered = eat(tables.tokens, tree, begun)?.again();
    let read = inside(tables, tree, dropped, entered, Extent::List(scope))?.again();
    let ended = eat_if(tables.tokens, tree, read, closer(scope))?;
    ended.finish_node(tree, group_kind(scope).number(), p.builder.frame())
}

// How an argument is read, inside its node.
#[cycle(reading)]
#[inline(always)]
fn piece(
    tables: &Tables<'_>,
    tree: &mut [u32],
    dropped: &mut [u32],
    p: Parser,
    what: Piece,
) -> Result<Parser, Refused>
    requires { let t = given tables in Ready t p (lent tree dropped) × Next t p }
    ensures { Stayed tables tree dropped p result 1 (λ t n inner. spec.piece (flat n) (source_of t) inner (piece_for what)) }
{
    match what {
        Piece::Within(scope) => item_group(tables, tree, dropped, p, scope),
        Piece::Brace => eat(tables.tokens, tree, p),
        Piece::Item => inside(tables, tree, dropped, p, Extent::Item),
    }
}

// An accepted argument, in a node of its own.
#[cycle(reading)]
fn arg(
    tables: &Tables<'_>,
    tree: &mut [u32],
    dropped: &mut [u32],
    p: Parser,
    what: Piece,
) -> Result<Parser, Refused>
    requires { let t = given tables in Ready t p (lent tree dropped) × Next t p × Holding p }
    ensures { Opened tables tree dropped p result 1 (λ t n inner. spec.argument (flat n) (source_of t) inner (piece_for what)) }
{
    let begun = begin_argument(tree, dropped, p)?.again();
    let read = piece(tables, tree, dropped, begun, what)?;
    end_argument(tree, read, p.builder.frame())
}

// Arguments, until the matcher or the kind of token ends them. A refused character ends both loops.
#[cycle(reading)]
fn arguments(
    tables: &Tables<'_>,
    tree: &mut [u32],
    dropped: &mut [u32],
    p: Parser,
    m: ArgMatcher,
) -> Result<Parser, Refused>
    requires { let t = given tables in Ready t p (lent tree dropped) × Holding p }
    ensures { Opened tables tree dropped p result 0 (λ t. all_arguments t (matcher_of m)) }
{
    let mut now = p;
    let mut matcher = m;
    'arguments: while let Some(kind) = now.lexer.peek(tables.tokens) {
        if kind == Token::WORD {
            let mut word = now.lexer.peek_text(tables.text, tables.tokens);
            while !word.is_empty() {
                let Matched::Whole(next) = matcher.match_next(tables.states, Argument::Term) else {
                    break 'arguments;
                };
                let size = char_len(word);
                now = character(tables.tokens, tree, dropped, now, word)?.again();
                matcher = next;
                word = &word[size..];
            }
        } else {
            match choose(tables.states, now.scope(), matcher, kind) {
                Choice::Ends => break,
                Choice::Holds => now = hold_trivia(now),
                Choice::Takes(what, next) => {
                    now = arg(tables, tree, dropped, now, what)?.again();
                    matcher = next;
                }
            }
        }
    }
    Ok(now)
}

// The arguments that a shape asks for. The Rust asserts here that they aren't greedy. A \begin with a greedy shape gets refusal 5; a greedy command
// does not come here. Last is cleared first and saved second, so it is empty afterwards.
#[cycle(reading)]
fn match_arguments(
    tables: &Tables<'_>,
    tree: &mut [u32],
    dropped: &mut [u32],
    p: Parser,
    shape: Shape,
) -> Result<Parser, Refused>
    requires { let t = given tables in Ready t p (lent tree dropped) }
    ensures { Opened tables tree dropped p result 0
        (λ t n inner. spec.arguments_of (flat n) (source_of t) inner (shape_for shape)) }
{
    if shape.name_only() {
        return Ok(p.holding_none());
    }
    let matcher = shape.matcher();
    if matcher.is_greedy() {
        return Err(Refusal::GreedyEnvironment.at(p.lexer.token));
    }
    let start = p.list_start();
    let cleared = p.with_marks(None, None);
    let last = cleared.list_last();
    let free = cleared.holding_none();
    let after = arguments(tables, tree, dropped, free, matcher)?;
    Ok(after.with_marks(start, last))
}

// A greedy command, around what stands from a mark on if there is one; all that it takes stands in one node.
//  a\o b   Cmd[Arg[Text a] \o Arg[..]]
#[cycle(reading)]
fn greedy_command(
    tables: &Tables<'_>,
    tree: &mut [u32],
    dropped: &mut [u32],
    p: Parser,
    at: Option<Checkpoint>,
) -> Result<Parser, Refused>
    requires { let t = given tables in Ready t p (lent tree dropped) × Next t p × MarkOk (kept_of at) p.builder }
    ensures { Opened tables tree dropped p result 1
        (λ t n inner. spec.greedy_command (flat n) (source_of t) inner (option_of at)) }
{
    let begun = start_around(tree, p, SyntaxKind::ItemCmd as u32, at)?;
    let named = eat(tables.tokens, tree, begun)?;
    let entered = named.start_node(tree, SyntaxKind::ClauseArgument as u32)?;
    let read = inside(tables, tree, dropped, entered, Extent::Greedy)?;
    let taken = read.finish_node(
        tree,
        SyntaxKind::ClauseArgument as u32,
        named.builder.frame(),
    )?;
    taken.finish_node(tree, SyntaxKind::ItemCmd as u32, p.builder.frame())
}

// A name with the arguments that its shape asks for, in a node of a kind; what is left held follows the node.
//  \f12   Cmd[\f Arg[1] Arg[2]]
#[cycle(reading)]
fn with_arguments(
    tables: &Tables<'_>,
    tree: &mut [u32],
    dropped: &mut [u32],
    p: Parser,
    kind: u32,
    shape: Shape,
) -> Result<Parser, Refused>
    requires { let t = given tables in Ready t p (lent tree dropped) × Next t p }
    ensures { Opened tables tree dropped p result 1
        (λ t n inner. spec.with_arguments (flat n) (source_of t) inner kind (shape_for shape)) }
{
    let begun = p.start_node(tree, kind)?;
    let named = eat(tables.tokens, tree, begun)?;
    let read = match_arguments(tables, tree, dropped, named, shape)?;
    let closed = read.finish_node(tree, kind, p.builder.frame())?;
    extract_holding_trivia(tables.tokens, tree, closed)
}

// A command by its shape.
#[cycle(reading)]
fn command(
    tables: &Tables<'_>,
    tree: &mut [u32],
    dropped: &mut [u32],
    p: Parser,
) -> Result<Parser, Refused>
    requires { let t = given tables in Ready t p (lent tree dropped) × Next t p }
    ensures { Opened tables tree dropped p result 1
        (λ t n inner q. spec.command_of (flat n) (source_of t) inner (spec.shape_here (flat n) (source_of t) class_command q) q) }
{
    let shape = Shape::of_token(tables.tokens, tables.shapes, p.lexer.token).of_class(
        Class::COMMAND,
    );
    if shape.name_only() {
        return one_in(tables.tokens, tree, p, SyntaxKind::ItemCmd as u32);
    }
    if shape.form == Form::LEFT1 {
        return left1_command(tables.tokens, tree, p);
    }
    if shape.form == Form::INFIX_GREEDY {
        let start = p.list_start();
        let startless = p.with_marks(None, p.list_last());
        return greedy_command(tables, tree, dropped, startless, start);
    }
    let matcher = shape.matcher();
    if matcher.is_greedy() {
        return greedy_command(tables, tree, dropped, p, None);
    }
    with_arguments(tables, tree, dropped, p, SyntaxKind::ItemCmd as u32, shape)
}

// An environment: its \begin, its body, its \end.
//  \begin{m}a\end{m}   Env[Begin[m] Text[a] End[m]]
#[cycle(reading)]
fn environment(
    tables: &Tables<'_>,
    tree: &mut [u32],
    dropped: &mut [u32],
    p: Parser,
) -> Result<Parser, Refused>
    requires { let t = given tables in Ready t p (lent tree dropped) × Next t p }
    ensures { Opened tables tree dropped p result 1 (λ t n inner. spec.environment_item (flat n) (source_of t) inner) }
{
    let begun = p.start_node(tree, SyntaxKind::ItemEnv as u32)?;
    let shape = Shape::of_token(tables.tokens, tables.shapes, begun.lexer.token).of_class(
        Class::ENVIRONMENT,
    );
    let entered = with_arguments(
        tables,
        tree,
        dropped,
        begun,
        SyntaxKind::ItemBegin as u32,
        shape,
    )?;
    let read = inside(
        tables,
        tree,
        dropped,
        entered,
        Extent::List(ParseScope::Environment),
    )?;
    let ended = end_clause(tables.tokens, tree, read)?;
    ended.finish_node(tree, SyntaxKind::ItemEnv as u32, p.builder.frame())
}

// A body between its delimiters.
//  \left(a\right)   LR[ClauseLR[\left (] Text[a] ClauseLR[\right )]]
#[cycle(reading)]
fn item_lr(
    tables: &Tables<'_>,
    tree: &mut [u32],
    dropped: &mut [u32],
    p: Parser,
) -> Result<Parser, Refused>
    requires { let t = given tables in Ready t p (lent tree dropped) × Next t p }
    ensures { Opened tables tree dropped p result 1 (λ t n inner. spec.item_lr (flat n) (source_of t) inner) }
{
    let begun = p.start_node(tree, SyntaxKind::ItemLR as u32)?;
    let entered = clause_lr(tables.text, tables.tokens, tree, begun)?;
    let read = inside(tables, tree, dropped, entered, Extent::List(ParseScope::LR))?;
    let ended = right_clause(tables.text, tables.tokens, tree, read)?;
    ended.finish_node(tree, SyntaxKind::ItemLR as u32, p.builder.frame())
}

// What follows `_` or `^`. The scope is not asked, so a `}` is a script too.
#[cycle(reading)]
fn script(
    tables: &Tables<'_>,
    tree: &mut [u32],
    dropped: &mut [u32],
    p: Parser,
    has_script: bool,
) -> Result<Parser, Refused>
    requires { let t = given tables in Ready t p (lent tree dropped) }
    ensures { Stayed tables tree dropped p result 0 (λ t n inner. spec.script (flat n) (source_of t) inner has_script) }
{
    if !has_script {
        return Ok(p);
    }
    // Only for speed: see above.
    if word_next(tables.tokens, p) {
        return word_character(tables.text, tables.tokens, tree, p);
    }
    let after = trivia(tables.tokens, tree, p)?;
    if tables.tokens.len() / Limits::TOKEN_WIDTH <= after.lexer.token {
        return Ok(after);
    }
    if word_next(tables.tokens, after) {
        return word_character(tables.text, tables.tokens, tree, after);
    }
    inside(tables, tree, dropped, after, Extent::Item)
}

// A script or an apostrophe, around what stands from last on. Without a last mark `'` is a plain leaf, and `_b` is Attach[_ b].
//  a_b   Attach[Arg[Text a] _ b]
#[cycle(reading)]
fn attach_component(
    tables: &Tables<'_>,
    tree: &mut [u32],
    dropped: &mut [u32],
    p: Parser,
    has_script: bool,
) -> Result<Parser, Refused>
    requires { let t = given tables in Ready t p (lent tree dropped) × Next t p }
    ensures { Opened tables tree dropped p result 1 (λ t n inner. spec.attach_component (flat n) (source_of t) inner has_script) }
{
    let last = p.list_last();
    if !has_script && last.is_none() {
        return eat(tables.tokens, tree, p);
    }
    let begun = start_around(tree, p, SyntaxKind::ItemAttachComponent as u32, last)?;
    let marked = eat(tables.tokens, tree, begun)?;
    let read = script(tables, tree, dropped, marked, has_script)?;
    read.finish_node(
        tree,
        SyntaxKind::ItemAttachComponent as u32,
        p.builder.frame(),
    )
}

// Any item, whole.
#[cycle(reading)]
fn content(
    tables: &Tables<'_>,
    tree: &mut [u32],
    dropped: &mut [u32],
    p: Parser,
) -> Result<Parser, Refused>
    requires { let t = given tables in Ready t p (lent tree dropped) × Next t p }
    ensures { Opened tables tree dropped p result 1 (λ t n inner. spec.content (flat n) (source_of t) inner false) }
{
    let token = p.lexer.token;
    let kind = cell(tables.tokens, token, Column::KIND);
    match item_of(kind) {
        Item::Plain => eat(tables.tokens, tree, p),
        Item::Error => {
            // Only for speed: see above.
            let copy = p;
            one_in(tables.tokens, tree, copy, SyntaxKind::TokenError as u32)
        }
        Item::Word | Item::Comma => clauses::text(tables.tokens, tree, p),
        Item::Group(scope) => {
            // Only for speed: see above.
            let copy = p;
            item_group(tables, tree, dropped, copy, scope)
        }
        Item::Attachment(has_script) => attach_component(tables, tree, dropped, p, has_script),
        Item::Command => command(tables, tree, dropped, p),
        Item::Environment => environment(tables, tree, dropped, p),
        Item::LeftRight => item_lr(tables, tree, dropped, p),
        Item::Skipped(node) => skipped_body(tables.tokens, tree, dropped, p, node.number()),
    }
}
