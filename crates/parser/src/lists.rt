// How far items are read (`Extent`), and what the loop over them asks and changes.
ghost use Rattle.std.specs.Prelude.{◌≡◌};
ghost use Rattle.rules.specs.Cursor.{peek};
ghost use Rattle.rules.specs.Position.{asked};
ghost use Rattle.lexer.specs.Reading.{cursor_of};
ghost use Rattle.syntax.specs.ParseScope.{scope_at};
ghost use Rattle.syntax.specs.Tables.{given};
ghost use Rattle.parser.specs.Member.{goes_on, Began, LastAfter, Behind, more, opened, closed};

use items::{Shape, attachable, greedy_stops};
use lexer::{Column, cell};
use state::Parser;
use syntax::{ParseScope, Tables};

// How far is read: a new list of a scope, all that a greedy command takes, or one item. That all three go through one loop is only for speed:
// see that heading in lib.rt.
#[derive(Clone, Copy)]
pub enum Extent {
    List(ParseScope),
    Greedy,
    Item,
}

// Whether a token is there that does not stop the list.
fn goes_on(tokens: &[u32], p: Parser, greedy: bool) -> bool
    ensures { result ≡ asked (goes_on greedy (scope_at p.list.scope)) (peek tokens.now (cursor_of p.lexer)) }
{
    let Some(kind) = p.lexer.peek(tokens) else {
        return false;
    };
    let scope = p.scope();
    if greedy {
        return !greedy_stops(scope, kind);
    }
    !scope.stop_by_scope(kind)
}

// Whether an item is read next, the first or a later one.
pub fn more_items(tokens: &[u32], p: Parser, extent: Extent, first: bool) -> bool
    ensures { result ≡ more extent first (scope_at p.list.scope) (peek tokens.now (cursor_of p.lexer)) }
{
    match extent {
        Extent::List(_) => goes_on(tokens, p, false),
        Extent::Greedy => goes_on(tokens, p, true),
        Extent::Item => first,
    }
}

// What the first item is read in: a new list, or the same scope with a start mark here.
pub fn opened(p: Parser, extent: Extent) -> Parser
    ensures { result ≡ opened extent p }
{
    match extent {
        Extent::List(scope) => p.with_scope(scope, p.checkpoint(), None),
        Extent::Greedy => p.with_marks(p.checkpoint(), None),
        Extent::Item => p,
    }
}

// What is given back behind the last item, q, of those that began at p: the parent's marks, or its start alone.
pub fn closed(p: Parser, q: Parser, extent: Extent) -> Parser
    ensures { result ≡ closed extent p q }
{
    let list = p.list;
    match extent {
        Extent::List(_) => q.with_list(list),
        Extent::Greedy => q.with_marks(p.list_start(), None),
        Extent::Item => q,
    }
}

// The mark before an item that is attachable becomes last: p is where the item began, q where it ended.
fn last_after(tables: &Tables<'_>, p: Parser, q: Parser) -> Parser
    requires { Began (given tables) p }
    ensures { LastAfter (given tables.entry) p q result }
{
    let token = p.lexer.token;
    let shape = Shape::of_token(tables.tokens, tables.shapes, token);
    if attachable(cell(tables.tokens, token, Column::KIND), shape) {
        return q.with_last(p.checkpoint());
    }
    q
}

// The state behind an item: where one item is read, last is left alone.
pub fn behind(tables: &Tables<'_>, p: Parser, q: Parser, extent: Extent) -> Parser
    requires { Began (given tables) p }
    ensures { Behind extent (given tables.entry) p q result }
{
    match extent {
        Extent::List(_) | Extent::Greedy => last_after(tables, p, q),
        Extent::Item => q,
    }
}
