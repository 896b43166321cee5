// The root: `parse`, which reads all tokens from nothing.
ghost use Rattle.std.specs.Prelude.{◌≡◌};
ghost use Rattle.syntax.specs.Tables.{given};
ghost use Rattle.parser.specs.Member.{lent};
ghost use Rattle.parser.specs.Root.{at_root, Readable, Parsed};

use crate::inside;
use crate::lists::Extent;
use builder::GreenNodeBuilder;
use lexer::Lexer;
use state::{ListState, Parser};
use syntax::{ParseScope, Refused, SyntaxKind, Tables};

// Before the first token: nothing is held, marked, built or dropped.
fn at_start() -> Parser
    ensures { result ≡ at_root }
{
    Parser {
        lexer: Lexer::new(),
        held: 0,
        list: ListState::new(ParseScope::Root),
        builder: GreenNodeBuilder::new(),
        dropped: 0,
    }
}

// The root, a list in it, its end.
pub fn parse(tables: &Tables<'_>, tree: &mut [u32], dropped: &mut [u32]) -> Result<Parser, Refused>
    requires { Readable (given tables) dropped.old }
    ensures { let t = given tables.entry in
        Parsed t (lent tree.entry dropped.entry) result (lent tree.exit dropped.exit) }
{
    let p = at_start();
    let begun = p.start_node(tree, SyntaxKind::ScopeRoot as u32)?;
    let read = inside(tables, tree, dropped, begun, Extent::List(ParseScope::Root))?;
    read.finish_node(tree, SyntaxKind::ScopeRoot as u32, p.builder.frame())
}
