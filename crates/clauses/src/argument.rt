// An argument's node, `arg`: what is held is dropped before it; and a character of a Word in such a node.
ghost use Rattle.rules.specs.Flat.{flat};
ghost use Rattle.rules.specs.Routines as spec;
ghost use Rattle.rules.specs.Position.{Source};
ghost use Rattle.builder.specs.Contract.{Fits, Within};
ghost use Rattle.builder.specs.Stands as shown;
ghost use Rattle.state.specs.Contract.{AtWord, Begins, Droppable, Finishes, Goes, Holding, Known, LeftOf, lent};

use builder::Frame;
use routines::{ignore_holding_trivia, single_char};
use state::Parser;
use syntax::{Refused, SyntaxKind};

// What is held is dropped, and the node begins.
pub fn begin_argument(tree: &mut [u32], dropped: &mut [u32], p: Parser) -> Result<Parser, Refused>
    requires { Fits p.builder tree.old × Droppable p dropped.old }
    ensures { Begins (λ s n. spec.argument_begins (flat n) s) p (lent tree.entry dropped.entry) result (lent tree.exit dropped.exit) }
{
    let ignored = ignore_holding_trivia(dropped, p);
    ignored.start_node(tree, SyntaxKind::ClauseArgument as u32)
}

// The node ends, and nothing is held behind it.
pub fn end_argument(tree: &mut [u32], p: Parser, parent: Frame) -> Result<Parser, Refused>
    requires { Fits p.builder tree.old × Within p.builder }
    ensures { (s : Source) → Finishes tree p parent result (λ n. spec.argument_ends (flat n) s (shown.frame_of parent)) }
{
    let closed = p.finish_node(tree, SyntaxKind::ClauseArgument as u32, parent)?;
    Ok(closed.holding_none())
}

// One character of a Word, or of what is left of one, as an argument.
pub fn character(
    tokens: &[u32],
    tree: &mut [u32],
    dropped: &mut [u32],
    p: Parser,
    word: &[u8],
) -> Result<Parser, Refused>
    requires { AtWord tokens p × Holding p × Known (LeftOf tokens word p) p (lent tree dropped) }
    ensures { Goes (LeftOf tokens.entry word.entry p) tree dropped p result 1
        (λ s n. spec.argument_node (flat n) s (spec.single_char (flat n) s)) }
{
    let begun = begin_argument(tree, dropped, p)?;
    let read = single_char(tokens, tree, begun, word)?;
    end_argument(tree, read, p.builder.frame())
}
