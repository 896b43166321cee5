// Held trivia, a range of tokens: from the first held one up to the next to be read.
ghost use Rattle.std.specs.Prelude.{◌≡◌, ◌+◌, ◌<◌, ◌^◌};
ghost use Rattle.rules.specs.Flat.{flat};
ghost use Rattle.rules.specs.Routines as spec;
ghost use Rattle.state.specs.Change.{relexed};
ghost use Rattle.state.specs.Contract.{Droppable, Grows, Ignored, Somehow, Tokens};

use builder::drop_token;
use lexer::{Column, cell};
use state::Parser;
use syntax::{Reason, Refused, SyntaxKind};

// The next token is held: it counts as read.
pub fn hold_trivia(p: Parser) -> Parser
    requires { p.lexer.token < 2 ^ 63 }
    ensures { result ≡ relexed p (record { token = p.lexer.token + 1; taken = 0 }) }
{
    p.with_lexer(p.lexer.eat())
}

// What is held is dropped.
pub fn ignore_holding_trivia(dropped: &mut [u32], p: Parser) -> Parser
    requires { Droppable p dropped.old }
    ensures { Ignored p dropped.old result dropped.new }
{
    let mut count = p.dropped;
    for token in p.held..p.lexer.token {
        drop_token(
            dropped,
            count,
            token as u32,
            Reason::Trivia as u32,
            p.builder.leaves as u32,
        );
        count += 1;
    }
    let mut next = p.holding_none();
    next.dropped = count;
    next
}

// What is held becomes leaves.
pub fn extract_holding_trivia(
    tokens: &[u32],
    tree: &mut [u32],
    p: Parser,
) -> Result<Parser, Refused>
    requires { Somehow (Tokens tokens) p tree.old }
    ensures { Grows (Tokens tokens.entry) tree p result 0 (λ s n. spec.extract_holding_trivia (flat n) s) }
{
    let mut now = p;
    for token in now.held..p.lexer.token {
        let kind = SyntaxKind::from_token(cell(tokens, token, Column::KIND)).number();
        let start = cell(tokens, token, Column::START);
        let size = cell(tokens, token, Column::LENGTH);
        now = now.leaf_of(tree, token, kind, start, size)?;
    }
    Ok(now.holding_none())
}
