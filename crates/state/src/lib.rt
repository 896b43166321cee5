// The parser's state, which goes in and comes back by value beside the lent slices, and the builder's operations on it.
#![tactic(auto)]

ghost use Rattle.std.specs.Prelude.{◌≡◌, ◌%◌, ◌^◌};
ghost use Rattle.rules.specs.Flat.{flat};
ghost use Rattle.rules.specs.Position as spec;
ghost use Rattle.syntax.specs.ParseScope.{number_of, scope_at, scope_of};
ghost use Rattle.builder.specs.Stands as shown;
ghost use Rattle.state.specs.Stands.{mark_at, kept_of, mark_in, list_at};
ghost use Rattle.state.specs.Change.{rebuilt, relexed, relisted, remarked, unheld};
ghost use Rattle.builder.specs.Contract.{Fits, Within, Inside};
ghost use Rattle.state.specs.Contract.{Leafs, Starts, Finishes};

use builder::{Checkpoint, Frame, GreenNodeBuilder};
use lexer::Lexer;
use syntax::{ParseScope, Refused};

// A mark as the state keeps it, in two numbers: row 0 is the root's own start, where no mark is made, so it says that there is none. It is no
// `Option<Checkpoint>`, as everywhere else, only for speed: the state goes by value, and with a tag in it the benchmark's binder took 48.5 for 14.6
// nanoseconds a token (docs/DECISIONS.md, 'Only for speed').
#[derive(Clone, Copy)]
pub struct KeptMark {
    pub children: usize,
    pub row: usize,
}

impl KeptMark {
    fn of(mark: Option<Checkpoint>) -> Self
        ensures { result ≡ kept_of mark }
    {
        match mark {
            None => Self {
                children: 0,
                row: 0,
            },
            Some(checkpoint) => Self {
                children: checkpoint.children,
                row: checkpoint.row,
            },
        }
    }

    fn mark(self) -> Option<Checkpoint>
        ensures { result ≡ mark_in self }
    {
        if self.row == 0 {
            return None;
        }
        Some(Checkpoint {
            children: self.children,
            row: self.row,
        })
    }
}

// A list has a scope, a start mark and a last mark. The scope stands here by its number, as the marks do by two, and for the same reason.
#[derive(Clone, Copy)]
pub struct ListState {
    pub scope: usize,
    pub start: KeptMark,
    pub last: KeptMark,
}

impl ListState {
    // A list of a scope, with no mark yet.
    pub fn new(scope: ParseScope) -> Self
        ensures { result ≡ list_at scope }
    {
        Self {
            scope: scope.number(),
            start: KeptMark::of(None),
            last: KeptMark::of(None),
        }
    }
}

// How many numbers 32 bits count.
const NUMBERS: usize = 0x1_0000_0000;

// A token's number as a row keeps it, in 32 bits. They are enough: tables with more tokens are refused before reading.
fn number(token: usize) -> u32
    ensures { result ≡ token % 2 ^ 32 }
{
    (token % NUMBERS) as u32
}

// What is read, the first held token, the list that is read, the builder's numbers, and how many rows are dropped.
// What contracts ask of a state (`Ready`, `Fits`, `Somehow` ..) speaks of the tables and buffers that are lent beside it, so it can be no invariant
// of this type: 01 has a small state by value beside lent slices. For the same reason a buffer's rows are counted here and not in the buffer.
#[derive(Clone, Copy)]
pub struct Parser {
    pub lexer: Lexer,
    pub held: usize,
    pub list: ListState,
    pub builder: GreenNodeBuilder,
    pub dropped: usize,
}

impl Parser {
    pub fn with_lexer(self, lexer: Lexer) -> Self
        ensures { result ≡ relexed self lexer }
    {
        let mut next = self;
        next.lexer = lexer;
        next
    }

    pub fn with_list(self, list: ListState) -> Self
        ensures { result ≡ relisted self list }
    {
        let mut next = self;
        next.list = list;
        next
    }

    // A list of a scope, with these marks.
    pub fn with_scope(
        self,
        scope: ParseScope,
        start: Option<Checkpoint>,
        last: Option<Checkpoint>,
    ) -> Self
        ensures { result ≡ relisted self (record { scope = number_of scope; start = kept_of start; last = kept_of last }) }
    {
        self.with_list(ListState {
            scope: scope.number(),
            start: KeptMark::of(start),
            last: KeptMark::of(last),
        })
    }

    // The same list, with these marks.
    pub fn with_marks(self, start: Option<Checkpoint>, last: Option<Checkpoint>) -> Self
        ensures { result ≡ remarked self (kept_of start) (kept_of last) }
    {
        let list = self.list;
        self.with_list(ListState {
            scope: list.scope,
            start: KeptMark::of(start),
            last: KeptMark::of(last),
        })
    }

    // The same list, with this last mark.
    pub fn with_last(self, last: Option<Checkpoint>) -> Self
        ensures { result ≡ remarked self self.list.start (kept_of last) }
    {
        let list = self.list;
        let start = list.start;
        self.with_list(ListState {
            scope: list.scope,
            start,
            last: KeptMark::of(last),
        })
    }

    pub fn scope(self) -> ParseScope
        ensures { scope_of result ≡ scope_at self.list.scope }
    {
        let list = self.list;
        ParseScope::numbered(list.scope)
    }

    pub fn list_start(self) -> Option<Checkpoint>
        ensures { result ≡ mark_in self.list.start }
    {
        let list = self.list;
        let start = list.start;
        start.mark()
    }

    pub fn list_last(self) -> Option<Checkpoint>
        ensures { result ≡ mark_in self.list.last }
    {
        let list = self.list;
        let last = list.last;
        last.mark()
    }

    // The mark here.
    pub fn checkpoint(self) -> Option<Checkpoint>
        ensures { result ≡ mark_at self }
    {
        Some(self.builder.checkpoint())
    }

    // Nothing is held.
    pub fn holding_none(self) -> Self
        ensures { result ≡ unheld self }
    {
        let mut next = self;
        next.held = self.lexer.token;
        next
    }

    // The builder went on, and all else is as it is. Written by its fields, the list's too: a copy of the state that is changed, or of its list
    // in one piece, would go through memory.
    fn with_builder(self, builder: GreenNodeBuilder) -> Self
        ensures { result ≡ rebuilt self builder }
    {
        let lexer = self.lexer;
        let list = self.list;
        let start = list.start;
        let last = list.last;
        Self {
            lexer,
            held: self.held,
            list: ListState {
                scope: list.scope,
                start: KeptMark {
                    children: start.children,
                    row: start.row,
                },
                last: KeptMark {
                    children: last.children,
                    row: last.row,
                },
            },
            builder,
            dropped: self.dropped,
        }
    }

    // The same, taken apart and put together again. Only for speed: what a call wrote in pieces can then lie in registers, where behind a `?` it is
    // read in one piece and the processor waits.
    #[inline(always)]
    pub fn again(self) -> Self
        ensures { result ≡ self }
    {
        self.with_builder(self.builder)
    }

    // ---- the builder's operations, at the place of the first token not wholly read

    // A leaf of the next token.
    pub fn leaf(self, tree: &mut [u32], kind: u32, start: u32, size: u32) -> Result<Self, Refused>
        requires { Fits self.builder tree.old }
        ensures { Leafs tree self result (record { token = self.lexer.token; kind = kind; start = start; size = size }) }
    {
        self.leaf_of(tree, self.lexer.token, kind, start, size)
    }

    // A leaf of a token that was passed before, or is next.
    pub fn leaf_of(
        self,
        tree: &mut [u32],
        token: usize,
        kind: u32,
        start: u32,
        size: u32,
    ) -> Result<Self, Refused>
        requires { Fits self.builder tree.old }
        ensures { Leafs tree self result (record { token = token; kind = kind; start = start; size = size }) }
    {
        let place = number(self.lexer.token);
        let builder = self
            .builder
            .token(tree, place, number(token), kind, start, size)?;
        Ok(self.with_builder(builder))
    }

    pub fn start_node(self, tree: &mut [u32], kind: u32) -> Result<Self, Refused>
        requires { Fits self.builder tree.old }
        ensures { Starts tree self result (λ n. spec.start (flat n) kind) }
    {
        let builder = self
            .builder
            .start_node(tree, number(self.lexer.token), kind)?;
        Ok(self.with_builder(builder))
    }

    pub fn finish_node(self, tree: &mut [u32], kind: u32, parent: Frame) -> Result<Self, Refused>
        requires { Fits self.builder tree.old × Within self.builder }
        ensures { Finishes tree self parent result (λ n. spec.finish (flat n) kind (shown.frame_of parent)) }
    {
        let builder = self
            .builder
            .finish_node(tree, number(self.lexer.token), kind, parent)?;
        Ok(self.with_builder(builder))
    }

    pub fn wrap(self, tree: &mut [u32], kind: u32, at: Checkpoint) -> Result<Self, Refused>
        requires { Fits self.builder tree.old × Within self.builder × Inside at self.builder }
        ensures { Starts tree self result (λ n. spec.wrap (flat n) kind (shown.mark_of at)) }
    {
        let builder = self.builder.wrap(tree, number(self.lexer.token), kind, at)?;
        Ok(self.with_builder(builder))
    }
}
