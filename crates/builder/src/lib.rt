// Rows of a tree into a lent buffer, in the manner of rowan's GreenNodeBuilder: its numbers go in and come back by value, beside the buffer.
// Each operation is handed the place, the first token not wholly read. A row has it as its fifth number, but that a leaf has its own token.
// An operation comes to the new numbers, or is refused and changes nothing.
#![tactic(auto)]

ghost use Rattle.std.specs.Prelude.{◌≡◌, ◌^◌, ◌<◌, [], Ok};
ghost use Rattle.rules.specs.Flat as flat;
ghost use Rattle.builder.specs.Stands.{rows_of, mark_of, frame_of};
ghost use Rattle.builder.specs.Contract.{Fits, Within, Inside, Goes, StartRow, Allowed};

mod dropped;
mod rows;

pub use dropped::drop_token;
use rows::{insert_starts, put};
use syntax::{Limits, Refusal, Refused, SyntaxKind, Tag};

// A mark: how many finished children there were, and the row that was next.
#[derive(Clone, Copy)]
pub struct Checkpoint {
    pub children: usize,
    pub row: usize,
}

// What its parent has to know again once a node is closed: its own first child's count and its start row.
#[derive(Clone, Copy)]
pub struct Frame {
    pub first: usize,
    pub node: usize,
}

// The builder's numbers: rows and leaves written, nodes open, finished children, and of the innermost open node
// how many finished children stood before its first, and its start row.
#[derive(Clone, Copy)]
pub struct GreenNodeBuilder {
    pub rows: usize,
    pub leaves: usize,
    pub depth: usize,
    pub children: usize,
    pub first: usize,
    pub node: usize,
}

impl GreenNodeBuilder {
    // Nothing is built yet.
    pub fn new() -> Self
        ensures { rows_of result [] ≡ (flat.empty).tree }
    {
        Self {
            rows: 0,
            leaves: 0,
            depth: 0,
            children: 0,
            first: 0,
            node: 0,
        }
    }

    pub fn checkpoint(self) -> Checkpoint
        ensures { result ≡ record { children = self.children; row = self.rows } }
    {
        Checkpoint {
            children: self.children,
            row: self.rows,
        }
    }

    pub fn frame(self) -> Frame
        ensures { result ≡ record { first = self.first; node = self.node } }
    {
        Frame {
            first: self.first,
            node: self.node,
        }
    }

    // A leaf of the innermost open node. Here and below the new numbers are written field by field: a copy that is changed would go through memory.
    pub fn token(
        self,
        tree: &mut [u32],
        place: u32,
        token: u32,
        kind: u32,
        start: u32,
        size: u32,
    ) -> Result<GreenNodeBuilder, Refused>
        requires { Fits self tree.old }
        ensures { Goes (λ n. flat.leaf n place (record { token = token; kind = kind; start = start; size = size })) self tree result }
    {
        let rows = self.rows;
        if tree.len() / Limits::TREE_WIDTH <= rows {
            return Err(Refusal::NoRoom.at(place as usize));
        }
        put(tree, rows, Tag::Leaf, kind, start, size, token);
        Ok(GreenNodeBuilder {
            rows: rows + 1,
            leaves: self.leaves + 1,
            depth: self.depth,
            children: self.children + 1,
            first: self.first,
            node: self.node,
        })
    }

    // A node that begins here: what comes next is its first child.
    pub fn start_node(
        self,
        tree: &mut [u32],
        place: u32,
        kind: u32,
    ) -> Result<GreenNodeBuilder, Refused>
        requires { Fits self tree.old }
        ensures { Goes (λ n. flat.start n place kind) self tree result }
    {
        if Limits::NODES <= self.depth {
            return Err(Refusal::TooManyOpen.at(place as usize));
        }
        let rows = self.rows;
        if tree.len() / Limits::TREE_WIDTH <= rows {
            return Err(Refusal::NoRoom.at(place as usize));
        }
        put(tree, rows, Tag::Start, kind, 0, 0, place);
        Ok(GreenNodeBuilder {
            rows: rows + 1,
            leaves: self.leaves,
            depth: self.depth + 1,
            children: self.children,
            first: self.children,
            node: rows,
        })
    }

    // The innermost open node ends here and is one finished child of its parent, whose frame is handed back.
    pub fn finish_node(
        self,
        tree: &mut [u32],
        place: u32,
        kind: u32,
        parent: Frame,
    ) -> Result<GreenNodeBuilder, Refused>
        requires { Fits self tree.old × Within self }
        ensures { Goes (λ n. flat.finish n place kind (frame_of parent)) self tree result }
    {
        let rows = self.rows;
        if tree.len() / Limits::TREE_WIDTH <= rows {
            return Err(Refusal::NoRoom.at(place as usize));
        }
        put(tree, rows, Tag::Finish, kind, 0, 0, place);
        Ok(GreenNodeBuilder {
            rows: rows + 1,
            leaves: self.leaves,
            depth: self.depth - 1,
            children: self.first + 1,
            first: parent.first,
            node: parent.node,
        })
    }

    // The row where a node that begins at a mark starts: behind the open node's own start row where the mark is at its first child.
    fn start_row(self, at: Checkpoint) -> usize
        requires { Within self × Inside at self × (self.rows < 2 ^ 62) }
        ensures { StartRow self [] at result }
    {
        if at.children == self.first {
            self.node + 1
        } else {
            at.row
        }
    }

    // A wrap that nothing refuses. The rows from its mark on are lent on and move down once, by two rows, since both nodes begin there.
    fn enclose(self, tree: &mut [u32], place: u32, kind: u32, at: Checkpoint) -> GreenNodeBuilder
        requires { Within self × Inside at self × Allowed self tree.old at }
        ensures { Goes (λ n. flat.wrap n place kind (mark_of at)) self tree (Ok result) }
    {
        let start = self.start_row(at);
        let last = self.rows + 2;
        let from = start * Limits::TREE_WIDTH;
        let to = last * Limits::TREE_WIDTH;
        let argument = SyntaxKind::ClauseArgument as u32;
        insert_starts(&mut tree[from..to], kind, argument, place);
        put(tree, last, Tag::Finish, argument, 0, 0, place);
        GreenNodeBuilder {
            rows: last + 1,
            leaves: self.leaves,
            depth: self.depth + 1,
            children: at.children + 1,
            first: at.children,
            node: start,
        }
    }

    // A wrap: a node begins at an earlier mark and stays open, and an argument inside it is closed around what stood there.
    //   a_b   the `_` wraps the text: Attach[Arg[Text a] ..
    pub fn wrap(
        self,
        tree: &mut [u32],
        place: u32,
        kind: u32,
        at: Checkpoint,
    ) -> Result<GreenNodeBuilder, Refused>
        requires { Fits self tree.old × Within self × Inside at self }
        ensures { Goes (λ n. flat.wrap n place kind (mark_of at)) self tree result }
    {
        if at.children < self.first {
            return Err(Refusal::MarkBeforeNode.at(place as usize));
        }
        if Limits::NODES <= self.depth {
            return Err(Refusal::TooManyOpen.at(place as usize));
        }
        let rows = self.rows;
        let last = rows + 2;
        let room = tree.len() / Limits::TREE_WIDTH;
        if room <= rows {
            return Err(Refusal::NoRoom.at(place as usize));
        }
        // The argument's own opening is judged by itself.
        if Limits::NODES <= self.depth + 1 {
            return Err(Refusal::TooManyOpen.at(place as usize));
        }
        if room <= last {
            return Err(Refusal::NoRoom.at(place as usize));
        }
        Ok(self.enclose(tree, place, kind, at))
    }
}
