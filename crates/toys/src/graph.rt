// Graphs of eight nodes, and what runs and edits of them hold.
pub const NODES: usize = 8;

// The edges that leave each node, and the node to be reached.
#[derive(Clone, Copy, PartialEq, Eq, Debug)]
pub struct Graph {
    pub edges: [Edges; NODES],
    pub goal: usize,
}

// At most two edges, by the nodes that they lead to. An edge to a number from 8 on leads nowhere.
#[derive(Clone, Copy, PartialEq, Eq, Default, Debug)]
pub struct Edges {
    pub first: Option<usize>,
    pub second: Option<usize>,
}

// Other edges for a node.
#[derive(Clone, Copy, PartialEq, Eq, Debug)]
pub struct Change {
    pub node: usize,
    pub edges: Edges,
}

// The node of a change that is refused: the graph has no such node.
#[derive(Clone, Copy, PartialEq, Eq, Debug)]
pub struct NoSuchNode(pub usize);

// The run of a node: the edges it has yet to follow, and whether the goal was reached so far.
#[derive(Clone, Copy, PartialEq, Eq, Default, Debug)]
pub struct Walk {
    pub left: Edges,
    pub reached: bool,
}
