// Reachability as a set of equations: the goal is reached from a node that is the goal, or from which an edge leads to one that reaches it.
ghost use Rattle.std.specs.Prelude.{◌≡◌, ◌&&◌};
ghost use Rattle.equations.specs.Plans.{planned, play};
ghost use Rattle.toys.specs.Reach.{plan, rest, edge, refusal, touched, Changed};
ghost use Rattle.toys.specs.Reaching;
ghost use Rattle.std.proofs.Common.{rules};

use super::flag::Flag;
use super::graph::{Change, Edges, Graph, NODES, NoSuchNode, Walk};
use equations::Move;
use equations::sets::Equations;

impl Edges {
    // The edges that lead to a node.
    fn inside(self) -> Edges
        ensures first { result.first ≡ edge self.first }
        ensures second { result.second ≡ edge self.second }
    {
        Edges {
            first: self.first.filter(|node| *node < NODES),
            second: self.second.filter(|node| *node < NODES),
        }
    }
}

impl Equations for Graph {
    type Value = Flag;

    type Run = Walk;

    type Change = Change;

    type Fault = NoSuchNode;

    ghost meaning = { λ g. planned 8 (plan g) };

    ghost stands = { λ g run x given. play (plan g x) given ≡ rest run };

    ghost refusal = { λ g change. refusal change.node };

    ghost touched = { λ g change x. touched change.node x };

    ghost changed = { λ g change after. Changed g change.node change.edges after };

    ghost lawful = { Reaching.lawful };

    ghost small = { Prim.search rules };

    ghost harmless = { Prim.search rules };

    fn count(&self) -> usize {
        NODES
    }

    fn begin(&self, x: usize) -> Walk {
        match self.edges.get(x) {
            Some(edges) => Walk {
                left: edges.inside(),
                reached: x == self.goal,
            },
            None => Walk::default(),
        }
    }

    fn next(&self, run: &mut Walk) -> Move<Flag> {
        match run.left.first.or(run.left.second) {
            Some(y) => Move::Ask(y),
            None => Move::Answer(Flag { up: run.reached }),
        }
    }

    // by lemmas alone, so that the proof names no branch of this body
    #[tactic(auto, using(crate::specs::Reaching::given_first, crate::specs::Reaching::given_second, crate::specs::Reaching::given_more))]
    fn give(&self, run: &mut Walk, value: Flag) {
        if run.left.first.take().is_some() || run.left.second.take().is_some() {
            run.reached |= value.up;
        }
    }

    fn touches(&self, change: Change, x: usize) -> bool {
        change.node < NODES && x == change.node
    }

    fn edit(&mut self, change: Change) -> Result<(), NoSuchNode> {
        if change.node >= NODES {
            return Err(NoSuchNode(change.node));
        }
        self.edges[change.node] = change.edges;
        Ok(())
    }
}
