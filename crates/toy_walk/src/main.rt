// Prints the runs of a few nodes of a graph move by move, what an edit makes of them, and two levels joined.
#![tactic(auto)]

use equations::Move;
use equations::evaluation::evaluate;
use equations::sets::Equations;
use equations::theorems::values_are_least;
use lattice::Lattice;
use std::io;
use toys::flag::Flag;
use toys::graph::{Change, Edges, Graph, NODES, NoSuchNode};
use toys::level::Level;

// The value stated for an unknown: down for one that is not on the list, as a list of values is read when a right-hand side is worked out.
fn stated(values: &[Flag], y: usize) -> Flag {
    values.get(y).copied().unwrap_or(Flag::bottom())
}

// Prints the run of a node, over these values.
fn show(rt: HostRuntime, graph: &Graph, x: usize, values: &[Flag]) -> io::Result<()> {
    println!(rt; "run of {x}")?;
    let mut run = graph.begin(x);
    // A node asks for at most two others, then answers.
    for _ in 0..3 {
        match graph.next(&mut run) {
            Move::Ask(y) => {
                let value = stated(values, y);
                println!(rt; "ask {y}, given {}", value.up)?;
                graph.give(&mut run, value);
            }
            Move::Answer(value) => return println!(rt; "answer {}", value.up),
        }
    }
    Ok(())
}

// Prints the right-hand side of a node, over these values.
fn show_value(rt: HostRuntime, graph: &Graph, x: usize, values: &[Flag]) -> io::Result<()> {
    match evaluate(graph, x, values) {
        Some((value, asks)) => println!(rt; "{x} is {} after {asks} asks", value.up),
        None => println!(rt; "{x} is no unknown"),
    }
}

// Makes a change, and prints what came of it.
fn show_edit(rt: HostRuntime, graph: &mut Graph, change: Change) -> io::Result<()> {
    match graph.edit(change) {
        Ok(()) => println!(rt; "edited {}", change.node),
        Err(NoSuchNode(node)) => println!(rt; "refused {node}"),
    }
}

// Prints two levels, their join and their order.
fn show_levels(rt: HostRuntime, low: Level, high: Level) -> io::Result<()> {
    println!(rt;
        "rank {} and {}, joined {}",
        low.rank(),
        high.rank(),
        low.join(high).rank()
    )?;
    println!(rt;
        "below {} and {}",
        low.at_or_below(high),
        high.at_or_below(low)
    )
}

// 0 leads to 1 and 2, 1 to 3, 2 back to 0; 3 is the goal.
fn small_graph() -> Graph {
    let mut edges = [Edges::default(); NODES];
    edges[0] = Edges {
        first: Some(1),
        second: Some(2),
    };
    edges[1].first = Some(3);
    edges[2].first = Some(0);
    Graph { edges, goal: 3 }
}

fn main(rt: HostRuntime) -> io::Result<()> {
    let mut graph = small_graph();
    let down = Flag { up: false };
    let up = Flag { up: true };
    values_are_least::<Flag, Graph>();
    show(rt, &graph, 0, &[down, down, up, down])?;
    show(rt, &graph, 1, &[down, down, down, down])?;
    show(rt, &graph, 3, &[down, down, down, down])?;
    show_value(rt, &graph, 0, &[down, down, up])?;
    show_value(rt, &graph, 8, &[down, down, up])?;
    // The edge to 8 leads nowhere.
    let change = Change {
        node: 1,
        edges: Edges {
            first: Some(8),
            second: Some(2),
        },
    };
    println!(rt;
        "touches 1 {}, touches 0 {}",
        graph.touches(change, 1),
        graph.touches(change, 0)
    )?;
    show_edit(rt, &mut graph, change)?;
    show(rt, &graph, 1, &[down, down, up, down])?;
    show_edit(
        rt,
        &mut graph,
        Change {
            node: 9,
            edges: Edges {
                first: Some(0),
                second: Some(0),
            },
        },
    )?;
    show_levels(rt, Level::new(3), Level::new(200))
}
