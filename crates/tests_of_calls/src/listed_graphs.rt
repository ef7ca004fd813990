//! The listing of a graph that is made by hand.
use dependence_graph::graphs::{Dep, Dropped, Edge, Graph, Hold, HoldReason, Place};
use f77_read::read77;
use find_nests::{Found, find_nests};
use listing::graphs::lines;
use nest::Nest;
use normal_loops::normalise;
use std::alloc::Global;
use std::test::Fail;
use subscripts::{Dir, Dirs, Point, Test};
use tree::{Line, Name, Program77, Seq, Width};

const DECK: &[u8] =
    b"      INTEGER A(9), B(9)\n      DO 10 I = 1, 9\n      DO 20 J = 1, N\n   20 A(J) = 0\n   \
    10 B(I) = 7\n      END\n";

const WANTED: &[u8] = b"!G NEST 3 LINE 2\n\
    !G LOOP 1 FV_LOOP_1 TRIP 9 IN 0\n\
    !G LOOP 2 FV_LOOP_2 TRIP N IN 1\n\
    !G STMT S1 (1,2) A(FV_LOOP_2) = 0\n\
    !G STMT S2 (1) B(FV_LOOP_1) = 7\n\
    !G EDGE S1.0 S2.2 FLOW A (=) INDEP DELTA ASSUMED\n\
    !G DROP S1.1 S1.0 ANTI A (<,*) DELTA\n\
    !G EDGE S2.0 S2.1 FLOW B (<) 1 STRONG (1) (2)\n\
    !G DROP S2.1 S2.0 ANTI B (<) STRONG\n\
    !G HOLD S1 1 FORM\n";

fn name(text: &[u8]) -> Result<Name, Fail> {
    Ok(Name::read(text).ok_or("name")?)
}

fn dirs(len: u8, first: Dir) -> Dirs {
    let mut at = [Dir::Any; 7];
    at[0] = first;
    Dirs { len, at }
}

fn point(first: i64) -> Point {
    let mut at = [1; 7];
    at[0] = first;
    Point { at }
}

// Statements are counted from 0 here.
fn place(stmt: u32, at: u32) -> Place {
    Place { stmt, at }
}

fn edges(alloc: Global) -> Result<Seq<Edge>, Fail> {
    let mut edges = Seq::new(alloc);
    edges.push(Edge {
        from: place(0, 0),
        to: place(1, 2),
        kind: Dep::Flow,
        array: name(b"A")?,
        dirs: dirs(1, Dir::Eq),
        level: 0,
        test: Test::Delta,
        pair: None,
    })?;
    edges.push(Edge {
        from: place(1, 0),
        to: place(1, 1),
        kind: Dep::Flow,
        array: name(b"B")?,
        dirs: dirs(1, Dir::Lt),
        level: 1,
        test: Test::Strong,
        pair: Some((point(1), point(2))),
    })?;
    Ok(edges)
}

fn dropped(alloc: Global) -> Result<Seq<Dropped>, Fail> {
    let mut dropped = Seq::new(alloc);
    dropped.push(Dropped {
        from: place(0, 1),
        to: place(0, 0),
        kind: Dep::Anti,
        array: name(b"A")?,
        dirs: dirs(2, Dir::Lt),
        test: Test::Delta,
    })?;
    dropped.push(Dropped {
        from: place(1, 1),
        to: place(1, 0),
        kind: Dep::Anti,
        array: name(b"B")?,
        dirs: dirs(1, Dir::Lt),
        test: Test::Strong,
    })?;
    Ok(dropped)
}

fn listed(alloc: Global, nest: &Nest) -> Result<Seq<Line>, Fail> {
    let mut holds = Seq::new(alloc);
    holds.push(Hold {
        stmt: 1,
        level: 1,
        reason: HoldReason::Form,
    })?;
    let graph = Graph {
        stmts: 2,
        edges: edges(alloc)?,
        dropped: dropped(alloc)?,
    };
    Ok(lines(alloc, nest, 3, &graph, &holds, &Seq::new(alloc))?)
}

// The lines of the normal form of a nest, with the graph.
fn listed_normal(alloc: Global, found: &Found) -> Result<Seq<Line>, Fail> {
    let Found::Nest(nest) = found else {
        return Err(Fail::from("a kept loop"));
    };
    if nest.symbols.len() > 1000 {
        return Err(Fail::from("more than 1,000 symbols"));
    }
    match normalise(alloc, nest)? {
        Some(normal) => listed(alloc, &normal),
        None => Err(Fail::from("no normal form")),
    }
}

fn text_of(alloc: Global, program: &Program77) -> Result<Vec<u8>, Fail> {
    if program.decls.len() > 1000 {
        return Err(Fail::from("more than 1,000 names"));
    }
    let all = find_nests(alloc, program)?;
    let lines = listed_normal(alloc, all.get(0).ok_or("no nest")?)?;
    let mut text = Vec::new(alloc);
    for line in lines.as_slice() {
        text.extend_from_slice(line.text.as_slice())?;
        text.push(b'\n')?;
    }
    Ok(text)
}

// Edges and drops stand among one another, by their references.
#[test]
fn lines_of_a_nest(rt: HostRuntime) -> Result<(), Fail> {
    let program = read77(rt.alloc(), DECK, Width::Plain)?;
    let text = text_of(rt.alloc(), &program)?;
    assert_eq!(rt; text.as_slice(), WANTED);
    Ok(())
}
