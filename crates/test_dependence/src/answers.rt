// The answers about one sheet's dependences and its two bounds, at some intervals: by `timing` and `plan`, and where
// those have no such function (totals, lags) by `dependence` on the sheet's graph.
use crate::print;
use dependence::Graph;
use sheet::Sheet;
use sizes::{MOST_EDGES, MOST_OPERATIONS};
use std::io;

const HOW_MANY: usize = 9;

// Intervals out of range at both ends, and some within.
const INTERVALS: [usize; HOW_MANY] = [0, 1, 2, 3, 4, 5, 6, 64, 65];

fn total(rt: &impl Print, answer: usize, value: i32) -> io::Result<()> {
    test_print::number(rt, answer)?;
    test_print::text(rt, b",")?;
    print::signed(rt, value)
}

// The answer of a graph with an edge too many, and its first total.
fn too_many(rt: &impl Print, graph: Graph, interval: usize) -> io::Result<()> {
    let mut over = graph;
    over.edge_count = MOST_EDGES + 1;
    let t = dependence::totals(over, interval);
    let values = t.values;
    total(rt, t.answer, values[0])
}

// The answer and the total of each edge. The sheet's cap plays no part in them.
fn totals(rt: &impl Print, graph: Graph, interval: usize) -> io::Result<()> {
    test_print::text(rt, b"totals=")?;
    let t = dependence::totals(graph, interval);
    let values = t.values;
    for k in 0..MOST_EDGES {
        if k < graph.edge_count {
            total(rt, t.answer, values[k])?;
            test_print::text(rt, b",")?;
        }
    }
    too_many(rt, graph, interval)?;
    test_print::text(rt, b"\n")
}

fn rows(
    rt: &impl Print,
    key: &[u8],
    table: [[i32; MOST_OPERATIONS]; MOST_OPERATIONS],
    count: usize,
) -> io::Result<()> {
    for i in 0..MOST_OPERATIONS {
        if i < count {
            print::row(rt, key, table[i], count)?;
        }
    }
    Ok(())
}

fn starts(rt: &impl Print, sheet: Sheet, interval: usize) -> io::Result<()> {
    let e = timing::earliest_starts(sheet, interval);
    if e.answer == 0 {
        let entries = e.starts;
        print::list(rt, b"earliest=", 0, entries, sheet.op_count)?;
    } else {
        let edges = e.loop_edges;
        print::list(rt, b"earliest=", e.answer, edges, e.loop_length)?;
    }
    Ok(())
}

fn at_interval(rt: &impl Print, sheet: Sheet, interval: usize) -> io::Result<()> {
    test_print::line(rt, b"interval=", interval)?;
    let graph = sheet_graph::graph_of(sheet);
    totals(rt, graph, interval)?;
    let w = timing::bad_walk(sheet, interval);
    let edges = w.loop_edges;
    print::list(rt, b"walk=", w.answer, edges, w.loop_length)?;
    starts(rt, sheet, interval)?;
    if w.answer == 0 {
        rows(
            rt,
            b"separation=",
            timing::separations(sheet, interval),
            sheet.op_count,
        )?;
        rows(rt, b"lag=", lags::lags(graph, interval), sheet.op_count)?;
    }
    Ok(())
}

fn all_intervals(rt: &impl Print, sheet: Sheet) -> io::Result<()> {
    for i in 0..HOW_MANY {
        at_interval(rt, sheet, INTERVALS[i])?;
    }
    Ok(())
}

fn bounds(rt: &impl Print, sheet: Sheet) -> io::Result<()> {
    let recurrence = timing::recurrence_bound(sheet);
    test_print::pair(rt, b"recurrence=", recurrence.answer, recurrence.value)?;
    let resource = plan::resource_bound(sheet);
    test_print::pair(rt, b"resource=", resource.answer, resource.value)
}

// The answer of reading the sheet and those about what was read: a refused sheet is all 0, and so out of range.
pub fn sheet(rt: &impl Print, bytes: &[u8]) -> io::Result<()> {
    let read = reader::read(bytes);
    test_print::line(rt, b"answer=", read.answer)?;
    let s = read.sheet;
    bounds(rt, s)?;
    all_intervals(rt, s)
}
