// The dependence graph of a sheet (`sheet/Sheet.graph_of`). A crate of its own for the check's time.
#![tactic(auto)]

ghost use Rattle.std.specs.Prelude.{◌≡◌, get_or};
ghost use Rattle.sheet.specs.Sheet.{no_type, latencies_of, graph_of};

use dependence::Graph;
use sheet::{Operation, ResourceType, Sheet};
use sizes::{MOST_OPERATIONS, MOST_TYPES};

// The latency of a type; a type that the sheet has no entry for has none.
fn latency_of(types: [ResourceType; MOST_TYPES], resource: usize) -> usize
    ensures { result ≡ (get_or types resource no_type).latency }
{
    if MOST_TYPES <= resource {
        return 0;
    }
    let found = types[resource];
    found.latency
}

fn latencies(
    types: [ResourceType; MOST_TYPES],
    ops: [Operation; MOST_OPERATIONS],
) -> [usize; MOST_OPERATIONS]
    ensures { result ≡ latencies_of types ops }
{
    let mut out = [0usize; MOST_OPERATIONS];
    let mut i: usize = 0;
    while i < MOST_OPERATIONS {
        let op = ops[i];
        out[i] = latency_of(types, op.resource);
        i += 1;
    }
    out
}

// The sheet's dependence graph.
pub fn graph_of(sheet: Sheet) -> Graph
    ensures { result ≡ graph_of sheet }
{
    let types = sheet.types;
    let ops = sheet.ops;
    let edges = sheet.edges;
    let latency = latencies(types, ops);
    Graph {
        ops: sheet.op_count,
        latency,
        edge_count: sheet.edge_count,
        edges,
    }
}
