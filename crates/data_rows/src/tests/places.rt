//! The numbers of nodes, edges and columns, which no output shows: each is its place in its file. What the program shows of
//! the files that it loads stands in tests/files.

ghost use Rattle.std.specs.Prelude.{◌<◌, length};

use crate::tests::small_graphs::{FOUR_EDGES, FOUR_NODES, graph_of};
use graph_model::{EdgeNo, Graph, NodeNo};
use std::alloc::{AllocError, Global};
use std::fmt::Write;
use std::test::Fail;

// Two files, and what they load as: of the nodes the columns, which one has each id from 0 to 11, or - where none has it, and
// then of each its id, the node that is found by this id, its cells, and which node stands at its place by rising id; of the
// edges the columns, and then of each its ends and its cells.
const FILES: [[&str; 3]; 5] = [
    // Ids that neither rise nor fall, and edges whose ends don't either.
    [
        "id\n7\n100\n0\n4\n",
        "src,dst\n0,7\n100,4\n7,100\n4,0\n",
        "[] 2---3--0---- 7=0;2 100=1;3 0=2;0 4=3;1 / [] 2>0 1>3 0>1 3>2 ",
    ],
    [
        FOUR_NODES,
        FOUR_EDGES,
        concat!(
            "[] -0123------- 1=0;0 2=1;1 3=2;2 4=3;3 / [Column { name: Text { text: \"y\" }, kind: Int }] ",
            "0>1 Int(1) 1>2 Int(1) 0>2 Int(2) 2>3 Int(3) ",
        ),
    ],
    // The last node has the middle id, and nodes and edges have a column of each kind.
    [
        "id,n:int,s:str,b:bool\n10,5,a,true\n2,,,\n7,-3,c d,false\n",
        "src,dst,n:int,s:str,b:bool\n10,2,,x,\n7,7,0,y,false\n2,10,8,,true\n",
        concat!(
            "[Column { name: Text { text: \"n\" }, kind: Int }, Column { name: Text { text: \"s\" }, kind: Str }, ",
            "Column { name: Text { text: \"b\" }, kind: Bool }] --1----2--0- ",
            "10=0 Int(5) Str(\"a\") Bool(true);1 2=1 Absent Str(\"\") Absent;2 7=2 Int(-3) Str(\"c d\") Bool(false);0 / ",
            "[Column { name: Text { text: \"n\" }, kind: Int }, Column { name: Text { text: \"s\" }, kind: Str }, ",
            "Column { name: Text { text: \"b\" }, kind: Bool }] ",
            "0>1 Absent Str(\"x\") Absent 2>2 Int(0) Str(\"y\") Bool(false) 1>0 Int(8) Str(\"\") Bool(true) ",
        ),
    ],
    // Columns of each kind.
    [
        "id,city:str,vip:bool\r\n10,Los Angeles,true\r\n20,\"San Jose, CA\",false\r\n30,Reno,\r\n40,,True\r\n",
        "src,dst,duration:int,year:int\r\n10,20,7,2010\r\n20,30,12,\r\n",
        concat!(
            "[Column { name: Text { text: \"city\" }, kind: Str }, Column { name: Text { text: \"vip\" }, kind: Bool }] ",
            "----------0- 10=0 Str(\"Los Angeles\") Bool(true);0 20=1 Str(\"San Jose, CA\") Bool(false);1 ",
            "30=2 Str(\"Reno\") Absent;2 40=3 Str(\"\") Bool(true);3 / ",
            "[Column { name: Text { text: \"duration\" }, kind: Int }, Column { name: Text { text: \"year\" }, kind: Int }] ",
            "0>1 Int(7) Int(2010) 1>2 Int(12) Absent ",
        ),
    ],
    // A name in quotes, with a comma and a colon.
    [
        "\"id\",\"a,b:c:int\"\n\"1\",\"5\"\n\n2,-0",
        "src,dst,s:str\n1,2,\"say \"\"hi\"\"\"\n",
        concat!(
            "[Column { name: Text { text: \"a,b:c\" }, kind: Int }] -01--------- 1=0 Int(5);0 2=1 Int(0);1 / ",
            "[Column { name: Text { text: \"s\" }, kind: Str }] 0>1 Str(\"say \\\"hi\\\"\") ",
        ),
    ],
];

// The id of a node, the number of the node with this id, and its cells.
fn node_text(alloc: Global, graph: &Graph, n: NodeNo) -> Result<String, AllocError>
    requires { n.0 < length graph.now.ids }
{
    let id = graph.id(n);
    let found = match graph.find(id) {
        Some(node) => node.0,
        None => u32::MAX,
    };
    let mut text = format!(in alloc; "{id}={found}")?;
    for column in 0..graph.node_columns().len() {
        write!(text, " {:?}", graph.node_cell(n, column))?;
    }
    Ok(text)
}

// The same of each node, with the number of the node at its place by rising id.
fn nodes_text(alloc: Global, graph: &Graph) -> Result<String, AllocError> {
    let mut text = String::new(alloc);
    for n in 0..graph.node_count() {
        text.push_str(node_text(alloc, graph, NodeNo(n))?.as_str())?;
        write!(text, ";{} ", graph.by_id(n).0)?;
    }
    Ok(text)
}

// The nodes with the ids from 0 on.
fn found_text(alloc: Global, graph: &Graph) -> Result<String, AllocError> {
    let mut text = String::new(alloc);
    for id in 0..12 {
        match graph.find(id) {
            Some(n) => write!(text, "{}", n.0)?,
            None => text.push_str("-")?,
        }
    }
    text.push_str(" ")?;
    Ok(text)
}

// The columns of the nodes, which nodes are found, and then the nodes.
fn all_of_nodes(alloc: Global, graph: &Graph) -> Result<String, AllocError> {
    let mut text = format!(in alloc; "{:?} ", graph.node_columns().as_slice())?;
    text.push_str(found_text(alloc, graph)?.as_str())?;
    text.push_str(nodes_text(alloc, graph)?.as_str())?;
    Ok(text)
}

// The numbers of an edge's ends, and its cells.
fn edge_text(alloc: Global, graph: &Graph, e: EdgeNo) -> Result<String, AllocError>
    requires { e.0 < length graph.now.ends }
{
    let mut text = format!(in alloc; "{}>{}", graph.src(e).0, graph.dst(e).0)?;
    for column in 0..graph.edge_columns().len() {
        write!(text, " {:?}", graph.edge_cell(e, column))?;
    }
    text.push_str(" ")?;
    Ok(text)
}

/// The edges, each by the numbers of its ends, with its cells.
pub(crate) fn edges_text(alloc: Global, graph: &Graph) -> Result<String, Fail> {
    let mut text = String::new(alloc);
    for e in 0..graph.edge_count() {
        text.push_str(edge_text(alloc, graph, EdgeNo(e))?.as_str())?;
    }
    Ok(text)
}

fn graph_text(alloc: Global, graph: &Graph) -> Result<String, Fail> {
    let mut text = all_of_nodes(alloc, graph)?;
    write!(text, "/ {:?} ", graph.edge_columns().as_slice())?;
    text.push_str(edges_text(alloc, graph)?.as_str())?;
    Ok(text)
}

// What two files load as.
fn loaded(alloc: Global, nodes: &str, edges: &str) -> Result<String, Fail> {
    let graph = graph_of(alloc, nodes, edges)?;
    graph_text(alloc, &graph)
}

// The place of the first row that isn't so.
fn first_wrong(alloc: Global, rows: &[[&str; 3]]) -> Result<Option<usize>, Fail> {
    for (place, [nodes, edges, wanted]) in rows.iter().enumerate() {
        if loaded(alloc, nodes, edges)?.as_str() != *wanted {
            return Ok(Some(place));
        }
    }
    Ok(None)
}

#[test]
fn numbers_are_places_in_the_files(rt: HostRuntime) -> Result<(), Fail> {
    assert_eq!(rt; first_wrong(rt.alloc(), &FILES)?, None);
    Ok(())
}
