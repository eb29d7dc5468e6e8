//! Edges of a further file, behind those of an edges file. No statement names such a file yet.

use crate::tests::places::edges_text;
use crate::tests::small_graphs::{FOUR_EDGES, FOUR_NODES, graph_of};
use graph_loader::{LoadFault, extend};
use graph_model::Graph;
use std::alloc::Global;
use std::fmt::Write;
use std::test::Fail;
use surge_outside::NoMemory;

// An edges file between four nodes, a further one, which statement 5 names, and what the graph has then: the edges, each by the
// numbers of its ends, with its cells. A fault of the further file stands before them. A ~ is the byte FF.
const FILES: [[&str; 3]; 28] = [
    // Files that are taken.
    ["src,dst\n1,2\n", "src,dst\n3,1\n2,2\n", "0>1 2>0 1>1 "],
    ["src,dst\n", "src,dst\n3,1\n", "2>0 "],
    ["src,dst\n1,2\n", "src,dst\n", "0>1 "],
    ["src,dst\n1,2\n", "\"src\",dst\r\n\n04,1\r\n", "0>1 3>0 "],
    [
        "src,dst,y:int,s:str,b:bool\n1,2,1,x,true\n",
        "src,dst,y:int,s:str,b:bool\n4,1,-9,\"a,b\",\n3,3,,,False\n",
        "0>1 Int(1) Str(\"x\") Bool(true) 3>0 Int(-9) Str(\"a,b\") Absent 2>2 Absent Str(\"\") Bool(false) ",
    ],
    [
        "src,dst,\"a,b:c:int\"\n1,2,1\n",
        "src,dst,\"a,b:c:int\"\n2,1,2\n",
        "0>1 Int(1) 1>0 Int(2) ",
    ],
    [
        "src,dst,n:int,s:str,b:bool\n1,2,,x,\n3,3,0,y,false\n2,1,8,,true\n",
        "src,dst,n:int,s:str,b:bool\n1,2,5,a,true\n3,3,,,\n2,1,-3,c d,false\n",
        concat!(
            "0>1 Absent Str(\"x\") Absent 2>2 Int(0) Str(\"y\") Bool(false) 1>0 Int(8) Str(\"\") Bool(true) ",
            "0>1 Int(5) Str(\"a\") Bool(true) 2>2 Absent Str(\"\") Absent 1>0 Int(-3) Str(\"c d\") Bool(false) ",
        ),
    ],
    [
        FOUR_EDGES,
        "src,dst,y:int\n4,1,9\n",
        "0>1 Int(1) 1>2 Int(1) 0>2 Int(2) 2>3 Int(3) 3>0 Int(9) ",
    ],
    // No header.
    ["src,dst\n1,2\n", "", "Insert(5) 1 0 NoHeader 0>1 "],
    ["src,dst\n1,2\n", "\n\r\n", "Insert(5) 1 0 NoHeader 0>1 "],
    // Headers that differ.
    [
        "src,dst\n1,2\n",
        "dst,src\n",
        "Insert(5) 1 1 BadHeader 0>1 ",
    ],
    [
        "src,dst\n1,2\n",
        "src,Dst\nx\n",
        "Insert(5) 1 2 BadHeader 0>1 ",
    ],
    ["src,dst\n1,2\n", "~,dst\n", "Insert(5) 1 1 BadHeader 0>1 "],
    [
        "src,dst,y:int\n",
        "src,dst,z:int\n",
        "Insert(5) 1 3 BadHeader ",
    ],
    [
        "src,dst,y:int\n",
        "src,dst,y:str\n",
        "Insert(5) 1 3 BadHeader ",
    ],
    [
        "src,dst,y:int\n",
        "src,dst,~:int\n",
        "Insert(5) 1 3 BadHeader ",
    ],
    [
        "src,dst,y:int,z:int\n",
        "src,dst,z:int,y:int\n",
        "Insert(5) 1 3 BadHeader ",
    ],
    [
        "src,dst,y:int,z:int\n",
        "src,dst,y:int,y:int,w:int\n",
        "Insert(5) 1 4 BadHeader ",
    ],
    // Headers that lack a column, or have one too many, whatever stands in it.
    ["src,dst\n1,2\n", "src\n", "Insert(5) 1 2 BadHeader 0>1 "],
    ["src,dst,y:int\n", "src,dst\n", "Insert(5) 1 3 BadHeader "],
    [
        "src,dst\n1,2\n",
        "src,dst,y:int\n",
        "Insert(5) 1 3 BadHeader 0>1 ",
    ],
    [
        "src,dst\n1,2\n",
        "src,dst,~\n",
        "Insert(5) 1 3 BadHeader 0>1 ",
    ],
    [
        "src,dst,a:int,b:int,c:int,d:int,e:int,f:int,g:int,h:int,i:int,j:int,k:int,l:int,m:int,n:int,o:int,p:int\n",
        "src,dst,a:int,b:int,c:int,d:int,e:int,f:int,g:int,h:int,i:int,j:int,k:int,l:int,m:int,n:int,o:int,p:int,q:int\n",
        "Insert(5) 1 19 BadHeader ",
    ],
    // Records: each counts from the top of its file, and behind a fault none is added.
    [
        "src,dst\n1,2\n2,3\n",
        "src,dst\n1,9\n",
        "Insert(5) 2 2 UnknownNode 0>1 1>2 ",
    ],
    [
        "src,dst\n1,2\n",
        "src,dst\n3,1\n0,1\nx,1\n",
        "Insert(5) 3 1 UnknownNode 0>1 ",
    ],
    [
        "src,dst\n1,2\n",
        "src,dst\n3,1\n1\n",
        "Insert(5) 3 0 WrongWidth 0>1 ",
    ],
    [
        "src,dst,y:int\n1,2,3\n",
        "src,dst,y:int\n3,1,4\n3,1,x\n",
        "Insert(5) 3 3 BadCell 0>1 Int(3) ",
    ],
    [
        "src,dst,s:str\n",
        "src,dst,s:str\n3,1,~\n",
        "Insert(5) 2 3 NotUtf8 ",
    ],
];

// The bytes of a text of the table.
fn bytes_of(alloc: Global, text: &str) -> Result<Vec<u8>, NoMemory> {
    let mut bytes = Vec::new(alloc);
    for byte in text.as_bytes() {
        bytes.push(if *byte == b'~' { 0xFF } else { *byte })?;
    }
    Ok(bytes)
}

// The first fault of a further file, or nothing. Nothing is said of the graph, so that no proof reads the file.
fn fault_of(alloc: Global, graph: &mut Graph, more: &[u8]) -> Result<String, Fail> {
    let text = match extend(alloc, graph, more, 5) {
        Ok(()) => String::new(alloc),
        Err(LoadFault::Fault(f)) => {
            format!(in alloc; "{:?} {} {} {:?} ", f.file, f.row, f.column, f.kind)?
        }
        Err(LoadFault::NoMemory) => return Err(NoMemory.into()),
    };
    Ok(text)
}

// What a further file makes of a graph.
fn extended_over(alloc: Global, graph: &mut Graph, more: &[u8]) -> Result<String, Fail> {
    let mut text = fault_of(alloc, graph, more)?;
    text.push_str(edges_text(alloc, graph)?.as_str())?;
    Ok(text)
}

// What it makes of the graph of an edges file.
fn extended(alloc: Global, edges: &str, more: &[u8]) -> Result<String, Fail> {
    let mut graph = graph_of(alloc, FOUR_NODES, edges)?;
    extended_over(alloc, &mut graph, more)
}

// The same of a text of the table.
fn extended_by(alloc: Global, edges: &str, more: &str) -> Result<String, Fail> {
    let more = bytes_of(alloc, more)?;
    extended(alloc, edges, more.as_slice())
}

// The place of the first row that isn't so.
fn first_wrong(alloc: Global, rows: &[[&str; 3]]) -> Result<Option<usize>, Fail> {
    for (place, [edges, more, wanted]) in rows.iter().enumerate() {
        if extended_by(alloc, edges, more)?.as_str() != *wanted {
            return Ok(Some(place));
        }
    }
    Ok(None)
}

#[test]
fn further_files_add_edges_or_nothing(rt: HostRuntime) -> Result<(), Fail> {
    assert_eq!(rt; first_wrong(rt.alloc(), &FILES)?, None);
    Ok(())
}

// A file of so many edges from the first node to itself.
fn loops(alloc: Global, count: u32) -> Result<String, Fail> {
    let mut text = String::from_str(alloc, "src,dst\n")?;
    for _ in 0..count {
        text.push_str("1,1\n")?;
    }
    Ok(text)
}

// The graph of that file.
fn graph_of_loops(alloc: Global, count: u32) -> Result<Graph, Fail> {
    let edges = loops(alloc, count)?;
    graph_of(alloc, "id\n1\n", edges.as_str())
}

// The fault of a further file of so many edges, and how many edges the graph has then.
fn counted(alloc: Global, graph: &mut Graph, count: u32) -> Result<String, Fail> {
    let more = loops(alloc, count)?;
    let mut text = fault_of(alloc, graph, more.as_bytes())?;
    write!(text, "{};", graph.edge_count())?;
    Ok(text)
}

// The same of several files, one behind the other.
fn counted_in_turn(alloc: Global, graph: &mut Graph, counts: &[u32]) -> Result<String, Fail> {
    let mut text = String::new(alloc);
    for count in counts {
        text.push_str(counted(alloc, graph, *count)?.as_str())?;
    }
    Ok(text)
}

// The same of a graph that may have two edges more.
fn counted_at_the_limit(alloc: Global, counts: &[u32]) -> Result<String, Fail> {
    let mut graph = graph_of_loops(alloc, 3_999_998)?;
    counted_in_turn(alloc, &mut graph, counts)
}

const AT_THE_LIMIT: &str = concat!(
    "Insert(5) 4 0 TooManyEdges 3999998;",
    "4000000;",
    "4000000;",
    "Insert(5) 2 0 TooManyEdges 4000000;",
);

#[test]
fn edges_that_are_there_count_for_the_limit(rt: HostRuntime) -> Result<(), Fail> {
    let found = counted_at_the_limit(rt.alloc(), &[3, 2, 0, 1])?;
    assert_eq!(rt; found.as_str(), AT_THE_LIMIT);
    Ok(())
}
