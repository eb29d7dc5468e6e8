//! The sample: a graph and a script that a number fixes, for a first try and for measuring.
//!
//! It stands on a stream of numbers that a seed fixes (`draws`). It offers the bytes of two data files and of a script over them:
//! a graph of 2,000 nodes and 10,000 edges with weights and times, sixteen windows in time, and a run of least weights on
//! them. Its model is `specs/Sample.antt`: the texts as functions of the number. It promises exactly these bytes.
#![tactic(auto)]

ghost use Rattle.std.specs.Prelude.{◌≡◌, ◌<◌, ◌≤◌, ◌+◌, ◌++◌, [], ◌∷◌, IfOk, OnOk, drop};
ghost use Rattle.std.specs.Fmt.{decimal};
ghost use Rattle.sample_data.specs.Sample.{nodes_text, edges_text, script_text, ids_from, edge_drawn, edges_drawn, edge_line, state_after};

use draws::Draws;
use std::alloc::Global;
use surge_outside::NoMemory;

const NODES: u32 = 2_000;

const EDGES: u32 = 10_000;

const WEIGHTS: u32 = 9;

const TIMES: u32 = 160;

// The longest line of the nodes file, and of the edges file.
const NODE_LINE: usize = 5;

const EDGE_LINE: usize = 16;

// Room for any four numbers, and a byte behind each.
const LINE_ROOM: usize = 44;

/// The nodes file, the same in each sample: ids 1 to 2,000. The error is want of memory.
pub fn nodes(alloc: Global) -> Result<Vec<u8>, NoMemory>
    ensures { IfOk result (λ bytes. bytes.items ≡ nodes_text) }
{
    let mut text = Vec::with_capacity(alloc, (NODES as usize + 1) * NODE_LINE)?;
    text.extend_from_slice(b"id\n")?;
    push_ids(&mut text)?;
    Ok(text)
}

// Adds a line for each id.
fn push_ids(text: &mut Vec<u8>) -> Result<(), NoMemory>
    ensures { OnOk result (text.new.items ≡ text.old.items ++ ids_from 1 2_000) }
{
    let mut left = NODES;
    while left > 0 {
        push_field(text, NODES + 1 - left, b'\n')?;
        left -= 1;
    }
    Ok(())
}

// Adds the digits of a number, and the byte behind them.
fn push_field(text: &mut Vec<u8>, number: u32, end: u8) -> Result<(), NoMemory>
    ensures { OnOk result (text.new.items ≡ text.old.items ++ (decimal number ++ end ∷ [])) }
{
    let mut room = [0u8; LINE_ROOM];
    let start = lay_field(&mut room, LINE_ROOM, number, end);
    text.extend_from_slice(&room[start..])?;
    Ok(())
}

// Lays the digits of a number, and the byte behind them, out before a place of the room, and tells where they begin.
#[tactic(auto, using(crate::proofs::Digits::digits))]
fn lay_field(room: &mut [u8; LINE_ROOM], place: usize, number: u32, end: u8) -> usize
    requires space { 11 ≤ place }
    requires within { place ≤ 44 }
    ensures before { result < place }
    ensures near { place ≤ result + 11 }
    ensures field { drop result room.new ≡ decimal number ++ end ∷ drop place room.old }
{
    let mut start = place - 1;
    room[start] = end;
    let mut rest = number;
    while rest >= 10 {
        start -= 1;
        room[start] = b'0' + (rest % 10) as u8;
        rest /= 10;
    }
    start -= 1;
    room[start] = b'0' + rest as u8;
    start
}

/// The edges file of the sample with this number: 10,000 edges with a weight from 1 to 9 and a time below 160. The error is
/// want of memory.
pub fn edges(alloc: Global, number: u64) -> Result<Vec<u8>, NoMemory>
    ensures { IfOk result (λ bytes. bytes.items ≡ edges_text number) }
{
    let mut text = Vec::with_capacity(alloc, (EDGES as usize + 1) * EDGE_LINE)?;
    text.extend_from_slice(b"src,dst,w:int,t:int\n")?;
    push_edges(&mut text, Draws::new(number))?;
    Ok(text)
}

// Adds all edges.
fn push_edges(text: &mut Vec<u8>, draws: Draws) -> Result<(), NoMemory>
    ensures { OnOk result (text.new.items ≡ text.old.items ++ edges_drawn 10_000 draws.state) }
{
    let mut draws = draws;
    let mut left = EDGES;
    while left > 0 {
        push_edge(text, &mut draws)?;
        left -= 1;
    }
    Ok(())
}

fn push_edge(text: &mut Vec<u8>, draws: &mut Draws) -> Result<(), NoMemory>
    ensures text { OnOk result (text.new.items ≡ text.old.items ++ edge_drawn draws.old.state) }
    ensures state { draws.new.state ≡ state_after 4 draws.old.state }
{
    let source = 1 + draws.draw(NODES);
    let destination = 1 + draws.draw(NODES);
    let weight = 1 + draws.draw(WEIGHTS);
    let time = draws.draw(TIMES);
    push_line(text, source, destination, weight, time)
}

fn push_line(
    text: &mut Vec<u8>,
    source: u32,
    destination: u32,
    weight: u32,
    time: u32,
) -> Result<(), NoMemory>
    ensures { OnOk result (text.new.items ≡ text.old.items ++ edge_line source destination weight time) }
{
    let mut room = [0u8; LINE_ROOM];
    let start = lay_field(&mut room, LINE_ROOM, time, b'\n');
    let start = lay_field(&mut room, start, weight, b',');
    let start = lay_field(&mut room, start, destination, b',');
    let start = lay_field(&mut room, start, source, b',');
    text.extend_from_slice(&room[start..])?;
    Ok(())
}

/// The script of each sample. The error is want of memory.
pub fn script(alloc: Global) -> Result<Vec<u8>, NoMemory>
    ensures { IfOk result (λ bytes. bytes.items ≡ script_text) }
{
    Ok(Vec::from_slice(
        alloc,
        b"load graph S nodes 'nodes.csv' edges 'edges.csv';\ncreate view collection W on S [w: window t from 0 to 150 width 40 step 10];\nrun dist(1, w) on W within 2000 rounds split auto;\n",
    )?)
}
