//! The lines of a table.

ghost use Rattle.std.specs.Prelude.{◌≡◌, ◌++◌, ◌+◌, ◌*◌, ◌≤◌, length, drop, OnOk};
ghost use Rattle.result_tables.specs.TableText.{value_text, value_line, node_lines, lines_between};

use crate::digits::{lay_digits, lay_signed};
use graph_model::{Graph, Val};
use surge_outside::NoMemory;

// Lays a value out before a place, and tells where it begins.
fn lay_value(room: &mut [u8], end: usize, value: Val) -> usize
    requires long { 21 ≤ end }
    requires in_room { end ≤ length room.old }
    ensures size { length room.new ≡ length room.old }
    ensures within { result ≤ end }
    ensures far { end ≤ result + 21 }
    ensures text { drop result room.new ≡ value_text value ++ drop end room.old }
{
    match value {
        Val::Nil => {
            room[end - 1] = b'-';
            end - 1
        }
        Val::Num(number) => lay_signed(room, end, number),
    }
}

// Lays the line of a node with this id and value out before a place, and tells where it begins: at most 43 bytes before it,
// for 20 digits, a comma, a sign, 20 digits and the byte that ends a line.
fn lay_line(room: &mut [u8], end: usize, id: u64, value: Val) -> usize
    requires long { 43 ≤ end }
    requires in_room { end ≤ length room.old }
    ensures size { length room.new ≡ length room.old }
    ensures within { result ≤ end }
    ensures far { end ≤ result + 43 }
    ensures line { drop result room.new ≡ value_line id value ++ drop end room.old }
{
    room[end - 1] = b'\n';
    let comma = lay_value(room, end - 1, value) - 1;
    room[comma] = b',';
    lay_digits(room, comma, id)
}

// Lays out, at the end of a room, the lines of the nodes from one place by rising id up to another, the last line first, and
// tells where they begin. What the room held before does not matter.
fn lay_lines(room: &mut [u8], graph: &Graph, values: &[Val], from: u32, upto: u32) -> usize
    requires values { length values.now ≡ length graph.now.ids }
    requires order { from ≤ upto }
    requires upto { upto ≤ length graph.now.ids }
    requires in_room { 43 * upto ≤ length room.old + 43 * from }
    ensures size { length room.new ≡ length room.old }
    ensures within { result ≤ length room.old }
    ensures lines { drop result room.new ≡ lines_between graph.now values.now from upto }
{
    let _nodes = graph.node_count();
    let mut start = room.len();
    for place in (from..upto).rev() {
        let node = graph.by_id(place);
        start = lay_line(room, start, graph.id(node), values[node.0 as usize]);
    }
    start
}

/// Adds the line of each node by rising id. Room for lines of 16 bytes is made at once. Up to 64 lines are laid out in one room, which is used again, and join the text
/// at once: a room and a copy for each line would take about a fifth more time.
pub(crate) fn push_values(text: &mut Vec<u8>, graph: &Graph, values: &[Val]) -> Result<(), NoMemory>
    requires { length values.now ≡ length graph.now.ids }
    ensures { OnOk result (text.new.items ≡ text.old.items ++ node_lines graph.now values.now) }
{
    let mut room = [b'\n'; 2_752];
    let count = graph.node_count();
    text.reserve(16 * count as usize)?;
    let mut done = 0;
    while done < count {
        let upto = count.min(done + 64);
        let start = lay_lines(&mut room, graph, values, done, upto);
        text.extend_from_slice(&room[start..])?;
        done = upto;
    }
    Ok(())
}
