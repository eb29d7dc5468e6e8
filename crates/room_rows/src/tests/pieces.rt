//! Pieces that are handed to a sink (`surge_outside`), which no contract sees.

ghost use Rattle.std.specs.Prelude.{None, zero};

use std::alloc::AllocError;
use surge_outside::{Sink, Trouble, put_all};

// Takes each piece whole, and keeps how many there were and how long the last one was. It tells nothing of what was written.
#[derive(Drop)]
struct Pieces {
    count: u64,
    last: usize,
}

impl Sink for Pieces {
    ghost written = { λ sink. None };

    ghost faults = { λ sink. zero };

    fn write(&mut self, piece: &[u8]) -> Result<usize, Trouble> {
        self.count = self.count.saturating_add(1);
        self.last = piece.len();
        Ok(piece.len())
    }
}

// How many pieces so many bytes are handed over in, and how long the last one is.
fn pieces_of(bytes: &[u8]) -> Result<(u64, usize), Trouble> {
    let mut sink = Pieces { count: 0, last: 0 };
    put_all(&mut sink, bytes)?;
    Ok((sink.count, sink.last))
}

#[test]
fn many_bytes_are_one_piece(rt: HostRuntime) -> Result<(), AllocError> {
    let bytes = vec![in rt.alloc(); b'x'; 200_000]?;
    assert_eq!(rt; pieces_of(bytes.as_slice()), Ok((1, 200_000)));
    assert_eq!(rt; pieces_of(b""), Ok((0, 0)));
    Ok(())
}
