//! Reads the input piece by piece, and answers the lines of each piece before the next is read.
ghost use Rattle.std.specs.Prelude.{◌≡◌, ◌^◌, ◌<◌, ◌≤◌, [], length};
ghost use Rattle.io_edge.specs.Causes.{Rose};
ghost use Rattle.wpinq_program.specs.Stream.{Streamed};
ghost use Rattle.wpinq_program.specs.Served.{seen};

use crate::beyond::Beyond;
use crate::input::{read_beyond, read_some};
use crate::line_buffer::LineBuffer;
use crate::responder::Responder;
use crate::stop::Stop;
use io_edge::{Noise, Shelf, Sink, Source};
use std::sync::ledger::Ledger;
use steps::Steps;

/// Serves the whole lines of the input, of which at most `max` bytes are taken into `piece`.
pub fn serve_stream<S: Source, K: Sink, N: Noise, F: Shelf, L: Ledger>(
    responder: &mut Responder,
    begun: &mut LineBuffer,
    piece: &mut [u8],
    max: u64,
    src: &mut S,
    out: &mut K,
    noise: &mut N,
    shelf: &mut F,
    steps: &mut Steps<L>,
) -> Stop
    requires room { 0 < length piece.old }
    requires limit { max < 2 ^ 63 }
    requires begun { begun.old ≡ [] }
    requires lines { responder.old.lines ≡ 0 }
    ensures streamed { Streamed (F.files shelf.old) max (S.left src.old) (S.left src.new)
        (seen responder.old (K.written out.old) (N.given noise.old) (N.faults noise.old) (F.faults shelf.old))
        (seen responder.new (K.written out.new) (N.given noise.new) (N.faults noise.new) (F.faults shelf.new))
        begun.new result }
    ensures lines { responder.new.lines ≤ max }
    ensures later { K.faults out.old ≤ K.faults out.new }
    ensures files { F.files shelf.new ≡ F.files shelf.old }
    ensures read_fault { result ≡ Stop.ReadFault → Rose (S.faults src.old) (S.faults src.new) }
    ensures write_fault { result ≡ Stop.WriteFault → Rose (K.faults out.old) (K.faults out.new) }
{
    let mut total: u64 = 0;
    while total < max {
        match read_some(src, piece, max - total) {
            Err(_) => return Stop::ReadFault,
            Ok(0) => return Stop::InputEnd,
            Ok(count) => {
                match responder.serve_piece(begun, &piece[..count], out, noise, shelf, steps) {
                    Err(_) => return Stop::WriteFault,
                    Ok(()) => total += count as u64,
                }
            }
        }
    }
    match read_beyond(src) {
        Beyond::End => Stop::InputEnd,
        Beyond::Fault => Stop::ReadFault,
        Beyond::Byte => Stop::OverLimit,
    }
}
