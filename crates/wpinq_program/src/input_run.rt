//! A run over the lines of a source.
ghost use Rattle.std.specs.Prelude.{◌≡◌, ◌≢◌, ◌^◌, ◌<◌, [], length, IfOk};
ghost use Rattle.io_edge.specs.Causes.{Rose};
ghost use Rattle.request_machine.specs.State.{start_state};
ghost use Rattle.wpinq_program.specs.Limits.{piece_len};
ghost use Rattle.wpinq_program.specs.Outcome.{InputOutcome, IsStatus};
ghost use Rattle.wpinq_program.specs.Served.{known};

use crate::ending::{DONE, Ending, NO_MEMORY, OVER_LIMIT, READ_FAULT, WRITE_FAULT};
use crate::line_buffer::LineBuffer;
use crate::responder::Responder;
use crate::stop::Stop;
use crate::stream::serve_stream;
use io_edge::{Noise, Shelf, Sink, Source};
use session_core::Memory;
use std::alloc::Global;
use std::sync::ledger::Ledger;
use steps::Steps;

/// The size of the buffer that a piece of the input is read into.
const PIECE: usize = 65_536;

/// All that has to be there before the first line is read.
fn buffers(alloc: Global, curator: bool) -> Result<(Responder, LineBuffer, Vec<u8>), Memory>
    ensures state { IfOk result (λ all. all.0.session ≡ start_state curator) }
    ensures lines { IfOk result (λ all. all.0.lines ≡ 0) }
    ensures begun { IfOk result (λ all. all.1 ≡ []) }
    ensures piece { IfOk result (λ all. length all.2.items ≡ piece_len) }
{
    let responder = Responder::new(alloc, curator)?;
    let begun = LineBuffer::new(alloc)?;
    let piece = vec![in alloc; 0u8; PIECE]?;
    Ok((responder, begun, piece))
}

/// Answers the source's lines, of at most `max` bytes together.
pub fn run_input<S: Source, K: Sink, N: Noise, F: Shelf, L: Ledger>(
    alloc: Global,
    curator: bool,
    max: u64,
    src: &mut S,
    out: &mut K,
    noise: &mut N,
    shelf: &mut F,
    steps: &mut Steps<L>,
) -> Ending
    requires { max < 2 ^ 63 }
    ensures outcome { InputOutcome (F.files shelf.old) max (S.left src.old) (S.left src.new)
        (known 0 (K.written out.old) (N.given noise.old) (N.faults noise.old) (F.faults shelf.old)
        (start_state curator))
        (known result.lines (K.written out.new) (N.given noise.new) (N.faults noise.new) (F.faults shelf.new))
        result.status }
    ensures status { IsStatus result.status }
    ensures words { result.status ≢ 2 }
    ensures read_fault { result.status ≡ 3 → Rose (S.faults src.old) (S.faults src.new) }
    ensures write_fault { result.status ≡ 4 → Rose (K.faults out.old) (K.faults out.new) }
    ensures files { F.files shelf.new ≡ F.files shelf.old }
{
    let Ok((mut responder, mut begun, mut piece)) = buffers(alloc, curator) else {
        return Ending::before_any_line(NO_MEMORY);
    };
    let stop = serve_stream(
        &mut responder,
        &mut begun,
        &mut piece,
        max,
        src,
        out,
        noise,
        shelf,
        steps,
    );
    let status = match stop {
        Stop::ReadFault => READ_FAULT,
        Stop::WriteFault => WRITE_FAULT,
        Stop::OverLimit => OVER_LIMIT,
        Stop::InputEnd => match responder.finish(&begun, out, noise, shelf, steps) {
            Ok(()) => DONE,
            Err(_) => WRITE_FAULT,
        },
    };
    Ending {
        status,
        lines: responder.lines,
    }
}
