//! A run over the lines of the demo.
ghost use Rattle.std.specs.Prelude.{◌≡◌, ◌≢◌, ◌++◌, ◌^◌, ◌<◌, ◌≤◌, [], true, length, IfOk};
ghost use Rattle.demo_input.specs.Demo.{demo_questions, demo_setup};
ghost use Rattle.io_edge.specs.Causes.{HasCause, Rose};
ghost use Rattle.line_runs.specs.Lines.{WholeLines};
ghost use Rattle.request_machine.specs.State.{start_state};
ghost use Rattle.wpinq_program.specs.Outcome.{DemoOutcome, IsStatus};
ghost use Rattle.wpinq_program.specs.Served.{known, seen};
ghost use Rattle.wpinq_program.specs.Shown.{LinesShown, reply_count};

use crate::ending::{DONE, Ending, NO_MEMORY, WRITE_FAULT};
use crate::line_buffer::LineBuffer;
use crate::responder::Responder;
use demo_input::{demo_questions, demo_setup, law_demo};
use io_edge::{Failed, Noise, Shelf, Sink, SureSink};
use session_core::Memory;
use std::alloc::Global;
use std::sync::ledger::Ledger;
use steps::Steps;

/// All that has to be there before the first line is answered, with the demo's lines before its questions.
fn buffers(alloc: Global, n: u64) -> Result<(Responder, LineBuffer, Vec<u8>), Memory>
    requires positive { 1 ≤ n }
    requires at_most_20 { n ≤ 20 }
    ensures state { IfOk result (λ all. all.0.session ≡ start_state true) }
    ensures lines { IfOk result (λ all. all.0.lines ≡ 0) }
    ensures begun { IfOk result (λ all. all.1 ≡ []) }
    ensures setup { IfOk result (λ all. all.2.items ≡ demo_setup n) }
{
    let responder = Responder::new(alloc, true)?;
    let begun = LineBuffer::new(alloc)?;
    let mut setup = Vec::new(alloc);
    demo_setup(n, &mut setup)?;
    Ok((responder, begun, setup))
}

/// Answers the lines of the setup, whose replies go nowhere, and then the demo's questions.
fn serve_demo<K: Sink, N: Noise, F: Shelf, L: Ledger>(
    responder: &mut Responder,
    begun: &mut LineBuffer,
    setup: &[u8],
    out: &mut K,
    noise: &mut N,
    shelf: &mut F,
    steps: &mut Steps<L>,
) -> Result<(), Failed>
    requires begun { begun.old ≡ [] }
    requires lines { responder.old.lines ≡ 0 }
    ensures shown { LinesShown (F.files shelf.old) result
        (seen responder.old (K.written out.old) (N.given noise.old) (N.faults noise.old) (F.faults shelf.old))
        (seen responder.new (K.written out.new) (N.given noise.new) (N.faults noise.new) (F.faults shelf.new))
        (reply_count (WholeLines setup.now)) (WholeLines (setup.now ++ demo_questions)) }
    ensures cause { HasCause (K.faults out.old) (K.faults out.new) result }
    ensures files { F.files shelf.new ≡ F.files shelf.old }
{
    responder.serve_piece(begun, setup, &mut SureSink::new(), noise, shelf, steps)?;
    responder.serve_piece(begun, demo_questions(), out, noise, shelf, steps)
}

/// Answers the demo of this size, and writes the replies to its questions.
pub fn run_demo<K: Sink, N: Noise, F: Shelf, L: Ledger>(
    alloc: Global,
    n: u64,
    out: &mut K,
    noise: &mut N,
    shelf: &mut F,
    steps: &mut Steps<L>,
) -> Ending
    requires positive { 1 ≤ n }
    requires at_most_20 { n ≤ 20 }
    ensures outcome { DemoOutcome (F.files shelf.old) n
        (known 0 (K.written out.old) (N.given noise.old) (N.faults noise.old) (F.faults shelf.old)
        (start_state true))
        (known result.lines (K.written out.new) (N.given noise.new) (N.faults noise.new) (F.faults shelf.new))
        result.status }
    ensures status { IsStatus result.status }
    ensures words { result.status ≢ 2 }
    ensures write_fault { result.status ≡ 4 → Rose (K.faults out.old) (K.faults out.new) }
    ensures files { F.files shelf.new ≡ F.files shelf.old }
{
    let Ok((mut responder, mut begun, setup)) = buffers(alloc, n) else {
        return Ending::before_any_line(NO_MEMORY);
    };
    law_demo();
    let served = serve_demo(&mut responder, &mut begun, &setup, out, noise, shelf, steps);
    let status = match served {
        Ok(()) => DONE,
        Err(_) => WRITE_FAULT,
    };
    Ending {
        status,
        lines: responder.lines,
    }
}
