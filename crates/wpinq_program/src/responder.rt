//! Answers lines one after another and writes their replies.
ghost use Rattle.std.specs.Prelude.{◌≡◌, ◌+◌, ◌^◌, ◌-◌, ◌<◌, ◌≤◌, ℕ, List, [], ◌∷◌, length, take, is_ok, true, MatchResult, IfOk, OnOk};
ghost use Rattle.io_edge.specs.Causes.{HasCause};
ghost use Rattle.wpinq_program.specs.Served.{PieceServed, Served, seen};
ghost use Rattle.line_runs.specs.Lines.{whole_lines, open_line, last_line};
ghost use Rattle.request_machine.specs.State.{start_state};
ghost use Rattle.wpinq_program.specs.Limits.{kept_of};

use crate::line_buffer::LineBuffer;
use crate::output::write_all;
use io_edge::{Failed, Noise, Shelf, Sink};
use memchr::memchr;
use session_core::{Memory, Session};
use std::alloc::Global;
use std::sync::ledger::Ledger;
use steps::Steps;

/// The reply to a line for which there was no memory.
const MEMORY_LINE: &[u8] = b"{\"ok\":false,\"why\":\"memory\"}\n";

/// The session with the buffer of its replies and the count of lines that it has replied to.
#[derive(Drop)]
pub struct Responder {
    pub session: Session,
    pub reply: Vec<u8>,
    pub lines: u64,
}

impl Responder {
    pub fn new(alloc: Global, curator: bool) -> Result<Responder, Memory>
        ensures state { IfOk result (λ new. new.session ≡ start_state curator) }
        ensures lines { IfOk result (λ new. new.lines ≡ 0) }
    {
        let session = Session::new(alloc, curator)?;
        Ok(Responder {
            session,
            reply: Vec::new(alloc),
            lines: 0,
        })
    }

    /// Answers one line and writes its reply. An empty line has none.
    pub fn serve<K: Sink, N: Noise, F: Shelf, L: Ledger>(
        &mut self,
        line: &[u8],
        out: &mut K,
        noise: &mut N,
        shelf: &mut F,
        steps: &mut Steps<L>,
    ) -> Result<(), Failed>
        requires { self.old.lines < 2 ^ 64 - 1 }
        ensures served { Served (F.files shelf.old)
            (seen self.old (K.written out.old) (N.given noise.old) (N.faults noise.old) (F.faults shelf.old))
            (seen self.new (K.written out.new) (N.given noise.new) (N.faults noise.new) (F.faults shelf.new))
            (line.now ∷ []) (is_ok result) }
        ensures cause { HasCause (K.faults out.old) (K.faults out.new) result }
        ensures files { F.files shelf.new ≡ F.files shelf.old }
        ensures lines { self.new.lines ≤ self.old.lines + 1 }
    {
        if line.is_empty() {
            return Ok(());
        }
        self.lines += 1;
        match self
            .session
            .answer(line, noise, shelf, &mut self.reply, steps)
        {
            Ok(()) => write_all(out, &self.reply),
            Err(Memory) => write_all(out, MEMORY_LINE),
        }
    }

    /// Answers each line that the piece makes whole. `begun` holds the front of the line that is open.
    pub fn serve_piece<K: Sink, N: Noise, F: Shelf, L: Ledger>(
        &mut self,
        begun: &mut LineBuffer,
        piece: &[u8],
        out: &mut K,
        noise: &mut N,
        shelf: &mut F,
        steps: &mut Steps<L>,
    ) -> Result<(), Failed>
        requires { self.old.lines + length piece.now < 2 ^ 64 }
        ensures served { (line : List ℕ) → begun.old ≡ kept_of line → PieceServed (F.files shelf.old) result
            (seen self.old (K.written out.old) (N.given noise.old) (N.faults noise.old) (F.faults shelf.old))
            (seen self.new (K.written out.new) (N.given noise.new) (N.faults noise.new) (F.faults shelf.new))
            (whole_lines line piece.now) }
        ensures begun { (line : List ℕ) → begun.old ≡ kept_of line
            → OnOk result (begun.new ≡ kept_of (open_line line piece.now)) }
        ensures cause { HasCause (K.faults out.old) (K.faults out.new) result }
        ensures files { F.files shelf.new ≡ F.files shelf.old }
        ensures lines { self.new.lines ≤ self.old.lines + length piece.now }
    {
        let mut start = 0;
        while let Some(len) = memchr(b'\n', &piece[start..]) {
            let end = start + len;
            begun.extend(&piece[start..end]);
            self.serve(begun.line(), out, noise, shelf, steps)?;
            begun.clear();
            start = end + 1;
        }
        begun.extend(&piece[start..]);
        Ok(())
    }

    /// Answers the last line, where there is one without LF.
    pub fn finish<K: Sink, N: Noise, F: Shelf, L: Ledger>(
        &mut self,
        begun: &LineBuffer,
        out: &mut K,
        noise: &mut N,
        shelf: &mut F,
        steps: &mut Steps<L>,
    ) -> Result<(), Failed>
        requires { self.old.lines < 2 ^ 64 - 1 }
        ensures served { (line : List ℕ) → begun.now ≡ kept_of line → Served (F.files shelf.old)
            (seen self.old (K.written out.old) (N.given noise.old) (N.faults noise.old) (F.faults shelf.old))
            (seen self.new (K.written out.new) (N.given noise.new) (N.faults noise.new) (F.faults shelf.new))
            (last_line line) (is_ok result) }
        ensures cause { HasCause (K.faults out.old) (K.faults out.new) result }
        ensures files { F.files shelf.new ≡ F.files shelf.old }
    {
        if begun.is_empty() {
            return Ok(());
        }
        self.serve(begun.line(), out, noise, shelf, steps)
    }
}
