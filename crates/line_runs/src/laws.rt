//! Laws of lines and of runs.
#![tactic(auto)]

ghost use Rattle.std.specs.Prelude.{ℕ, ℤ, List};
ghost use Rattle.line_runs.specs.Laws.{LastLine, LinesOfPieces, OneLine, OpenLineCut, WholeLinesCut, WholeLinesOfPieces, WorkedLines, WorkedWholeLines};
ghost use Rattle.line_runs.specs.Laws.{RunsJoin, RunsSplit, SilentLine, AnsweredLine, RepliesCounted};

/// The lines of a stream are the same wherever it is cut into pieces.
pub fn law_pieces()
    ensures whole { WholeLinesCut }
    ensures open { OpenLineCut }
    ensures whole_from_start { WholeLinesOfPieces }
    ensures from_start { LinesOfPieces }
    ensures one_line { OneLine }
    ensures last_line { LastLine }
{}

/// Some bytes have these lines, and these whole lines.
pub fn law_worked_lines()
    ensures lines { WorkedLines }
    ensures whole { WorkedWholeLines }
{}

/// A machine whose states are the values of the type.
pub trait Machine {
    // from the first state, the line takes these pairs of epsilon and noise, has this reply, and leads to the last
    ghost answers: { Self → List ℕ → List (ℕ × ℤ) → List ℕ → Self → Type 0 };
}

/// Runs of a machine one after another are one run over all lines, with a reply to each line that isn't empty.
pub fn law_runs<M: Machine>()
    ensures join { RunsJoin M.answers }
    ensures split { RunsSplit M.answers }
    ensures silent { SilentLine M.answers }
    ensures answered { AnsweredLine M.answers }
    ensures counted { RepliesCounted M.answers }
{}
