//! Laws of the demo's text.

ghost use Rattle.demo_input.specs.Laws.{FullLinesCounted, LinesOfDemo, LinesOfSetup, QuestionLines, TextOfDemo, WholeLinesOfDemo};

/// The lines of a demo are those of its setup, then its three questions, and an LF ends each of them.
pub fn law_demo()
    ensures text { TextOfDemo }
    ensures whole { WholeLinesOfDemo }
    ensures lines { LinesOfDemo }
    ensures setup { LinesOfSetup }
    ensures questions { QuestionLines }
    ensures counted { FullLinesCounted }
{}
