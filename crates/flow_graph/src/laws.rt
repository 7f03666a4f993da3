//! A plan's work, worked out.
ghost use Rattle.flow_graph.specs.Laws.{EdgeTicks, EdgeWork};

/// The work of a plan of paths where one edge of a triangle goes, and the ticks that it allows.
pub fn law_work()
    ensures work { EdgeWork }
    ensures ticks { EdgeTicks }
{}
