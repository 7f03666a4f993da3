//! What names name.
ghost use Rattle.std.specs.Prelude.{◌≡◌};
ghost use Rattle.messages.specs.Words.{thing_word};

/// What a name names.
#[derive(Clone, Copy, Debug, PartialEq, Eq)]
pub enum Thing {
    /// A source.
    Source,
    /// A plan.
    Plan,
}

impl Thing {
    /// The word for it, which is also the field of a request that has its name.
    pub fn word(self) -> &'static str
        ensures { result.now ≡ thing_word self }
    {
        match self {
            Thing::Source => "source",
            Thing::Plan => "plan",
        }
    }
}
