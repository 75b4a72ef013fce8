//! The sections of a sheet.

ghost use Rattle.std.specs.Prelude.{◌≡◌, ◌<◌, ◌≤◌};

/// The parts of a sheet after its header, in their order.
#[derive(Clone, Copy, Debug, PartialEq, Eq)]
pub enum Section {
    Nodes,
    Children,
    Actions,
    Chances,
    Transitions,
    Terminals,
    Payoffs,
    Sets,
    Labels,
    Text,
}

impl Section {
    ghost use Rattle.layout.specs.Section.{number, row_limit, has_entity};

    /// All of them, in their order.
    pub const ALL: [Section; 10] = [
        Section::Nodes,
        Section::Children,
        Section::Actions,
        Section::Chances,
        Section::Transitions,
        Section::Terminals,
        Section::Payoffs,
        Section::Sets,
        Section::Labels,
        Section::Text,
    ];

    /// Its place among the sections, from 0.
    pub fn number(self) -> usize
        ensures value { result ≡ number self }
        ensures small { result < 10 }
    {
        self as usize
    }

    /// How many rows it has at most.
    pub fn row_limit(self) -> usize
        ensures value { result ≡ row_limit self }
        ensures small { result ≤ 4096 }
    {
        match self {
            Section::Payoffs | Section::Text => 4096,
            Section::Labels => 256,
            _ => 1024,
        }
    }

    /// Whether each of its rows names an entity.
    pub fn has_entity(self) -> bool
        ensures { result ≡ has_entity self }
    {
        !matches!(self, Section::Payoffs | Section::Labels | Section::Text)
    }
}
