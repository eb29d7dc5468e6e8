//! What follows from the definitions. These functions have no code: the contract of each is one law.

ghost use Rattle.graph_loader.specs.Laws.{ExtendedAdds, LoadedNames, NamesAreLines};

/// The columns of a graph that two files spell have names that a property may have.
pub fn loaded_names()
    ensures { LoadedNames }
{}

/// A name that a property may have holds no line end.
pub fn names_are_lines()
    ensures { NamesAreLines }
{}

/// What a further file of edges makes of a graph is the graph with edges that can stand behind its own.
pub fn extended_adds()
    ensures { ExtendedAdds }
{}
