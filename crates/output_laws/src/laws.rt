//! The law of canonical texts.

ghost use Rattle.output_laws.specs.Laws.{CanonicalTextsGrow};

/// Where a script is continued by further statements, the canonical text of the script is a front of that of the longer one.
pub fn canonical_texts_grow()
    ensures { CanonicalTextsGrow }
{}
