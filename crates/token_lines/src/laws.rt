//! Laws of the texts of lines. Each is a function that does nothing, and whose contract is the law.

pub mod determined;

ghost use Rattle.token_lines.specs.lines.ReadsBack.{BytesReadBack, EncodingsReadBack, StringsAreFields};
ghost use Rattle.token_lines.specs.lines.ReadsBack.{StringsReadBack, StylesReadBack};

/// Reading a string, an encoding or a scalar style from a line undoes writing it, for each of them.
pub fn reading_undoes_writing()
    ensures bytes { BytesReadBack }
    ensures strings { StringsReadBack }
    ensures fields { StringsAreFields }
    ensures encodings { EncodingsReadBack }
    ensures styles { StylesReadBack }
{}
