//! That the contract of a line source leaves its result open only if an allocation or a read fails.

ghost use Rattle.std.specs.Prelude.{◌≡◌, ℕ, List, Some};
ghost use Rattle.libyaml_types.specs.Fault.{SourceResult};
ghost use Rattle.line_reading.specs.sources.LineSource.{LineSource};
ghost use Rattle.line_reading.specs.sources.OneLine.{LineOutcome, OneLine, SourcesAlike};

use std::io::BufRead;

/// Two results, both of which the contract of `next_token` allows, of line sources that keep the same, over
/// readers of the same known bytes: they are one, and leave sources that keep the same over readers of the
/// same bytes, unless an allocation or a read failed in one of them.
pub fn one_line<R: BufRead>()
    ensures { (s t u v : LineSource R) (a b : SourceResult) (bytes : List ℕ) → R.remaining s.reader ≡ Some bytes
        → SourcesAlike R.remaining s u → LineOutcome R.remaining s a t → LineOutcome R.remaining u b v
        → OneLine R.remaining s u a t b v }
{}
