//! Test vectors, by computation: lists of tokens with the run there, the run here, and the loads there.

ghost use Rattle.rust_original.specs.vectors.ExampleVectors.{VectorCompose, VectorFault, VectorList};
ghost use Rattle.rust_original.specs.vectors.ExampleVectors.{VectorListBegun};
ghost use Rattle.rust_original.specs.vectors.ExampleVectors.{VectorLoadsOfFault};
ghost use Rattle.rust_original.specs.vectors.AlikeVectors.{VectorAtTheBound, VectorBeyondTheBound};
ghost use Rattle.rust_original.specs.vectors.AlikeVectors.{VectorBlockSequenceAsAPairsKey};
ghost use Rattle.rust_original.specs.vectors.AlikeVectors.{VectorIndentlessSequenceAlike};
ghost use Rattle.rust_original.specs.vectors.DifferenceVectors.{VectorNoNodeAfterADocumentEnd};
ghost use Rattle.rust_original.specs.vectors.DifferenceVectors.{VectorPairKeyThenEnd, VectorPairKeyThenEntry};
ghost use Rattle.rust_original.specs.vectors.DifferenceVectors.{VectorPairKeyThenTwoEnds};
ghost use Rattle.rust_original.specs.vectors.DifferenceVectors.{VectorPairKeyThenTwoEntries};
ghost use Rattle.rust_original.specs.vectors.DifferenceVectors.{VectorPairKeyThenTwoValues};
ghost use Rattle.rust_original.specs.vectors.DifferenceVectors.{VectorPairKeyThenValue};
ghost use Rattle.rust_original.specs.vectors.DifferenceVectors.{VectorPairKeyThenValueAlone};
ghost use Rattle.rust_original.specs.vectors.DifferenceVectors.{VectorScalarAfterADocumentEnd};
ghost use Rattle.rust_original.specs.vectors.DifferenceVectors.{VectorTagAfterADocumentEnd};
ghost use Rattle.rust_original.specs.vectors.DifferenceVectors.{VectorValueAfterAnEntry, VectorValueFirst};
ghost use Rattle.rust_original.specs.vectors.TextVectors.{VectorAliasWithAZeroByte};
ghost use Rattle.rust_original.specs.vectors.TextVectors.{VectorAnchorWithAZeroByte};
ghost use Rattle.rust_original.specs.vectors.TextVectors.{VectorHandleOfAZeroByte};
ghost use Rattle.rust_original.specs.vectors.TextVectors.{VectorPrefixAndSuffixWithZeroBytes};
ghost use Rattle.rust_original.specs.vectors.TextVectors.{VectorTagWithAZeroByte};
ghost use Rattle.rust_original.specs.vectors.TextVectors.{VectorTwoAnchorsWithZeroBytes};
ghost use Rattle.rust_original.specs.vectors.TextVectors.{VectorTwoHandlesWithZeroBytes};

/// The worked lists in `examples`: both parsers do the same.
pub fn example_vectors()
    ensures list_begun { VectorListBegun }
    ensures list { VectorList }
    ensures compose { VectorCompose }
    ensures fault { VectorFault }
{}

/// The loads of one of them, as `LoadsThere` has them.
pub fn load_vectors()
    ensures { VectorLoadsOfFault }
{}

/// Both parsers do the same, and a load within a bound, and beyond it.
pub fn alike_vectors()
    ensures indentless_sequence { VectorIndentlessSequenceAlike }
    ensures block_sequence_as_a_pairs_key { VectorBlockSequenceAsAPairsKey }
    ensures at_the_bound { VectorAtTheBound }
    ensures beyond_the_bound { VectorBeyondTheBound }
{}

/// The three places where the parsers differ.
pub fn difference_vectors()
    ensures pair_key_then_value { VectorPairKeyThenValue }
    ensures pair_key_then_value_alone { VectorPairKeyThenValueAlone }
    ensures pair_key_then_two_values { VectorPairKeyThenTwoValues }
    ensures pair_key_then_entry { VectorPairKeyThenEntry }
    ensures pair_key_then_two_entries { VectorPairKeyThenTwoEntries }
    ensures pair_key_then_end { VectorPairKeyThenEnd }
    ensures pair_key_then_two_ends { VectorPairKeyThenTwoEnds }
    ensures value_first { VectorValueFirst }
    ensures value_after_an_entry { VectorValueAfterAnEntry }
    ensures scalar_after_a_document_end { VectorScalarAfterADocumentEnd }
    ensures tag_after_a_document_end { VectorTagAfterADocumentEnd }
    ensures no_node_after_a_document_end { VectorNoNodeAfterADocumentEnd }
{}

/// Texts with zero bytes.
pub fn text_vectors()
    ensures alias_with_a_zero_byte { VectorAliasWithAZeroByte }
    ensures anchor_with_a_zero_byte { VectorAnchorWithAZeroByte }
    ensures two_anchors_with_zero_bytes { VectorTwoAnchorsWithZeroBytes }
    ensures two_handles_with_zero_bytes { VectorTwoHandlesWithZeroBytes }
    ensures handle_of_a_zero_byte { VectorHandleOfAZeroByte }
    ensures tag_with_a_zero_byte { VectorTagWithAZeroByte }
    ensures prefix_and_suffix_with_zero_bytes { VectorPrefixAndSuffixWithZeroBytes }
{}
