//! Test vectors of loads: lists of tokens with the results of the loads over them. Each function does
//! nothing when it runs: its contract is these.

ghost use Rattle.libyaml_graphs.specs.vectors.LoadVectors.{VectorAliasBeforeBound};
ghost use Rattle.libyaml_graphs.specs.vectors.LoadVectors.{VectorAnchorOfDocumentBefore};
ghost use Rattle.libyaml_graphs.specs.vectors.LoadVectors.{VectorBoundBeforeAnchor};
ghost use Rattle.libyaml_graphs.specs.vectors.LoadVectors.{VectorBoundOfEachDocument};
ghost use Rattle.libyaml_graphs.specs.vectors.LoadVectors.{VectorCollectionsInPairs, VectorDirectivesLoaded};
ghost use Rattle.libyaml_graphs.specs.vectors.LoadVectors.{VectorEmptyDocumentsLoaded};
ghost use Rattle.libyaml_graphs.specs.vectors.LoadVectors.{VectorEmptyStreamLoaded};
ghost use Rattle.libyaml_graphs.specs.vectors.LoadVectors.{VectorEmptyTagLoaded};
ghost use Rattle.libyaml_graphs.specs.vectors.LoadVectors.{VectorExclamationMarksOfCollections};
ghost use Rattle.libyaml_graphs.specs.vectors.LoadVectors.{VectorExplicitEnd};
ghost use Rattle.libyaml_graphs.specs.vectors.LoadVectors.{VectorHoldsItself, VectorItemTwice};
ghost use Rattle.libyaml_graphs.specs.vectors.LoadVectors.{VectorItemsBeyondBound};
ghost use Rattle.libyaml_graphs.specs.vectors.LoadVectors.{VectorKeyBeyondBound, VectorNestedHoldsItself};
ghost use Rattle.libyaml_graphs.specs.vectors.LoadVectors.{VectorNodesBeyondBound, VectorNodesInBound};
ghost use Rattle.libyaml_graphs.specs.vectors.LoadVectors.{VectorPairInBound, VectorPairs, VectorParserFault};
ghost use Rattle.libyaml_graphs.specs.vectors.LoadVectors.{VectorSecondAliasUndefined, VectorSecondAnchor};
ghost use Rattle.libyaml_graphs.specs.vectors.LoadVectors.{VectorSourceEnds, VectorStartWithoutRoot};
ghost use Rattle.libyaml_graphs.specs.vectors.LoadVectors.{VectorTagThatIsAnExclamationMarkLoaded};
ghost use Rattle.libyaml_graphs.specs.vectors.LoadVectors.{VectorUndefinedAlias};
ghost use Rattle.libyaml_graphs.specs.vectors.LoadVectors.{VectorUndefinedAliasBeforeSourceEnds};
ghost use Rattle.libyaml_graphs.specs.vectors.LoadVectors.{VectorUndefinedAliasAfterKey};

/// Shows a stream without documents, directives, an explicit end, documents without content, and a start that
/// no root follows.
pub fn documents()
    ensures empty_stream { VectorEmptyStreamLoaded }
    ensures directives { VectorDirectivesLoaded }
    ensures explicit_end { VectorExplicitEnd }
    ensures empty_documents { VectorEmptyDocumentsLoaded }
    ensures start_without_root { VectorStartWithoutRoot }
{}

/// Shows pairs, and collections in one another.
pub fn collections()
    ensures pairs { VectorPairs }
    ensures collections_in_pairs { VectorCollectionsInPairs }
{}

/// Shows the tag `!`, and an empty one.
pub fn tags()
    ensures tag_that_is_an_exclamation_mark { VectorTagThatIsAnExclamationMarkLoaded }
    ensures exclamation_marks_of_collections { VectorExclamationMarksOfCollections }
    ensures empty_tag { VectorEmptyTagLoaded }
{}

/// Shows nodes that hold themselves, and nodes that stand more than once.
pub fn aliases()
    ensures holds_itself { VectorHoldsItself }
    ensures item_twice { VectorItemTwice }
    ensures nested_holds_itself { VectorNestedHoldsItself }
{}

/// Shows undefined aliases, and an anchor that two nodes carry.
pub fn composer_faults()
    ensures undefined_alias { VectorUndefinedAlias }
    ensures second_alias_undefined { VectorSecondAliasUndefined }
    ensures anchor_of_document_before { VectorAnchorOfDocumentBefore }
    ensures second_anchor { VectorSecondAnchor }
{}

/// Shows runs that an error of the parser or the source cuts off.
pub fn cut_off()
    ensures parser_fault { VectorParserFault }
    ensures source_ends { VectorSourceEnds }
    ensures undefined_alias_before_source_ends { VectorUndefinedAliasBeforeSourceEnds }
{}

/// Shows loads within a bound: its order against the composer errors, and a pair that counts at its key.
pub fn bounds()
    ensures nodes_in_bound { VectorNodesInBound }
    ensures nodes_beyond_bound { VectorNodesBeyondBound }
    ensures items_beyond_bound { VectorItemsBeyondBound }
    ensures bound_of_each_document { VectorBoundOfEachDocument }
    ensures bound_before_anchor { VectorBoundBeforeAnchor }
    ensures alias_before_bound { VectorAliasBeforeBound }
    ensures pair_in_bound { VectorPairInBound }
    ensures key_beyond_bound { VectorKeyBeyondBound }
    ensures undefined_alias_after_key { VectorUndefinedAliasAfterKey }
{}
