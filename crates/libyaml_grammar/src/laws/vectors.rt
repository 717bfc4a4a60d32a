//! Test vectors of the definitions: lists of tokens with their events and how each run ends. Each function
//! does nothing when it runs: its contract is these.

ghost use Rattle.libyaml_grammar.specs.vectors.EmptyNodeVectors.{NeverEmptyFlowEntry, NeverEmptyRoot};
ghost use Rattle.libyaml_grammar.specs.vectors.EmptyNodeVectors.{VectorEmptyDocument, VectorEmptyEntry};
ghost use Rattle.libyaml_grammar.specs.vectors.EmptyNodeVectors.{VectorEmptyFlowKey, VectorEmptyFlowValue};
ghost use Rattle.libyaml_grammar.specs.vectors.EmptyNodeVectors.{VectorEmptyIndentlessEntry};
ghost use Rattle.libyaml_grammar.specs.vectors.EmptyNodeVectors.{VectorEmptyPairKey};
ghost use Rattle.libyaml_grammar.specs.vectors.EmptyNodeVectors.{VectorEmptyPairValue, VectorEmptyPart};
ghost use Rattle.libyaml_grammar.specs.vectors.PartialVectors.{VectorAliasAfterAnchor, VectorAliasCome};
ghost use Rattle.libyaml_grammar.specs.vectors.PartialVectors.{VectorAmidProperties, VectorAmidTag};
ghost use Rattle.libyaml_grammar.specs.vectors.PartialVectors.{VectorAmidTagAndAnchor, VectorAnchorBegun};
ghost use Rattle.libyaml_grammar.specs.vectors.PartialVectors.{VectorAnchoredIndentlessBegun};
ghost use Rattle.libyaml_grammar.specs.vectors.PartialVectors.{VectorAnchoredKeyBegun};
ghost use Rattle.libyaml_grammar.specs.vectors.PartialVectors.{VectorAnchoredPairBegun};
ghost use Rattle.libyaml_grammar.specs.vectors.PartialVectors.{VectorBlockCollectionAfterTagInFlow};
ghost use Rattle.libyaml_grammar.specs.vectors.PartialVectors.{VectorBlockContentInFlow};
ghost use Rattle.libyaml_grammar.specs.vectors.PartialVectors.{VectorBlockEntryCome};
ghost use Rattle.libyaml_grammar.specs.vectors.PartialVectors.{VectorCollectionBegun, VectorCollectionsEnded};
ghost use Rattle.libyaml_grammar.specs.vectors.PartialVectors.{VectorDefaultDeclaredTwice};
ghost use Rattle.libyaml_grammar.specs.vectors.PartialVectors.{VectorDirectiveBegun};
ghost use Rattle.libyaml_grammar.specs.vectors.PartialVectors.{VectorDirectiveWithoutDocument};
ghost use Rattle.libyaml_grammar.specs.vectors.PartialVectors.{VectorDocumentAndAnchorBegun};
ghost use Rattle.libyaml_grammar.specs.vectors.PartialVectors.{VectorDocumentBegun};
ghost use Rattle.libyaml_grammar.specs.vectors.PartialVectors.{VectorDocumentEndFirst, VectorDocumentEnded};
ghost use Rattle.libyaml_grammar.specs.vectors.PartialVectors.{VectorEmptyDocumentEnded, VectorEntryCome};
ghost use Rattle.libyaml_grammar.specs.vectors.PartialVectors.{VectorFlowKeyCome, VectorHandleDeclaredTwice};
ghost use Rattle.libyaml_grammar.specs.vectors.PartialVectors.{VectorHandleOfDocumentBefore};
ghost use Rattle.libyaml_grammar.specs.vectors.PartialVectors.{VectorIndentlessBegun};
ghost use Rattle.libyaml_grammar.specs.vectors.PartialVectors.{VectorKeyCome, VectorNoBlockEntry};
ghost use Rattle.libyaml_grammar.specs.vectors.PartialVectors.{VectorNoBlockEntryAfterEntry};
ghost use Rattle.libyaml_grammar.specs.vectors.PartialVectors.{VectorNoBlockEntryInAnchoredSequence};
ghost use Rattle.libyaml_grammar.specs.vectors.PartialVectors.{VectorNoContentAfterDocumentEnd};
ghost use Rattle.libyaml_grammar.specs.vectors.PartialVectors.{VectorNoContentAfterSeparator};
ghost use Rattle.libyaml_grammar.specs.vectors.PartialVectors.{VectorNoContentAfterValue};
ghost use Rattle.libyaml_grammar.specs.vectors.PartialVectors.{VectorNoContentInAnchoredSequence};
ghost use Rattle.libyaml_grammar.specs.vectors.PartialVectors.{VectorNoContentInBlockMapping};
ghost use Rattle.libyaml_grammar.specs.vectors.PartialVectors.{VectorNoContentInBlockSequence};
ghost use Rattle.libyaml_grammar.specs.vectors.PartialVectors.{VectorNoContentInDocument};
ghost use Rattle.libyaml_grammar.specs.vectors.PartialVectors.{VectorNoContentInFlowMapping};
ghost use Rattle.libyaml_grammar.specs.vectors.PartialVectors.{VectorNoContentInFlowSequence};
ghost use Rattle.libyaml_grammar.specs.vectors.PartialVectors.{VectorNoContentInIndentlessSequence};
ghost use Rattle.libyaml_grammar.specs.vectors.PartialVectors.{VectorNoContentInPair};
ghost use Rattle.libyaml_grammar.specs.vectors.PartialVectors.{VectorNoContentInPairValue};
ghost use Rattle.libyaml_grammar.specs.vectors.PartialVectors.{VectorNoContentInTaggedMapping, VectorNoKey};
ghost use Rattle.libyaml_grammar.specs.vectors.PartialVectors.{VectorNoKeyAfterIndentless};
ghost use Rattle.libyaml_grammar.specs.vectors.PartialVectors.{VectorNoKeyAfterKey};
ghost use Rattle.libyaml_grammar.specs.vectors.PartialVectors.{VectorNoKeyInAnchoredMapping};
ghost use Rattle.libyaml_grammar.specs.vectors.PartialVectors.{VectorNoSeparatorInAnchoredSequence};
ghost use Rattle.libyaml_grammar.specs.vectors.PartialVectors.{VectorNoSeparatorInFlowMapping};
ghost use Rattle.libyaml_grammar.specs.vectors.PartialVectors.{VectorNoSeparatorInFlowSequence};
ghost use Rattle.libyaml_grammar.specs.vectors.PartialVectors.{VectorNoStreamStart, VectorNoToken};
ghost use Rattle.libyaml_grammar.specs.vectors.PartialVectors.{VectorNoTokens};
ghost use Rattle.libyaml_grammar.specs.vectors.PartialVectors.{VectorNodeAloneSeparated, VectorPairBegun};
ghost use Rattle.libyaml_grammar.specs.vectors.PartialVectors.{VectorPairSeparated, VectorPairValueCome};
ghost use Rattle.libyaml_grammar.specs.vectors.PartialVectors.{VectorPairValueScalarCome};
ghost use Rattle.libyaml_grammar.specs.vectors.PartialVectors.{VectorPropertiesBegun};
ghost use Rattle.libyaml_grammar.specs.vectors.PartialVectors.{VectorScalarCome, VectorSecondStreamStart};
ghost use Rattle.libyaml_grammar.specs.vectors.PartialVectors.{VectorSecondVersion, VectorStreamBegun};
ghost use Rattle.libyaml_grammar.specs.vectors.PartialVectors.{VectorTagWhereNoneMayStand, VectorTwoRoots};
ghost use Rattle.libyaml_grammar.specs.vectors.PartialVectors.{VectorUnknownHandle};
ghost use Rattle.libyaml_grammar.specs.vectors.PartialVectors.{VectorUnknownHandleAtStreamEnd};
ghost use Rattle.libyaml_grammar.specs.vectors.PartialVectors.{VectorUnknownHandleBeforeAnchor};
ghost use Rattle.libyaml_grammar.specs.vectors.PartialVectors.{VectorUnknownHandleFirst};
ghost use Rattle.libyaml_grammar.specs.vectors.PartialVectors.{VectorValueAfterIndentless};
ghost use Rattle.libyaml_grammar.specs.vectors.PartialVectors.{VectorValueAfterIndentlessCome};
ghost use Rattle.libyaml_grammar.specs.vectors.PartialVectors.{VectorValueComeFirst};
ghost use Rattle.libyaml_grammar.specs.vectors.PartialVectors.{VectorVersionOfEarlierMinor};
ghost use Rattle.libyaml_grammar.specs.vectors.PartialVectors.{VectorVersionOfLaterMajor};
ghost use Rattle.libyaml_grammar.specs.vectors.PartialVectors.{VectorVersionOfLaterMinor};
ghost use Rattle.libyaml_grammar.specs.vectors.PartialVectors.{VectorWrongEndOfFlowMapping};
ghost use Rattle.libyaml_grammar.specs.vectors.PartialVectors.{VectorWrongEndOfFlowSequence};
ghost use Rattle.libyaml_grammar.specs.vectors.Vectors.{VectorAnchoredIndentless, VectorAfterStreamEnd};
ghost use Rattle.libyaml_grammar.specs.vectors.Vectors.{VectorBlockSequence, VectorCollectionFlags};
ghost use Rattle.libyaml_grammar.specs.vectors.Vectors.{VectorCollectionsInMapping, VectorDefaultHandles};
ghost use Rattle.libyaml_grammar.specs.vectors.Vectors.{VectorDirectives, VectorDocumentEnds};
ghost use Rattle.libyaml_grammar.specs.vectors.Vectors.{VectorEmptyCollections, VectorEmptyDocuments};
ghost use Rattle.libyaml_grammar.specs.vectors.Vectors.{VectorEmptyFlowKeys, VectorEmptyFlowValues};
ghost use Rattle.libyaml_grammar.specs.vectors.Vectors.{VectorEmptyIndentlessEntries, VectorEmptyKeys};
ghost use Rattle.libyaml_grammar.specs.vectors.Vectors.{VectorEmptyPairKeys, VectorEmptyPairValues};
ghost use Rattle.libyaml_grammar.specs.vectors.Vectors.{VectorEmptySequenceEntries, VectorEmptyStream};
ghost use Rattle.libyaml_grammar.specs.vectors.Vectors.{VectorEmptyTag, VectorEmptyValues};
ghost use Rattle.libyaml_grammar.specs.vectors.Vectors.{VectorEntryThatBeginsWithValue};
ghost use Rattle.libyaml_grammar.specs.vectors.Vectors.{VectorExplicitAfterDocumentEnd};
ghost use Rattle.libyaml_grammar.specs.vectors.Vectors.{VectorExplicitDocuments, VectorFlowKeyWithoutValue};
ghost use Rattle.libyaml_grammar.specs.vectors.Vectors.{VectorFlowMapping, VectorFlowSequence};
ghost use Rattle.libyaml_grammar.specs.vectors.Vectors.{VectorHandlesWithZeroBytes};
ghost use Rattle.libyaml_grammar.specs.vectors.Vectors.{VectorImplicitAfterDocumentEnd};
ghost use Rattle.libyaml_grammar.specs.vectors.Vectors.{VectorImplicitAfterImplicit, VectorImplicitDocument};
ghost use Rattle.libyaml_grammar.specs.vectors.Vectors.{VectorIndentlessSequence, VectorKeysWithoutValues};
ghost use Rattle.libyaml_grammar.specs.vectors.Vectors.{VectorNestedPairs, VectorNodesAloneInMapping};
ghost use Rattle.libyaml_grammar.specs.vectors.Vectors.{VectorOtherTag, VectorPair, VectorPairWithEmptyKey};
ghost use Rattle.libyaml_grammar.specs.vectors.Vectors.{VectorPairWithoutValue, VectorPropertiesAlone};
ghost use Rattle.libyaml_grammar.specs.vectors.Vectors.{VectorPropertiesBeforeContent};
ghost use Rattle.libyaml_grammar.specs.vectors.Vectors.{VectorRedeclaredHandles};
ghost use Rattle.libyaml_grammar.specs.vectors.Vectors.{VectorRootsWithoutDocumentStart, VectorScalarStyles};
ghost use Rattle.libyaml_grammar.specs.vectors.Vectors.{VectorTagThatIsAnExclamationMark};
ghost use Rattle.libyaml_grammar.specs.vectors.Vectors.{VectorValueAfterValue};

/// A stream and its documents, and what ends them.
pub fn streams()
    ensures empty_stream { VectorEmptyStream }
    ensures implicit_document { VectorImplicitDocument }
    ensures explicit_documents { VectorExplicitDocuments }
    ensures empty_documents { VectorEmptyDocuments }
    ensures document_ends { VectorDocumentEnds }
    ensures implicit_after_document_end { VectorImplicitAfterDocumentEnd }
    ensures implicit_after_implicit { VectorImplicitAfterImplicit }
    ensures explicit_after_document_end { VectorExplicitAfterDocumentEnd }
    ensures directives { VectorDirectives }
    ensures after_stream_end { VectorAfterStreamEnd }
{}

/// Block sequences and mappings, and sequences without tokens of their own.
pub fn block_collections()
    ensures block_sequence { VectorBlockSequence }
    ensures empty_sequence_entries { VectorEmptySequenceEntries }
    ensures empty_collections { VectorEmptyCollections }
    ensures indentless_sequence { VectorIndentlessSequence }
    ensures empty_indentless_entries { VectorEmptyIndentlessEntries }
    ensures anchored_indentless { VectorAnchoredIndentless }
    ensures empty_keys { VectorEmptyKeys }
    ensures empty_values { VectorEmptyValues }
    ensures keys_without_values { VectorKeysWithoutValues }
    ensures entry_that_begins_with_value { VectorEntryThatBeginsWithValue }
    ensures value_after_value { VectorValueAfterValue }
    ensures collections_in_mapping { VectorCollectionsInMapping }
{}

/// Flow sequences and mappings, and pairs.
pub fn flow_collections()
    ensures flow_sequence { VectorFlowSequence }
    ensures flow_mapping { VectorFlowMapping }
    ensures nodes_alone_in_mapping { VectorNodesAloneInMapping }
    ensures pair { VectorPair }
    ensures pair_with_empty_key { VectorPairWithEmptyKey }
    ensures empty_pair_keys { VectorEmptyPairKeys }
    ensures empty_pair_values { VectorEmptyPairValues }
    ensures pair_without_value { VectorPairWithoutValue }
    ensures nested_pairs { VectorNestedPairs }
    ensures empty_flow_keys { VectorEmptyFlowKeys }
    ensures empty_flow_values { VectorEmptyFlowValues }
    ensures flow_key_without_value { VectorFlowKeyWithoutValue }
{}

/// Anchors and tags, and the flags that depend on them.
pub fn properties()
    ensures scalar_styles { VectorScalarStyles }
    ensures tag_that_is_an_exclamation_mark { VectorTagThatIsAnExclamationMark }
    ensures empty_tag { VectorEmptyTag }
    ensures other_tag { VectorOtherTag }
    ensures properties_alone { VectorPropertiesAlone }
    ensures properties_before_content { VectorPropertiesBeforeContent }
    ensures roots_without_document_start { VectorRootsWithoutDocumentStart }
    ensures collection_flags { VectorCollectionFlags }
    ensures default_handles { VectorDefaultHandles }
    ensures redeclared_handles { VectorRedeclaredHandles }
    ensures handles_with_zero_bytes { VectorHandlesWithZeroBytes }
{}

/// Each error, and the events before it.
pub fn faults()
    ensures no_stream_start { VectorNoStreamStart }
    ensures no_token { VectorNoToken }
    ensures second_stream_start { VectorSecondStreamStart }
    ensures two_roots { VectorTwoRoots }
    ensures alias_after_anchor { VectorAliasAfterAnchor }
    ensures block_collection_after_tag_in_flow { VectorBlockCollectionAfterTagInFlow }
    ensures directive_without_document { VectorDirectiveWithoutDocument }
    ensures second_version { VectorSecondVersion }
    ensures version_of_later_minor { VectorVersionOfLaterMinor }
    ensures version_of_earlier_minor { VectorVersionOfEarlierMinor }
    ensures version_of_later_major { VectorVersionOfLaterMajor }
    ensures handle_declared_twice { VectorHandleDeclaredTwice }
    ensures default_declared_twice { VectorDefaultDeclaredTwice }
    ensures document_end_first { VectorDocumentEndFirst }
    ensures no_content_after_document_end { VectorNoContentAfterDocumentEnd }
    ensures no_content_in_document { VectorNoContentInDocument }
    ensures no_content_in_block_sequence { VectorNoContentInBlockSequence }
    ensures no_content_in_indentless_sequence { VectorNoContentInIndentlessSequence }
    ensures no_content_in_block_mapping { VectorNoContentInBlockMapping }
    ensures no_content_after_value { VectorNoContentAfterValue }
    ensures no_content_in_flow_sequence { VectorNoContentInFlowSequence }
    ensures no_content_after_separator { VectorNoContentAfterSeparator }
    ensures no_content_in_flow_mapping { VectorNoContentInFlowMapping }
    ensures no_content_in_pair { VectorNoContentInPair }
    ensures no_content_in_pair_value { VectorNoContentInPairValue }
    ensures block_content_in_flow { VectorBlockContentInFlow }
    ensures unknown_handle { VectorUnknownHandle }
    ensures unknown_handle_first { VectorUnknownHandleFirst }
    ensures unknown_handle_before_anchor { VectorUnknownHandleBeforeAnchor }
    ensures unknown_handle_at_stream_end { VectorUnknownHandleAtStreamEnd }
    ensures handle_of_document_before { VectorHandleOfDocumentBefore }
    ensures tag_where_none_may_stand { VectorTagWhereNoneMayStand }
    ensures no_block_entry { VectorNoBlockEntry }
    ensures no_block_entry_after_entry { VectorNoBlockEntryAfterEntry }
    ensures no_key { VectorNoKey }
    ensures no_key_after_indentless { VectorNoKeyAfterIndentless }
    ensures no_key_after_key { VectorNoKeyAfterKey }
    ensures no_separator_in_flow_sequence { VectorNoSeparatorInFlowSequence }
    ensures no_separator_in_flow_mapping { VectorNoSeparatorInFlowMapping }
    ensures no_separator_in_anchored_sequence { VectorNoSeparatorInAnchoredSequence }
    ensures no_content_in_tagged_mapping { VectorNoContentInTaggedMapping }
    ensures no_content_in_anchored_sequence { VectorNoContentInAnchoredSequence }
    ensures no_block_entry_in_anchored_sequence { VectorNoBlockEntryInAnchoredSequence }
    ensures no_key_in_anchored_mapping { VectorNoKeyInAnchoredMapping }
    ensures wrong_end_of_flow_sequence { VectorWrongEndOfFlowSequence }
    ensures wrong_end_of_flow_mapping { VectorWrongEndOfFlowMapping }
{}

/// What a viable prefix determines if the source fails after it.
pub fn beginnings()
    ensures no_tokens { VectorNoTokens }
    ensures stream_begun { VectorStreamBegun }
    ensures directive_begun { VectorDirectiveBegun }
    ensures document_ended { VectorDocumentEnded }
    ensures empty_document_ended { VectorEmptyDocumentEnded }
    ensures document_begun { VectorDocumentBegun }
    ensures document_and_anchor_begun { VectorDocumentAndAnchorBegun }
    ensures value_after_indentless_come { VectorValueAfterIndentlessCome }
    ensures entry_come { VectorEntryCome }
    ensures pair_value_scalar_come { VectorPairValueScalarCome }
    ensures anchor_begun { VectorAnchorBegun }
    ensures properties_begun { VectorPropertiesBegun }
    ensures anchored_key_begun { VectorAnchoredKeyBegun }
    ensures anchored_indentless_begun { VectorAnchoredIndentlessBegun }
    ensures anchored_pair_begun { VectorAnchoredPairBegun }
    ensures scalar_come { VectorScalarCome }
    ensures collection_begun { VectorCollectionBegun }
    ensures alias_come { VectorAliasCome }
    ensures block_entry_come { VectorBlockEntryCome }
    ensures indentless_begun { VectorIndentlessBegun }
    ensures key_come { VectorKeyCome }
    ensures value_after_indentless { VectorValueAfterIndentless }
    ensures value_come_first { VectorValueComeFirst }
    ensures flow_key_come { VectorFlowKeyCome }
    ensures pair_begun { VectorPairBegun }
    ensures pair_separated { VectorPairSeparated }
    ensures node_alone_separated { VectorNodeAloneSeparated }
    ensures pair_value_come { VectorPairValueCome }
    ensures collections_ended { VectorCollectionsEnded }
    ensures amid_properties { VectorAmidProperties }
    ensures amid_tag { VectorAmidTag }
    ensures amid_tag_and_anchor { VectorAmidTagAndAnchor }
{}

/// Which tokens may follow a node that is nothing, at each place.
pub fn empty_places()
    ensures entry { VectorEmptyEntry }
    ensures indentless_entry { VectorEmptyIndentlessEntry }
    ensures key_or_value { VectorEmptyPart }
    ensures document { VectorEmptyDocument }
    ensures pair_key { VectorEmptyPairKey }
    ensures pair_value { VectorEmptyPairValue }
    ensures flow_key { VectorEmptyFlowKey }
    ensures flow_value { VectorEmptyFlowValue }
    ensures implicit_document { NeverEmptyRoot }
    ensures flow_entry { NeverEmptyFlowEntry }
{}
