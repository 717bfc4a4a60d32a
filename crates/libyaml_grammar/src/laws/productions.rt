//! One law for each production of the grammar: its tokens, with the same tokens after them, belong to one
//! tree. A whole collection and a valid list need not even the same tokens after them.
#![tactic(auto, using(crate::proofs::trees::Productions::productions))]

ghost use Rattle.std.specs.Prelude.{◌≡◌, ◌++◌, List};
ghost use Rattle.libyaml_grammar.specs.partial.PartialTrees.{Place, place_tokens};
ghost use Rattle.libyaml_grammar.specs.grammar.ValidLists.{IsValidList};
ghost use Rattle.libyaml_grammar.specs.grammar.Tokens.{Token};
ghost use Rattle.libyaml_grammar.specs.grammar.Trees.{BlockItems, BlockNode, BlockSlot};
ghost use Rattle.libyaml_grammar.specs.grammar.Trees.{Directives, Documents, FlowItems, FlowLast};
ghost use Rattle.libyaml_grammar.specs.grammar.Trees.{FlowMember, FlowNode, FlowSlot};
ghost use Rattle.libyaml_grammar.specs.grammar.Trees.{IsCollection, Parts, Properties, Slot};
ghost use Rattle.libyaml_grammar.specs.grammar.Trees.{block_node_tokens, block_slot_tokens};
ghost use Rattle.libyaml_grammar.specs.grammar.Trees.{directives_tokens, documents_tokens};
ghost use Rattle.libyaml_grammar.specs.grammar.Trees.{flow_items_tokens, flow_last_tokens};
ghost use Rattle.libyaml_grammar.specs.grammar.Trees.{flow_member_tokens, flow_node_tokens};
ghost use Rattle.libyaml_grammar.specs.grammar.Trees.{flow_slot_tokens, items_tokens};
ghost use Rattle.libyaml_grammar.specs.grammar.Trees.{parts_tokens, properties_tokens};
ghost use Rattle.libyaml_grammar.specs.grammar.Trees.{slot_tokens};

/// The properties of a node: an anchor, a tag, or both.
pub fn one_properties()
    ensures { (s t : Properties) (r : List Token) → properties_tokens s r ≡ properties_tokens t r → s ≡ t }
{}

/// A flow node: an alias, properties alone, a scalar or a flow collection; or nothing in its place.
pub fn one_flow_node()
    ensures node { (s t : FlowNode) (r : List Token) → flow_node_tokens s r ≡ flow_node_tokens t r → s ≡ t }
    ensures or_nothing { (s t : FlowSlot) (r : List Token) → flow_slot_tokens s r ≡ flow_slot_tokens t r
        → s ≡ t }
{}

/// An entry of a flow collection: a node or a pair.
pub fn one_flow_entry()
    ensures { (s t : FlowMember) (r : List Token) → flow_member_tokens s r ≡ flow_member_tokens t r → s ≡ t }
{}

/// The entries of a flow collection: those with a separator after them, and a last one or none.
pub fn one_flow_collection()
    ensures { (s t : FlowItems) (u v : FlowLast) (r : List Token)
        → flow_items_tokens s (flow_last_tokens u r) ≡ flow_items_tokens t (flow_last_tokens v r) → (s ≡ t)
        × (u ≡ v) }
{}

/// A block node: a flow node, a block sequence or a block mapping; or nothing in its place.
pub fn one_block_node()
    ensures node { (s t : BlockNode) (r : List Token) → block_node_tokens s r ≡ block_node_tokens t r
        → s ≡ t }
    ensures or_nothing { (s t : BlockSlot) (r : List Token) → block_slot_tokens s r ≡ block_slot_tokens t r
        → s ≡ t }
{}

/// The entries of a block sequence.
pub fn one_block_sequence()
    ensures { (s t : BlockItems) (r : List Token) → items_tokens s r ≡ items_tokens t r → s ≡ t }
{}

/// The keys and values of a block mapping.
pub fn one_block_mapping()
    ensures { (s t : Parts) (r : List Token) → parts_tokens s r ≡ parts_tokens t r → s ≡ t }
{}

/// One key or value of a block mapping: a block node, nothing, or an indentless sequence.
pub fn one_key_or_value()
    ensures { (s t : Slot) (r : List Token) → slot_tokens s r ≡ slot_tokens t r → s ≡ t }
{}

/// The directives of a document.
pub fn one_list_of_directives()
    ensures { (s t : Directives) (r : List Token) → directives_tokens s r ≡ directives_tokens t r → s ≡ t }
{}

/// The documents from a stream's start on.
pub fn one_list_of_documents()
    ensures { (s t : Documents) (r : List Token) → documents_tokens s r ≡ documents_tokens t r → s ≡ t }
{}

/// No collection with an opening and a closing token begins another, whatever follows the two.
#[tactic(auto, using(crate::proofs::trees::WholeParts::collection_law))]
pub fn one_collection()
    ensures { (s t : BlockNode) (a b : List Token) → IsCollection s → IsCollection t
        → block_node_tokens s a ≡ block_node_tokens t b → (s ≡ t) × (a ≡ b) }
{}

/// No valid list begins another, whatever follows the two.
pub fn one_valid_list()
    ensures { (l m a b : List Token) → IsValidList l → IsValidList m → l ++ a ≡ m ++ b → (l ≡ m) × (a ≡ b) }
{}

/// The place at which a node is expected after a list of tokens.
pub fn one_place()
    ensures { (p q : Place) (r : List Token) → place_tokens p r ≡ place_tokens q r → p ≡ q }
{}
