//! The laws of expanded sizes, over their definition alone. Each function does nothing when it runs: its
//! contract is the law.

ghost use Rattle.std.specs.Prelude.{◌≡◌, ◌⊎◌, ℕ, List, length};
ghost use Rattle.libyaml_documents.specs.Nodes.{EveryIdNamesANode};
ghost use Rattle.libyaml_documents.specs.declared.node.yaml_node_t.{yaml_node_t};
ghost use Rattle.yaml_expansion.specs.Expansion.{HasExpandedSize, IsCyclic, root_of};
ghost use Rattle.yaml_expansion.specs.Ways.{AreTheWays};

/// A document has no two expanded sizes.
pub fn one_size()
    ensures { (nodes : List yaml_node_t) (m n : ℕ) → HasExpandedSize nodes m → HasExpandedSize nodes n → m ≡ n }
{}

/// A document has an expanded size, or one comes from its root to a cycle, and not both.
pub fn size_or_cycle()
    ensures either { (nodes : List yaml_node_t) → EveryIdNamesANode nodes
        → ((size : ℕ) × HasExpandedSize nodes size) ⊎ IsCyclic nodes }
    ensures not_both { (nodes : List yaml_node_t) (size : ℕ) → HasExpandedSize nodes size → ¬ IsCyclic nodes }
{}

/// A document's expanded size is the number of ways that lead from its root down.
pub fn size_counts_ways()
    ensures { (nodes : List yaml_node_t) (size : ℕ) → HasExpandedSize nodes size
        → (ways : List (List ℕ)) × AreTheWays nodes (root_of nodes) ways × (length ways ≡ size) }
{}
