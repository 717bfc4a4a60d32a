//! The anchors of a document on the way.

ghost use Rattle.std.specs.Prelude.{◌≡◌, pos, IfOk, None, OnErr, OnOk, string_bytes};
ghost use Rattle.std.specs.Option.{option_map};
ghost use Rattle.std.specs.FinMap.{get, insert};
ghost use Rattle.libyaml_graphs.specs.graphs.Graphs.{id_or};
ghost use Rattle.libyaml_graphs.specs.machine.Loader.{no_anchors};
ghost use Rattle.libyaml_loader.specs.document.Ids.{anchored_node_of};

use crate::ids::AnchoredNode;
use std::alloc::{AllocError, Global};
use std::collections::BTreeMap;
use std::marker::Model;

/// The first anchored node of each anchor that came so far.
///
/// libyaml: the parser's field `aliases`.
#[derive(Drop)]
pub(crate) struct Anchors {
    inner: BTreeMap<String, AnchoredNode>,
}

impl Model for Anchors {
    ghost use Rattle.libyaml_graphs.specs.machine.Loader as loader;
    ghost use Rattle.libyaml_loader.specs.document.Anchors.{anchors_code, anchors_of};

    ghost Value = { loader.Anchors };

    ghost coded = { anchors_code };

    ghost view = { λ a. anchors_of a.inner.entries };
}

impl Anchors {
    /// Returns a map without anchors. Takes no memory.
    pub(crate) fn new(alloc: Global) -> Self
        ensures { result ≡ no_anchors }
    {
        Anchors {
            inner: BTreeMap::new(alloc),
        }
    }

    /// Returns the anchored node of this anchor.
    #[tactic(auto, using(crate::proofs::document::AnchorLemmas::get_anchor))]
    pub(crate) fn find(&self, anchor: &str) -> Option<AnchoredNode>
        ensures { option_map anchored_node_of result ≡ get self.now anchor.now }
    {
        self.inner.get(anchor).copied()
    }

    /// Registers the anchored node of this anchor, and returns the one that it had before.
    ///
    /// # Errors
    ///
    /// An allocation failed, which only a new anchor needs.
    pub(crate) fn register(
        &mut self,
        anchor: String,
        anchored_node: AnchoredNode,
    ) -> Result<Option<AnchoredNode>, AllocError>
        ensures new { OnErr result (get self.old (string_bytes anchor) ≡ None) }
        ensures earlier { IfOk result (λ earlier. option_map anchored_node_of earlier ≡
            get self.old (string_bytes anchor)) }
        ensures registered { OnOk result (self.new
            ≡ insert self.old (string_bytes anchor) (anchored_node_of anchored_node)) }
    {
        Ok(self.inner.insert(anchor, anchored_node)?)
    }
}

/// Returns the id of the node that has an anchor, or 0 if none does.
#[inline(always)]
#[tactic(auto, using(crate::proofs::document::AnchorLemmas::magnitude_is))]
pub(crate) fn id_or_none(anchored_node: Option<AnchoredNode>) -> i32
    ensures { result ≡ pos (id_or (option_map anchored_node_of anchored_node)) }
{
    match anchored_node {
        Some(anchored_node) => anchored_node.node,
        None => 0,
    }
}
