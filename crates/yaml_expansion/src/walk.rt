//! A walk over the nodes, from the root down and back, by which each gets its size once.
ghost use Rattle.std.specs.Prelude.{◌≡◌, ◌++◌, ◌∷◌, [], ◌<◌, IfOk, OnOk};
ghost use Rattle.std.specs.Prelude.{get_or, length, replicate, slice_set, vec_len};
ghost use Rattle.libyaml_documents.specs.Nodes.{EveryIdNamesANode};
ghost use Rattle.yaml_expansion.specs.Sizes.{bounded};
ghost use Rattle.yaml_expansion.specs.Walks.{IsUnderWay, StepSays, times_open};
ghost use Rattle.yaml_expansion.specs.declared.walk.Mark.TheVariants.{New, Open};

use crate::children::child_at;
use crate::size::{Size, size_of, sum_of};
use libyaml_documents::yaml_node_t;
use std::alloc::{AllocError, Global};

/// How far a node has been measured.
#[derive(Copy, Clone)]
pub(crate) enum Mark {
    /// The walk did not come to it.
    New,
    /// The walk is below it: of its first `next` ids the trees are measured, and have `size` nodes with it.
    Open { next: usize, size: Size },
    /// Its tree has so many nodes.
    Done(Size),
}

/// A walk, by the places of nodes: the node of id 1 has place 0.
#[derive(Drop)]
pub(crate) struct Walk {
    /// The mark of each node.
    marks: Vec<Mark>,
    /// The places from the root down to the node above this one.
    above: Vec<usize>,
    /// Where the walk is.
    place: usize,
    /// The bound.
    max: u64,
}

/// Returns so many new marks.
///
/// # Errors
///
/// `AllocError` where an allocation fails.
fn new_marks(alloc: Global, count: usize) -> Result<Vec<Mark>, AllocError>
    ensures { IfOk result (λ marks. marks.items ≡ replicate count New) }
{
    let mut marks = Vec::new(alloc);
    marks.resize(count, Mark::New)?;
    Ok(marks)
}

/// What a step led to.
pub(crate) enum Step {
    /// The walk goes on.
    Moves,
    /// It came back to the root, whose tree has so many nodes.
    Ends(Size),
    /// It came from below to the node at this place.
    Meets(usize),
}

impl Walk {
    /// Returns the walk at the root.
    ///
    /// # Errors
    ///
    /// `AllocError` where an allocation fails.
    pub(crate) fn new(alloc: Global, nodes: &[yaml_node_t], max: u64) -> Result<Walk, AllocError>
        requires { 0 < length nodes.now }
        ensures at_root { IfOk result (λ walk. IsUnderWay nodes.now walk) }
        ensures bound { IfOk result (λ walk. walk.max ≡ max) }
    {
        let mut marks = new_marks(alloc, nodes.len())?;
        marks[0] = Mark::Open {
            next: 0,
            size: size_of(1, max),
        };
        Ok(Walk {
            marks,
            above: Vec::new(alloc),
            place: 0,
            max,
        })
    }

    /// Returns the mark of the node at a place.
    #[tactic(auto, using(crate::proofs::Walks::mark_read))]
    fn mark_at(&self, place: usize) -> Mark
        requires { place < vec_len self.now.marks }
        ensures { result ≡ get_or self.now.marks.items place New }
    {
        self.marks[place]
    }

    /// Returns how many ids of the node here are measured, and the size up to there.
    fn progress(&self) -> (usize, Size)
        requires inside { self.now.place < vec_len self.now.marks }
        requires is_open { times_open (get_or self.now.marks.items self.now.place New) ≡ 1 }
        ensures { get_or self.now.marks.items self.now.place New ≡ Open result.0 result.1 }
    {
        match self.marks[self.place] {
            Mark::Open { next, size } => (next, size),
            _ => unreachable!(),
        }
    }

    /// Goes down to a node that is new.
    ///
    /// # Errors
    ///
    /// `AllocError` where an allocation fails.
    fn descend(&mut self, place: usize) -> Result<(), AllocError>
        requires { place < vec_len self.old.marks }
        ensures marks { OnOk result (self.new.marks.items
            ≡ slice_set self.old.marks.items place (Open 0 (bounded self.old.max 1))) }
        ensures above { OnOk result (self.new.above.items ≡ self.old.above.items ++ self.old.place ∷ []) }
        ensures place { OnOk result (self.new.place ≡ place) }
        ensures max { self.new.max ≡ self.old.max }
    {
        self.above.push(self.place)?;
        self.marks[place] = Mark::Open {
            next: 0,
            size: size_of(1, self.max),
        };
        self.place = place;
        Ok(())
    }

    /// Looks at the next id of the node here, or goes up from it where there is none.
    ///
    /// # Errors
    ///
    /// `AllocError` where an allocation fails.
    pub(crate) fn step(&mut self, nodes: &[yaml_node_t]) -> Result<Step, AllocError>
        requires ids { EveryIdNamesANode nodes.now }
        requires at { IsUnderWay nodes.now self.old }
        ensures said { IfOk result (λ step. StepSays nodes.now self.old self.new step) }
        ensures max { self.new.max ≡ self.old.max }
    {
        let (next, size) = self.progress();
        let Some(child) = child_at(nodes, self.place, next) else {
            self.marks[self.place] = Mark::Done(size);
            return match self.above.pop() {
                Some(place) => {
                    self.place = place;
                    Ok(Step::Moves)
                }
                None => Ok(Step::Ends(size)),
            };
        };
        match self.mark_at(child) {
            Mark::New => {
                self.descend(child)?;
                Ok(Step::Moves)
            }
            Mark::Open { .. } => Ok(Step::Meets(child)),
            Mark::Done(below) => {
                self.marks[self.place] = Mark::Open {
                    next: next + 1,
                    size: sum_of(size, below, self.max),
                };
                Ok(Step::Moves)
            }
        }
    }
}
