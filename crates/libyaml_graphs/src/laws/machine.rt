//! The loader as a machine over events gives the loads of every run. Each function does nothing when it
//! runs: its contract is the law.

ghost use Rattle.std.specs.Prelude.{◌≡◌, ℕ, List};
ghost use Rattle.libyaml_grammar.specs.grammar.Events.{Event};
ghost use Rattle.libyaml_grammar.specs.runs.Runs.{Ending};
ghost use Rattle.libyaml_graphs.specs.loads.Bounds.{next_bounded};
ghost use Rattle.libyaml_graphs.specs.machine.Loader.{between, load_from};

/// From between documents to the end of the next, the machine gives the next load within its bound.
pub fn one_load()
    ensures { (r : List Event) (x : Ending) (n : ℕ) → load_from n between r x ≡ next_bounded n r x }
{}
