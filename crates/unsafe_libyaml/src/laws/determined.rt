//! That the contracts of whole runs leave nothing open: two results that they allow are one.

ghost use Rattle.unsafe_libyaml.specs.OneWhole.{OneDocuments, OneRun};
ghost use Rattle.unsafe_libyaml.specs.WholeLoads.{GathersLoads};
ghost use Rattle.unsafe_libyaml.specs.WholeRun.{Gathers};
ghost use Rattle.unsafe_libyaml.specs.declared.load_all.yaml_documents_t.{yaml_documents_t};
ghost use Rattle.unsafe_libyaml.specs.declared.parse_all.yaml_run_t.{yaml_run_t};

pub use libyaml_events::laws::determined::{
    one_history, one_list, one_parse, one_push, one_pushed, one_source,
};
use libyaml_events::yaml_token_source_t;

/// Two lists of documents of one source, both of which the contract of `yaml_parser_load_all` allows: if the
/// source gave the same results as far as both asked, they are one.
pub fn one_list_of_documents<S: yaml_token_source_t>()
    ensures { (source : S) (a b : yaml_documents_t) → (g : GathersLoads S.gives source a)
        → (h : GathersLoads S.gives source b) → OneDocuments S.gives source a b g h }
{}

/// Two runs of one source, both of which the contract of `yaml_parser_parse_all` allows: if the source gave
/// the same results as far as both asked, they are one.
pub fn one_whole_run<S: yaml_token_source_t>()
    ensures { (source : S) (a b : yaml_run_t) → (g : Gathers S.gives source a)
        → (h : Gathers S.gives source b) → OneRun S.gives source a b g h }
{}
