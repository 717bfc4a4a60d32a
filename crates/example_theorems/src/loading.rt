//! The next document.

ghost use Rattle.std.specs.Prelude.{◌≡◌, true};
ghost use Rattle.unsafe_libyaml.specs.Bounds.{next_bounded};
ghost use Rattle.unsafe_libyaml.specs.History.{ForHistory, between_documents};
ghost use Rattle.unsafe_libyaml.specs.Ids.{magnitude};
ghost use Rattle.unsafe_libyaml.specs.Loading.{LoadsFrom};
ghost use Rattle.unsafe_libyaml.specs.Loads.{left_over};

use unsafe_libyaml::{
    yaml_document_t, yaml_error_type_t, yaml_parser_load, yaml_parser_parse, yaml_parser_t,
    yaml_token_source_t,
};

/// Returns the next document, over every source, said by the parser's history.
pub fn next_document<S: yaml_token_source_t>(
    parser: &mut yaml_parser_t<S>,
) -> Result<yaml_document_t, yaml_error_type_t>
    requires { between_documents parser.old ≡ true }
    ensures { ForHistory parser.old (λ _ _. LoadsFrom S.yaml_token_source_t
        (next_bounded (magnitude parser.old.max_entries)) left_over parser.old result parser.new) }
{
    yaml_parser_load(parser)
}

/// Returns true: after a load that failed the next one fails too.
pub fn next_load_fails<S: yaml_token_source_t>(parser: &mut yaml_parser_t<S>) -> bool
    requires { between_documents parser.old ≡ true }
    ensures { result ≡ true }
{
    match yaml_parser_load(parser) {
        Ok(_) => true,
        Err(_) => yaml_parser_load(parser).is_err(),
    }
}

/// Returns true: after a call of the parser that failed the next load fails too.
pub fn load_fails_after_parse<S: yaml_token_source_t>(parser: &mut yaml_parser_t<S>) -> bool
    ensures { result ≡ true }
{
    match yaml_parser_parse(parser) {
        Ok(_) => true,
        Err(_) => yaml_parser_load(parser).is_err(),
    }
}
