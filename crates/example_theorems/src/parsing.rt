//! The next event.

ghost use Rattle.unsafe_libyaml.specs.ParsesNext.{ParsesNext};

use unsafe_libyaml::{
    yaml_error_type_t, yaml_event_t, yaml_parser_parse, yaml_parser_t, yaml_token_source_t,
};

/// Returns the next event.
pub fn next_event<S: yaml_token_source_t>(
    parser: &mut yaml_parser_t<S>,
) -> Result<yaml_event_t, yaml_error_type_t>
    ensures { ParsesNext S.yaml_token_source_t parser.old result parser.new }
{
    yaml_parser_parse(parser)
}
