//! The token of lookahead.
ghost use Rattle.std.specs.Prelude.{◌≡◌, false};

use libyaml_types::{ZERO_MARK, unnamed_yaml_token_t_data, yaml_token_t};

/// The variable into which the source puts each token. Between calls its value has no meaning, unless the
/// token stays.
#[derive(Drop)]
pub(crate) struct Lookahead {
    pub token: yaml_token_t,
    /// Whether the next call takes this token again.
    pub stays: bool,
}

impl Lookahead {
    /// Returns a variable in which no token stays.
    #[inline(always)]
    pub(crate) fn new() -> Self
        ensures { result.stays ≡ false }
    {
        Lookahead {
            token: yaml_token_t {
                content: unnamed_yaml_token_t_data::NoToken,
                start_mark: ZERO_MARK,
                end_mark: ZERO_MARK,
            },
            stays: false,
        }
    }
}
