//! The enums without payload, and their numbers.
ghost use Rattle.std.specs.Prelude.{◌≡◌};
ghost use Rattle.libyaml_types.specs.Numbers.{encoding_number, break_number, error_type_number};
ghost use Rattle.libyaml_types.specs.Numbers.{scalar_style_number, sequence_style_number};
ghost use Rattle.libyaml_types.specs.Numbers.{mapping_style_number, token_type_number};
ghost use Rattle.libyaml_types.specs.Numbers.{event_type_number, node_type_number};
ghost use Rattle.libyaml_types.specs.Numbers.{parser_state_number};
ghost use Rattle.libyaml_types.specs.Words.{event_type_name, node_type_name};

/// The encoding of a stream.
///
/// libyaml: `yaml_encoding_t`.
#[derive(Copy, Clone, PartialEq, Eq, PartialOrd, Ord, Hash, Debug)]
pub enum yaml_encoding_t {
    /// Not said.
    YAML_ANY_ENCODING,
    /// UTF-8.
    YAML_UTF8_ENCODING,
    /// UTF-16, the low byte first.
    YAML_UTF16LE_ENCODING,
    /// UTF-16, the high byte first.
    YAML_UTF16BE_ENCODING,
}

impl yaml_encoding_t {
    /// Returns the number that libyaml gives this variant.
    pub fn number(self) -> u32
        ensures { result ≡ encoding_number self }
    {
        self as u32
    }
}

/// The line breaks that an emitter writes.
///
/// libyaml: `yaml_break_t`.
#[derive(Copy, Clone, PartialEq, Eq, PartialOrd, Ord, Hash, Debug)]
pub enum yaml_break_t {
    /// The emitter's choice.
    YAML_ANY_BREAK,
    /// CR.
    YAML_CR_BREAK,
    /// LF.
    YAML_LN_BREAK,
    /// CR and LF.
    YAML_CRLN_BREAK,
}

impl yaml_break_t {
    /// Returns the number that libyaml gives this variant.
    pub fn number(self) -> u32
        ensures { result ≡ break_number self }
    {
        self as u32
    }
}

/// The kind of an error.
///
/// libyaml: `yaml_error_type_t`.
#[derive(Copy, Clone, PartialEq, Eq, PartialOrd, Ord, Hash, Debug)]
pub enum yaml_error_type_t {
    /// No error.
    YAML_NO_ERROR,
    /// An allocation failed.
    YAML_MEMORY_ERROR,
    /// The input cannot be read.
    YAML_READER_ERROR,
    /// The input cannot be split into tokens.
    YAML_SCANNER_ERROR,
    /// The tokens are no YAML stream.
    YAML_PARSER_ERROR,
    /// An alias has no anchor, or an anchor is there twice.
    YAML_COMPOSER_ERROR,
    /// The output cannot be written. No parser returns it.
    YAML_WRITER_ERROR,
    /// The events are no YAML stream. No parser returns it.
    YAML_EMITTER_ERROR,
}

impl yaml_error_type_t {
    /// Returns the number that libyaml gives this variant.
    pub fn number(self) -> u32
        ensures { result ≡ error_type_number self }
    {
        self as u32
    }
}

/// How a scalar is written.
///
/// libyaml: `yaml_scalar_style_t`.
#[derive(Copy, Clone, PartialEq, Eq, PartialOrd, Ord, Hash, Debug)]
pub enum yaml_scalar_style_t {
    /// The emitter's choice.
    YAML_ANY_SCALAR_STYLE,
    /// Plain.
    YAML_PLAIN_SCALAR_STYLE,
    /// In `'`.
    YAML_SINGLE_QUOTED_SCALAR_STYLE,
    /// In `"`.
    YAML_DOUBLE_QUOTED_SCALAR_STYLE,
    /// A block after `|`.
    YAML_LITERAL_SCALAR_STYLE,
    /// A block after `>`.
    YAML_FOLDED_SCALAR_STYLE,
}

impl yaml_scalar_style_t {
    /// Returns the number that libyaml gives this variant.
    pub fn number(self) -> u32
        ensures { result ≡ scalar_style_number self }
    {
        self as u32
    }
}

/// How a sequence is written.
///
/// libyaml: `yaml_sequence_style_t`.
#[derive(Copy, Clone, PartialEq, Eq, PartialOrd, Ord, Hash, Debug)]
pub enum yaml_sequence_style_t {
    /// The emitter's choice.
    YAML_ANY_SEQUENCE_STYLE,
    /// Items after `-`.
    YAML_BLOCK_SEQUENCE_STYLE,
    /// In `[` and `]`.
    YAML_FLOW_SEQUENCE_STYLE,
}

impl yaml_sequence_style_t {
    /// Returns the number that libyaml gives this variant.
    pub fn number(self) -> u32
        ensures { result ≡ sequence_style_number self }
    {
        self as u32
    }
}

/// How a mapping is written.
///
/// libyaml: `yaml_mapping_style_t`.
#[derive(Copy, Clone, PartialEq, Eq, PartialOrd, Ord, Hash, Debug)]
pub enum yaml_mapping_style_t {
    /// The emitter's choice.
    YAML_ANY_MAPPING_STYLE,
    /// Keys by indentation.
    YAML_BLOCK_MAPPING_STYLE,
    /// In `{` and `}`.
    YAML_FLOW_MAPPING_STYLE,
}

impl yaml_mapping_style_t {
    /// Returns the number that libyaml gives this variant.
    pub fn number(self) -> u32
        ensures { result ≡ mapping_style_number self }
    {
        self as u32
    }
}

/// The type of a token.
///
/// libyaml: `yaml_token_type_t`.
#[derive(Copy, Clone, PartialEq, Eq, PartialOrd, Ord, Hash, Debug)]
pub enum yaml_token_type_t {
    /// The empty token.
    YAML_NO_TOKEN,
    /// The start of the stream.
    YAML_STREAM_START_TOKEN,
    /// The end of the stream.
    YAML_STREAM_END_TOKEN,
    /// `%YAML`.
    YAML_VERSION_DIRECTIVE_TOKEN,
    /// `%TAG`.
    YAML_TAG_DIRECTIVE_TOKEN,
    /// `---`.
    YAML_DOCUMENT_START_TOKEN,
    /// `...`.
    YAML_DOCUMENT_END_TOKEN,
    /// The start of a block sequence.
    YAML_BLOCK_SEQUENCE_START_TOKEN,
    /// The start of a block mapping.
    YAML_BLOCK_MAPPING_START_TOKEN,
    /// The end of a block sequence or mapping.
    YAML_BLOCK_END_TOKEN,
    /// `[`.
    YAML_FLOW_SEQUENCE_START_TOKEN,
    /// `]`.
    YAML_FLOW_SEQUENCE_END_TOKEN,
    /// `{`.
    YAML_FLOW_MAPPING_START_TOKEN,
    /// `}`.
    YAML_FLOW_MAPPING_END_TOKEN,
    /// `-`.
    YAML_BLOCK_ENTRY_TOKEN,
    /// `,`.
    YAML_FLOW_ENTRY_TOKEN,
    /// A key: `?`, or none for a simple key.
    YAML_KEY_TOKEN,
    /// `:`.
    YAML_VALUE_TOKEN,
    /// `*` and a name.
    YAML_ALIAS_TOKEN,
    /// `&` and a name.
    YAML_ANCHOR_TOKEN,
    /// `!` and a tag.
    YAML_TAG_TOKEN,
    /// A scalar.
    YAML_SCALAR_TOKEN,
}

impl yaml_token_type_t {
    /// Returns the number that libyaml gives this variant.
    pub fn number(self) -> u32
        ensures { result ≡ token_type_number self }
    {
        self as u32
    }
}

/// The type of an event.
///
/// libyaml: `yaml_event_type_t`.
#[derive(Copy, Clone, PartialEq, Eq, PartialOrd, Ord, Hash, Debug)]
pub enum yaml_event_type_t {
    /// The empty event.
    YAML_NO_EVENT,
    /// The start of the stream.
    YAML_STREAM_START_EVENT,
    /// The end of the stream.
    YAML_STREAM_END_EVENT,
    /// The start of a document.
    YAML_DOCUMENT_START_EVENT,
    /// The end of a document.
    YAML_DOCUMENT_END_EVENT,
    /// An alias.
    YAML_ALIAS_EVENT,
    /// A scalar.
    YAML_SCALAR_EVENT,
    /// The start of a sequence.
    YAML_SEQUENCE_START_EVENT,
    /// The end of a sequence.
    YAML_SEQUENCE_END_EVENT,
    /// The start of a mapping.
    YAML_MAPPING_START_EVENT,
    /// The end of a mapping.
    YAML_MAPPING_END_EVENT,
}

impl yaml_event_type_t {
    /// Returns the number that libyaml gives this variant.
    pub fn number(self) -> u32
        ensures { result ≡ event_type_number self }
    {
        self as u32
    }

    /// Returns the name of this type of event, as `sequence start`.
    pub fn name(self) -> &'static str
        ensures { result.now ≡ event_type_name self }
    {
        match self {
            yaml_event_type_t::YAML_NO_EVENT => "no event",
            yaml_event_type_t::YAML_STREAM_START_EVENT => "stream start",
            yaml_event_type_t::YAML_STREAM_END_EVENT => "stream end",
            yaml_event_type_t::YAML_DOCUMENT_START_EVENT => "document start",
            yaml_event_type_t::YAML_DOCUMENT_END_EVENT => "document end",
            yaml_event_type_t::YAML_ALIAS_EVENT => "alias",
            yaml_event_type_t::YAML_SCALAR_EVENT => "scalar",
            yaml_event_type_t::YAML_SEQUENCE_START_EVENT => "sequence start",
            yaml_event_type_t::YAML_SEQUENCE_END_EVENT => "sequence end",
            yaml_event_type_t::YAML_MAPPING_START_EVENT => "mapping start",
            yaml_event_type_t::YAML_MAPPING_END_EVENT => "mapping end",
        }
    }
}

/// The type of a node.
///
/// libyaml: `yaml_node_type_t`.
#[derive(Copy, Clone, PartialEq, Eq, PartialOrd, Ord, Hash, Debug)]
pub enum yaml_node_type_t {
    /// No node.
    YAML_NO_NODE,
    /// A scalar.
    YAML_SCALAR_NODE,
    /// A sequence.
    YAML_SEQUENCE_NODE,
    /// A mapping.
    YAML_MAPPING_NODE,
}

impl yaml_node_type_t {
    /// Returns the number that libyaml gives this variant.
    pub fn number(self) -> u32
        ensures { result ≡ node_type_number self }
    {
        self as u32
    }

    /// Returns the name of this type of node, as `sequence`.
    pub fn name(self) -> &'static str
        ensures { result.now ≡ node_type_name self }
    {
        match self {
            yaml_node_type_t::YAML_NO_NODE => "no node",
            yaml_node_type_t::YAML_SCALAR_NODE => "scalar",
            yaml_node_type_t::YAML_SEQUENCE_NODE => "sequence",
            yaml_node_type_t::YAML_MAPPING_NODE => "mapping",
        }
    }
}

/// Where a parser is in the grammar.
///
/// No run enters `YAML_PARSE_BLOCK_NODE_OR_INDENTLESS_SEQUENCE_STATE` or `YAML_PARSE_FLOW_NODE_STATE`.
///
/// libyaml: `yaml_parser_state_t`.
#[derive(Copy, Clone, PartialEq, Eq, PartialOrd, Ord, Hash, Debug)]
pub enum yaml_parser_state_t {
    /// STREAM-START is expected.
    YAML_PARSE_STREAM_START_STATE,
    /// The first document is expected, also without `---`.
    YAML_PARSE_IMPLICIT_DOCUMENT_START_STATE,
    /// `---` or the end of the stream is expected.
    YAML_PARSE_DOCUMENT_START_STATE,
    /// The content of a document is expected.
    YAML_PARSE_DOCUMENT_CONTENT_STATE,
    /// The end of a document is expected.
    YAML_PARSE_DOCUMENT_END_STATE,
    /// A block node is expected.
    YAML_PARSE_BLOCK_NODE_STATE,
    /// A block node or a sequence without indentation is expected.
    YAML_PARSE_BLOCK_NODE_OR_INDENTLESS_SEQUENCE_STATE,
    /// A flow node is expected.
    YAML_PARSE_FLOW_NODE_STATE,
    /// The first entry of a block sequence is expected.
    YAML_PARSE_BLOCK_SEQUENCE_FIRST_ENTRY_STATE,
    /// An entry of a block sequence is expected.
    YAML_PARSE_BLOCK_SEQUENCE_ENTRY_STATE,
    /// An entry of a sequence without indentation is expected.
    YAML_PARSE_INDENTLESS_SEQUENCE_ENTRY_STATE,
    /// The first key of a block mapping is expected.
    YAML_PARSE_BLOCK_MAPPING_FIRST_KEY_STATE,
    /// A key of a block mapping is expected.
    YAML_PARSE_BLOCK_MAPPING_KEY_STATE,
    /// A value of a block mapping is expected.
    YAML_PARSE_BLOCK_MAPPING_VALUE_STATE,
    /// The first entry of a flow sequence is expected.
    YAML_PARSE_FLOW_SEQUENCE_FIRST_ENTRY_STATE,
    /// An entry of a flow sequence is expected.
    YAML_PARSE_FLOW_SEQUENCE_ENTRY_STATE,
    /// The key of a pair in a flow sequence is expected.
    YAML_PARSE_FLOW_SEQUENCE_ENTRY_MAPPING_KEY_STATE,
    /// The value of a pair in a flow sequence is expected.
    YAML_PARSE_FLOW_SEQUENCE_ENTRY_MAPPING_VALUE_STATE,
    /// The end of a pair in a flow sequence is expected.
    YAML_PARSE_FLOW_SEQUENCE_ENTRY_MAPPING_END_STATE,
    /// The first key of a flow mapping is expected.
    YAML_PARSE_FLOW_MAPPING_FIRST_KEY_STATE,
    /// A key of a flow mapping is expected.
    YAML_PARSE_FLOW_MAPPING_KEY_STATE,
    /// A value of a flow mapping is expected.
    YAML_PARSE_FLOW_MAPPING_VALUE_STATE,
    /// The empty value of a flow mapping comes next.
    YAML_PARSE_FLOW_MAPPING_EMPTY_VALUE_STATE,
    /// Nothing is expected: the stream has ended.
    YAML_PARSE_END_STATE,
}

impl yaml_parser_state_t {
    /// Returns the number that libyaml gives this variant.
    pub fn number(self) -> u32
        ensures { result ≡ parser_state_number self }
    {
        self as u32
    }
}
