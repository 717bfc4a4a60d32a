//! Calls that make tokens with texts or other fields. `yaml_token_t::new` makes all others.

ghost use Rattle.std.specs.Prelude.{◌≡◌, IfErr, IfOk, IsErrOf, IsUtf8, OnOk, ◌↔◌, ◌⊎◌};
ghost use Rattle.libyaml_types.specs.TokensMade.{stream_start_token, version_directive_token};
ghost use Rattle.libyaml_types.specs.TokensMade.{tag_directive_token, tag_token, alias_token};
ghost use Rattle.libyaml_types.specs.TokensMade.{anchor_token, scalar_token, BothAreUtf8};

use crate::enums::{yaml_encoding_t, yaml_scalar_style_t};
use crate::mark::yaml_mark_t;
use crate::refusal::yaml_refusal_t;
use crate::token::{
    unnamed_yaml_token_t_data, unnamed_yaml_token_t_data_alias, unnamed_yaml_token_t_data_anchor,
    unnamed_yaml_token_t_data_scalar, unnamed_yaml_token_t_data_stream_start,
    unnamed_yaml_token_t_data_tag, unnamed_yaml_token_t_data_tag_directive,
    unnamed_yaml_token_t_data_version_directive, yaml_token_t,
};
use crate::utf8::{checked, copied};
use std::alloc::Global;

impl yaml_token_t {
    /// Returns the start of a stream in this encoding. Takes no memory.
    pub fn stream_start(
        encoding: yaml_encoding_t,
        start_mark: yaml_mark_t,
        end_mark: yaml_mark_t,
    ) -> Self
        ensures { result ≡ stream_start_token encoding start_mark end_mark }
    {
        let start = unnamed_yaml_token_t_data_stream_start { encoding };
        yaml_token_t::new(
            unnamed_yaml_token_t_data::StreamStart(start),
            start_mark,
            end_mark,
        )
    }

    /// Returns a `%YAML` directive of this version. Takes no memory.
    pub fn version_directive(
        major: i32,
        minor: i32,
        start_mark: yaml_mark_t,
        end_mark: yaml_mark_t,
    ) -> Self
        ensures { result ≡ version_directive_token major minor start_mark end_mark }
    {
        let version = unnamed_yaml_token_t_data_version_directive { major, minor };
        yaml_token_t::new(
            unnamed_yaml_token_t_data::VersionDirective(version),
            start_mark,
            end_mark,
        )
    }

    /// Returns a `%TAG` directive of this handle and its prefix.
    ///
    /// # Errors
    ///
    /// `NotUtf8` if one of them isn't UTF-8, before anything is allocated; `Memory` if an allocation fails.
    pub fn tag_directive(
        alloc: Global,
        handle: &[u8],
        prefix: &[u8],
        start_mark: yaml_mark_t,
        end_mark: yaml_mark_t,
    ) -> Result<Self, yaml_refusal_t>
        ensures ok { IfOk result (λ token. token ≡
            tag_directive_token handle.now prefix.now start_mark end_mark) }
        ensures utf8 { OnOk result (BothAreUtf8 handle.now prefix.now) }
        ensures memory { IsErrOf result yaml_refusal_t.Memory → BothAreUtf8 handle.now prefix.now }
        ensures not_utf8 { IsErrOf result yaml_refusal_t.NotUtf8 ↔ ¬ BothAreUtf8 handle.now prefix.now }
        ensures errors { IfErr result (λ e. (e ≡ yaml_refusal_t.NotUtf8) ⊎ (e ≡ yaml_refusal_t.Memory)) }
    {
        let handle = checked(handle)?;
        let prefix = checked(prefix)?;
        let directive = unnamed_yaml_token_t_data_tag_directive {
            handle: String::from_str(alloc, handle)?,
            prefix: String::from_str(alloc, prefix)?,
        };
        let content = unnamed_yaml_token_t_data::TagDirective(directive);
        Ok(yaml_token_t::new(content, start_mark, end_mark))
    }

    /// Returns an alias of the node with this anchor.
    ///
    /// # Errors
    ///
    /// `NotUtf8` if the name isn't UTF-8, before anything is allocated; `Memory` if an allocation fails.
    pub fn alias(
        alloc: Global,
        name: &[u8],
        start_mark: yaml_mark_t,
        end_mark: yaml_mark_t,
    ) -> Result<Self, yaml_refusal_t>
        ensures ok { IfOk result (λ token. token ≡ alias_token name.now start_mark end_mark) }
        ensures utf8 { OnOk result (IsUtf8 name.now) }
        ensures memory { IsErrOf result yaml_refusal_t.Memory → IsUtf8 name.now }
        ensures not_utf8 { IsErrOf result yaml_refusal_t.NotUtf8 ↔ ¬ IsUtf8 name.now }
        ensures errors { IfErr result (λ e. (e ≡ yaml_refusal_t.NotUtf8) ⊎ (e ≡ yaml_refusal_t.Memory)) }
    {
        let alias = unnamed_yaml_token_t_data_alias {
            value: copied(alloc, name)?,
        };
        Ok(yaml_token_t::new(
            unnamed_yaml_token_t_data::Alias(alias),
            start_mark,
            end_mark,
        ))
    }

    /// Returns the anchor of the node that follows.
    ///
    /// # Errors
    ///
    /// `NotUtf8` if the name isn't UTF-8, before anything is allocated; `Memory` if an allocation fails.
    pub fn anchor(
        alloc: Global,
        name: &[u8],
        start_mark: yaml_mark_t,
        end_mark: yaml_mark_t,
    ) -> Result<Self, yaml_refusal_t>
        ensures ok { IfOk result (λ token. token ≡ anchor_token name.now start_mark end_mark) }
        ensures utf8 { OnOk result (IsUtf8 name.now) }
        ensures memory { IsErrOf result yaml_refusal_t.Memory → IsUtf8 name.now }
        ensures not_utf8 { IsErrOf result yaml_refusal_t.NotUtf8 ↔ ¬ IsUtf8 name.now }
        ensures errors { IfErr result (λ e. (e ≡ yaml_refusal_t.NotUtf8) ⊎ (e ≡ yaml_refusal_t.Memory)) }
    {
        let anchor = unnamed_yaml_token_t_data_anchor {
            value: copied(alloc, name)?,
        };
        Ok(yaml_token_t::new(
            unnamed_yaml_token_t_data::Anchor(anchor),
            start_mark,
            end_mark,
        ))
    }

    /// Returns the tag of the node that follows. `handle` may be empty.
    ///
    /// # Errors
    ///
    /// `NotUtf8` if one of the texts isn't UTF-8, before anything is allocated; `Memory` if an allocation fails.
    pub fn tag(
        alloc: Global,
        handle: &[u8],
        suffix: &[u8],
        start_mark: yaml_mark_t,
        end_mark: yaml_mark_t,
    ) -> Result<Self, yaml_refusal_t>
        ensures ok { IfOk result (λ token. token ≡ tag_token handle.now suffix.now start_mark end_mark) }
        ensures utf8 { OnOk result (BothAreUtf8 handle.now suffix.now) }
        ensures memory { IsErrOf result yaml_refusal_t.Memory → BothAreUtf8 handle.now suffix.now }
        ensures not_utf8 { IsErrOf result yaml_refusal_t.NotUtf8 ↔ ¬ BothAreUtf8 handle.now suffix.now }
        ensures errors { IfErr result (λ e. (e ≡ yaml_refusal_t.NotUtf8) ⊎ (e ≡ yaml_refusal_t.Memory)) }
    {
        let handle = checked(handle)?;
        let suffix = checked(suffix)?;
        let tag = unnamed_yaml_token_t_data_tag {
            handle: String::from_str(alloc, handle)?,
            suffix: String::from_str(alloc, suffix)?,
        };
        Ok(yaml_token_t::new(unnamed_yaml_token_t_data::Tag(tag), start_mark, end_mark))
    }

    /// Returns a scalar with this text, written in this style.
    ///
    /// # Errors
    ///
    /// `NotUtf8` if the text isn't UTF-8, before anything is allocated; `Memory` if an allocation fails.
    pub fn scalar(
        alloc: Global,
        value: &[u8],
        style: yaml_scalar_style_t,
        start_mark: yaml_mark_t,
        end_mark: yaml_mark_t,
    ) -> Result<Self, yaml_refusal_t>
        ensures ok { IfOk result (λ token. token ≡ scalar_token value.now style start_mark end_mark) }
        ensures utf8 { OnOk result (IsUtf8 value.now) }
        ensures memory { IsErrOf result yaml_refusal_t.Memory → IsUtf8 value.now }
        ensures not_utf8 { IsErrOf result yaml_refusal_t.NotUtf8 ↔ ¬ IsUtf8 value.now }
        ensures errors { IfErr result (λ e. (e ≡ yaml_refusal_t.NotUtf8) ⊎ (e ≡ yaml_refusal_t.Memory)) }
    {
        let scalar = unnamed_yaml_token_t_data_scalar {
            value: copied(alloc, value)?,
            style,
        };
        Ok(yaml_token_t::new(
            unnamed_yaml_token_t_data::Scalar(scalar),
            start_mark,
            end_mark,
        ))
    }
}
