//! The tag handles that a document declares.
ghost use Rattle.std.specs.Prelude.{◌≡◌, None, OnOk, OnErr, string_bytes};
ghost use Rattle.std.specs.Option.{option_copied};
ghost use Rattle.std.specs.FinMap as map;
ghost use Rattle.libyaml_events.specs.machine.Config.{no_handles};
ghost use Rattle.libyaml_events.specs.parsers.HandleList.{first_prefix};

use crate::texts::is_text;
use std::alloc::{AllocError, Global};
use std::collections::BTreeMap;
use std::marker::Model;

/// How many handles are looked for one after another.
const MOST_IN_LIST: usize = 4;

/// The prefix of each handle that a document declares. The first handles lie in a list, whose memory stays
/// for the next document; the others lie in a map, which finds each quickly among many.
#[derive(Drop)]
pub(crate) struct HandleTable {
    first: Vec<(String, String)>,
    others: BTreeMap<String, String>,
}

impl Model for HandleTable {
    ghost use Rattle.std.specs.Prelude.{◌++◌};
    ghost use Rattle.libyaml_events.specs.machine.Config as config;
    ghost use Rattle.libyaml_events.specs.machine.Config.{handles_code, handles_of};

    ghost Value = { config.Handles };

    ghost coded = { handles_code };

    ghost view = { λ h. handles_of (h.first.items ++ h.others.entries) };
}

/// Returns the prefix of a handle in a list.
fn first_prefix<'a>(entries: &'a [(String, String)], handle: &str) -> Option<&'a str>
    ensures { option_copied result ≡ first_prefix entries.now handle.now }
{
    for entry in entries {
        if is_text(&entry.0, handle) {
            return Some(&entry.1);
        }
    }
    None
}

impl HandleTable {
    /// Returns a table without handles. Takes no memory.
    pub(crate) fn new(alloc: Global) -> Self
        ensures { result ≡ no_handles }
    {
        HandleTable {
            first: Vec::new(alloc),
            others: BTreeMap::new(alloc),
        }
    }

    /// Returns the prefix of a handle.
    #[inline(always)]
    pub(crate) fn get(&self, handle: &str) -> Option<&str>
        ensures { option_copied result ≡ map.get self.now handle.now }
    {
        if self.first.is_empty() && self.others.is_empty() {
            return None;
        }
        self.found(handle)
    }

    /// Looks the handle up in the list, and then in the map.
    #[inline(never)]
    fn found(&self, handle: &str) -> Option<&str>
        ensures { option_copied result ≡ map.get self.now handle.now }
    {
        if let Some(prefix) = first_prefix(&self.first, handle) {
            return Some(prefix);
        }
        match self.others.get(handle) {
            Some(prefix) => Some(prefix.as_str()),
            None => None,
        }
    }

    /// Puts a handle that the table doesn't have, and its prefix, into the table.
    ///
    /// # Errors
    ///
    /// An allocation failed.
    pub(crate) fn insert(&mut self, handle: String, prefix: String) -> Result<(), AllocError>
        requires { map.get self.old (string_bytes handle) ≡ None }
        ensures ok { OnOk result (self.new
            ≡ map.insert self.old (string_bytes handle) (string_bytes prefix)) }
        ensures err { OnErr result (self.new ≡ self.old) }
    {
        if self.first.len() >= MOST_IN_LIST {
            return self.insert_in_map(handle, prefix);
        }
        self.first.insert(0, (handle, prefix))?;
        Ok(())
    }

    /// Puts such a handle into the map.
    fn insert_in_map(&mut self, handle: String, prefix: String) -> Result<(), AllocError>
        requires { map.get self.old (string_bytes handle) ≡ None }
        ensures ok { OnOk result (self.new
            ≡ map.insert self.old (string_bytes handle) (string_bytes prefix)) }
        ensures err { OnErr result (self.new ≡ self.old) }
    {
        match self.others.insert(handle, prefix) {
            Ok(_) => Ok(()),
            Err(_) => Err(AllocError),
        }
    }

    /// Forgets all handles. Takes no memory.
    pub(crate) fn clear(&mut self)
        ensures { self.new ≡ no_handles }
    {
        if self.first.is_empty() && self.others.is_empty() {
            return;
        }
        self.first.clear();
        self.others = BTreeMap::new(*self.first.allocator());
    }
}
