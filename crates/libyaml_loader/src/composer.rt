//! What composes documents, event by event. A load, and a loader that is handed its tokens, are loops over
//! it.
ghost use Rattle.std.specs.Prelude.{◌≡◌, ◌≤◌, ◌⊎◌, [], ◌∷◌, Ok, IfErr, OnOk, true, false};
ghost use Rattle.std.specs.Option.{option_map};
ghost use Rattle.std.specs.Vec.{vec_capacity, vec_len};
ghost use Rattle.libyaml_events.specs.machine.Config.{is_fault};
ghost use Rattle.libyaml_events.specs.sources.Pushes.{done_by};
ghost use Rattle.libyaml_types.specs.Fault.{fault_of, no_fault};
ghost use Rattle.libyaml_graphs.specs.graphs.GraphParts as parts;
ghost use Rattle.libyaml_graphs.specs.machine.Loader.{between};
ghost use Rattle.libyaml_loader.specs.document.Refusals.{fault_by};
ghost use Rattle.libyaml_loader.specs.pushes.Composing.{Composes, ComposesEvent, IsSound, closing_by};
ghost use Rattle.libyaml_loader.specs.pushes.Composing.{ended_by};
ghost use Rattle.libyaml_loader.specs.pushes.Composing.{opening_by, composer_state};
ghost use Rattle.libyaml_graphs.specs.loads.Leads.{Leads};

use crate::context::loader_ctx;
use crate::refusal::{Refusal, fault_by};
use libyaml_documents::yaml_document_t;
use libyaml_events::{MEMORY_FAULT, NO_FAULT, yaml_parser_t_prefix};
use libyaml_types::{
    unnamed_yaml_event_t_data, unnamed_yaml_event_t_data_document_start, yaml_error_type_t,
    yaml_event_t, yaml_mark_t,
};
use std::alloc::Global;
use std::mem;

/// The start of a document.
#[derive(Drop)]
struct Opening {
    pub start: unnamed_yaml_event_t_data_document_start,
    pub mark: yaml_mark_t,
}

/// The end of a document.
#[derive(Copy, Clone)]
pub(crate) struct Closing {
    pub implicit: bool,
    pub mark: yaml_mark_t,
}

/// What is kept between two events.
#[derive(Drop)]
pub(crate) struct DocumentBuilder {
    /// The document that is open, if one is.
    pub ctx: loader_ctx,
    pub is_open: bool,
    /// The error that is kept, or `NO_FAULT`.
    pub fault: yaml_parser_t_prefix,
    /// How many entries each list of a document may have.
    pub max_entries: u32,
}

impl DocumentBuilder {
    /// Returns a composer without an open document and without an error. Each list of a document may have
    /// `max_entries` entries.
    pub(crate) fn new(alloc: Global, max_entries: u32) -> Self
        requires { max_entries ≤ 2147483647 }
        ensures none_open { result.is_open ≡ false }
        ensures fault { fault_of result.fault ≡ no_fault }
        ensures bound { result.max_entries ≡ max_entries }
        ensures sound { IsSound result }
    {
        DocumentBuilder {
            ctx: loader_ctx::new(alloc, max_entries),
            is_open: false,
            fault: NO_FAULT,
            max_entries,
        }
    }

    /// Tells the error that is kept, if there is one.
    ///
    /// # Errors
    ///
    /// The kind of that error.
    pub(crate) fn kept(&self) -> Result<(), yaml_error_type_t>
        ensures { result ≡ done_by (fault_of self.now.fault) }
    {
        match self.fault.error {
            yaml_error_type_t::YAML_NO_ERROR => Ok(()),
            error => Err(error),
        }
    }

    /// Keeps this error for good. The document that is open is dropped.
    #[cold]
    pub(crate) fn keep(&mut self, fault: yaml_parser_t_prefix)
        requires { self.old.max_entries ≤ 2147483647 }
        ensures none_open { self.new.is_open ≡ false }
        ensures sound { IsSound self.new }
        ensures fault { self.new.fault ≡ fault }
        ensures bound { self.new.max_entries ≡ self.old.max_entries }
    {
        self.fault = fault;
        self.is_open = false;
        self.ctx = loader_ctx::new(self.ctx.alloc, self.max_entries);
    }

    /// Composes these events, and appends the documents that end with them.
    ///
    /// # Errors
    ///
    /// The kind of the error that is then kept.
    pub(crate) fn take_events(
        &mut self,
        events: &mut Vec<yaml_event_t>,
        documents: &mut Vec<yaml_document_t>,
    ) -> Result<(), yaml_error_type_t>
        requires sound { IsSound self.old }
        ensures composes { Composes (vec_capacity documents.old ≤ vec_len documents.new) self.old
            events.old.items documents.old.items result self.new documents.new.items }
        ensures none { events.old.items ≡ [] → (self.new ≡ self.old)
            × (documents.new.items ≡ documents.old.items) × (result ≡ Ok tt) }
        ensures sound { IsSound self.new }
        ensures bound { self.new.max_entries ≡ self.old.max_entries }
        ensures fault { OnOk result (self.new.fault ≡ self.old.fault) }
        ensures kept { IfErr result (λ x. (x ≡ self.new.fault.error)
            × (is_fault self.new.fault.error ≡ true)) }
    {
        for event in events.iter_mut() {
            self.take_event_into(event, documents)?;
        }
        Ok(())
    }

    /// Composes an event, and appends the document that ends with it.
    fn take_event_into(
        &mut self,
        event: &mut yaml_event_t,
        documents: &mut Vec<yaml_document_t>,
    ) -> Result<(), yaml_error_type_t>
        requires sound { IsSound self.old }
        ensures composes { Composes (vec_capacity documents.old ≤ vec_len documents.new) self.old
            (event.old ∷ []) documents.old.items result self.new documents.new.items }
        ensures sound { IsSound self.new }
        ensures bound { self.new.max_entries ≡ self.old.max_entries }
        ensures fault { OnOk result (self.new.fault ≡ self.old.fault) }
        ensures kept { IfErr result (λ x. (x ≡ self.new.fault.error)
            × (is_fault self.new.fault.error ≡ true)) }
        ensures capacity { vec_capacity documents.old ≤ vec_capacity documents.new }
    {
        match self.take_event(event)? {
            None => Ok(()),
            Some(closing) => {
                let document = self.end(closing);
                if documents.push(document).is_err() {
                    self.keep(MEMORY_FAULT);
                    return Err(MEMORY_FAULT.error);
                }
                Ok(())
            }
        }
    }

    /// Composes an event: begins a document, or adds to it. If the event ends the document, returns its end,
    /// and leaves the document for `end`.
    ///
    /// # Errors
    ///
    /// The kind of the error that is then kept.
    #[inline(always)]
    pub(crate) fn take_event(
        &mut self,
        event: &mut yaml_event_t,
    ) -> Result<Option<Closing>, yaml_error_type_t>
        requires sound { IsSound self.old }
        ensures composes { ComposesEvent self.old event.old result self.new }
        ensures sound { IsSound self.new }
        ensures bound { self.new.max_entries ≡ self.old.max_entries }
        ensures fault { OnOk result (self.new.fault ≡ self.old.fault) }
        ensures kept { IfErr result (λ x. x ≡ self.new.fault.error) }
        ensures of_loader { IfErr result (λ x. (x ≡ yaml_error_type_t.YAML_MEMORY_ERROR)
            ⊎ (x ≡ yaml_error_type_t.YAML_COMPOSER_ERROR)) }
    {
        if !self.is_open {
            self.begin_if_start(event);
            return Ok(None);
        }
        if let Some(closing) = closing_of(&event.content, event.end_mark) {
            return Ok(Some(closing));
        }
        match self.ctx.add_event(event) {
            Ok(()) => Ok(None),
            Err(refusal) => Err(self.refuse(refusal, event.start_mark)),
        }
    }

    /// Begins a document, if the event is its start.
    #[inline(never)]
    fn begin_if_start(&mut self, event: &mut yaml_event_t)
        requires none_open { self.old.is_open ≡ false }
        requires sound { IsSound self.old }
        ensures leads { Leads self.old.max_entries between (event.old ∷ []) [] (composer_state self.new) }
        ensures sound { IsSound self.new }
        ensures bound { self.new.max_entries ≡ self.old.max_entries }
        ensures fault { self.new.fault ≡ self.old.fault }
    {
        if let Some(opening) = opening_of(event, self.ctx.alloc) {
            self.ctx.start_document(opening.start, opening.mark);
            self.is_open = true;
        }
    }

    /// Ends the document that is open, and returns it.
    pub(crate) fn end(&mut self, closing: Closing) -> yaml_document_t
        requires { self.old.max_entries ≤ 2147483647 }
        ensures none_open { self.new.is_open ≡ false }
        ensures sound { IsSound self.new }
        ensures ended { result ≡ ended_by (closing_by closing) self.old.ctx }
        ensures bound { self.new.max_entries ≡ self.old.max_entries }
        ensures fault { self.new.fault ≡ self.old.fault }
    {
        self.is_open = false;
        let fresh = loader_ctx::new(self.ctx.alloc, self.max_entries);
        let ctx = mem::replace(&mut self.ctx, fresh);
        ctx.into_document(closing.implicit, closing.mark)
    }

    /// Ends the document that is open, and returns it.
    #[inline(always)]
    pub(crate) fn into_document(self, closing: Closing) -> yaml_document_t
        ensures { result ≡ ended_by (closing_by closing) self.ctx }
    {
        self.ctx.into_document(closing.implicit, closing.mark)
    }

    /// Keeps this error, of an event that starts at `mark`, and returns its kind.
    #[cold]
    fn refuse(&mut self, refusal: Refusal, mark: yaml_mark_t) -> yaml_error_type_t
        requires { self.old.max_entries ≤ 2147483647 }
        ensures none_open { self.new.is_open ≡ false }
        ensures sound { IsSound self.new }
        ensures fault { fault_of self.new.fault ≡ fault_by refusal self.old.ctx.first_mark mark }
        ensures bound { self.new.max_entries ≡ self.old.max_entries }
        ensures error { result ≡ self.new.fault.error }
        ensures of_loader { (result ≡ yaml_error_type_t.YAML_MEMORY_ERROR)
            ⊎ (result ≡ yaml_error_type_t.YAML_COMPOSER_ERROR) }
    {
        let fault = fault_by(refusal, self.ctx.first_mark, mark);
        self.keep(fault);
        fault.error
    }
}

/// Moves the start of a document out of the event, if it is one.
fn opening_of(event: &mut yaml_event_t, alloc: Global) -> Option<Opening>
    ensures { option_map opening_by result ≡ parts.opening_of event.old }
{
    let start_mark = event.start_mark;
    match &mut event.content {
        unnamed_yaml_event_t_data::DocumentStart(start) => Some(Opening {
            start: unnamed_yaml_event_t_data_document_start {
                version_directive: start.version_directive,
                tag_directives: mem::replace(&mut start.tag_directives, Vec::new(alloc)),
                implicit: start.implicit,
            },
            mark: start_mark,
        }),
        _ => None,
    }
}

/// Returns the end of a document, if the event is one.
fn closing_of(content: &unnamed_yaml_event_t_data, end_mark: yaml_mark_t) -> Option<Closing>
    ensures { option_map closing_by result ≡ parts.closing_in content.now end_mark }
{
    match content {
        unnamed_yaml_event_t_data::DocumentEnd(end) => Some(Closing {
            implicit: end.implicit,
            mark: end_mark,
        }),
        _ => None,
    }
}
