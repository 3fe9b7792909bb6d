// `initial` and `always`.

ghost use Rattle.std.specs.Prelude.{◌≡◌, ◌++◌, ℕ, List, IfOk, map, option_map, option_and_then, is_some};
ghost use Rattle.std.specs.List.{list_all, list_any};
ghost use Rattle.vf_base.specs.Base.{source_place};
ghost use Rattle.v_tree.specs.Trees.{has_name};
ghost use Rattle.v_tree.specs.Views.{select_of, entry_of, waits_of, statement_of};
ghost use Rattle.v_comb.specs.CombinationalForm.{block_form, is_whole_select};
ghost use Rattle.v_comb.specs.Forms.{form_of};
ghost use Rattle.v_names.specs.Scopes.{looked_up, is_memory, is_parameter};
ghost use Rattle.v_names.specs.ScopeViews.{entry_of as meaning_of};
ghost use Rattle.v_elab.specs.Blocks.{is_plain_entry, parameter_names, block_waits, net_targets, block_targets};
ghost use Rattle.v_elab.specs.Walk as plain;
ghost use Rattle.v_elab.specs.Walk.{targets_by_mode, process_part};
ghost use Rattle.elab_parts.specs.PartViews.{part_of};
ghost use Rattle.module_scope.specs.Kept.{kept};
ghost use Rattle.elab_items.specs.Heres.{FindsParameters, IsHere};
ghost use Rattle.elab_items.specs.Forms.{entry_names, waiting_form};

use crate::here::Here;
use elab_parts::{Part, WalkedProcess};
use four_value::Edge;
use module_scope::NameMap;
use std::alloc::Global;
use v_comb::{Form, comb_form};
use v_elab::Mode;
use v_names::{Entry as Meaning, Scope};
use v_tree::{Entry, Index, Select, Stmt, Waits};
use vf_base::{NoMemory, Place, Seq, Text};

/// Whether a select is a whole name.
fn is_whole(select: &Select) -> bool
    ensures { result ≡ is_whole_select (select_of select.now) }
{
    match &select.index {
        Index::Whole => true,
        Index::Bit(_) => false,
        Index::Part(_, _) => false,
    }
}

/// Whether an entry of an event control is a whole name without an edge.
fn is_plain_entry(entry: &Entry) -> bool
    ensures { result ≡ is_plain_entry (entry_of entry.now) }
{
    match entry.edge {
        Edge::Any => is_whole(&entry.select),
        Edge::Pos => false,
        Edge::Neg => false,
    }
}

/// The names of some entries.
fn entry_names<'u>(alloc: Global, entries: &'u [Entry]) -> Result<NameMap<'u, Place>, NoMemory>
    ensures { IfOk result (λ names. (name : List ℕ) → is_some (kept names name) ≡ has_name (entry_names (map entry_of entries.now)) name) }
{
    let mut names = NameMap::new(alloc);
    'entries: for entry in entries {
        names.put(entry.select.name.as_bytes(), entry.select.place)?;
    }
    Ok(names)
}

/// Whether what a name means is a parameter.
fn is_parameter_entry(entry: &Option<Meaning>) -> bool
    ensures { result ≡ is_parameter (option_map meaning_of entry.now) }
{
    match entry {
        Some(Meaning::Param(_, _)) => true,
        Some(Meaning::RefusedParam) => true,
        Some(Meaning::WaitingParam) => true,
        _ => false,
    }
}

/// Whether what a name means is a memory.
fn is_memory_entry(entry: &Option<Meaning>) -> bool
    ensures { result ≡ is_memory (option_map meaning_of entry.now) }
{
    match entry {
        Some(Meaning::Memory { .. }) => true,
        _ => false,
    }
}

/// Whether a name is that of a parameter.
fn is_parameter(scope: &Scope<'_>, name: &Text) -> bool
    ensures { FindsParameters scope.now → result ≡ has_name (parameter_names scope.now) name.now }
{
    is_parameter_entry(&scope.lookup(name))
}

/// Whether a name is waited for, or is that of a parameter, which never changes.
fn is_waited_for(scope: &Scope<'_>, waited: &NameMap<'_, Place>, name: &Text) -> bool
    ensures { FindsParameters scope.now → (names : List (List ℕ)) → ((other : List ℕ) → is_some (kept waited.now other) ≡ has_name names other) →
        result ≡ has_name (names ++ parameter_names scope.now) name.now }
{
    waited.get(name.as_bytes()).is_some() || is_parameter(scope, name)
}

/// Whether each of some names is waited for, or is that of a parameter.
fn are_waited_for(scope: &Scope<'_>, waited: &NameMap<'_, Place>, reads: &[Text]) -> bool
    ensures { FindsParameters scope.now → (names : List (List ℕ)) → ((name : List ℕ) → is_some (kept waited.now name) ≡ has_name names name) →
        result ≡ list_all (has_name (names ++ parameter_names scope.now)) reads.now }
{
    'reads: for name in reads {
        if !is_waited_for(scope, waited, name) {
            return false;
        }
    }
    true
}

/// The form of a block that waits for these names and parameters, by its form where it waits for all that it reads.
fn waiting_form(scope: &Scope<'_>, waited: &NameMap<'_, Place>, form: Form) -> Form
    ensures { FindsParameters scope.now → (names : List (List ℕ)) → ((name : List ℕ) → is_some (kept waited.now name) ≡ has_name names name) →
        form_of result ≡ waiting_form (names ++ parameter_names scope.now) (form_of form) }
{
    match form {
        Form::Process => Form::Process,
        Form::Net { targets, reads } => {
            if are_waited_for(scope, waited, reads.as_slice()) {
                Form::Net { targets, reads }
            } else {
                Form::Process
            }
        }
    }
}

/// Whether one of some names is that of a memory.
fn has_memory(scope: &Scope<'_>, names: &[Text]) -> bool
    ensures { result ≡ list_any (λ (name : List ℕ). is_memory (looked_up scope.now name)) names.now }
{
    'names: for name in names {
        if is_memory_entry(&scope.lookup(name)) {
            return true;
        }
    }
    false
}

/// The targets of a block of combinational form; none where one of them is a memory.
fn net_targets(scope: &Scope<'_>, form: Form) -> Option<Seq<Text>>
    ensures { result ≡ net_targets scope.now (form_of form) }
{
    match form {
        Form::Process => None,
        Form::Net { targets, .. } => {
            if has_memory(scope, targets.as_slice()) {
                None
            } else {
                Some(targets)
            }
        }
    }
}

/// Whether all entries of an event control are whole names without edges.
fn are_plain(entries: &[Entry]) -> bool
    ensures { result ≡ list_all is_plain_entry (map entry_of entries.now) }
{
    'entries: for entry in entries {
        if !is_plain_entry(entry) {
            return false;
        }
    }
    true
}

/// The targets of a statement behind an event control, where it has combinational form by itself.
fn waiting_targets(
    alloc: Global,
    scope: &Scope<'_>,
    waits: &Waits,
    body: &Stmt,
) -> Result<Option<Seq<Text>>, NoMemory>
    ensures { IfOk result (λ targets. FindsParameters scope.now →
        targets ≡ option_and_then (λ names. net_targets scope.now (block_form (statement_of body.now) names)) (block_waits scope.now (waits_of waits.now))) }
{
    match waits {
        Waits::AnyRead => {
            let form = comb_form(alloc, body, &v_comb::Waits::Star)?;
            Ok(net_targets(scope, form))
        }
        Waits::Entries(entries) => {
            if !are_plain(entries.as_slice()) {
                return Ok(None);
            }
            let waited = entry_names(alloc, entries.as_slice())?;
            let form = comb_form(alloc, body, &v_comb::Waits::Star)?;
            Ok(net_targets(scope, waiting_form(scope, &waited, form)))
        }
    }
}

/// The targets of an `always` block, where by itself it has combinational form. The scope finds the parameters among its names.
pub fn block_targets(
    alloc: Global,
    scope: &Scope<'_>,
    body: &Stmt,
) -> Result<Option<Seq<Text>>, NoMemory>
    ensures { IfOk result (λ targets. FindsParameters scope.now → targets ≡ block_targets scope.now (statement_of body.now)) }
{
    match body {
        Stmt::Event { waits, body, .. } => {
            let targets = waiting_targets(alloc, scope, waits, body)?;
            Ok(targets)
        }
        _ => Ok(None),
    }
}

/// The targets of an `initial` or `always`, where it is an `always` of combinational form; in strict mode every block is a process.
fn targets_by_mode(
    alloc: Global,
    mode: Mode,
    always: bool,
    scope: &Scope<'_>,
    body: &Stmt,
) -> Result<Option<Seq<Text>>, NoMemory>
    ensures { IfOk result (λ targets. FindsParameters scope.now → targets ≡ targets_by_mode mode always scope.now (statement_of body.now)) }
{
    match mode {
        Mode::Strict => Ok(None),
        Mode::Usual => {
            if always {
                let targets = block_targets(alloc, scope, body)?;
                Ok(targets)
            } else {
                Ok(None)
            }
        }
    }
}

/// An `initial` or an `always`.
pub fn process_part<'u>(
    alloc: Global,
    here: &Here<'_, 'u>,
    always: bool,
    place: Place,
    body: &'u Stmt,
) -> Result<Part<'u>, NoMemory>
    ensures { IfOk result (λ part. (h : plain.Here) → IsHere h here.now → part_of part ≡ process_part h always (source_place place) (statement_of body.now)) }
{
    let targets = targets_by_mode(alloc, here.mode, always, &here.scope, body)?;
    let path = here.path.clone()?;
    let scope = here.scope.clone()?;
    Ok(Part::Process(WalkedProcess {
        always,
        place,
        path,
        scope,
        body,
        targets,
    }))
}
