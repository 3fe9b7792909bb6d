// What is assigned on every path through a statement.

ghost use Rattle.std.specs.Prelude.{◌≡◌, ◌&&◌, ◌++◌, IfOk, OnOk, length, flat_map, replicate, get_or, false, Some};
ghost use Rattle.std.specs.List.{list_all};
ghost use Rattle.v_tree.specs.Views.{statement_of, statements_of, case_items_of, select_of, target_of, expression_of};
ghost use Rattle.v_comb.specs.CombinationalForm.{names_needed, whole_names, is_whole_select};
ghost use Rattle.v_comb.specs.NameTables.{place_of_name};
ghost use Rattle.v_comb.specs.Flags.{flag_at, all_flagged, flag_name, flag_names, flags_met, flags_where};
ghost use Rattle.v_comb.specs.Flags.{flags_on_both, flags_after, all_flags_after, items_flags_after, has_default, unmatched_flags, all_set};
ghost use Rattle.v_comb.specs.Forms.{flags_in};
ghost use Rattle.v_comb.specs.Occurrences.{listed, names_of_expr, label_names_of_item, whole_names_of, part_names_of, flags_after_item};

use crate::name_table::NameTable;
use crate::occurrences::{push_index_names_of, push_labels, push_names, selects};
use std::alloc::Global;
use v_tree::{CaseItem, Expr, Index, Select, Stmt, Target};
use vf_base::NoMemory;

/// Whether there is a flag at a place.
fn is_set(flags: &[bool], place: usize) -> bool
    ensures { result ≡ get_or flags.now place false }
{
    place < flags.len() && flags[place]
}

/// Whether a name is flagged, if it is a target.
fn name_is_flagged(targets: &NameTable<'_>, flags: &[bool], name: &[u8]) -> bool
    ensures { result ≡ flag_at flags.now (place_of_name targets.now name.now) }
{
    match targets.place_of(name) {
        Some(place) => is_set(flags, place),
        None => true,
    }
}

/// Whether each of these names that is a target is flagged.
fn are_flagged(targets: &NameTable<'_>, flags: &[bool], names: &[&[u8]]) -> bool
    ensures { result ≡ all_flagged targets.now flags.now (listed names.now) }
{
    'names: for name in names {
        if !name_is_flagged(targets, flags, name) {
            return false;
        }
    }
    true
}

/// Whether each target that an expression reads is flagged.
fn expr_is_flagged(
    alloc: Global,
    targets: &NameTable<'_>,
    flags: &[bool],
    expr: &Expr,
) -> Result<bool, NoMemory>
    ensures { IfOk result (λ met. met ≡ all_flagged targets.now flags.now (names_of_expr expr.now)) }
{
    let mut names = Vec::new(alloc);
    push_names(expr, &mut names)?;
    Ok(are_flagged(targets, flags, &names))
}

/// Whether each target that a case reads, in its expression or in a label, is flagged.
fn case_is_flagged(
    alloc: Global,
    targets: &NameTable<'_>,
    flags: &[bool],
    value: &Expr,
    items: &[CaseItem],
) -> Result<bool, NoMemory>
    ensures { IfOk result (λ met. met ≡ all_flagged targets.now flags.now (names_of_expr value.now ++ flat_map label_names_of_item items.now)) }
{
    let mut names = Vec::new(alloc);
    push_names(value, &mut names)?;
    push_labels(items, &mut names)?;
    Ok(are_flagged(targets, flags, &names))
}

/// Whether a select is of a whole name.
fn is_whole(select: &Select) -> bool
    ensures { result ≡ is_whole_select (select_of select.now) }
{
    match &select.index {
        Index::Whole => true,
        Index::Bit(_) => false,
        Index::Part(_, _) => false,
    }
}

/// Adds the names that are assigned in part.
fn push_part_names_of<'t>(selects: &'t [Select], names: &mut Vec<&'t [u8]>) -> Result<(), NoMemory>
    ensures { OnOk result (listed names.new.items ≡ listed names.old.items ++ flat_map part_names_of selects.now) }
{
    'selects: for select in selects {
        push_part_name(select, names)?;
    }
    Ok(())
}

/// Adds the name of a select that is assigned in part.
fn push_part_name<'t>(select: &'t Select, names: &mut Vec<&'t [u8]>) -> Result<(), NoMemory>
    ensures { OnOk result (listed names.new.items ≡ listed names.old.items ++ part_names_of select.now) }
{
    if is_whole(select) {
        return Ok(());
    }
    names.push(select.name.as_bytes())?;
    Ok(())
}

/// Adds the names that have to be assigned whole before an assignment, where they are targets.
fn push_needed<'t>(
    target: &'t Target,
    value: &'t Expr,
    names: &mut Vec<&'t [u8]>,
) -> Result<(), NoMemory>
    ensures { OnOk result (listed names.new.items ≡ listed names.old.items ++ names_needed (target_of target.now) (expression_of value.now)) }
{
    let selects = selects(target);
    push_index_names_of(selects, names)?;
    push_names(value, names)?;
    push_part_names_of(selects, names)?;
    Ok(())
}

/// Whether each target that an assignment reads or assigns in part is flagged.
fn assignment_is_flagged(
    alloc: Global,
    targets: &NameTable<'_>,
    flags: &[bool],
    target: &Target,
    value: &Expr,
) -> Result<bool, NoMemory>
    ensures { IfOk result (λ met. met ≡ all_flagged targets.now flags.now (names_needed (target_of target.now) (expression_of value.now))) }
{
    let mut names = Vec::new(alloc);
    push_needed(target, value, &mut names)?;
    Ok(are_flagged(targets, flags, &names))
}

/// Flags a name, if it is a target.
fn flag(targets: &NameTable<'_>, flags: &mut Vec<bool>, name: &[u8])
    ensures { flags.new.items ≡ flag_name targets.now flags.old.items name.now }
{
    if let Some(place) = targets.place_of(name) {
        if place < flags.len() {
            flags[place] = true;
        }
    }
}

/// Flags the name of a select that is assigned whole.
fn flag_select(targets: &NameTable<'_>, flags: &mut Vec<bool>, select: &Select)
    ensures { flags.new.items ≡ flag_names targets.now flags.old.items (whole_names_of select.now) }
{
    if is_whole(select) {
        flag(targets, flags, select.name.as_bytes());
    }
}

/// Flags the names that a target assigns whole.
fn flag_whole(targets: &NameTable<'_>, flags: &mut Vec<bool>, selects: &[Select])
    ensures { flags.new.items ≡ flag_names targets.now flags.old.items (flat_map whole_names_of selects.now) }
{
    'selects: for select in selects {
        flag_select(targets, flags, select);
    }
}

/// Whether there is a flag at a place of both lists.
fn is_set_in_both(flags: &[bool], other: &[bool], place: usize) -> bool
    ensures { result ≡ (get_or flags.now place false && get_or other.now place false) }
{
    is_set(flags, place) && is_set(other, place)
}

/// Leaves the flags that stand in another list too.
fn meet(flags: &mut Vec<bool>, other: &[bool])
    ensures { flags.new.items ≡ flags_met flags.old.items other.now }
{
    'flags: for place in 0..flags.len() {
        let flag = is_set_in_both(flags, other, place);
        flags[place] = flag;
    }
}

/// The flags that stand in both lists, if there is a second one.
fn met_with(flags: Vec<bool>, other: Option<Vec<bool>>) -> Option<Vec<bool>>
    ensures { flags_in result ≡ flags_on_both (Some flags.items) (flags_in other) }
{
    let mut flags = flags;
    match other {
        None => None,
        Some(other) => {
            meet(&mut flags, &other);
            Some(flags)
        }
    }
}

/// Whether a case has a default.
fn has_default_item(items: &[CaseItem]) -> bool
    ensures { result ≡ has_default (case_items_of items.now) }
{
    'items: for item in items {
        match item {
            CaseItem::Labelled { .. } => {}
            CaseItem::Default { .. } => return true,
        }
    }
    false
}

/// The flags with which the paths through the items of a case are met: those before it, or all where it has a default.
fn unmatched(alloc: Global, flags: &[bool], items: &[CaseItem]) -> Result<Vec<bool>, NoMemory>
    ensures { IfOk result (λ met. met.items ≡ unmatched_flags (has_default (case_items_of items.now)) flags.now) }
{
    if !has_default_item(items) {
        return Ok(Vec::from_slice(alloc, flags)?);
    }
    let mut met = Vec::new(alloc);
    met.resize(flags.len(), true)?;
    Ok(met)
}

/// The flags after an assignment; none where a target is read or assigned in part before it is assigned whole.
fn after_assignment(
    alloc: Global,
    targets: &NameTable<'_>,
    flags: Vec<bool>,
    target: &Target,
    value: &Expr,
) -> Result<Option<Vec<bool>>, NoMemory>
    ensures { IfOk result (λ after. flags_in after ≡ flags_where (all_flagged targets.now flags.items (names_needed (target_of target.now)
        (expression_of value.now))) (Some (flag_names targets.now flags.items (whole_names (target_of target.now))))) }
{
    let mut flags = flags;
    if !assignment_is_flagged(alloc, targets, &flags, target, value)? {
        return Ok(None);
    }
    flag_whole(targets, &mut flags, selects(target));
    Ok(Some(flags))
}

/// The flags on every path through a statement; none where it isn't of combinational form.
#[cycle(flags_after)]
fn after_statement(
    alloc: Global,
    targets: &NameTable<'_>,
    flags: Vec<bool>,
    stmt: &Stmt,
) -> Result<Option<Vec<bool>>, NoMemory>
    ensures { IfOk result (λ after. flags_in after ≡ flags_after targets.now flags.items (statement_of stmt.now)) }
{
    match stmt {
        Stmt::Null { .. } => Ok(Some(flags)),
        Stmt::IgnoredTask { .. } => Ok(Some(flags)),
        Stmt::Block { statements, .. } => {
            let after = after_all(alloc, targets, flags, statements)?;
            Ok(after)
        }
        Stmt::If {
            condition,
            first,
            second: None,
            ..
        } => {
            if !expr_is_flagged(alloc, targets, &flags, condition)? {
                return Ok(None);
            }
            let start = Vec::from_slice(alloc, &flags)?;
            let taken = after_statement(alloc, targets, start, first)?;
            Ok(met_with(flags, taken))
        }
        Stmt::If {
            condition,
            first,
            second: Some(second),
            ..
        } => {
            if !expr_is_flagged(alloc, targets, &flags, condition)? {
                return Ok(None);
            }
            let start = Vec::from_slice(alloc, &flags)?;
            let Some(taken) = after_statement(alloc, targets, start, first)? else {
                return Ok(None);
            };
            let other = after_statement(alloc, targets, flags, second)?;
            Ok(met_with(taken, other))
        }
        Stmt::Case { value, items, .. } => {
            if !case_is_flagged(alloc, targets, &flags, value, items)? {
                return Ok(None);
            }
            let met = unmatched(alloc, &flags, items)?;
            let after = after_items(alloc, targets, &flags, met, items)?;
            Ok(after)
        }
        Stmt::Blocking {
            target,
            delay: None,
            value,
            ..
        } => after_assignment(alloc, targets, flags, target, value),
        _ => Ok(None),
    }
}

/// The flags on every path through some statements.
#[cycle(flags_after)]
fn after_all(
    alloc: Global,
    targets: &NameTable<'_>,
    flags: Vec<bool>,
    statements: &[Stmt],
) -> Result<Option<Vec<bool>>, NoMemory>
    ensures { IfOk result (λ after. flags_in after ≡ all_flags_after targets.now flags.items (statements_of statements.now)) }
{
    let mut now = flags;
    'statements: for stmt in statements {
        match after_statement(alloc, targets, now, stmt)? {
            None => return Ok(None),
            Some(after) => now = after,
        }
    }
    Ok(Some(now))
}

/// The flags on some paths and on those through the items of a case.
#[cycle(flags_after)]
fn after_items(
    alloc: Global,
    targets: &NameTable<'_>,
    flags: &[bool],
    met: Vec<bool>,
    items: &[CaseItem],
) -> Result<Option<Vec<bool>>, NoMemory>
    ensures { IfOk result (λ after. flags_in after ≡ items_flags_after targets.now flags.now met.items (case_items_of items.now)) }
{
    let mut met = met;
    'items: for item in items {
        let start = Vec::from_slice(alloc, flags)?;
        match after_item(alloc, targets, start, item)? {
            None => return Ok(None),
            Some(after) => meet(&mut met, &after),
        }
    }
    Ok(Some(met))
}

/// The flags on every path through an item of a case.
#[cycle(flags_after)]
fn after_item(
    alloc: Global,
    targets: &NameTable<'_>,
    flags: Vec<bool>,
    item: &CaseItem,
) -> Result<Option<Vec<bool>>, NoMemory>
    ensures { IfOk result (λ after. flags_in after ≡ flags_after_item targets.now flags.items item.now) }
{
    match item {
        CaseItem::Labelled { statement, .. } => {
            let after = after_statement(alloc, targets, flags, statement)?;
            Ok(after)
        }
        CaseItem::Default { statement } => {
            let after = after_statement(alloc, targets, flags, statement)?;
            Ok(after)
        }
    }
}

/// Whether all flags are set.
fn are_all_set(flags: &[bool]) -> bool
    ensures { result ≡ list_all (λ flag. flag) flags.now }
{
    'flags: for flag in flags {
        if !*flag {
            return false;
        }
    }
    true
}

/// Whether every target is flagged at the end of every path through a statement of combinational form.
pub fn all_are_assigned(
    alloc: Global,
    targets: &NameTable<'_>,
    body: &Stmt,
) -> Result<bool, NoMemory>
    ensures { IfOk result (λ met. met ≡ all_set (flags_after targets.now (replicate (length targets.now) false) (statement_of body.now))) }
{
    let mut none = Vec::new(alloc);
    none.resize(targets.len(), false)?;
    match after_statement(alloc, targets, none, body)? {
        None => Ok(false),
        Some(flags) => Ok(are_all_set(&flags)),
    }
}
