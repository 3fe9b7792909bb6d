// The form of a block.

ghost use Rattle.std.specs.Prelude.{◌≡◌, [], IfOk, OnOk, flat_map};
ghost use Rattle.v_tree.specs.Trees.{has_name};
ghost use Rattle.v_tree.specs.Views.{statement_of};
ghost use Rattle.v_comb.specs.CombinationalForm.{block_form, waits_for, each_once};
ghost use Rattle.v_comb.specs.NameTables.{with_other};
ghost use Rattle.v_comb.specs.Forms.{waits_of, form_of};
ghost use Rattle.v_comb.specs.Occurrences.{listed, assigned_names_of, names_of_expr, names_read_of};

use crate::assigned::all_are_assigned;
use crate::name_table::NameTable;
use crate::occurrences::{push_assigned, push_part_names, push_reads};
use std::alloc::Global;
use v_tree::{Expr, Stmt};
use vf_base::{NoMemory, Seq, Text};

/// What a block waits for.
#[derive(Drop)]
pub enum Waits {
    /// All that it reads: `@*` or `@(*)`.
    Star,
    /// A list of names.
    List(Seq<Text>),
}

/// The form of a block.
#[derive(Drop)]
pub enum Form {
    /// A node: the names that it writes, and those that it reads and doesn't write, each once, in the order of their first occurrences.
    Net {
        targets: Seq<Text>,
        reads: Seq<Text>,
    },
    /// A process.
    Process,
}

/// Puts a name into a table, unless others have it.
fn put_other<'t>(
    table: &mut NameTable<'t>,
    others: &NameTable<'t>,
    name: &'t [u8],
) -> Result<(), NoMemory>
    ensures { OnOk result (table.new ≡ with_other others.now table.old name.now) }
{
    if others.has(name) {
        return Ok(());
    }
    table.put(name)?;
    Ok(())
}

/// Names at their first occurrence alone, but for those of another table.
fn gather<'t>(
    alloc: Global,
    others: &NameTable<'t>,
    names: &[&'t [u8]],
) -> Result<NameTable<'t>, NoMemory>
    ensures { IfOk result (λ table. table ≡ each_once others.now (listed names.now)) }
{
    let mut table = NameTable::new(alloc);
    'names: for name in names {
        put_other(&mut table, others, name)?;
    }
    Ok(table)
}

/// The names that a statement assigns, each once.
fn targets_of(alloc: Global, body: &Stmt) -> Result<NameTable<'_>, NoMemory>
    ensures { IfOk result (λ table. table ≡ each_once [] (assigned_names_of body.now)) }
{
    let mut names = Vec::new(alloc);
    push_assigned(body, &mut names)?;
    let none = NameTable::new(alloc);
    let table = gather(alloc, &none, &names)?;
    Ok(table)
}

/// The names that a statement of combinational form reads and doesn't assign, each once.
fn reads_of<'t>(
    alloc: Global,
    targets: &NameTable<'t>,
    body: &'t Stmt,
) -> Result<NameTable<'t>, NoMemory>
    ensures { IfOk result (λ table. table ≡ each_once targets.now (names_read_of body.now)) }
{
    let mut names = Vec::new(alloc);
    push_reads(body, &mut names)?;
    let table = gather(alloc, targets, &names)?;
    Ok(table)
}

/// The table of some texts.
fn table_of<'t>(alloc: Global, texts: &'t [Text]) -> Result<NameTable<'t>, NoMemory>
    ensures { IfOk result (λ table. (name : _) → has_name table name ≡ has_name texts.now name) }
{
    let mut table = NameTable::new(alloc);
    'texts: for text in texts {
        table.put(text.as_bytes())?;
    }
    Ok(table)
}

/// Whether each name that is read is waited for.
fn are_waited_for(alloc: Global, waits: &Waits, reads: &NameTable<'_>) -> Result<bool, NoMemory>
    ensures { IfOk result (λ met. met ≡ waits_for (waits_of waits.now) reads.now) }
{
    match waits {
        Waits::Star => Ok(true),
        Waits::List(names) => {
            let table = table_of(alloc, names.as_slice())?;
            Ok(reads.are_among(&table))
        }
    }
}

/// The names in some expressions, each once, in the order of their first occurrences.
pub fn names_in_exprs(alloc: Global, exprs: &[Expr]) -> Result<Seq<Text>, NoMemory>
    ensures { IfOk result (λ names. names ≡ each_once [] (flat_map names_of_expr exprs.now)) }
{
    let mut names = Vec::new(alloc);
    push_part_names(exprs, &mut names)?;
    let none = NameTable::new(alloc);
    let table = gather(alloc, &none, &names)?;
    let texts = table.texts(alloc)?;
    Ok(texts)
}

/// The form of a block with this statement that waits for this.
///
/// It is a node exactly where the statement is made of blocks, `if`, cases, blocking assignments without delays, ignored tasks and null
/// statements alone, each target is assigned whole on every path before it is read or assigned in part and by the path's end, and each
/// name that is read and isn't a target is waited for. A case without a default has the path on which nothing is assigned, as has an `if`
/// without an `else`.
pub fn comb_form(alloc: Global, body: &Stmt, waits: &Waits) -> Result<Form, NoMemory>
    ensures { IfOk result (λ form. form_of form ≡ block_form (statement_of body.now) (waits_of waits.now)) }
{
    let table = targets_of(alloc, body)?;
    let assigned = all_are_assigned(alloc, &table, body)?;
    if !assigned {
        return Ok(Form::Process);
    }
    let read = reads_of(alloc, &table, body)?;
    let waited = are_waited_for(alloc, waits, &read)?;
    if !waited {
        return Ok(Form::Process);
    }
    let targets = table.texts(alloc)?;
    let reads = read.texts(alloc)?;
    Ok(Form::Net { targets, reads })
}
