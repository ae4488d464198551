//! The classes that have a key in dispute or lead to one that has.
ghost use Rattle.std.specs.Prelude.{◌≡◌, map, IfOk, OnOk};
ghost use Rattle.std.specs.List.{All};
ghost use Rattle.hq_schema.specs.Schema.{schema_view};
ghost use Rattle.hq_overlap_classes.specs.Classes.{IsOfClass, AtFault};
ghost use Rattle.hq_overlap_classes.specs.Noting.{AreDisputed, AreNoted, AreEdges, AreMarked};
ghost use Rattle.hq_overlap_sets.specs.Pairs.{fields_at};
ghost use Rattle.hq_overlap_sets.specs.Sets.{field_in, arena_view};

use crate::classes::Classes;
use crate::disputes::Disputes;
use hq_base::Memory;
use hq_gql_nodes::reached;
use hq_overlap_sets::{Arena, Entry, empty_rows, push_row};
use std::alloc::Global;

// Adds an edge from the class below a field to the one that it stands in.
fn add_edge(
    rows: &mut Vec<Vec<usize>>,
    arena: &Arena<'_>,
    classes: &Classes<'_>,
    class: usize,
    entry: &Entry<'_>,
) -> Result<(), Memory>
    requires edges { AreEdges (arena_view arena.now) rows.old.items }
    requires sound { AreNoted (schema_view arena.now.schema.now) (arena_view arena.now) classes.now }
    requires stands { IsOfClass (arena_view arena.now) class (field_in arena.now entry.now) }
    ensures { OnOk result (AreEdges (arena_view arena.now) rows.new.items) }
{
    push_row(rows, classes.class_of(entry.below), class)
}

// Adds an edge for each field of a set.
fn add_edges(
    rows: &mut Vec<Vec<usize>>,
    arena: &Arena<'_>,
    classes: &Classes<'_>,
    set: usize,
    entries: &[Entry<'_>],
) -> Result<(), Memory>
    requires edges { AreEdges (arena_view arena.now) rows.old.items }
    requires sound { AreNoted (schema_view arena.now.schema.now) (arena_view arena.now) classes.now }
    requires entries { map (field_in arena.now) entries.now ≡ fields_at (arena_view arena.now) set }
    ensures { OnOk result (AreEdges (arena_view arena.now) rows.new.items) }
{
    let class = classes.class_of(set);
    for entry in entries {
        add_edge(&mut *rows, arena, classes, class, entry)?;
    }
    Ok(())
}

// For each class those whose fields lead to it.
fn leading(
    alloc: Global,
    arena: &Arena<'_>,
    classes: &Classes<'_>,
) -> Result<Vec<Vec<usize>>, Memory>
    requires { AreNoted (schema_view arena.now.schema.now) (arena_view arena.now) classes.now }
    ensures { IfOk result (λ rows. AreEdges (arena_view arena.now) rows.items) }
{
    let mut rows = empty_rows(alloc, arena.sets.len())?;
    for (number, set) in arena.sets.iter().enumerate() {
        add_edges(&mut rows, arena, classes, number, &set.entries)?;
    }
    Ok(rows)
}

// The class of a set, if its key is in dispute there.
fn add_start(
    starts: &mut Vec<usize>,
    arena: &Arena<'_>,
    disputes: &Disputes<'_>,
    class: usize,
    key: usize,
) -> Result<(), Memory>
    requires sound { AreDisputed (schema_view arena.now.schema.now) (arena_view arena.now) disputes.now }
    requires starts { All (AtFault (arena_view arena.now)) starts.old.items }
    ensures { OnOk result (All (AtFault (arena_view arena.now)) starts.new.items) }
{
    if disputes.is_disputed(class, key) {
        starts.push(class)?;
    }
    Ok(())
}

// The classes of the keys in dispute.
fn starts(alloc: Global, arena: &Arena<'_>, disputes: &Disputes<'_>) -> Result<Vec<usize>, Memory>
    requires { AreDisputed (schema_view arena.now.schema.now) (arena_view arena.now) disputes.now }
    ensures { IfOk result (λ starts. All (AtFault (arena_view arena.now)) starts.items) }
{
    let mut starts = Vec::new(alloc);
    for key in disputes.disputed.keys() {
        add_start(&mut starts, arena, disputes, key.0, key.1)?;
    }
    Ok(starts)
}

// Sets a mark, if there is one of that number.
fn mark(marks: &mut Vec<bool>, arena: &Arena<'_>, number: usize)
    requires marks { AreMarked (arena_view arena.now) marks.old.items }
    requires fault { AtFault (arena_view arena.now) number }
    ensures { AreMarked (arena_view arena.now) marks.new.items }
{
    if number < marks.len() {
        marks[number] = true;
    }
}

// So many marks, of which those of some classes are set.
fn marks_of(alloc: Global, arena: &Arena<'_>, places: &[usize]) -> Result<Vec<bool>, Memory>
    requires { All (AtFault (arena_view arena.now)) places.now }
    ensures { IfOk result (λ marks. AreMarked (arena_view arena.now) marks.items) }
{
    let mut marks = Vec::from_elem(alloc, false, arena.sets.len())?;
    for place in places {
        mark(&mut marks, arena, *place);
    }
    Ok(marks)
}

// The classes to which some lead that are at fault.
fn reached_by(
    alloc: Global,
    arena: &Arena<'_>,
    rows: &[Vec<usize>],
    starts: &[usize],
) -> Result<Vec<bool>, Memory>
    requires edges { AreEdges (arena_view arena.now) rows.now }
    requires starts { All (AtFault (arena_view arena.now)) starts.now }
    ensures { IfOk result (λ marks. AreMarked (arena_view arena.now) marks.items) }
{
    let found = reached(alloc, rows, starts)?;
    marks_of(alloc, arena, &found)
}

/// The classes that have a key in dispute or lead to one that has.
pub fn concerned(
    alloc: Global,
    arena: &Arena<'_>,
    disputes: &Disputes<'_>,
) -> Result<Vec<bool>, Memory>
    requires { AreDisputed (schema_view arena.now.schema.now) (arena_view arena.now) disputes.now }
    ensures { IfOk result (λ marks. AreMarked (arena_view arena.now) marks.items) }
{
    let starts = starts(alloc, arena, disputes)?;
    if starts.is_empty() {
        return marks_of(alloc, arena, &[]);
    }
    let rows = leading(alloc, arena, &disputes.classes)?;
    reached_by(alloc, arena, &rows, &starts)
}
