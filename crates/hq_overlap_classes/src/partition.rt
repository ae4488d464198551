//! The selection sets of a document in classes, each with the list of its members; of two classes that are joined the smaller one is
//! renamed.
ghost use Rattle.std.specs.Prelude.{◌≡◌, ◌++◌, ◌∷◌, [], IfOk, OnOk};
ghost use Rattle.std.specs.List.{All};
ghost use Rattle.hq_gql_nodes.specs.Reach.{graph_view};
ghost use Rattle.hq_overlap_classes.specs.Classes.{Joined};
ghost use Rattle.hq_overlap_classes.specs.Disputes.{class_of};
ghost use Rattle.hq_overlap_classes.specs.Noting.{AreClasses, IsPartition};
ghost use Rattle.hq_overlap_sets.specs.Rows.{row_at};
ghost use Rattle.hq_overlap_sets.specs.Sets.{arena_view};

use hq_base::Memory;
use hq_gql_nodes::row;
use hq_overlap_sets::{Arena, clear_row, extend_row};
use std::alloc::Global;

/// Each set in one class. A class has a number of its own, which is that of a member.
#[derive(Drop)]
pub struct Partition {
    pub classes: Vec<usize>,
    pub members: Vec<Vec<usize>>,
}

// A list of one number.
fn alone(alloc: Global, number: usize) -> Result<Vec<usize>, Memory>
    ensures { IfOk result (λ list. list.items ≡ (number ∷ [])) }
{
    let mut list = Vec::new(alloc);
    list.push(number)?;
    Ok(list)
}

impl Partition {
    // No set yet.
    fn empty(alloc: Global) -> Self
        ensures classes { result.classes.items ≡ [] }
        ensures members { result.members.items ≡ [] }
    {
        Partition {
            classes: Vec::new(alloc),
            members: Vec::new(alloc),
        }
    }

    // Adds the next set in a class of its own.
    fn push(&mut self, alloc: Global, number: usize) -> Result<(), Memory>
        ensures classes { OnOk result (self.new.classes.items ≡ self.old.classes.items ++ (number ∷ [])) }
        ensures members { OnOk result (graph_view self.new.members.items ≡ graph_view self.old.members.items ++ ((number ∷ []) ∷ [])) }
    {
        let members = alone(alloc, number)?;
        self.classes.push(number)?;
        self.members.push(members)?;
        Ok(())
    }

    /// Each set of an arena alone in its class.
    pub fn new(alloc: Global, arena: &Arena<'_>) -> Result<Self, Memory>
        ensures { IfOk result (IsPartition (arena_view arena.now)) }
    {
        let mut partition = Partition::empty(alloc);
        for number in 0..arena.sets.len() {
            partition.push(alloc, number)?;
        }
        Ok(partition)
    }

    /// The class of a set; a number beyond those that there are is a class by itself.
    pub fn class_of(&self, number: usize) -> usize
        ensures { result ≡ class_of self.now number }
    {
        match self.classes.get(number) {
            Some(class) => *class,
            None => number,
        }
    }

    // The members of a class.
    fn members(&self, class: usize) -> &[usize]
        ensures { result.now ≡ row_at self.now.members.items class }
    {
        row(&self.members, class)
    }

    // Gives a set to a class.
    fn set_class(&mut self, arena: &Arena<'_>, number: usize, class: usize)
        requires classes { AreClasses (arena_view arena.now) self.old.classes.items }
        requires joined { Joined (arena_view arena.now) class number }
        ensures classes { AreClasses (arena_view arena.now) self.new.classes.items }
        ensures members { self.new.members ≡ self.old.members }
    {
        if number < self.classes.len() {
            self.classes[number] = class;
        }
    }

    // Gives the members of a class to another one.
    fn rename(&mut self, arena: &Arena<'_>, class: usize, moved: &[usize])
        requires classes { AreClasses (arena_view arena.now) self.old.classes.items }
        requires moved { All (λ s. Joined (arena_view arena.now) class s) moved.now }
        ensures classes { AreClasses (arena_view arena.now) self.new.classes.items }
        ensures members { self.new.members ≡ self.old.members }
    {
        for number in moved {
            self.set_class(arena, *number, class);
        }
    }

    // Gives the members of the first class to the second one.
    fn move_members(
        &mut self,
        arena: &Arena<'_>,
        class: usize,
        into: usize,
        moved: &[usize],
    ) -> Result<(), Memory>
        requires sound { IsPartition (arena_view arena.now) self.old }
        requires moved { All (λ s. Joined (arena_view arena.now) into s) moved.now }
        ensures { OnOk result (IsPartition (arena_view arena.now) self.new) }
    {
        extend_row(&mut self.members, into, moved)?;
        clear_row(&mut self.members, class);
        self.rename(arena, into, moved);
        Ok(())
    }

    // Joins the first class to the second one, and tells whose class that was.
    fn move_into(
        &mut self,
        alloc: Global,
        arena: &Arena<'_>,
        class: usize,
        into: usize,
    ) -> Result<Vec<usize>, Memory>
        requires sound { IsPartition (arena_view arena.now) self.old }
        requires joined { Joined (arena_view arena.now) into class }
        ensures { OnOk result (IsPartition (arena_view arena.now) self.new) }
    {
        let moved = Vec::from_slice(alloc, self.members(class))?;
        self.move_members(arena, class, into, &moved)?;
        Ok(moved)
    }

    /// Joins the classes of two sets. Those sets whose class has now the number of the other one.
    pub fn join(
        &mut self,
        alloc: Global,
        arena: &Arena<'_>,
        left: usize,
        right: usize,
    ) -> Result<Vec<usize>, Memory>
        requires sound { IsPartition (arena_view arena.now) self.old }
        requires joined { Joined (arena_view arena.now) left right }
        ensures { OnOk result (IsPartition (arena_view arena.now) self.new) }
    {
        let first = self.class_of(left);
        let second = self.class_of(right);
        if first == second {
            return Ok(Vec::new(alloc));
        }
        if self.members(first).len() < self.members(second).len() {
            self.move_into(alloc, arena, first, second)
        } else {
            self.move_into(alloc, arena, second, first)
        }
    }
}
