ghost use Rattle.std.specs.Prelude.{◌≡◌, ℕ, List, Ok, Err, IfOk};
ghost use Rattle.hq_base.specs.Due.{Gives};
ghost use Rattle.hq_sql_tree.specs.Tree.{SelectTree};
ghost use Rattle.hq_sql_tree.specs.View.{select_view};
ghost use Rattle.hq_sql_expr.specs.declared.refusal.ReadRefusal.TheVariants.{NotSql, Memory};
ghost use Rattle.hq_sql_text.specs.Readable.{Spells};

use crate::reading::whole_of;
use hq_sql_expr::ReadRefusal;
use hq_sql_tree::Select;
use std::alloc::Global;

/// The tree that the text spells, opening at most 2,000 parentheses at once. NotSql where it spells none.
pub fn read(alloc: Global, text: &[u8]) -> Result<Select, ReadRefusal>
    // What is read is spelled so.
    ensures found { IfOk result (λ s. Spells text.now (select_view s)) }
    // What is spelled so is read, unless memory runs out.
    ensures only { (s : SelectTree) → Spells text.now s → Gives select_view Memory (Ok s) result }
    // Nothing that spells a tree is refused as no SQL.
    ensures not_sql { result ≡ Err NotSql → (s : SelectTree) → Spells text.now s → ⊥ }
{
    whole_of(alloc, 2000, text)
}

/// No text spells two trees.
pub fn one_tree()
    ensures { (text : List ℕ) (a b : SelectTree) → Spells text a → Spells text b → a ≡ b }
{}

/// No tree has two spellings.
pub fn one_spelling()
    ensures { (a b : List ℕ) (s : SelectTree) → Spells a s → Spells b s → a ≡ b }
{}
