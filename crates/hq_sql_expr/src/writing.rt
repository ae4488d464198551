//! The bytes between quotes, written at the end of what was written before.
ghost use Rattle.std.specs.Prelude.{◌≡◌, ◌++◌, OnOk};
ghost use Rattle.hq_sql_tree.specs.Spelling.{quoted};

use hq_base::Memory;

/// Writes bytes between two quotes, and each quote in them twice.
#[tactic(auto, unfolding(hq_sql_tree::specs::Spelling::quoted))]
pub fn put_quoted(out: &mut Vec<u8>, quote: u8, bytes: &[u8]) -> Result<(), Memory>
    ensures { OnOk result (out.new.items ≡ out.old.items ++ quoted quote bytes.now) }
{
    out.push(quote)?;
    for b in bytes {
        if *b == quote {
            out.push(*b)?;
        }
        out.push(*b)?;
    }
    out.push(quote)?;
    Ok(())
}
