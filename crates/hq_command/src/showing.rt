//! Telling of the program.
ghost use Rattle.std.specs.Prelude.{◌≢◌, ◌≤◌, Ok, IsErrOf, IfErr};
ghost use Rattle.hq_io.specs.Causes.{Rose};
ghost use Rattle.hq_command.specs.Ending.{Ends, NotDatabase, Silent};
ghost use Rattle.hq_command.specs.Showing.{page_output};

use crate::{Done, Refusal};
use hq_cli::Page;
use hq_io::{Sink, write_all};

/// Writes a page.
pub fn show<K: Sink>(page: Page, out: &mut K) -> Result<Done, Refusal>
    ensures told { Ends (K.written out.old) (K.written out.new) (Ok (page_output page)) result }
    ensures fault { result ≢ Ok Done.Faulty }
    ensures silent { Silent (K.written out.old) (K.written out.new) result }
    ensures words { IsErrOf result Refusal.BadWords → ⊥ }
    ensures read { IsErrOf result Refusal.ReadFailed → ⊥ }
    ensures write { IsErrOf result Refusal.WriteFailed → Rose (K.faults out.old) (K.faults out.new) }
    ensures failed { IfErr result NotDatabase }
    ensures out_later { K.faults out.old ≤ K.faults out.new }
{
    write_all(out, page.text().as_bytes())?;
    Ok(Done::Answered)
}
