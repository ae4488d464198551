ghost use Rattle.std.specs.Prelude.{◌≡◌, ◌≤◌, ℕ, List as Items, Option, length};
ghost use Rattle.hq_io.specs.declared.files.File.{File};
ghost use Rattle.hq_live.specs.Asking.{Due, Next, GaveReply, KeepsFiles, Reloads};

use hq_base::Bytes;
use hq_model::Session;
use std::alloc::Global;

/// What asking gave.
#[derive(Drop)]
pub enum Asked {
    /// The due reply.
    Reply(Bytes),
    /// Asking failed, and the count of faults rose from the first to the second.
    Failed { before: u64, after: u64 },
    Memory,
}

/// What taking the next database gave.
#[derive(Clone, Copy, Debug, PartialEq, Eq)]
pub enum Reloaded {
    /// The due replies are those over the next database.
    New,
    /// No database is next.
    Same,
    /// Reading it failed, and the count of faults rose from the first to the second.
    Failed { before: u64, after: u64 },
    Memory,
}

/// What answers a body for a session, over a database that can be read anew.
pub trait Asker {
    /// The reply that is due to a session and a body.
    ghost due: { Self → Due };

    /// The due replies over the databases that the next reloads take.
    ghost next: { Self → Next };

    /// How often it has failed.
    ghost faults: { Self → ℕ };

    /// Whether the files that it reads from are those of this folder, where that is told, and have failed so often at least.
    ghost reads: { Option (Items File) → ℕ → Self → Type 0 };

    /// Asks for the due reply to a body of at most 1,048,576 bytes.
    fn ask(&mut self, alloc: Global, session: &Session, body: &[u8]) -> Asked
        requires { length body.now ≤ 1048576 }
        ensures asked { GaveReply (due self.old session.now body.now) (faults self.old) (faults self.new) result }
        ensures due { due self.new ≡ due self.old }
        ensures next { next self.new ≡ next self.old }
        ensures files { KeepsFiles reads self.old self.new }
        ensures later { faults self.old ≤ faults self.new };

    /// Takes the next database.
    fn reload(&mut self, alloc: Global) -> Reloaded
        ensures reloaded { Reloads (due self.old) (due self.new) (next self.old) (next self.new) (faults self.old) (faults self.new) result }
        ensures files { KeepsFiles reads self.old self.new }
        ensures later { faults self.old ≤ faults self.new };
}
