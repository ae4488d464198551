use hq_io::{Disk, Door, Files, Sink, Source};
use hq_messages::{Hall, Messages};

/// The outside, as it is handed in: files, a door, a disk, the standard input, where the standard output and standard error go, and a
/// hall.
#[derive(Drop)]
pub struct World<F, D, X, S, K, E, H> {
    pub files: F,
    pub door: D,
    pub disk: X,
    pub input: S,
    pub out: K,
    pub err: E,
    pub hall: H,
}

/// What a run hands back: the status that the program ends with, and the world.
#[derive(Drop)]
pub struct Ran<F, D, X, S, K, E, H> {
    pub status: u8,
    pub world: World<F, D, X, S, K, E, H>,
}

/// What a run sees. Contracts name it; no code asks for it.
pub trait Observed {
    ghost use Rattle.hq_app.specs.Outside.{Outside};

    /// What the door's peers are connected by.
    type Link;

    /// What the hall's peers are connected by.
    type Talk;

    /// What each part tells, and how often it has failed.
    ghost seen: { Self → Outside Self.Link Self.Talk };
}

impl<F: Files, D: Door, X: Disk, S: Source, K: Sink, E: Sink, H: Hall> Observed
    for World<F, D, X, S, K, E, H> {
    type Link = D::Link;

    type Talk = H::Talk;

    ghost seen = { λ world. record {
      files = record { told = F.folder world.files; faults = F.faults world.files };
      door = record { links = D.links world.door; accepted = D.accepted world.door; faults = D.faults world.door };
      links = record { left = D.Link.left; written = D.Link.written; read_faults = D.Link.read_faults; write_faults = D.Link.write_faults };
      disk = record { told = X.held world.disk; faults = X.faults world.disk };
      input = record { told = S.left world.input; faults = S.faults world.input };
      out = record { told = K.written world.out; faults = K.faults world.out };
      err = record { told = E.written world.err; faults = E.faults world.err };
      hall = record { links = H.talks world.hall; accepted = H.accepted world.hall; faults = H.faults world.hall };
      talks = record { left = H.Talk.left; sent = H.Talk.sent; faults = H.Talk.faults };
    } };
}
