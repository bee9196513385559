//! What a container is gathered for.
ghost use Rattle.std.specs.Prelude.{◌≡◌};
ghost use Rattle.actor_core.specs.Purposes.{workers_of};

/// What a container is gathered for.
#[derive(Clone, Copy)]
pub(crate) enum Purpose {
    /// A reader is opened, and so many workers are to read the shares.
    Opens { workers: u32 },
    /// Its file is told of.
    Tells,
}

impl Purpose {
    /// How many shares there are.
    pub(crate) fn workers(self) -> u32
        ensures { result ≡ workers_of self }
    {
        match self {
            Purpose::Opens { workers } => workers,
            Purpose::Tells => 1,
        }
    }
}
