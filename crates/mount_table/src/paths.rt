//! Where the files of writers, truncates and flattenings lie.
ghost use Rattle.std.specs.Prelude.{◌≡◌, []};
ghost use Rattle.container_layout.specs.Paths.{hostdir_of};
ghost use Rattle.container_layout.specs.Items.{IsMetaRange, IsTruncRange};
ghost use Rattle.mount_model.specs.Paths.{open_path as open_path_of, index_path as index_path_of, log_path as log_path_of, meta_path as meta_path_of, dropping_path as dropping_path_of, trunc_path as trunc_path_of, temporary, installed};
ghost use Rattle.mount_model.specs.Regular.{IsCounted};

use container_layout::{Item, hostdir, print};
use mount_model::{Flattening, Making, Row};
use plfs_types::{Name, Path};

/// The writer's entry in the folder of who has the container open.
pub fn open_path(host: u32, writer: u64) -> Path
    ensures { result ≡ open_path_of host writer }
{
    print(&Item::OpenHost { host, writer })
}

/// Its index dropping.
pub fn index_path(host: u32, writer: u64) -> Path
    ensures { result ≡ index_path_of host writer }
{
    print(&Item::Index { host, writer })
}

/// Its log.
pub fn log_path(host: u32, writer: u64) -> Path
    ensures { result ≡ log_path_of host writer }
{
    print(&Item::Log { host, writer })
}

/// The folder of a host's droppings.
pub fn hostdir_path(host: u32) -> Path
    ensures { result ≡ record { folder = hostdir_of host; file = [] } }
{
    Path {
        folder: hostdir(host),
        file: Name::empty(),
    }
}

/// A writer's metadata dropping, whose name has its greatest end, its bytes and its last stamp.
pub fn meta_path(row: &Row) -> Path
    requires { IsCounted row.now }
    ensures { result ≡ meta_path_of row.now.end row.now.stored row.now.last row.now.host row.now.id }
{
    metadata_path(row.end, row.stored, row.last, row.host, row.id)
}

/// The metadata dropping whose name has these numbers.
pub fn metadata_path(last: u64, bytes: u64, stamp: u64, host: u32, writer: u64) -> Path
    requires { IsMetaRange last bytes stamp }
    ensures { result ≡ meta_path_of last bytes stamp host writer }
{
    print(&Item::Meta {
        last,
        bytes,
        stamp,
        host,
        writer,
    })
}

/// A writer's log, or its index dropping.
pub fn dropping_path(log: bool, host: u32, writer: u64) -> Path
    ensures { result ≡ dropping_path_of log host writer }
{
    if log {
        log_path(host, writer)
    } else {
        index_path(host, writer)
    }
}

/// A truncate's dropping.
pub fn trunc_path(stamp: u64, size: u64) -> Path
    requires { IsTruncRange stamp size }
    ensures { result ≡ trunc_path_of stamp size }
{
    print(&Item::Trunc { stamp, size })
}

/// The file to which a flattening is written.
pub fn temporary_path(flattening: &Flattening) -> Path
    ensures { result ≡ temporary flattening.now }
{
    match flattening.makes {
        Making::Flat => print(&Item::TmpFlat { id: flattening.id }),
        Making::Pack { host, .. } => print(&Item::TmpPacked {
            host,
            id: flattening.id,
        }),
    }
}

/// The file that it becomes.
pub fn installed_path(flattening: &Flattening) -> Path
    ensures { result ≡ installed flattening.now }
{
    match flattening.makes {
        Making::Flat => print(&Item::Flat { id: flattening.id }),
        Making::Pack { host, writer } => print(&Item::Packed { host, writer }),
    }
}
