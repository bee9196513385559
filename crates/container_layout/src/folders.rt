//! The folders of a container.
ghost use Rattle.std.specs.Prelude.{◌≡◌, codes};
ghost use Rattle.container_layout.specs.Paths.{hostdir_of};

use crate::text::Text;
use plfs_types::Name;

/// The folder of who has the container open.
pub fn openhosts() -> Name
    ensures { result ≡ codes "openhosts" }
{
    Name::from_bytes(b"openhosts").unwrap()
}

/// The folder of what closed writers left.
pub fn metadata() -> Name
    ensures { result ≡ codes "metadata" }
{
    Name::from_bytes(b"metadata").unwrap()
}

/// The folder of truncates.
pub fn truncs() -> Name
    ensures { result ≡ codes "truncs" }
{
    Name::from_bytes(b"truncs").unwrap()
}

/// The folder of flattened indices.
pub fn flats() -> Name
    ensures { result ≡ codes "flats" }
{
    Name::from_bytes(b"flats").unwrap()
}

/// The folder of a host's droppings, `hostdir.<host mod 32>`.
pub fn hostdir(host: u32) -> Name
    ensures { result ≡ hostdir_of host }
{
    let mut text = Text::new();
    text.push(b"hostdir.");
    text.push_number(u64::from(host % 32));
    text.name()
}
