//! The names of rooms and folders that have a meaning of their own, and lists of names in order.
ghost use Rattle.std.specs.Prelude.{◌≡◌, IfOk};
ghost use Rattle.store_api.specs.Names.{in_byte_order, marks_name, marks_folder};

use plfs_types::{Name, NameList, NoMemory};
use std::alloc::Global;
use std::collections::BTreeSet;

/// The name of the room of the mounts' marks.
pub fn marks_name() -> Name
    ensures { result ≡ marks_name }
{
    Name::from_bytes(b".plfs").unwrap()
}

/// The folder of the marks.
pub fn marks_folder() -> Name
    ensures { result ≡ marks_folder }
{
    Name::from_bytes(b"mounts").unwrap()
}

/// The names in byte order, each once.
pub fn in_byte_order(alloc: Global, names: &[Name]) -> Result<NameList, NoMemory>
    ensures { IfOk result (λ list. list ≡ in_byte_order names.now) }
{
    let mut ordered = BTreeSet::new(alloc);
    for name in names {
        ordered.insert(*name)?;
    }
    let mut list = NameList::new(alloc);
    for name in ordered.iter() {
        list.push(*name)?;
    }
    Ok(list)
}
