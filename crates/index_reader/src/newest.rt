//! The newest of the flattened indices that a listing names.
ghost use Rattle.std.specs.Prelude.{◌≡◌, None};
ghost use Rattle.index_reader.specs.Items.{flat_item as item_of_flats, is_flats as of_flats};
ghost use Rattle.index_reader.specs.Newest.{flats_path as path_of_flats, greater_id as greater_of, newest_in as newest_of};

use container_layout::{Item, flats, read};
use mount_model::{Stuck, damage};
use plfs_types::{Name, Path};

pub(crate) fn flats_path(name: Name) -> Path
    ensures { result ≡ path_of_flats name }
{
    Path {
        folder: flats(),
        file: name,
    }
}

fn is_flats(item: &Item) -> bool
    ensures { result ≡ of_flats item.now }
{
    matches!(item, Item::Flat { .. } | Item::TmpFlat { .. })
}

/// The item of the folder of flattened indices whose path this is.
fn flat_item(path: &Path) -> Option<Item>
    ensures { result ≡ item_of_flats path.now }
{
    let item = read(path)?;
    if is_flats(&item) { Some(item) } else { None }
}

fn greater_id(id: u64, newest: Option<u64>) -> Option<u64>
    ensures { result ≡ greater_of id newest }
{
    match newest {
        None => Some(id),
        Some(other) => Some(id.max(other)),
    }
}

/// The greatest id that the names tell, where there is one.
pub(crate) fn newest_in(names: &[Name]) -> Result<Option<u64>, Stuck>
    ensures { result ≡ newest_of names.now None }
{
    let mut newest = None;
    for name in names {
        let path = flats_path(*name);
        match flat_item(&path) {
            None => return Err(damage(&path, 0)),
            Some(Item::Flat { id }) => newest = greater_id(id, newest),
            Some(_) => {}
        }
    }
    Ok(newest)
}
