//! The store that gets a new room.
ghost use Rattle.std.specs.Prelude.{◌≡◌, ◌≤◌, length, sum};
ghost use Rattle.spread_store.specs.Homes.{home_of};

use plfs_types::Name;

// The sum of the bytes.
fn sum_of(bytes: &[u8]) -> usize
    requires { length bytes.now ≤ 96 }
    ensures { result ≡ sum bytes.now }
{
    let mut total: usize = 0;
    for byte in bytes {
        total += usize::from(*byte);
    }
    total
}

/// The number of the store that gets a new room of this name, of so many stores.
pub(crate) fn home_of(name: &Name, count: usize) -> usize
    ensures { result ≡ home_of name.now count }
{
    let bytes = name.bytes();
    if bytes == b".plfs".as_slice() {
        return 0;
    }
    let total = sum_of(bytes);
    if count == 0 { total } else { total % count }
}
