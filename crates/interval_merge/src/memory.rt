//! The memory of long lists.

/// Lets go of a list, and gives its memory back to the system where it is long.
///
/// It is made short first. Where glibc frees a long block as a whole, it takes from then on all blocks up to that length from memory that it
/// keeps, and a reader's lists of many writers would stay there in pieces.
pub fn give_back<T: Drop>(list: Vec<T>) {
    let mut list = list;
    list.truncate(1);
    list.shrink_to_fit();
}
