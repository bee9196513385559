//! How a container is listed.
use crate::cases::all_hold;

const CASES: &str = "\
# The first damage of a listing is told.

list
list flats: names 1 x
= damaged flats/x 0

list
list flats: names 1
length 1: long 8
read 1 0 8: bytes PLFSFLT1
= damaged flats/1 0

list
list flats: names
top: names access flats hostdir.32 metadata truncs
= damaged /hostdir.32 0

list
list flats: names
top: names flats metadata truncs
= damaged /access 0

list
list flats: names
top: names access metadata
= damaged flats/ 0

list
list flats: names
top: names access flats hostdir.0 metadata openhosts truncs
list hostdir.0: names index.0.9 index.0.9x
= damaged hostdir.0/index.0.9x 0

list # of another folder
list flats: names
top: names access flats hostdir.0 metadata openhosts truncs
list hostdir.0: names index.0.9 index.1.9
= damaged hostdir.0/index.1.9 0

list # a second one of its writer
list flats: names
top: names access flats hostdir.0 metadata openhosts truncs
list hostdir.0: names index.0.9 index.32.9 log.0.1
= damaged hostdir.0/index.32.9 0

list # a packed index without an index dropping
list flats: names
top: names access flats hostdir.0 metadata openhosts truncs
list hostdir.0: names index.0.9 index2.0.8
= damaged hostdir.0/index2.0.8 0

list
list flats: names
top: names access flats hostdir.0 metadata openhosts truncs
list hostdir.0: names index.0.9 index2.0.9 tmp2.0.1
= droppings 1

# The newest flattened index is read. It has one writer, whose one entry has 4 bytes and the stamp 10.

list
list flats: names 10 9 tmp.11
length 10: long 96
read 10 0 96: bytes PLFSFLT1 1 1 9 1 4 10 0 4 0 10 9
top: names access flats hostdir.0 metadata openhosts truncs
list hostdir.0: names index.0.9
= droppings 1 9:1

list # a covered writer without an index dropping is damage at its cover
list flats: names 10 9 tmp.11
length 10: long 96
read 10 0 96: bytes PLFSFLT1 1 1 9 1 4 10 0 4 0 10 9
top: names access flats hostdir.0 metadata openhosts truncs
list hostdir.0: names
= damaged flats/10 24

find
find: room 1
list flats: names
top: names access flats hostdir.0 metadata openhosts truncs
list hostdir.0: names index.0.9
= droppings 1
";

#[test]
fn the_first_damage_of_a_listing_is_told_and_the_newest_flattened_index_is_read(rt: HostRuntime) {
    all_hold(&rt, rt.alloc(), CASES)
}
