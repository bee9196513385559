//! What a look at a file tells that nobody has open: the size, the bytes and the truncates of one plain file, whatever others call meanwhile.
//!
//! Each writer that had landed an entry when nobody had the container open has left by then, and the name of its metadata dropping tells the greatest end, the
//! bytes and the last stamp of all its entries, of which none comes any more. No truncate is between two entries of one writer, so that these three tell the
//! size beside the truncates. There is no code in it: it stands on the program of `attr_flow`, on what who gathers sees, and on soundness.
#![tactic(auto)]

mod laws;

pub use laws::a_look_tells_of_one_file;
