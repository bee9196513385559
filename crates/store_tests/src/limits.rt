//! How many files a store on a folder keeps open.

use folder_calls::{limit_in, open_limit, share_of};
use std::fs;

/// What Linux told of a process whose soft limit is below its hard one.
const TOLD: &[u8] =
    b"Max processes    94318   94318   processes\nMax open files   1024    524288  files\n";

#[test]
fn half_of_what_a_process_may_have_open_is_shared(rt: HostRuntime) {
    let told = [
        limit_in(TOLD),
        limit_in(b"Max open files   unlimited   unlimited   files"),
        limit_in(b"Max open"),
    ];
    assert!(rt; told == [Some(1024), None, None]);
    let shares = [
        share_of(1024, 1),
        share_of(1024, 4),
        share_of(2112, 1),
        share_of(64, 8),
        share_of(1_048_576, 1),
    ];
    assert!(rt; shares == [480, 120, 1024, 1, 65_536]);
}

#[test]
fn the_limit_is_that_of_the_systems_list(rt: HostRuntime) {
    let told = match fs::read(&rt, "/proc/self/limits") {
        Ok(limits) => limit_in(limits.as_slice()),
        Err(_) => None,
    };
    assert!(rt; open_limit(&rt) == told.unwrap_or(576));
}
