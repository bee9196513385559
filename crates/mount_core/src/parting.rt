//! The steps of calls on a writer that are made whole, or not at all, where a call is broken off within its act.
ghost use Rattle.std.specs.Prelude.{◌≡◌, option_map, take};
ghost use Rattle.store_api.specs.Step.{step_of};
ghost use Rattle.mount_model.specs.Regular.{IsCounted};
ghost use Rattle.mount_core.specs.WholeCalls.{row_act};

use container_layout::truncs;
use mount_model::Row;
use mount_table::{
    exit_check, hostdir_path, index_path, log_path, meta_path, open_path, put_meta_check,
};
use store_api::Step;

/// A call on a writer whose act has no bytes.
#[derive(Clone, Copy)]
pub enum WholeCall {
    Floor,
    Hostdir,
    Index,
    Log,
    SyncLog,
    SyncIndex,
    Meta,
    Exit,
}

/// The first so many bytes.
pub(crate) fn first(bytes: &[u8], count: u64) -> &[u8]
    ensures { result.now ≡ take count bytes.now }
{
    if count < bytes.len() as u64 {
        &bytes[..count as usize]
    } else {
        bytes
    }
}

/// The step of a call on this row, if it makes one.
pub(crate) fn row_step(row: &Row, call: WholeCall) -> Option<Step<'static>>
    requires { IsCounted row.now }
    ensures { option_map step_of result ≡ row_act call row.now }
{
    let room = row.room;
    match call {
        WholeCall::Floor => Some(Step::List {
            room,
            folder: truncs(),
        }),
        WholeCall::Hostdir => Some(Step::MakeFolder {
            room,
            folder: hostdir_path(row.host).folder,
        }),
        WholeCall::Index => {
            let at = index_path(row.host, row.id);
            Some(Step::Create {
                room,
                folder: at.folder,
                file: at.file,
            })
        }
        WholeCall::Log => {
            let at = log_path(row.host, row.id);
            Some(Step::Create {
                room,
                folder: at.folder,
                file: at.file,
            })
        }
        WholeCall::SyncLog => {
            let at = log_path(row.host, row.id);
            Some(Step::Sync {
                room,
                folder: at.folder,
                file: at.file,
            })
        }
        WholeCall::SyncIndex => {
            let at = index_path(row.host, row.id);
            Some(Step::Sync {
                room,
                folder: at.folder,
                file: at.file,
            })
        }
        WholeCall::Meta => {
            if put_meta_check(row).is_some() {
                return None;
            }
            let at = meta_path(row);
            Some(Step::Create {
                room,
                folder: at.folder,
                file: at.file,
            })
        }
        WholeCall::Exit => {
            if exit_check(row).is_some() {
                return None;
            }
            let at = open_path(row.host, row.id);
            Some(Step::Remove {
                room,
                folder: at.folder,
                file: at.file,
            })
        }
    }
}
