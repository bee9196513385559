//! All that is read of a container that is gathered.
ghost use Rattle.std.specs.Prelude.{◌≡◌, IfOk};
ghost use Rattle.plain_file.specs.Runs.{AreRuns};
ghost use Rattle.gather_flow.specs.OneIndex.{gathered_of, reader_of, attr_of as told_by_all};

use crate::listed::Listed;
use attr_flow::{Attr, attr_of};
use index_reader::{Gathered, OpenReader, ShareList, gather};
use plfs_types::{NoMemory, TruncList};
use std::alloc::Global;

/// All that is read of a container that is gathered.
#[derive(Drop)]
pub struct AllRead {
    pub listed: Listed,
    pub shares: ShareList,
    pub truncs: TruncList,
}

impl AllRead {
    /// It as one index.
    pub fn gathered(self, alloc: Global) -> Result<Gathered, NoMemory>
        ensures gathered { IfOk result (λ gathered. gathered ≡ gathered_of self.listed self.shares self.truncs) }
        ensures runs { IfOk result (λ gathered. AreRuns gathered.flat.pieces) }
    {
        let gathered = gather(alloc, self.listed.take(), self.shares, self.truncs)?;
        let _merged = gathered.flat.pieces.as_slice();
        Ok(gathered)
    }

    /// The reader of it.
    pub fn opened(self, alloc: Global) -> Result<OpenReader, NoMemory>
        ensures { IfOk result (λ reader. reader ≡ reader_of self.listed self.shares self.truncs) }
    {
        let gathered = gather(alloc, self.listed.take(), self.shares, self.truncs)?;
        let _merged = gathered.flat.pieces.as_slice();
        let reader = OpenReader::new(alloc, gathered)?;
        let _clipped = reader.pieces().as_slice();
        Ok(reader)
    }

    /// What it tells of the file.
    pub fn told(self, alloc: Global) -> Result<Attr, NoMemory>
        ensures { IfOk result (λ attr. attr ≡ told_by_all self.listed self.shares self.truncs) }
    {
        let gathered = gather(alloc, self.listed.take(), self.shares, self.truncs)?;
        let _merged = gathered.flat.pieces.as_slice();
        let attr = attr_of(alloc, &gathered.flat, &gathered.truncs);
        drop(gathered);
        attr
    }
}
