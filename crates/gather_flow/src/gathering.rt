//! The shares and the truncates of a container that is gathered.
ghost use Rattle.std.specs.Prelude.{◌≡◌, ◌<◌, ◌≤◌, ◌+◌, ◌-◌, [], ◌∷◌, IfOk};
ghost use Rattle.mount_model.specs.Standing.{ready, replied, Awaits};
ghost use Rattle.gather_flow.specs.Gathering.{shares_from, reads_truncs, shares_bound, gather_standing, gather_rest, gather_left, machines_left, IsThrough};
ghost use Rattle.gather_flow.specs.Called.{IsTried, IsCalled};

use crate::all_read::AllRead;
use crate::listed::Listed;
use crate::work_list::share_read;
use index_reader::{Share, ShareList, ShareRead, TruncRead};
use mount_model::{Call, Flow, Reply, Stuck};
use plfs_types::NoMemory;
use std::alloc::Global;

/// How far the gathering of a container is, once it is listed.
#[derive(Drop)]
pub enum Gathering {
    /// A worker's share is read; those from number `worker` on are to come, behind those so far.
    Shares {
        flow: ShareRead,
        listed: Listed,
        workers: u32,
        worker: u32,
        sofar: ShareList,
    },
    Truncs {
        flow: TruncRead,
        listed: Listed,
        shares: ShareList,
    },
    Ended(Result<AllRead, Stuck>),
}

/// What the machine at work says to whether it has a call.
#[derive(Drop)]
pub(crate) enum Tried {
    Asks(Call, Gathering),
    Through(Gathering),
    Over(Result<AllRead, Stuck>),
}

/// The next call, or the end.
#[derive(Drop)]
pub enum Called {
    Asks(Call, Gathering),
    Over(Result<AllRead, Stuck>),
}

impl Gathering {
    /// Begins with the first worker's share.
    pub fn new(alloc: Global, listed: Listed, workers: u32) -> Result<Self, NoMemory>
        ensures standing { IfOk result (λ g. gather_standing g ≡ ready (shares_from workers listed 0 [])) }
        ensures left { IfOk result (λ g. gather_left g ≤ shares_bound workers) }
    {
        Gathering::on(alloc, listed, workers, 0, ShareList::new(alloc))
    }

    /// Goes on behind the shares that workers read, which were joined into this one.
    pub fn behind(alloc: Global, listed: Listed, share: Share) -> Result<Self, NoMemory>
        ensures standing { IfOk result (λ g. gather_standing g ≡ ready (reads_truncs listed (share ∷ []))) }
        ensures left { IfOk result (λ g. gather_left g ≤ shares_bound 0) }
    {
        let mut shares = ShareList::new(alloc);
        shares.push(share)?;
        Gathering::on(alloc, listed, 0, 0, shares)
    }

    /// Goes on with the share of this worker, or with the truncates.
    fn on(
        alloc: Global,
        listed: Listed,
        workers: u32,
        worker: u32,
        sofar: ShareList,
    ) -> Result<Self, NoMemory>
        ensures standing { IfOk result (λ g. gather_standing g ≡ ready (shares_from workers listed worker sofar)) }
        ensures left { IfOk result (λ g. gather_left g ≤ shares_bound (workers - worker)) }
        ensures fewer { IfOk result (λ g. machines_left g ≤ 1 + (workers - worker)) }
    {
        if worker >= workers {
            let flow = TruncRead::new(alloc, listed.get().room);
            return Ok(Gathering::Truncs {
                flow,
                listed,
                shares: sofar,
            });
        }
        let flow = match share_read(alloc, &listed, workers, worker) {
            Ok(flow) => flow,
            Err(why) => {
                drop((listed, sofar));
                return Err(why);
            }
        };
        Ok(Gathering::Shares {
            flow,
            listed,
            workers,
            worker: worker + 1,
            sofar,
        })
    }

    /// Goes on to the next machine, where the one at work has no further call.
    fn go_on(self, alloc: Global) -> Result<Self, NoMemory>
        requires { IsThrough self }
        ensures standing { IfOk result (λ g. gather_standing g ≡ gather_standing self) }
        ensures left { IfOk result (λ g. gather_left g ≤ gather_left self) }
        ensures fewer { IfOk result (λ g. machines_left g < machines_left self) }
    {
        match self {
            Gathering::Shares {
                flow,
                listed,
                workers,
                worker,
                sofar,
            } => {
                let mut sofar = sofar;
                match flow.out() {
                    Ok(share) => {
                        if let Err(why) = sofar.push(share) {
                            drop((listed, sofar));
                            return Err(why);
                        }
                        Gathering::on(alloc, listed, workers, worker, sofar)
                    }
                    Err(because) => {
                        drop((listed, sofar));
                        Ok(Gathering::Ended(Err(because)))
                    }
                }
            }
            Gathering::Truncs {
                flow,
                listed,
                shares,
            } => match flow.out() {
                Ok(truncs) => Ok(Gathering::Ended(Ok(AllRead {
                    listed,
                    shares,
                    truncs,
                }))),
                Err(because) => {
                    drop((listed, shares));
                    Ok(Gathering::Ended(Err(because)))
                }
            },
            Gathering::Ended(_) => unreachable!(),
        }
    }

    /// Asks the machine at work for its next call.
    fn call(self) -> Result<Tried, NoMemory>
        ensures { IfOk result (IsTried self) }
    {
        match self {
            Gathering::Shares {
                mut flow,
                listed,
                workers,
                worker,
                sofar,
            } => {
                let call = match flow.next() {
                    Ok(call) => call,
                    Err(why) => {
                        drop((flow, listed, sofar));
                        return Err(why);
                    }
                };
                let gathering = Gathering::Shares {
                    flow,
                    listed,
                    workers,
                    worker,
                    sofar,
                };
                match call {
                    Some(call) => Ok(Tried::Asks(call, gathering)),
                    None => Ok(Tried::Through(gathering)),
                }
            }
            Gathering::Truncs {
                mut flow,
                listed,
                shares,
            } => {
                let call = match flow.next() {
                    Ok(call) => call,
                    Err(why) => {
                        drop((flow, listed, shares));
                        return Err(why);
                    }
                };
                let gathering = Gathering::Truncs {
                    flow,
                    listed,
                    shares,
                };
                match call {
                    Some(call) => Ok(Tried::Asks(call, gathering)),
                    None => Ok(Tried::Through(gathering)),
                }
            }
            Gathering::Ended(made) => Ok(Tried::Over(made)),
        }
    }
}

impl Gathering {
    /// The next call, or the end where there is none.
    pub fn next(self, alloc: Global) -> Result<Called, NoMemory>
        ensures { IfOk result (IsCalled self) }
    {
        let mut gathering = self;
        loop {
            match gathering.call()? {
                Tried::Asks(call, asking) => return Ok(Called::Asks(call, asking)),
                Tried::Over(made) => return Ok(Called::Over(made)),
                Tried::Through(through) => gathering = through.go_on(alloc)?,
            }
        }
    }

    /// Goes on with the reply to the call that is out.
    pub fn take(self, reply: Reply) -> Result<Self, NoMemory>
        requires { Awaits (gather_rest self) }
        ensures goes_on { IfOk result (λ g. gather_standing g ≡ ready (replied (gather_rest self) reply)) }
        ensures left { IfOk result (λ g. gather_left g < gather_left self) }
    {
        match self {
            Gathering::Shares {
                mut flow,
                listed,
                workers,
                worker,
                sofar,
            } => {
                match flow.take(reply) {
                    Ok(()) => Ok(Gathering::Shares {
                        flow,
                        listed,
                        workers,
                        worker,
                        sofar,
                    }),
                    Err(why) => {
                        drop((flow, listed, sofar));
                        Err(why)
                    }
                }
            }
            Gathering::Truncs {
                mut flow,
                listed,
                shares,
            } => {
                match flow.take(reply) {
                    Ok(()) => Ok(Gathering::Truncs {
                        flow,
                        listed,
                        shares,
                    }),
                    Err(why) => {
                        drop((flow, listed, shares));
                        Err(why)
                    }
                }
            }
            Gathering::Ended(_) => unreachable!(),
        }
    }
}
