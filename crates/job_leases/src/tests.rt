ghost use Rattle.std.specs.Prelude.{◌≡◌};

use super::*;
use dap_messages::JobNo;
use std::alloc::{AllocError, Global};
use std::test::Fail;

fn job(counter: u64) -> JobNo
    ensures { result ≡ record { lane = 0; incarnation = 1; counter = counter } }
{
    JobNo {
        lane: 0,
        incarnation: 1,
        counter,
    }
}

#[test]
fn a_lease_stands_for_sixteen_turns(rt: HostRuntime) -> Result<(), Fail> {
    let mut leases = Leases::new(rt.alloc());
    let first = job(0);
    leases.add(first)?;
    assert_eq!(rt; leases.lease(0, 0), None);
    assert!(rt;
        leases
            .submit(first, Stage::AwaitInit, Some(Stage::Combine))
            .is_ok()
    );
    for (turn, given) in [(0, Some(first)), (15, None), (16, Some(first)), (31, None)] {
        assert_eq!(rt; leases.lease(turn, 1), given);
    }
    leases.end_all();
    assert_eq!(rt; leases.lease(31, 2), Some(first));
    let stale = Stale {
        stands: Some(Stage::Combine),
    };
    assert_eq!(rt; leases.submit(first, Stage::Finish, None), Err(stale));
    assert_eq!(rt; leases.jobs().len(), 1);
    assert!(rt;
        leases
            .submit(first, Stage::Combine, Some(Stage::Finish))
            .is_ok()
    );
    assert_eq!(rt; leases.lease(31, 3), Some(first));
    Ok(())
}

/// The job of these numbers.
fn numbered(lane: u8, incarnation: u64, counter: u64) -> JobNo
    ensures { result ≡ record { lane = lane; incarnation = incarnation; counter = counter } }
{
    JobNo {
        lane,
        incarnation,
        counter,
    }
}

/// A job, and three that differ from it in one number alone.
fn neighbours(alloc: Global) -> Result<Leases, AllocError> {
    let mut leases = Leases::new(alloc);
    leases.add(numbered(1, 1, 1))?;
    leases.add(numbered(2, 1, 1))?;
    leases.add(numbered(1, 2, 1))?;
    leases.add(numbered(1, 1, 2))?;
    Ok(leases)
}

#[test]
fn jobs_that_differ_in_one_number_are_two(rt: HostRuntime) -> Result<(), Fail> {
    let mut leases = neighbours(rt.alloc())?;
    for job in [numbered(1, 1, 2), numbered(1, 2, 1), numbered(2, 1, 1)] {
        assert!(rt;
            leases
                .submit(job, Stage::AwaitInit, Some(Stage::Combine))
                .is_ok()
        );
        assert_eq!(rt; leases.lease(0, 0), Some(job));
    }
    assert_eq!(rt;
        leases.submit(numbered(2, 2, 2), Stage::Combine, None),
        Err(Stale { stands: None })
    );
    assert!(rt;
        leases
            .submit(numbered(1, 1, 1), Stage::AwaitInit, None)
            .is_ok()
    );
    assert_eq!(rt; leases.jobs().len(), 3);
    Ok(())
}

#[test]
fn a_lane_may_have_many_jobs(rt: HostRuntime) -> Result<(), Fail> {
    let mut leases = Leases::new(rt.alloc());
    for counter in 0..100 {
        let job = job(counter);
        let Err(Stale { stands: None }) = leases.submit(job, Stage::Finish, None) else {
            return Err("a job that is new".into());
        };
        leases.add(job)?;
    }
    assert_eq!(rt; leases.jobs().len(), 100);
    Ok(())
}

fn three_jobs(alloc: Global) -> Result<Leases, AllocError> {
    let mut leases = Leases::new(alloc);
    leases.add(job(5))?;
    leases.add(job(3))?;
    leases.add(job(4))?;
    Ok(leases)
}

#[test]
fn the_oldest_job_comes_first(rt: HostRuntime) -> Result<(), Fail> {
    let mut leases = three_jobs(rt.alloc())?;
    for counter in [5, 3, 4] {
        assert!(rt;
            leases
                .submit(job(counter), Stage::AwaitInit, Some(Stage::Combine))
                .is_ok()
        );
    }
    assert!(rt;
        leases
            .submit(job(5), Stage::Combine, Some(Stage::AwaitCont))
            .is_ok()
    );
    assert_eq!(rt; leases.lease(0, 0), Some(job(3)));
    assert!(rt;
        leases
            .submit(job(5), Stage::AwaitCont, Some(Stage::Finish))
            .is_ok()
    );
    for counter in [5, 4] {
        assert_eq!(rt; leases.lease(1, 0), Some(job(counter)));
    }
    assert!(rt; leases.submit(job(3), Stage::Combine, None).is_ok());
    assert_eq!(rt;
        leases.submit(job(3), Stage::Combine, None),
        Err(Stale { stands: None })
    );
    assert_eq!(rt; leases.jobs().len(), 2);
    Ok(())
}

#[test]
fn jobs_past_their_continue_are_kept(rt: HostRuntime) -> Result<(), Fail> {
    let mut leases = neighbours(rt.alloc())?;
    let stages = [
        (numbered(1, 1, 1), Stage::Combine),
        (numbered(2, 1, 1), Stage::AwaitCont),
        (numbered(1, 1, 2), Stage::Finish),
    ];
    for (job, stage) in stages {
        assert!(rt; leases.submit(job, Stage::AwaitInit, Some(stage)).is_ok());
    }
    assert_eq!(rt; leases.lease(0, 1), Some(numbered(1, 1, 1)));
    assert_eq!(rt; leases.lease(0, 1), Some(numbered(1, 1, 2)));
    leases.keep_continued();
    let waits = |job| OpenJob {
        job,
        stage: Stage::AwaitCont,
        lease: None,
    };
    assert_eq!(rt;
        leases.jobs(),
        [waits(numbered(2, 1, 1)), waits(numbered(1, 1, 2))].as_slice()
    );
    leases.keep_continued();
    assert_eq!(rt; leases.jobs().len(), 2);
    Ok(())
}

/// The value again. It may be moved to another thread, and shared with it.
fn shared<T: Send + Sync>(value: T) -> T {
    value
}

#[test]
fn a_table_may_be_shared_with_workers(rt: HostRuntime) {
    let leases = shared(Leases::new(rt.alloc()));
    assert!(rt; leases.jobs().is_empty());
}
