//! A gate holds workers; the report stays the same.

use crate::gates::{Diary, Meeting, Shuffled, UntilAnother};
use command_line::settings_of;
use crash_text::host::Host;
use crash_text::run::{Outcome, run};
use explorers::{Gate, OpenGate};
use std::process::Abort;
use std::sync::Wait;
use std::test::Fail;
use std::thread::Threads;

/// How many schedules are tried of each script and number of workers.
const SEEDS: u64 = 200;

/// A script, and the words of its command line.
#[derive(Drop)]
struct Asked {
    script: &'static [u8],
    words: &'static [&'static str],
}

/// A file is created without an order: 4 closed sets.
const CREATE: Asked = Asked {
    script: b"start\ncreate /a\n",
    words: &["--module", "async"],
};

/// A file gets another name without an order, and the checker is strict: 12 closed sets.
const RENAMED: Asked = Asked {
    script: b"create /a\nstart\nrename /a /b\n",
    words: &["--module", "async", "--strict"],
};

/// A file is created and written, without an order: 24 closed sets.
const WRITE: Asked = Asked {
    script: b"start\ncreate /a\nwrite /a\n",
    words: &["--module", "async"],
};

/// A block is freed and used again, without an order: 48 closed sets.
const REUSE: Asked = Asked {
    script: b"create /a\nwrite /a\ncreate /b\nstart\nunlink /a\nwrite /b\n",
    words: &["--module", "async"],
};

/// A directory's block becomes file data under a metadata journal: 629 closed sets.
const JOURNAL: Asked = Asked {
    script: b"mkdir /d\ncreate /d/x\ncreate /f\nstart\nunlink /d/x\nrmdir /d\nwrite /f\n",
    words: &["--module", "meta", "--blocks", "24", "--journal", "12"],
};

/// The report of a number of workers, held by a gate.
fn report<R: AllocGlobal + Threads + Wait + Sync, G: Gate + Sync>(
    rt: &R,
    asked: &Asked,
    workers: &'static str,
    gate: &G,
) -> Result<Outcome, Fail> {
    let mut words = Vec::new(rt.alloc());
    words.extend_from_slice(asked.words)?;
    words.extend_from_slice(&["--workers", workers])?;
    let request = settings_of(rt.alloc(), &words)?.request;
    Ok(run(&Host::new(rt), asked.script, &request, gate)?)
}

/// With each gate, this many workers give the report of a single one that nothing holds.
fn report_the_same<R: Abort + AllocGlobal + Threads + Wait + Sync, G: Gate + Sync>(
    rt: &R,
    asked: &Asked,
    workers: &'static str,
    gates: &[G],
) -> Result<(), Fail> {
    let plain = report(rt, asked, "1", &OpenGate)?;
    for gate in gates {
        let held = report(rt, asked, workers, gate)?;
        assert!(rt;
            held.text.as_str() == plain.text.as_str(),
            "{workers} workers"
        );
    }
    Ok(())
}

/// So many workers report the same of each script under the schedule of each seed.
fn report_under_each_seed<R: Abort + AllocGlobal + Threads + Wait + Sync>(
    rt: &R,
    workers: &'static str,
) -> Result<(), Fail> {
    let mut gates = Vec::new(rt.alloc());
    for seed in 0..SEEDS {
        gates.push(Shuffled { seed })?;
    }
    for asked in [RENAMED, WRITE, REUSE, JOURNAL] {
        report_the_same(rt, &asked, workers, &gates)?;
    }
    Ok(())
}

#[test]
fn two_workers_under_each_seed(rt: HostRuntime) -> Result<(), Fail> {
    report_under_each_seed(&rt, "2")
}

#[test]
fn four_workers_under_each_seed(rt: HostRuntime) -> Result<(), Fail> {
    report_under_each_seed(&rt, "4")
}

#[test]
fn eight_workers_under_each_seed(rt: HostRuntime) -> Result<(), Fail> {
    report_under_each_seed(&rt, "8")
}

#[test]
fn each_claimer_waits_for_another(rt: HostRuntime) -> Result<(), Fail> {
    report_the_same(&rt, &WRITE, "4", &[UntilAnother::new()])?;
    report_the_same(&rt, &JOURNAL, "4", &[UntilAnother::new()])
}

#[test]
fn two_and_four_workers_run_at_once(rt: HostRuntime) -> Result<(), Fail> {
    let (two, four) = ([Meeting::new(2, 1 << 2)], [Meeting::new(4, 1 << 4)]);
    report_the_same(&rt, &CREATE, "2", &two)?;
    report_the_same(&rt, &WRITE, "4", &four)?;
    assert!(rt; two[0].was_held() && four[0].was_held());
    Ok(())
}

/// A lone worker takes the newest task first: the sets are {}, {1}, {0, 1} and {0}.
#[test]
fn a_lone_worker_takes_the_newest_first(rt: HostRuntime) -> Result<(), Fail> {
    let gates = [Diary::new()];
    report_the_same(&rt, &CREATE, "1", &gates)?;
    assert!(rt; gates[0].digits() == 10231);
    Ok(())
}
