//! Services whose rounds are held at gates: how many workers run at once, and what waits for a round.

use super::check;
use super::rosters::roster_of;
use super::stages::{Comes, More, Reads, Scene, Stage, Until, Writes};
use firm_hall::serve;
use firm_table::{MOST_INPUT, ServeFault, serve_one};
use std::alloc::Global;
use std::process::Abort;
use std::sync::Wait;
use std::sync::atomic::Ordering;
use std::thread::Threads;

fn expect_end(rt: &impl Abort, scene: &Scene, stage: &Stage, fault: Option<ServeFault>) {
    let written = stage.written.load(Ordering::SeqCst);
    check(rt, fault == scene.fault, "the end of the service");
    check(rt, written == scene.lines, "the lines that are written");
    let missed = stage.missed.load(Ordering::SeqCst);
    check(rt, missed == 0, "what is awaited, read and written");
}

/// A service on threads is as the scene says.
fn play<R: Alloc<A = Global> + Abort + Threads + Wait + Sync>(rt: &R, scene: &'static Scene) {
    let alloc = rt.alloc();
    let roster = roster_of(rt, alloc, scene.records);
    let workers = scene.workers.clamp(1, 8);
    let most = scene.most.clamp(1, MOST_INPUT);
    let stage = &Stage::new(scene);
    let reader = &mut Reads { stage };
    let writer = &mut Writes {
        stage,
        rest: scene.text,
        has_failed: false,
    };
    let served = serve(rt, alloc, reader, writer, &roster, workers, stage, most);
    let (rounds, fault) = match served {
        Ok(totals) => (totals.rounds, None),
        Err(fault) => (0, Some(fault)),
    };
    check(rt, rounds == scene.rounds, "the rounds of the service");
    expect_end(rt, scene, stage, fault);
}

/// A service on one thread is as the scene says.
fn play_alone(rt: &impl Abort, alloc: Global, scene: &'static Scene) {
    let roster = roster_of(rt, alloc, scene.records);
    let stage = &Stage::new(scene);
    let reader = &mut Reads { stage };
    let writer = &mut Writes {
        stage,
        rest: scene.text,
        has_failed: false,
    };
    let most = scene.most.clamp(1, MOST_INPUT);
    let served = serve_one(alloc, reader, writer, &roster, most);
    expect_end(rt, scene, stage, served.err());
}

fn play_both<R: Alloc<A = Global> + Abort + Threads + Wait + Sync>(rt: &R, scene: &'static Scene) {
    play(rt, scene);
    play_alone(rt, rt.alloc(), scene);
}

/// Of an input that comes in one read.
const NOTHING_MORE: More = More {
    times: 0,
    again: b"",
    last: &[],
    comes: Comes::AtOnce,
};

static EIGHT: Scene = Scene {
    records: "\
a,2,0,1,0,0
b,2,0,1,0,0
c,2,0,1,0,0
d,2,0,1,0,0
e,2,0,1,0,0
f,2,0,1,0,0
g,2,0,1,0,0
h,2,0,1,0,0",
    workers: 8,
    most: MOST_INPUT,
    input: b"a round\nb round\nc round\nd round\ne round\nf round\ng round\nh round\n",
    more: NOTHING_MORE,
    held: 8,
    until: &[Until::Come(8)],
    lines: 8,
    text: b"\
a 1 ok round cost 0
b 1 ok round cost 0
c 1 ok round cost 0
d 1 ok round cost 0
e 1 ok round cost 0
f 1 ok round cost 0
g 1 ok round cost 0
h 1 ok round cost 0
",
    rounds: 8,
    fault: None,
};

#[test]
fn eight_workers_hold_eight_rounds_at_once(rt: HostRuntime) {
    play(&rt, &EIGHT);
}

/// In each of them the round of the tenant of the first place is held until a line of another is written.
static OF_NEIGHBOURS: [Scene; 5] = [
    // The service waits in the middle of its input.
    Scene {
        records: "b,2,0,9,0,0\na,2,0,9,0,0",
        workers: 2,
        most: MOST_INPUT,
        input: b"a round\nb round\n",
        more: More {
            times: 0,
            again: b"",
            last: &[],
            comes: Comes::Answered,
        },
        held: 1,
        until: &[Until::Written(1)],
        lines: 2,
        text: b"a 1 ok round cost 0\nb 1 ok round cost 0\n",
        rounds: 2,
        fault: None,
    },
    // It waits at the end of the input.
    Scene {
        records: "b,2,0,9,0,0\na,2,0,9,0,0",
        workers: 2,
        most: MOST_INPUT,
        input: b"a round\nb round\n",
        more: NOTHING_MORE,
        held: 1,
        until: &[Until::Written(1)],
        lines: 2,
        text: b"a 1 ok round cost 0\nb 1 ok round cost 0\n",
        rounds: 2,
        fault: None,
    },
    // A line of the tenant waits for its round.
    Scene {
        records: "b,2,0,9,0,0\na,2,0,9,0,0",
        workers: 2,
        most: MOST_INPUT,
        input: b"a round\nb round\nb where t\na costs\n",
        more: NOTHING_MORE,
        held: 1,
        until: &[Until::Written(1)],
        lines: 4,
        text: b"\
a 1 ok round cost 0
b 1 ok round cost 0
b 2 no 10 no-such-task
a 2 ok costs 0
",
        rounds: 2,
        fault: None,
    },
    // The tenant's retirement waits for its round.
    Scene {
        records: "b,2,0,9,0,0\na,2,0,9,0,0",
        workers: 2,
        most: MOST_INPUT,
        input: b"a round\nb round\n+ retire b\na costs\n",
        more: NOTHING_MORE,
        held: 1,
        until: &[Until::Written(1)],
        lines: 4,
        text: b"\
a 1 ok round cost 0
b 1 ok round cost 0
+ ok retired b
a 2 ok costs 0
",
        rounds: 2,
        fault: None,
    },
    // The queue is full, and the service reads on; no round is refused for that.
    Scene {
        records: "\
t02,2,0,1,0,0
t01,2,0,1,0,0
t03,2,0,1,0,0
t04,2,0,1,0,0
t05,2,0,1,0,0
t06,2,0,1,0,0
t07,2,0,1,0,0
t08,2,0,1,0,0
t09,2,0,1,0,0
t10,2,0,1,0,0
t11,2,0,1,0,0
t12,2,0,1,0,0",
        workers: 1,
        most: MOST_INPUT,
        input: b"\
t01 round
t02 round
t03 round
t04 round
t05 round
t06 round
t07 round
t08 round
t09 round
t10 round
t11 round
t12 round
",
        more: NOTHING_MORE,
        held: 1,
        until: &[Until::Written(1), Until::Read(2)],
        lines: 12,
        text: b"\
t01 1 ok round cost 0
t02 1 ok round cost 0
t03 1 ok round cost 0
t04 1 ok round cost 0
t05 1 ok round cost 0
t06 1 ok round cost 0
t07 1 ok round cost 0
t08 1 ok round cost 0
t09 1 ok round cost 0
t10 1 ok round cost 0
t11 1 ok round cost 0
t12 1 ok round cost 0
",
        rounds: 12,
        fault: None,
    },
];

fn play_all<R: Alloc<A = Global> + Abort + Threads + Wait + Sync>(
    rt: &R,
    scenes: &'static [Scene],
) {
    for scene in scenes {
        play(rt, scene);
    }
}

#[test]
fn no_reply_waits_for_the_round_of_another(rt: HostRuntime) {
    play_all(&rt, &OF_NEIGHBOURS);
}

/// Eight lines, 1,015 of one tenant, and a round of that one: there is room for their answers while the first round is
/// held. A line after them is read and waits for room.
static FULL: Scene = Scene {
    records: "a,2,0,1,0,0\nb,2,0,2000,0,0",
    workers: 2,
    most: MOST_INPUT,
    input: b"\
a round
a
nobody round
+ admit c,2,0,1,0,0
c round
+ admit d,2,0,1,0,0
+ retire d
+ retire nobody
",
    more: More {
        times: 1_015,
        again: b"b\n",
        last: &[b"b round\n", b"nobody\n"],
        comes: Comes::AtOnce,
    },
    held: 1,
    until: &[Until::Come(3), Until::ReadNoMore(1_018)],
    lines: 1_025,
    text: b"\
a 1 ok round cost 0
a 2 no 1 worn
! unknown-tenant
+ ok admitted c
c 1 ok round cost 0
+ ok admitted d
+ ok retired d
+ no 26 no-such-tenant
b 1 no 2 bad-command
",
    rounds: 3,
    fault: None,
};

#[test]
fn only_a_lack_of_room_for_answers_waits_for_a_round_of_another(rt: HostRuntime) {
    play(&rt, &FULL);
}

static LATE: Scene = Scene {
    records: "a,2,0,1,0,0\nb,2,0,2000,0,0",
    workers: 2,
    most: MOST_INPUT,
    input: b"a round\n",
    more: More {
        times: 0,
        again: b"",
        last: &[b"b\n"],
        comes: Comes::Brought,
    },
    held: 1,
    until: &[Until::Waits, Until::Read(2)],
    lines: 2,
    text: b"a 1 ok round cost 0\nb 1 no 2 bad-command\n",
    rounds: 1,
    fault: None,
};

// Two rounds are held, and the queue is full: another one of the last tenant waits for room, as the last of the others
// do, and the service does not wait with it.
static LATE_BEHIND_A_FULL_QUEUE: Scene = Scene {
    records: "\
b,2,0,9,0,0
c,2,0,9,0,0
x01,2,0,9,0,0
x02,2,0,9,0,0
x03,2,0,9,0,0
x04,2,0,9,0,0
x05,2,0,9,0,0
x06,2,0,9,0,0
x07,2,0,9,0,0
x08,2,0,9,0,0
x09,2,0,9,0,0
x10,2,0,9,0,0
x11,2,0,9,0,0
x12,2,0,9,0,0
a,2,0,9,0,0",
    workers: 2,
    most: MOST_INPUT,
    input: b"\
b round
a round
a round
c round
x01 round
x02 round
x03 round
x04 round
x05 round
x06 round
x07 round
x08 round
x09 round
x10 round
x11 round
x12 round
",
    more: More {
        times: 0,
        again: b"",
        last: &[b"b\n"],
        comes: Comes::Brought,
    },
    held: 2,
    until: &[Until::Come(3), Until::Waits, Until::Read(2)],
    lines: 17,
    text: b"\
b 1 ok round cost 0
a 1 ok round cost 0
a 2 ok round cost 0
c 1 ok round cost 0
x01 1 ok round cost 0
x02 1 ok round cost 0
x03 1 ok round cost 0
x04 1 ok round cost 0
x05 1 ok round cost 0
x06 1 ok round cost 0
x07 1 ok round cost 0
x08 1 ok round cost 0
x09 1 ok round cost 0
x10 1 ok round cost 0
x11 1 ok round cost 0
x12 1 ok round cost 0
b 2 no 2 bad-command
",
    rounds: 16,
    fault: None,
};

#[test]
fn input_that_comes_while_a_round_is_held_is_read(rt: HostRuntime) {
    play(&rt, &LATE);
    play(&rt, &LATE_BEHIND_A_FULL_QUEUE);
}

/// Number of lines that come one at a time.
const LINES_ASKED: u64 = 50;

static ONE_AT_A_TIME: Scene = Scene {
    records: "a,2,0,1099511627776,0,0",
    workers: 2,
    most: MOST_INPUT,
    input: b"a round\n",
    more: More {
        times: LINES_ASKED - 1,
        again: b"a round\n",
        last: &[],
        comes: Comes::Answered,
    },
    held: 1,
    until: &[Until::Asleep],
    lines: LINES_ASKED,
    text: b"a 1 ok round cost 0\na 2 ok round cost 0\n",
    rounds: LINES_ASKED,
    fault: None,
};

// If the service sleeps through a round's answer, no further line comes.
#[test]
fn each_reply_is_written_before_the_next_line_comes(rt: HostRuntime) {
    play(&rt, &ONE_AT_A_TIME);
}

static UNFLUSHED: Scene = Scene {
    records: "a,2,0,1,0,0",
    workers: 2,
    most: MOST_INPUT,
    input: b"a round\n",
    more: NOTHING_MORE,
    held: 0,
    until: &[],
    lines: 1,
    text: b"a 1 ok round cost 0\n",
    rounds: 0,
    fault: Some(ServeFault::Write),
};

// Standard output has no flush that can fail, so nothing outside shows it.
#[test]
fn a_failed_flush_is_a_failed_write(rt: HostRuntime) {
    play_both(&rt, &UNFLUSHED);
}

/// An input of 7 bytes.
static AT_MOST: [Scene; 2] = [
    Scene {
        records: "a,2,0,1,0,0",
        workers: 2,
        most: 6,
        input: b"a show\n",
        more: NOTHING_MORE,
        held: 0,
        until: &[],
        lines: 0,
        text: b"",
        rounds: 0,
        fault: Some(ServeFault::TooLong),
    },
    Scene {
        records: "a,2,0,1,0,0",
        workers: 2,
        most: 7,
        input: b"a show\n",
        more: NOTHING_MORE,
        held: 0,
        until: &[],
        lines: 1,
        text: b"a 1 ok machines 0 jobs 0 tasks 0 running 0 nodes 2 of 2 arcs 0 of 0\n",
        rounds: 0,
        fault: None,
    },
];

// Nobody waits for 2^32 bytes of a program's input.
#[test]
fn an_input_has_at_most_so_many_bytes(rt: HostRuntime) {
    for scene in &AT_MOST {
        play_both(&rt, scene);
    }
}
