//! Each single fault once over a first run: a journal is begun, an order is placed, and its message comes again.

use crate::running::run;
use crate::status::Status;
use crate::tests::{Disk as Holds, MOMENT, ORDER, PLACED, TEXT, joined, pieces_of, word_alone};
use gate_base::{Bytes, Sequence};
use plant::{Calls, Fail, ListClock, ListEntropy, MemoryPlant, MemorySink, MemorySource};
use std::alloc::Global;
use std::process::Abort;

const FIRST_MOMENT: u64 = 1_757_894_400;

const LAST_MOMENT: u64 = 4_102_444_799;

const NO_REPLY: &[u8] = b"";

const DISK_FAULT: &[u8] =
    b"HTTP/1.1 503 Service Unavailable\r\ncontent-type: application/json\r\ncontent-length: 22\r\n\r\n\
    {\"reply\":\"disk_fault\"}";

const CLOCK_FAULT: &[u8] =
    b"HTTP/1.1 503 Service Unavailable\r\ncontent-type: application/json\r\ncontent-length: 23\r\n\r\n\
    {\"reply\":\"clock_fault\"}";

const TOO_EARLY: &[u8] =
    b"HTTP/1.1 503 Service Unavailable\r\ncontent-type: application/json\r\ncontent-length: 44\r\n\r\n\
    {\"reading\":1757894399,\"reply\":\"clock_range\"}";

const TOO_LATE: &[u8] =
    b"HTTP/1.1 503 Service Unavailable\r\ncontent-type: application/json\r\ncontent-length: 44\r\n\r\n\
    {\"reading\":4102444800,\"reply\":\"clock_range\"}";

/// The number of the call of one object that fails, from 1 on.
#[derive(Clone, Copy)]
enum Failing {
    Nothing,
    Disk(u64),
    Settings(u64),
    Take(u64),
    Put(u64),
}

use Failing::{Disk, Nothing, Put, Settings, Take};

/// How often a word takes from the settings: all of their bytes, and the end.
const SETTINGS_CALLS: u64 = 2;

/// All that the program reads and writes in both of its runs, but for the settings, which each word reads anew.
#[derive(Drop)]
struct Outside {
    plant: MemoryPlant,
    clock: ListClock,
    source: MemorySource,
    sink: MemorySink,
}

/// How `begin` and the session end, the replies to both messages, and what the disk holds.
type Left = (Status, Status, &'static [u8], &'static [u8], Holds);

fn one_call(rt: &impl Abort, alloc: Global, call: u64) -> Calls {
    Sequence::from_slice(alloc, &[call]).expect(rt, "memory")
}

/// The settings, of which the call with this number fails.
fn settings_of(rt: &impl Abort, alloc: Global, call: u64) -> MemorySource {
    let text = Bytes::from_slice(alloc, TEXT).expect(rt, "memory");
    MemorySource::new(text, one_call(rt, alloc, call))
}

fn failing_plant(rt: &impl Abort, alloc: Global, call: u64) -> MemoryPlant {
    let fails = Sequence::from_slice(alloc, &[(call, Fail::Disk)]).expect(rt, "memory");
    MemoryPlant::new(alloc, Bytes::new(alloc), Bytes::new(alloc), fails)
}

fn failing_outside(
    rt: &impl Abort,
    alloc: Global,
    failing: Failing,
    readings: &[Option<u64>],
) -> Outside {
    // 0 is no call
    let (disk, take, put) = match failing {
        Nothing | Settings(_) => (0, 0, 0),
        Disk(call) => (call, 0, 0),
        Take(call) => (0, call, 0),
        Put(call) => (0, 0, call),
    };
    let readings = Sequence::from_slice(alloc, readings).expect(rt, "memory");
    let messages = Bytes::from_vec(joined(rt, alloc, &[ORDER, ORDER]));
    Outside {
        plant: failing_plant(rt, alloc, disk),
        clock: ListClock::new(readings),
        source: MemorySource::new(messages, one_call(rt, alloc, take)),
        sink: MemorySink::new(alloc, one_call(rt, alloc, put)),
    }
}

/// The call of the settings that fails, over both words; 0 is none.
fn settings_call(failing: Failing) -> u64 {
    match failing {
        Settings(call) => call,
        Nothing | Disk(_) | Take(_) | Put(_) => 0,
    }
}

fn status_of(
    rt: &impl Abort,
    alloc: Global,
    settings: &mut MemorySource,
    outside: &mut Outside,
    word: &str,
) -> Status {
    let words = word_alone(rt, alloc, word);
    let mut entropy = ListEntropy::new(Sequence::new(alloc));
    run(
        alloc,
        words.as_slice(),
        settings,
        &mut outside.plant,
        &mut outside.clock,
        &mut entropy,
        &mut outside.source,
        &mut outside.sink,
    )
}

/// A first run over such an outside leaves exactly this, and nothing was sent to the signer.
fn leaves(rt: &impl Abort, alloc: Global, failing: Failing, readings: &[Option<u64>], left: Left) {
    let (begun, ended, first, second, disk) = left;
    let call = settings_call(failing);
    let mut to_begin = settings_of(rt, alloc, call);
    let mut to_hold = settings_of(rt, alloc, call.saturating_sub(SETTINGS_CALLS));
    let mut outside = failing_outside(rt, alloc, failing, readings);
    assert_eq!(rt;
        status_of(rt, alloc, &mut to_begin, &mut outside, "begin"),
        begun
    );
    assert_eq!(rt;
        status_of(rt, alloc, &mut to_hold, &mut outside, "session"),
        ended
    );
    let replies = joined(rt, alloc, &[first, second]);
    assert_eq!(rt; outside.sink.bytes(), replies.as_slice());
    let disk = joined(rt, alloc, pieces_of(disk));
    assert_eq!(rt; outside.plant.disk(), disk.as_slice());
    assert_eq!(rt; outside.plant.sent().len(), 0);
    assert_eq!(rt; outside.plant.short(), 0);
}

const NOW: Option<u64> = Some(MOMENT);

const EARLY: Option<u64> = Some(FIRST_MOMENT - 1);

const LATE: Option<u64> = Some(LAST_MOMENT + 1);

const UNREAD: Status = Status::ReadFault { settings: true };

const CUT_OFF: Status = Status::ReadFault { settings: false };

const TOO_EARLY_TO_BEGIN: Status = Status::ClockRange {
    reading: FIRST_MOMENT - 1,
};

const TOO_LATE_TO_BEGIN: Status = Status::ClockRange {
    reading: LAST_MOMENT + 1,
};

const NOT_BEGUN: Left = (
    Status::DiskFault,
    Status::NotBegun,
    NO_REPLY,
    NO_REPLY,
    Holds::Nothing,
);

/// No entry stands in the file.
const NO_ENTRY: Status = Status::JournalBad { at: 16 };

/// The head was written, and a closed gate.
const BLANK: Left = (
    Status::DiskFault,
    NO_ENTRY,
    NO_REPLY,
    NO_REPLY,
    Holds::Blank,
);

/// And the group behind it.
const UNOPENED: Left = (
    Status::DiskFault,
    NO_ENTRY,
    NO_REPLY,
    NO_REPLY,
    Holds::Unopened,
);

const UNMOUNTED: Left = (
    Status::Ok,
    Status::DiskFault,
    NO_REPLY,
    NO_REPLY,
    Holds::Begun,
);

/// The second message settles what became of the first one's order.
const SETTLED: Left = (Status::Ok, Status::Ok, DISK_FAULT, PLACED, Holds::WithOrder);

const WELL: Left = (Status::Ok, Status::Ok, PLACED, PLACED, Holds::WithOrder);

/// Which call fails, the readings of the clock, and what is left.
const FAULTS: &[(Failing, &[Option<u64>], Left)] = &[
    // `begin`: the length, and a write and a sync of the head, of the group, and of its gate.
    (Disk(1), &[NOW], NOT_BEGUN),
    (Disk(2), &[NOW], NOT_BEGUN),
    (Disk(3), &[NOW], BLANK),
    (Disk(4), &[NOW], BLANK),
    (Disk(5), &[NOW], UNOPENED),
    (Disk(6), &[NOW], UNOPENED),
    (
        Disk(7),
        &[NOW],
        (
            Status::DiskFault,
            Status::Ok,
            PLACED,
            PLACED,
            Holds::WithOrder,
        ),
    ),
    // The mount: a sync, the length, the head, the groups.
    (Disk(8), &[NOW], UNMOUNTED),
    (Disk(9), &[NOW], UNMOUNTED),
    (Disk(10), &[NOW], UNMOUNTED),
    (Disk(11), &[NOW], UNMOUNTED),
    // The order: a write and a sync of the group, and of its gate.
    (Disk(12), &[NOW], SETTLED),
    (Disk(13), &[NOW], SETTLED),
    (Disk(14), &[NOW], SETTLED),
    (Disk(15), &[NOW], SETTLED),
    // There are no more calls.
    (Disk(16), &[NOW], WELL),
    // The settings, for each word: all of their bytes, and the end.
    (
        Settings(1),
        &[NOW],
        (UNREAD, Status::NotBegun, NO_REPLY, NO_REPLY, Holds::Nothing),
    ),
    (
        Settings(2),
        &[NOW],
        (UNREAD, Status::NotBegun, NO_REPLY, NO_REPLY, Holds::Nothing),
    ),
    (
        Settings(3),
        &[NOW],
        (Status::Ok, UNREAD, NO_REPLY, NO_REPLY, Holds::Begun),
    ),
    (
        Settings(4),
        &[NOW],
        (Status::Ok, UNREAD, NO_REPLY, NO_REPLY, Holds::Begun),
    ),
    (Settings(5), &[NOW], WELL),
    // The messages: all of their bytes, and the end.
    (
        Take(1),
        &[NOW],
        (Status::Ok, CUT_OFF, NO_REPLY, NO_REPLY, Holds::Begun),
    ),
    (
        Take(2),
        &[NOW],
        (Status::Ok, CUT_OFF, PLACED, PLACED, Holds::WithOrder),
    ),
    (Take(3), &[NOW], WELL),
    // The replies: one for each message.
    (
        Put(1),
        &[NOW],
        (
            Status::Ok,
            Status::WriteFault,
            NO_REPLY,
            NO_REPLY,
            Holds::WithOrder,
        ),
    ),
    (
        Put(2),
        &[NOW],
        (
            Status::Ok,
            Status::WriteFault,
            PLACED,
            NO_REPLY,
            Holds::WithOrder,
        ),
    ),
    (Put(3), &[NOW], WELL),
    // The clock: a reading fails.
    (
        Nothing,
        &[None, NOW, NOW],
        (
            Status::ClockFault,
            Status::NotBegun,
            NO_REPLY,
            NO_REPLY,
            Holds::Nothing,
        ),
    ),
    (
        Nothing,
        &[NOW, None, NOW],
        (
            Status::Ok,
            Status::Ok,
            CLOCK_FAULT,
            PLACED,
            Holds::WithOrder,
        ),
    ),
    (
        Nothing,
        &[NOW, NOW, None],
        (
            Status::Ok,
            Status::Ok,
            PLACED,
            CLOCK_FAULT,
            Holds::WithOrder,
        ),
    ),
    // A reading is out of range.
    (
        Nothing,
        &[EARLY, NOW, NOW],
        (
            TOO_EARLY_TO_BEGIN,
            Status::NotBegun,
            NO_REPLY,
            NO_REPLY,
            Holds::Nothing,
        ),
    ),
    (
        Nothing,
        &[LATE, NOW, NOW],
        (
            TOO_LATE_TO_BEGIN,
            Status::NotBegun,
            NO_REPLY,
            NO_REPLY,
            Holds::Nothing,
        ),
    ),
    (
        Nothing,
        &[NOW, EARLY, NOW],
        (Status::Ok, Status::Ok, TOO_EARLY, PLACED, Holds::WithOrder),
    ),
    (
        Nothing,
        &[NOW, NOW, LATE],
        (Status::Ok, Status::Ok, PLACED, TOO_LATE, Holds::WithOrder),
    ),
    // A reading below the last moment: the moment stays.
    (
        Nothing,
        &[NOW, Some(FIRST_MOMENT), Some(FIRST_MOMENT)],
        WELL,
    ),
];

#[test]
fn each_call_fails_once(rt: HostRuntime) {
    for (failing, readings, left) in FAULTS {
        leaves(&rt, rt.alloc(), *failing, readings, *left);
    }
}
