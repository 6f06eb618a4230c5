use crate::running::run;
use crate::status::Status;
use gate_base::{Bytes, Sequence, Sixteen};
use plant::{Fail, ListClock, ListEntropy, MemoryPlant, MemorySink, MemorySource};
use std::alloc::Global;
use std::process::Abort;

/// 2026-09-21T14:13:20Z.
pub const MOMENT: u64 = 1_790_000_000;

pub const HEAD: &[u8] = b"gate journal 01\n";

/// A gate that is open.
pub const OPEN: &[u8] = b"\x01";

/// A front of the order's group, and bytes that tore.
const PART_OF_ORDERED: &[u8] = b"\0\0\0\xa4\xf0\x08\0\0";

/// A gate that is closed.
pub const CLOSED: &[u8] = b"\0";

/// The front of the group of the settings at that moment as entry 1; their text stands behind it. Its chain is what Python's hashlib
/// computes.
pub const SETTINGS: &[u8] = b"\0\0\x04\xe5\
    \x5a\x2c\x68\xe7\xa9\x0f\x17\xac\xfc\x33\x92\x4f\xe7\x67\xf6\x2d\
    \xa5\x5b\xbd\x64\x94\xdb\x7b\xd8\x61\x53\x4c\xe6\x7f\x76\x73\x77\
    \x01\0\0\0\0\0\0\0\x01\0\0\0\0\x6a\xb1\x3b\x80\0\0\0\0\x04\xce";

/// Readable settings.
pub const TEXT: &[u8] = b"issuers = [\"ca.example\"]\n\
    [ca]\n\
    issuer = \"30123110300e06035504030c0747617465204341\"\n\
    algorithm = \"ecdsa-sha256\"\n\
    key_id = \"2222222222222222222222222222222222222222\"\n\
    crl = \"http://c.example/1.crl\"\n\
    aia = \"http://c.example/1.cer\"\n\
    [suffixes]\n\
    rules = \"com\\nexample\\n\"\n\
    [[callers]]\n\
    id = \"acme\"\n\
    role = \"account\"\n\
    token = \"acme-token\"\n\
    thumb = \"AAAAAAAAAAAAAAAAAAAAAAAAAAAAAAAAAAAAAAAAAAA\"\n\
    [[callers]]\n\
    id = \"op\"\n\
    role = \"operator\"\n\
    token = \"op-token\"\n\
    [[callers]]\n\
    id = \"p0\"\n\
    role = \"perspective\"\n\
    token = \"t0\"\n\
    [[callers]]\n\
    id = \"p1\"\n\
    role = \"perspective\"\n\
    token = \"t1\"\n\
    [[callers]]\n\
    id = \"p2\"\n\
    role = \"perspective\"\n\
    token = \"t2\"\n\
    [[callers]]\n\
    id = \"p3\"\n\
    role = \"perspective\"\n\
    token = \"t3\"\n\
    [[callers]]\n\
    id = \"p4\"\n\
    role = \"perspective\"\n\
    token = \"t4\"\n\
    [[callers]]\n\
    id = \"p5\"\n\
    role = \"perspective\"\n\
    token = \"t5\"\n\
    [[perspectives]]\n\
    id = \"p0\"\n\
    primary = true\n\
    region = \"arin\"\n\
    at = [0, 0, 0]\n\
    [[perspectives]]\n\
    id = \"p1\"\n\
    primary = false\n\
    region = \"ripe\"\n\
    at = [1000, 0, 0]\n\
    [[perspectives]]\n\
    id = \"p2\"\n\
    primary = false\n\
    region = \"ripe\"\n\
    at = [2000, 0, 0]\n\
    [[perspectives]]\n\
    id = \"p3\"\n\
    primary = false\n\
    region = \"apnic\"\n\
    at = [3000, 0, 0]\n\
    [[perspectives]]\n\
    id = \"p4\"\n\
    primary = false\n\
    region = \"apnic\"\n\
    at = [4000, 0, 0]\n\
    [[perspectives]]\n\
    id = \"p5\"\n\
    primary = false\n\
    region = \"arin\"\n\
    at = [5000, 0, 0]\n";

/// The front of the group of the changed settings at that moment as entry 2.
const CHANGED_SETTINGS: &[u8] = b"\0\0\x04\xe9\
    \x2c\x87\x3b\xee\x55\x8d\x13\xc1\xcd\x31\x28\x68\x9e\x83\x68\x4a\
    \xf9\x96\x21\x8d\x59\xa8\x59\x1b\x68\xae\xba\x78\x36\xca\xec\xc5\
    \x01\0\0\0\0\0\0\0\x02\0\0\0\0\x6a\xb1\x3b\x80\0\0\0\0\x04\xd2";

/// What changed settings have behind the readable ones.
const CHANGE: &[u8] = b"# 2\n";

/// The pieces of a disk, from its front on.
pub type Pieces = &'static [&'static [u8]];

/// What a disk holds.
#[derive(Clone, Copy)]
pub enum Disk {
    Nothing,
    /// A head and a closed gate, as a stopped `begin` leaves it.
    Blank,
    /// And the group of the settings behind it.
    Unopened,
    Begun,
    WithOrder,
    WithChange,
}

/// Its bytes.
pub fn pieces_of(disk: Disk) -> Pieces {
    match disk {
        Disk::Nothing => &[],
        Disk::Blank => &[HEAD, CLOSED],
        Disk::Unopened => &[HEAD, CLOSED, SETTINGS, TEXT, CLOSED],
        Disk::Begun => BEGUN,
        Disk::WithOrder => WITH_ORDER,
        Disk::WithChange => WITH_CHANGE,
    }
}

/// The disk behind `begin`.
const BEGUN: Pieces = &[HEAD, OPEN, SETTINGS, TEXT, CLOSED];

/// The disk with the order.
const WITH_ORDER: Pieces = &[HEAD, OPEN, SETTINGS, TEXT, OPEN, ORDERED, CLOSED];

pub const ORDER: &[u8] =
    b"POST /orders HTTP/1.1\r\nhost: gate\r\nx-gate-key: acme-token\r\ncontent-length: 234\r\n\r\n\
    {\"common\":false,\"days\":47,\"key\":\"k1\",\"names\":[\"example.com\"],\"request\":\"\
    MHQwYgIBADAAMFkwEwYHKoZIzj0CAQYIKoZIzj0DAQcDQgAEERERERERERERERERERERERERERERERER\
    EREREREREREREREREREREREREREREREREREREREREREREREREREREaAAMAoGCCqGSM49BAMCAwIAAA==\"}";

/// Another order with the same key.
const OTHER_ORDER: &[u8] =
    b"POST /orders HTTP/1.1\r\nhost: gate\r\nx-gate-key: acme-token\r\ncontent-length: 252\r\n\r\n\
    {\"common\":false,\"days\":47,\"key\":\"k1\",\"names\":[\"example.com\",\"www.example.com\"],\"request\":\"\
    MHQwYgIBADAAMFkwEwYHKoZIzj0CAQYIKoZIzj0DAQcDQgAEERERERERERERERERERERERERERERERER\
    EREREREREREREREREREREREREREREREREREREREREREREREREREREaAAMAoGCCqGSM49BAMCAwIAAA==\"}";

/// An order whose request is cut off behind three bytes.
const FAULTY_ORDER: &[u8] =
    b"POST /orders HTTP/1.1\r\nhost: gate\r\nx-gate-key: acme-token\r\ncontent-length: 78\r\n\r\n\
    {\"common\":false,\"days\":47,\"key\":\"k1\",\"names\":[\"example.com\"],\"request\":\"MIIB\"}";

/// The group of the order as entry 2 at that moment: its length and its chain, which is what Python's hashlib computes, what stands
/// in front of its request, and the request.
pub const ORDERED: &[u8] = b"\0\0\0\xa4\
    \xf0\x08\xb0\x51\x10\xb9\xd0\x7b\x64\xa8\xdf\x77\x94\xee\x45\xf5\
    \xb1\xce\x57\x8a\x3c\x46\x8f\x60\x8f\x3e\x11\xe1\x71\xdb\xf8\xea\
    \x02\0\0\0\0\0\0\0\x02\0\0\0\0\x6a\xb1\x3b\x80\
    \0\x04acme\x02k1\0\0\x2f\x01\x01\0\x0bexample.com\0\x76\
    \x30\x74\x30\x62\x02\x01\0\x30\0\x30\x59\x30\x13\x06\x07\x2a\x86\
    \x48\xce\x3d\x02\x01\x06\x08\x2a\x86\x48\xce\x3d\x03\x01\x07\x03\x42\0\x04\
    \x11\x11\x11\x11\x11\x11\x11\x11\x11\x11\x11\x11\x11\x11\x11\x11\x11\x11\x11\x11\x11\x11\
    \x11\x11\x11\x11\x11\x11\x11\x11\x11\x11\x11\x11\x11\x11\x11\x11\x11\x11\x11\x11\x11\x11\
    \x11\x11\x11\x11\x11\x11\x11\x11\x11\x11\x11\x11\x11\x11\x11\x11\x11\x11\x11\x11\
    \xa0\0\x30\x0a\x06\x08\x2a\x86\x48\xce\x3d\x04\x03\x02\x03\x02\0\0";

pub const PLACED: &[u8] =
    b"HTTP/1.1 200 OK\r\ncontent-type: application/json\r\ncontent-length: 28\r\n\r\n\
    {\"order\":2,\"reply\":\"placed\"}";

const KEY_REUSED: &[u8] =
    b"HTTP/1.1 409 Conflict\r\ncontent-type: application/json\r\ncontent-length: 31\r\n\r\n\
    {\"kept\":2,\"reply\":\"key_reused\"}";

const NO_DER: &[u8] =
    b"HTTP/1.1 422 Unprocessable Entity\r\ncontent-type: application/json\r\ncontent-length: 31\r\n\r\n\
    {\"reply\":\"bad_fields\",\"rule\":7}";

/// Has the order finalized.
const FINALIZE: &[u8] =
    b"POST /orders/2/finalize HTTP/1.1\r\nhost: gate\r\nx-gate-key: acme-token\r\n\r\n";

const SIGNER_FAULT: &[u8] =
    b"HTTP/1.1 503 Service Unavailable\r\ncontent-type: application/json\r\ncontent-length: 24\r\n\r\n\
    {\"reply\":\"signer_fault\"}";

/// The certificate of 84 bytes: a serial number of 40 and fifteen zeros, the name, and SHA-256 of the body under an empty secret.
const ISSUED: &[u8] =
    b"HTTP/1.1 200 OK\r\ncontent-type: application/json\r\ncontent-length: 201\r\n\r\n\
    {\"certificate\":\"MFIwIQIQQAAAAAAAAAAAAAAAAAAAADANggtleGFtcGxlLmNvbTAKBggqhkjOPQQDAgMhALd\
    XRyESI0vlf1q3Mne7fULZJX84tFTvmDisCE35NcCm\",\"order\":2,\"reply\":\"issued\",\"serial\":\"40000000000000000000000000000000\"}";

/// A plant with these bytes, of which the calls with these numbers fail.
fn plant_with(
    rt: &impl Abort,
    alloc: Global,
    disk: &[&[u8]],
    fails: &[(u64, Fail)],
) -> MemoryPlant {
    let disk = Bytes::from_vec(joined(rt, alloc, disk));
    let fails = Sequence::from_slice(alloc, fails).expect(rt, "memory");
    MemoryPlant::new(alloc, disk, Bytes::new(alloc), fails)
}

fn source(rt: &impl Abort, alloc: Global, bytes: &[u8]) -> MemorySource {
    let bytes = Bytes::from_slice(alloc, bytes).expect(rt, "memory");
    MemorySource::new(bytes, Sequence::new(alloc))
}

fn clock(rt: &impl Abort, alloc: Global) -> ListClock {
    let readings = Sequence::from_slice(alloc, &[Some(MOMENT)]).expect(rt, "memory");
    ListClock::new(readings)
}

pub fn word_alone(rt: &impl Abort, alloc: Global, word: &str) -> Vec<String> {
    let word = String::from_str(alloc, word).expect(rt, "memory");
    vec![in alloc; word].expect(rt, "memory")
}

/// The status of a run over the plant, and what it writes into the sink.
fn status_of(
    rt: &impl Abort,
    alloc: Global,
    plant: &mut MemoryPlant,
    (word, settings): (&str, &[u8]),
    input: &[u8],
    sink: &mut MemorySink,
) -> Status {
    // Sixteen zeros, once.
    let draws = Sequence::from_slice(alloc, &[Some(Sixteen([0; 16]))]).expect(rt, "memory");
    let words = word_alone(rt, alloc, word);
    let mut conf = source(rt, alloc, settings);
    let mut input = source(rt, alloc, input);
    let mut clock = clock(rt, alloc);
    let mut entropy = ListEntropy::new(draws);
    run(
        alloc,
        words.as_slice(),
        &mut conf,
        plant,
        &mut clock,
        &mut entropy,
        &mut input,
        sink,
    )
}

/// What the program is asked for: a journal is begun, it is begun where one stands, or messages are answered; how that ends.
#[derive(Clone, Copy)]
enum Asked {
    Begin,
    BeginAgain,
    Session,
    CutSession,
}

use Asked::{Begin, BeginAgain, CutSession, Session};

/// A run: its messages, and what it writes.
type Run = (Asked, Pieces, Pieces);

/// A run, and what the disk then holds.
type Case = (Asked, Pieces, Pieces, Disk);

/// Runs one after another, each list of them over a disk of its own.
const RUNS: &[&[Case]] = &[
    // what stands is not begun again
    &[
        (Begin, &[], &[], Disk::Begun),
        (BeginAgain, &[], &[], Disk::Begun),
    ],
    // no message, and a part of one
    &[
        (Begin, &[], &[], Disk::Begun),
        (Session, &[], &[], Disk::Begun),
        (CutSession, &[b"POST /orders"], &[], Disk::Begun),
    ],
    // a repeated order returns the same reply and writes nothing
    &[
        (Begin, &[], &[], Disk::Begun),
        (Session, &[ORDER], &[PLACED], Disk::WithOrder),
        (Session, &[OTHER_ORDER], &[KEY_REUSED], Disk::WithOrder),
    ],
    &[
        (Begin, &[], &[], Disk::Begun),
        (Session, &[ORDER, ORDER], &[PLACED, PLACED], Disk::WithOrder),
        (Session, &[ORDER], &[PLACED], Disk::WithOrder),
    ],
    // the key of a refused order stays free
    &[
        (Begin, &[], &[], Disk::Begun),
        (Session, &[FAULTY_ORDER], &[NO_DER], Disk::Begun),
        (
            Session,
            &[FAULTY_ORDER, ORDER, FAULTY_ORDER],
            &[NO_DER, PLACED, KEY_REUSED],
            Disk::WithOrder,
        ),
    ],
];

/// The word that is asked, and how the run ends.
fn word_of(asked: Asked) -> (&'static str, Status) {
    match asked {
        Begin => ("begin", Status::Ok),
        BeginAgain => ("begin", Status::NotEmpty { length: 1307 }),
        Session => ("session", Status::Ok),
        CutSession => ("session", Status::NotBuilt),
    }
}

pub fn joined(rt: &impl Abort, alloc: Global, pieces: &[&[u8]]) -> Vec<u8> {
    let mut all = Vec::new(alloc);
    for piece in pieces {
        all.extend_from_slice(piece).expect(rt, "memory");
    }
    all
}

/// The run ends so and writes exactly its output.
fn run_is(rt: &impl Abort, alloc: Global, plant: &mut MemoryPlant, run: Run) {
    let (asked, input, output) = run;
    let (word, want) = word_of(asked);
    let input = joined(rt, alloc, input);
    let output = joined(rt, alloc, output);
    let mut sink = MemorySink::new(alloc, Sequence::new(alloc));
    let status = status_of(rt, alloc, plant, (word, TEXT), &input, &mut sink);
    assert_eq!(rt; status, want);
    assert_eq!(rt; sink.bytes(), output.as_slice());
}

/// The disk holds exactly this; nothing was sent to the signer.
fn holds(rt: &impl Abort, alloc: Global, plant: &MemoryPlant, disk: Disk) {
    let disk = joined(rt, alloc, pieces_of(disk));
    assert_eq!(rt; plant.disk(), disk.as_slice());
    assert_eq!(rt; plant.sent().len(), 0);
    assert_eq!(rt; plant.short(), 0);
}

fn runs_are(rt: &impl Abort, alloc: Global, runs: &[Case]) {
    let mut plant = plant_with(rt, alloc, &[], &[]);
    for case in runs {
        let (asked, input, output, left) = *case;
        run_is(rt, alloc, &mut plant, (asked, input, output));
        holds(rt, alloc, &plant, left);
    }
}

#[test]
fn runs_write_and_reply_as_they_should(rt: HostRuntime) {
    for runs in RUNS {
        runs_are(&rt, rt.alloc(), runs);
    }
}

/// What a stop may leave while the order is written.
#[derive(Clone, Copy)]
enum Stopped {
    /// A part of the group stands behind the closed gate.
    Part,
    /// The whole of it.
    Whole,
    /// And the gate is torn.
    Torn,
    /// And the gate is open.
    Opened,
}

fn left_by(stopped: Stopped) -> Pieces {
    match stopped {
        Stopped::Part => &[HEAD, OPEN, SETTINGS, TEXT, CLOSED, PART_OF_ORDERED],
        Stopped::Whole => &[HEAD, OPEN, SETTINGS, TEXT, CLOSED, ORDERED, CLOSED],
        Stopped::Torn => &[HEAD, OPEN, SETTINGS, TEXT, b"\x02", ORDERED, CLOSED],
        Stopped::Opened => WITH_ORDER,
    }
}

/// What a stop left, what is asked then, and the reply.
const STOPPED: &[(Stopped, &[u8], &[u8])] = &[
    (Stopped::Part, ORDER, PLACED),
    (Stopped::Whole, ORDER, PLACED),
    (Stopped::Torn, ORDER, PLACED),
    (Stopped::Opened, OTHER_ORDER, KEY_REUSED),
];

#[test]
fn a_session_after_a_stop(rt: HostRuntime) {
    let alloc = rt.alloc();
    for (stopped, message, reply) in STOPPED {
        let mut plant = plant_with(&rt, alloc, left_by(*stopped), &[]);
        let mut sink = MemorySink::new(alloc, Sequence::new(alloc));
        let status = status_of(
            &rt,
            alloc,
            &mut plant,
            ("session", TEXT),
            message,
            &mut sink,
        );
        assert_eq!(rt; status, Status::Ok);
        assert_eq!(rt; sink.bytes(), *reply);
        holds(&rt, alloc, &plant, Disk::WithOrder);
    }
}

/// The certificate is returned again without calling the signer.
const LOST: &[Run] = &[
    (Begin, &[], &[]),
    (
        Session,
        &[ORDER, FINALIZE, FINALIZE],
        &[PLACED, SIGNER_FAULT, ISSUED],
    ),
    (Session, &[FINALIZE], &[ISSUED]),
];

#[test]
fn a_lost_answer_sends_the_same_bytes_again(rt: HostRuntime) {
    let alloc = rt.alloc();
    // Before the signer: of `begin` 7 calls, of the mount 4, of the order and of what is sent 4 each.
    let mut plant = plant_with(&rt, alloc, &[], &[(20, Fail::ReplyLost)]);
    for run in LOST {
        run_is(&rt, alloc, &mut plant, *run);
    }
    assert_eq!(rt; plant.sent().len(), 2);
    assert!(rt; plant.sent().get(0) == plant.sent().get(1));
}

/// Settings, how a session under them ends, and what the disk then holds.
type Settled = (Conf, Status, Disk);

const WITH_CHANGE: Pieces = &[
    HEAD,
    OPEN,
    SETTINGS,
    TEXT,
    OPEN,
    CHANGED_SETTINGS,
    TEXT,
    CHANGE,
    CLOSED,
];

/// The settings of a session.
#[derive(Clone, Copy)]
enum Conf {
    Same,
    Changed,
    Empty,
    Torn,
}

fn settings_of(conf: Conf) -> Pieces {
    match conf {
        Conf::Same => &[TEXT],
        Conf::Changed => &[TEXT, CHANGE],
        Conf::Empty => &[],
        Conf::Torn => &[b"["],
    }
}

/// Sessions one after another.
const SETTLED: &[Settled] = &[
    // the settings in force are not written again
    (Conf::Same, Status::Ok, Disk::Begun),
    // changed ones are, once
    (Conf::Changed, Status::Ok, Disk::WithChange),
    (Conf::Changed, Status::Ok, Disk::WithChange),
    // a member is missing; it is no TOML
    (
        Conf::Empty,
        Status::SettingsBad { rule: 3, item: 0 },
        Disk::WithChange,
    ),
    (
        Conf::Torn,
        Status::SettingsBad { rule: 2, item: 0 },
        Disk::WithChange,
    ),
];

#[test]
fn changed_settings_are_recorded(rt: HostRuntime) {
    let alloc = rt.alloc();
    let mut plant = plant_with(&rt, alloc, BEGUN, &[]);
    for (conf, want, disk) in SETTLED {
        let settings = joined(&rt, alloc, settings_of(*conf));
        let mut sink = MemorySink::new(alloc, Sequence::new(alloc));
        let asked = ("session", settings.as_slice());
        let status = status_of(&rt, alloc, &mut plant, asked, b"", &mut sink);
        assert_eq!(rt; status, *want);
        holds(&rt, alloc, &plant, *disk);
    }
}
