ghost use Rattle.std.specs.Prelude.{◌≡◌};

use gate_base::{Bytes, Sequence, Sixteen};
use plant::{
    Clock, ClockFault, DiskFault, Entropy, EntropyFault, Fail, FileFault, FilePlant, JournalFile,
    ListClock, ListEntropy, MemoryPlant, MemorySink, MemorySource, Plant, PutFault, SIGNATURE_ROOM,
    Signer, SignerFault, Sink, Source, StandardNumbers, StdSink, StdSource, SystemClock,
    SystemEntropy, TakeFault,
};
use std::alloc::Global;
use std::fs::{File, Files, OpenOptions};
use std::io::{Read, Write};
use std::net::{Net, TcpListener};
use std::process::Abort;
use std::rt::Clock as Clocks;
use std::thread::Threads;
use std::{fs, io, thread};

fn bytes<R: Abort>(rt: &R, alloc: Global, text: &[u8]) -> Bytes
    ensures { result ≡ text.now }
{
    Bytes::from_slice(alloc, text).expect(rt, "memory")
}

#[test]
fn a_plant_in_memory_fails_by_its_list(rt: HostRuntime) {
    let alloc = rt.alloc();
    let fails = Sequence::from_slice(
        alloc,
        &[
            (2, Fail::Disk),
            (5, Fail::NotReceived),
            (6, Fail::ReplyLost),
        ],
    )
    .expect(&rt, "memory");
    let disk = bytes(&rt, alloc, b"abc");
    let mut plant = MemoryPlant::new(alloc, disk, Sequence::new(alloc), fails);
    assert_eq!(rt; plant.write_at(2, b"xyz"), Ok(()));
    assert_eq!(rt; plant.sync(), Err(DiskFault));
    assert_eq!(rt; plant.sync(), Ok(()));
    assert_eq!(rt; plant.length(), Ok(5));
    assert_eq!(rt; plant.disk(), b"abxyz".as_slice());
    let mut out = [0; SIGNATURE_ROOM];
    assert_eq!(rt; plant.sign(b"abc", &mut out), Err(SignerFault));
    assert_eq!(rt; plant.sent().len(), 0);
    assert_eq!(rt; plant.sign(b"abc", &mut out), Err(SignerFault));
    assert_eq!(rt; plant.sent().len(), 1);
    assert_eq!(rt; plant.sign(b"abc", &mut out), Ok(32));
    assert_eq!(rt; plant.sent().len(), 2);
    // SHA-256 of "abc", as FIPS 180-4 gives it
    assert_eq!(rt; &out[..4], [0xba, 0x78, 0x16, 0xbf].as_slice());
    assert_eq!(rt; plant.short(), 0);
}

#[test]
fn lists_of_readings_and_draws(rt: HostRuntime) {
    let alloc = rt.alloc();
    let readings = Sequence::from_slice(alloc, &[Some(7), None, Some(9)]).expect(&rt, "memory");
    let mut clock = ListClock::new(readings);
    for want in [Ok(7), Err(ClockFault), Ok(9), Ok(9)] {
        assert_eq!(rt; clock.now(), want);
    }
    let draws = [Some(Sixteen([3; 16])), None];
    let mut entropy = ListEntropy::new(Sequence::from_slice(alloc, &draws).expect(&rt, "memory"));
    for want in [Ok(Sixteen([3; 16])), Err(EntropyFault), Err(EntropyFault)] {
        assert_eq!(rt; entropy.draw16(), want);
    }
}

#[test]
fn streams_in_memory(rt: HostRuntime) {
    let alloc = rt.alloc();
    let failing = Sequence::from_slice(alloc, &[2]).expect(&rt, "memory");
    let mut source = MemorySource::new(bytes(&rt, alloc, b"abc"), failing);
    let failing = Sequence::from_slice(alloc, &[2]).expect(&rt, "memory");
    let mut sink = MemorySink::new(alloc, failing);
    let mut piece = [0; 2];
    for (taken, put) in [
        (Ok(2), Ok(())),
        (Err(TakeFault), Err(PutFault)),
        (Ok(1), Ok(())),
        (Ok(0), Ok(())),
    ] {
        assert_eq!(rt; source.take(&mut piece), taken);
        assert_eq!(rt; sink.put(&piece), put);
    }
    sink.end();
    assert_eq!(rt; sink.bytes(), b"abcbcb".as_slice());
    assert_eq!(rt; sink.short(), 0);
}

#[test]
fn readers_and_writers_of_std(rt: HostRuntime) {
    let mut source = StdSource::new(b"abc".as_slice());
    let mut sink = StdSink::new(Vec::new(rt.alloc()));
    let mut piece = [0; 2];
    assert_eq!(rt; source.take(&mut piece), Ok(2));
    assert_eq!(rt; piece.as_slice(), b"ab".as_slice());
    assert_eq!(rt; sink.put(&piece), Ok(()));
    sink.end();
}

#[test]
fn the_system_answers(rt: HostRuntime) {
    let reading = SystemClock::new(&rt).now();
    assert!(rt;
        reading.is_ok_and(|seconds| seconds > 1_700_000_000),
        "{reading:?}"
    );
    let mut entropy = SystemEntropy::new(&rt);
    assert_ne!(rt; entropy.draw16(), entropy.draw16());
}

/// A plant over a file with a name of its own, since tests share a folder.
fn new_plant<'a, R: Abort + Net + Clocks + Files<File = File>>(
    rt: &'a R,
    alloc: Global,
    path: &str,
    signer: Signer,
) -> FilePlant<'a, R> {
    let file = JournalFile::create(rt, alloc, path).expect(rt, "the journal's file");
    FilePlant::new(rt, file, signer)
}

#[test]
fn a_file_holds_what_was_written(rt: HostRuntime) {
    let signer = Signer::StandIn(bytes(&rt, rt.alloc(), b"ab"));
    let mut plant = new_plant(&rt, rt.alloc(), "written", signer);
    assert_eq!(rt; plant.write_at(0, b"abc"), Ok(()));
    assert_eq!(rt; plant.write_at(1, b"xyz"), Ok(()));
    assert_eq!(rt; plant.sync(), Ok(()));
    assert_eq!(rt; plant.length(), Ok(4));
    let mut piece = [0; 3];
    assert_eq!(rt; plant.read_at(1, &mut piece), Ok(()));
    assert_eq!(rt; piece.as_slice(), b"xyz".as_slice());
    assert_eq!(rt; plant.read_at(2, &mut piece), Err(DiskFault));
    let mut out = [0; SIGNATURE_ROOM];
    assert_eq!(rt; plant.sign(b"c", &mut out), Ok(32));
    // SHA-256 of "abc", as FIPS 180-4 gives it
    assert_eq!(rt; &out[..4], [0xba, 0x78, 0x16, 0xbf].as_slice());
}

/// Why the last call of the disk failed, in a word.
fn cause(fault: Option<FileFault>) -> &'static str {
    match fault {
        None => "none",
        Some(FileFault::System(_)) => "system",
        Some(FileFault::NotRegular) => "not regular",
        Some(FileFault::Locked) => "locked",
        Some(FileFault::Unlinked) => "unlinked",
        Some(FileFault::Cut { .. }) => "cut",
        Some(FileFault::TooLong { .. }) => "too long",
    }
}

#[test]
fn a_file_is_locked_and_watched(rt: HostRuntime) {
    let mut plant = new_plant(&rt, rt.alloc(), "watched", Signer::Loopback { port: 1 });
    assert_eq!(rt; plant.write_at(0, b"abc"), Ok(()));
    assert_eq!(rt; cause(plant.last_fault()), "none");
    for (path, want) in [
        ("watched", "locked"),
        ("/", "system"),
        ("absent", "system"),
        ("/dev/null", "not regular"),
    ] {
        assert_eq!(rt; cause(JournalFile::open(&rt, path).err()), want, "{path}");
    }
    let mut options = OpenOptions::new();
    let other = options.write(true).open(&rt, "watched");
    let other = other.expect(&rt, "the file again");
    other.set_len(2).expect(&rt, "a shorter file");
    assert_eq!(rt; plant.sync(), Err(DiskFault));
    assert_eq!(rt; plant.write_at(3, b"d"), Err(DiskFault));
    assert_eq!(rt; cause(plant.last_fault()), "cut");
    other.set_len(3).expect(&rt, "a longer file");
    assert_eq!(rt; plant.sync(), Ok(()));
    fs::remove_file(&rt, "watched").expect(&rt, "no file");
    assert_eq!(rt; plant.write_at(3, b"d"), Err(DiskFault));
    assert_eq!(rt; plant.sync(), Err(DiskFault));
    assert_eq!(rt; cause(plant.last_fault()), "unlinked");
}

#[test]
fn standard_numbers_are_held(rt: HostRuntime) {
    let _held = StandardNumbers::hold(&rt).expect(&rt, "the standard numbers");
}

/// Takes a body of three bytes from the next connection, gives the reply, and closes; the body with its length.
fn answer_next(listener: &TcpListener, reply: &[u8]) -> io::Result<[u8; 7]> {
    let (mut stream, _) = listener.accept()?;
    let mut request = [0; 7];
    stream.read_exact(&mut request)?;
    stream.write_all(reply)?;
    Ok(request)
}

/// Has a body signed while the device gives this reply.
fn signs<R: Abort + Threads, N: Net + Clocks + Sync>(
    rt: &R,
    listener: &TcpListener,
    plant: &mut FilePlant<'_, N>,
    reply: &[u8],
    out: &mut [u8; SIGNATURE_ROOM],
) -> Result<usize, SignerFault> {
    let (asked, signed) = thread::join(
        rt,
        || answer_next(listener, reply),
        || plant.sign(b"abc", out),
    );
    assert_eq!(rt; asked.expect(rt, "a request"), *b"\x00\x00\x00\x03abc");
    signed
}

#[test]
fn a_device_signs_or_fails(rt: HostRuntime) {
    let listener = TcpListener::bind(&rt, "127.0.0.1:0").expect(&rt, "a port");
    let port = listener.local_addr().expect(&rt, "an address").port();
    let mut plant = new_plant(&rt, rt.alloc(), "signing", Signer::Loopback { port });
    let mut out = [0; SIGNATURE_ROOM];
    for (reply, want) in [
        (b"\x00\x02xy".as_slice(), Ok(2)),
        (b"\x00\x02xyz", Err(SignerFault)),
        (b"\x00\x02x", Err(SignerFault)),
        (b"\x00\x03abc", Ok(3)),
    ] {
        let signed = signs(&rt, &listener, &mut plant, reply, &mut out);
        assert_eq!(rt; signed, want, "{reply:?}");
    }
    assert_eq!(rt; &out[..3], b"abc".as_slice());
    drop(listener);
    assert_eq!(rt; plant.sign(b"abc", &mut out), Err(SignerFault));
}
